//! What is told of what is odd.
ghost use Rattle.std.specs.Prelude.{◌≡◌, length, map, option_map, slice_get};
ghost use Rattle.tk_odd.specs.Findings.{placed, told};
ghost use Rattle.tk_frame.specs.Keys.{finding_task};
ghost use Rattle.tk_frame.specs.Places.{recent_of, row_of};
ghost use Rattle.tk_frame.specs.Queries.{places_by, recent_places, recent_time};

use crate::places::{Figures, Place};
use crate::recent::Recent;
use std::marker::Model;
use tk_ids::TaskId;
use tk_odd::Found;

/// What is told of what is odd about a stream's tasks. Times are nanoseconds.
#[derive(Drop)]
pub struct Odd {
    findings: Vec<Found>,
    places: Vec<Place>,
    recent: Option<Recent>,
    waits: Vec<u64>,
    again: Option<u64>,
    span: Option<u64>,
    long: u64,
}

impl Model for Odd {
    ghost use Rattle.std.specs.Prelude.{map, option_map};
    ghost use Rattle.tk_odd.specs.Findings.{placed, told};
    ghost use Rattle.tk_frame.specs.Findings.{OddView};
    ghost use Rattle.tk_frame.specs.Places.{recent_of, row_of};

    ghost Value = { OddView };

    ghost view = { λ odd. record {
      findings = map placed odd.findings.items;
      told = map told odd.findings.items;
      places = map row_of odd.places.items;
      recent = option_map recent_of odd.recent;
      waits = odd.waits.items;
      again = odd.again;
      span = odd.span;
      long = odd.long;
    } };
}

impl Odd {
    /// Findings, worst first, each with who waited longest for it; the places, as `places_of` orders them; what these came to in the last while, where lines reach back so far; how many
    /// tasks waited at each of the last lines, the last one last; the moment of the first line since the service was started again, if it was; how long the time is from the first line to the last, where one came; and from when on a poll is a long one.
    pub fn new(
        findings: Vec<Found>,
        places: Vec<Place>,
        recent: Option<Recent>,
        waits: Vec<u64>,
        again: Option<u64>,
        span: Option<u64>,
        long: u64,
    ) -> Odd
        ensures { result ≡ record {
          findings = map placed findings.items;
          told = map told findings.items;
          places = map row_of places.items;
          recent = option_map recent_of recent;
          waits = waits.items;
          again = again;
          span = span;
          long = long;
        } }
    {
        Odd {
            findings,
            places,
            recent,
            waits,
            again,
            span,
            long,
        }
    }

    /// The findings, worst first.
    pub fn findings(&self) -> &[Found]
        ensures found { map placed result.now ≡ self.now.findings }
        ensures whom { map told result.now ≡ self.now.told }
    {
        self.findings.as_slice()
    }

    /// The task that the finding at a number names, from 1 on.
    pub(crate) fn task_at(&self, number: usize) -> Option<TaskId>
        ensures { result ≡ finding_task self.now number }
    {
        match self.findings.as_slice().get(number.saturating_sub(1)) {
            Some(found) => found.finding.task,
            None => None,
        }
    }

    /// How many findings there are.
    pub fn count(&self) -> usize
        ensures { result ≡ length self.now.findings }
    {
        self.findings.len()
    }

    // The places, with what they came to in the last while.
    fn recent_places(&self) -> &[Place]
        ensures { map row_of result.now ≡ recent_places self.now }
    {
        match &self.recent {
            Some(recent) => recent.places.as_slice(),
            None => self.places.as_slice(),
        }
    }

    fn places(&self, recent: bool) -> &[Place]
        ensures { map row_of result.now ≡ places_by recent self.now }
    {
        if recent {
            self.recent_places()
        } else {
            self.places.as_slice()
        }
    }

    /// How many places there are, with what they came to in the last while or in all.
    pub fn place_count(&self, recent: bool) -> usize
        ensures { result ≡ length (places_by recent self.now) }
    {
        self.places(recent).len()
    }

    /// The text and the figures of the place that stands at an index of these, from 0 on.
    pub fn place_at(&self, recent: bool, i: usize) -> Option<(&[u8], Figures)>
        ensures { option_map (λ p. (p.0.now, p.1)) result ≡ slice_get (places_by recent self.now) i }
    {
        let Place { site, figures } = self.places(recent).get(i)?;
        Some((site.as_slice(), *figures))
    }

    /// How long the last while is of which is told what places came to; `None` where lines don't reach back so far.
    pub fn recent_time(&self) -> Option<u64>
        ensures { result ≡ recent_time self.now }
    {
        match &self.recent {
            Some(recent) => Some(recent.time),
            None => None,
        }
    }

    /// How many tasks waited at each of the last lines, the last one last.
    pub fn waits(&self) -> &[u64]
        ensures { result.now ≡ self.now.waits }
    {
        self.waits.as_slice()
    }

    /// The moment of the first line since the service was started again; `None` if it was not.
    pub fn again(&self) -> Option<u64>
        ensures { result ≡ self.now.again }
    {
        self.again
    }

    /// How long the time is from the first line to the last; `None` where no line came.
    pub fn span(&self) -> Option<u64>
        ensures { result ≡ self.now.span }
    {
        self.span
    }

    /// From when on a poll is a long one.
    pub fn long(&self) -> u64
        ensures { result ≡ self.now.long }
    {
        self.long
    }
}
