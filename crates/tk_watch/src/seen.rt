//! What a watch keeps of the lines that came.
ghost use Rattle.std.specs.Prelude.{◌≡◌, [], IfOk, List, map};
ghost use Rattle.tk_client.specs.Warnings.{LintsView};
ghost use Rattle.tk_reading.specs.Taken.{first};
ghost use Rattle.tk_stream.specs.Tables.{TablesView};
ghost use Rattle.tk_watch.specs.Course as spec;
ghost use Rattle.tk_frame.specs.Places.{row_of};
ghost use Rattle.tk_watch.specs.Odd.{odd_after, places_after};

use crate::notes::Notes;
use crate::waits::note_waits;
use std::alloc::{AllocError, Global};
use tk_client::{Change, Client, Lints, Times};
use tk_frame::{Odd, Place, places_of};
use tk_odd::{Diagnosis, Limits};
use tk_reading::{MAX_LINE, Observes};
use tk_sites::Sites;
use tk_stream::Tables;

// How long a poll is that is a long one, in nanoseconds: 100 ms.
const LONG_POLL: u64 = 100_000_000;

/// What was seen of the lines of a stream.
#[derive(Drop)]
pub(crate) struct Seen {
    // The moment of the first line, where one came.
    first: Option<u64>,
    diagnosis: Diagnosis,
    sites: Sites,
    notes: Notes,
    // How many tasks waited at each of the last lines, the last one last.
    waits: Vec<u64>,
}

impl Seen {
    /// Of no lines yet, by these lints.
    pub fn new(alloc: Global, lints: Lints) -> Result<Seen, AllocError>
        ensures { IfOk result (λ seen. spec.Sees lints [] seen) }
    {
        let limits = Limits {
            long: LONG_POLL,
            lints,
        };
        let diagnosis = Diagnosis::new(alloc, limits)?;
        Ok(Seen {
            first: None,
            diagnosis,
            sites: Sites::new(alloc),
            notes: Notes::new(alloc),
            waits: Vec::new(alloc),
        })
    }

    // How long the time is from the first line to a moment.
    fn span_to(&self, now: u64) -> Option<u64>
        ensures { result ≡ spec.span_to now self.now.first }
    {
        match self.first {
            Some(from) => Some(now.saturating_sub(from)),
            None => None,
        }
    }

    // The places of the tables of the last line, in their order.
    fn places(&self, alloc: Global, tables: &Tables) -> Result<Vec<Place>, AllocError>
        ensures { (lints : LintsView) (shown : List TablesView) → spec.Sees lints shown self.now
            → IfOk result (λ places. map row_of places.items ≡ places_after lints shown tables.now) }
    {
        let sites = self.sites.sums_until(tables)?;
        let places = places_of(alloc, &sites, self.diagnosis.held())?;
        Ok(places)
    }

    /// What is odd about the tables of the last line, with who waited longest for it, and their places, with what these came to in the last while.
    pub fn odd(&self, alloc: Global, tables: &Tables) -> Result<Odd, AllocError>
        ensures { (lints : LintsView) (shown : List TablesView) → spec.Sees lints shown self.now
            → IfOk result (λ odd. odd ≡ odd_after lints shown tables.now) }
    {
        let now = tables.now();
        let span = self.span_to(now);
        let findings = self.diagnosis.findings_with_victims(alloc, tables)?;
        let places = self.places(alloc, tables)?;
        let recent = self.notes.recent(alloc, now, places.as_slice())?;
        let waits = Vec::from_slice(alloc, self.waits.as_slice())?;
        let again = self.notes.again();
        Ok(Odd::new(findings, places, recent, waits, again, span, LONG_POLL))
    }

    // Keeps the moment of the first line.
    fn mark(&mut self, now: u64)
        ensures first { self.new.first ≡ spec.first_or self.old.first now }
        ensures diagnosis { self.new.diagnosis ≡ self.old.diagnosis }
        ensures sites { self.new.sites ≡ self.old.sites }
        ensures notes { self.new.notes ≡ self.old.notes }
        ensures waits { self.new.waits.items ≡ self.old.waits.items }
    {
        if self.first.is_none() {
            self.first = Some(now);
        }
    }
}

impl Observes for Seen {
    ghost use Rattle.tk_reading.specs.Shown.{tables_of};
    ghost use Rattle.tk_watch.specs.Course.{Sees};

    ghost saw = { λ from lines seen. Sees from.diagnosis.limits.lints (tables_of lines) seen };

    fn line(&mut self, tables: &Tables, _times: &Times, change: &Change) -> Result<(), AllocError> {
        self.mark(tables.now());
        note_waits(&mut self.waits, tables)?;
        self.diagnosis.note(tables, change)?;
        self.sites.note(tables, change)?;
        self.notes.note(&self.sites, &self.diagnosis, tables)
    }
}

/// A client of a stream, and what was seen of its lines.
#[derive(Drop)]
pub(crate) struct Course {
    pub client: Client,
    pub seen: Seen,
}

impl Course {
    /// Of no bytes yet, by these lints.
    pub fn new(alloc: Global, lints: Lints) -> Result<Course, AllocError>
        ensures { IfOk result (λ course. spec.IsNew lints course) }
    {
        let Ok(client) = Client::new(alloc, MAX_LINE) else {
            return Err(AllocError);
        };
        match Seen::new(alloc, lints) {
            Ok(seen) => Ok(Course { client, seen }),
            Err(error) => Err(error),
        }
    }

    /// The tables of its last line.
    pub fn tables(&self) -> &Tables
        ensures { result.now ≡ self.now.client.start.tables }
    {
        self.client.tables()
    }

    /// The histograms beside them.
    pub fn times(&self) -> &Times
        ensures { result.now ≡ self.now.client.start.times }
    {
        self.client.times()
    }

    /// What is odd about them.
    pub fn odd(&self, alloc: Global) -> Result<Odd, AllocError>
        ensures { (lints : LintsView) (shown : List TablesView) → spec.Sees lints shown self.now.seen
            → IfOk result (λ odd. odd ≡ odd_after lints shown self.now.client.start.tables) }
    {
        self.seen.odd(alloc, self.client.tables())
    }
}
