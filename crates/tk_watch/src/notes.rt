//! What places had come to at some of the last lines.
ghost use Rattle.std.specs.Prelude.{◌≡◌, ◌++◌, ◌∷◌, [], None, List, IfOk, OnOk, map};
ghost use Rattle.std.specs.Option.{option_map};
ghost use Rattle.tk_client.specs.Warnings.{LintsView};
ghost use Rattle.tk_frame.specs.Places.{recent_of as view_of, recent_since, row_of};
ghost use Rattle.tk_odd.specs.Inner.{Follows};
ghost use Rattle.tk_sites.specs.Inner.{Follows as FollowsSites};
ghost use Rattle.tk_stream.specs.Tables.{TablesView};
ghost use Rattle.tk_watch.specs.Course.{Keeps};
ghost use Rattle.tk_watch.specs.Lasts.{last_of};
ghost use Rattle.tk_watch.specs.Recent as spec;

use crate::last::push_last;
use std::alloc::{AllocError, Global};
use tk_frame::{Earlier, Place, Recent, recent_of};
use tk_odd::Diagnosis;
use tk_sites::Sites;
use tk_stream::Tables;

// How much later than a note the next is made, at least, in nanoseconds: 100 ms.
const STEP: u64 = 100_000_000;
// How many notes are kept.
const ROOM: usize = 64;
// How long the last while is, at least: 5 s.
const WHILE: u64 = 5_000_000_000;

/// What places had come to at some of the last lines.
#[derive(Drop)]
pub(crate) struct Notes {
    // The moment of the last note.
    last: Option<u64>,
    // The moment of the first line since the service was started again, if it was.
    again: Option<u64>,
    list: Vec<Earlier>,
}

fn is_due(last: Option<u64>, now: u64) -> bool
    ensures { result ≡ spec.is_due last now }
{
    match last {
        Some(last) => now < last || STEP <= now.saturating_sub(last),
        None => true,
    }
}

fn has_fallen(last: Option<u64>, now: u64) -> bool
    ensures { result ≡ spec.has_fallen last now }
{
    match last {
        Some(last) => now < last,
        None => false,
    }
}

// What places have come to at the last line.
fn earlier_of(sites: &Sites, diagnosis: &Diagnosis, tables: &Tables) -> Result<Earlier, AllocError>
    ensures { (lints : LintsView) (shown : List TablesView) → diagnosis.now.limits ≡ spec.limits_of lints → Follows shown diagnosis.now → FollowsSites shown sites.now
        → IfOk result (λ earlier. earlier ≡ spec.earlier_of lints shown tables.now) }
{
    let moment = tables.now();
    let sites = sites.sums_until(tables)?;
    let held = diagnosis.held().copy()?;
    Ok(Earlier {
        moment,
        sites,
        held,
    })
}

fn is_old(now: u64, earlier: &Earlier) -> bool
    ensures { result ≡ spec.is_old now earlier.now }
{
    WHILE <= now.saturating_sub(earlier.moment)
}

// The last that is 5 s old or more.
fn last_old(now: u64, notes: &[Earlier]) -> Option<&Earlier>
    ensures { option_map (λ earlier. earlier.now) result ≡ spec.last_old now notes.now }
{
    let [first, rest @ ..] = notes else {
        return None;
    };
    match last_old(now, rest) {
        Some(later) => Some(later),
        None => if is_old(now, first) {
            Some(first)
        } else {
            None
        },
    }
}

impl Notes {
    pub fn new(alloc: Global) -> Notes
        ensures { Keeps spec.nothing result }
    {
        Notes {
            last: None,
            again: None,
            list: Vec::new(alloc),
        }
    }

    // Forgets what was noted of a service that was started again.
    fn forget(&mut self, now: u64)
        ensures list { (noted : spec.Noted) → self.old.list.items ≡ last_of 64 noted.notes
            → self.new.list.items ≡ last_of 64 (spec.still self.old.last now noted.notes) }
        ensures again { self.new.again ≡ spec.again_at self.old.last now self.old.again }
        ensures last { self.new.last ≡ self.old.last }
    {
        if has_fallen(self.last, now) {
            self.again = Some(now);
            self.list.clear();
        }
    }

    /// Takes the tables after a line, which these have seen.
    pub fn note(
        &mut self,
        sites: &Sites,
        diagnosis: &Diagnosis,
        tables: &Tables,
    ) -> Result<(), AllocError>
        ensures { (lints : LintsView) (noted : spec.Noted) → diagnosis.now.limits ≡ spec.limits_of lints
            → Follows (noted.came ++ tables.now ∷ []) diagnosis.now → FollowsSites (noted.came ++ tables.now ∷ []) sites.now
            → Keeps noted self.old → OnOk result (Keeps (spec.with_line lints noted tables.now) self.new) }
    {
        let now = tables.now();
        if !is_due(self.last, now) {
            return Ok(());
        }
        let earlier = earlier_of(sites, diagnosis, tables)?;
        self.forget(now);
        push_last(&mut self.list, ROOM, earlier)?;
        self.last = Some(now);
        Ok(())
    }

    /// The moment of the first line since the service was started again, if it was.
    pub fn again(&self) -> Option<u64>
        ensures { result ≡ self.now.again }
    {
        self.again
    }

    /// What these places came to in the last 5 s or more, up to a moment, where something was noted so early.
    pub fn recent(
        &self,
        alloc: Global,
        now: u64,
        places: &[Place],
    ) -> Result<Option<Recent>, AllocError>
        ensures { IfOk result (λ recent. option_map view_of recent
            ≡ option_map (λ e. recent_since e now (map row_of places.now)) (spec.last_old now self.now.list.items)) }
    {
        match last_old(now, self.list.as_slice()) {
            Some(earlier) => {
                let recent = recent_of(alloc, earlier, now, places)?;
                Ok(Some(recent))
            }
            None => Ok(None),
        }
    }
}
