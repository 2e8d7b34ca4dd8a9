//! The histograms of a stream's tasks by place, line by line.
ghost use Rattle.std.specs.Prelude.{◌≡◌, ◌++◌, ◌∷◌, [], List, OnOk};
ghost use Rattle.tk_stream.specs.Times.{TaskTimes};
ghost use Rattle.tk_client.specs.Changes.{IsChange, Timed, untimed as unread};
ghost use Rattle.tk_reading.specs.Shown.{last_timed};
ghost use Rattle.tk_series.specs.Limited.{limited};
ghost use Rattle.tk_sites.specs.Site.{room};
ghost use Rattle.tk_sites.specs.TimedSites.{timed_changes_since};
ghost use Rattle.tk_sites.specs.Times.{plus_times};

use crate::adding::add_came;
use crate::sites::ROOM;
use crate::times::{SiteTimes, untold};
use crate::timing::{add_left_times, add_there_times};
use std::alloc::{AllocError, Global};
use tk_client::{Change, Times};
use tk_reading::Observes;
use tk_series::Limited;
use tk_stream::Tables;

// Takes the tables after a line, which changed this in those before it.
fn note(
    changes: &mut Limited<SiteTimes>,
    alloc: Global,
    tables: &Tables,
    change: &Change,
) -> Result<(), AllocError>
    ensures { (seen : List Timed) (times : List TaskTimes) → IsChange (last_timed unread seen) (tables.now, times) change.now
        → changes.old ≡ limited room plus_times (timed_changes_since unread seen)
        → OnOk result (changes.new ≡ limited room plus_times (timed_changes_since unread (seen ++ (tables.now, times) ∷ []))) }
{
    // Whoever counts tables' tasks learns that none stands twice.
    tables.task_count();
    let none = untold();
    add_came(changes, alloc, tables, change.came(), none)?;
    add_left_times(changes, alloc, change.left())?;
    Ok(())
}

/// The histograms of a stream's tasks that left so far, by place, if they are shown.
#[derive(Drop)]
pub struct TimedSites {
    alloc: Global,
    changes: Option<Limited<SiteTimes>>,
}

impl TimedSites {
    ghost use Rattle.std.specs.Prelude.{◌≡◌, [], Bool, List, IfOk};
    ghost use Rattle.tk_client.specs.Changes.{Timed};
    ghost use Rattle.tk_sites.specs.Inner.{FollowsTimes};
    ghost use Rattle.tk_sites.specs.TimedSites.{shown_times};

    /// Of no lines yet. What isn't shown isn't added up, and costs nothing.
    pub fn new(alloc: Global, shown: bool) -> TimedSites
        ensures { FollowsTimes shown [] result }
    {
        let changes = if shown {
            Some(Limited::new(alloc, ROOM))
        } else {
            None
        };
        TimedSites { alloc, changes }
    }

    /// The histograms of places after the last line, which has led to these tables and histograms, if they are shown. They stand as the sums of
    /// places do, each at the same place. `AllocError`: there was no memory, and what watches the lines is as it was.
    pub fn times(
        &self,
        tables: &Tables,
        times: &Times,
    ) -> Result<Option<Limited<SiteTimes>>, AllocError>
        ensures { (shown : Bool) (seen : List Timed) → FollowsTimes shown seen self.now
            → IfOk result (λ sites. sites ≡ shown_times shown seen tables.now times.now) }
    {
        let Some(changes) = &self.changes else {
            return Ok(None);
        };
        let mut sites = changes.copy()?;
        add_there_times(&mut sites, self.alloc, tables, times)?;
        Ok(Some(sites))
    }
}

impl Observes for TimedSites {
    ghost use Rattle.std.specs.Prelude.{is_some};
    ghost use Rattle.tk_sites.specs.Inner.{FollowsTimes};

    ghost saw = { λ from seen it. FollowsTimes (is_some from.changes) seen it };

    fn line(&mut self, tables: &Tables, _times: &Times, change: &Change) -> Result<(), AllocError> {
        match &mut self.changes {
            Some(changes) => note(changes, self.alloc, tables, change),
            None => Ok(()),
        }
    }
}
