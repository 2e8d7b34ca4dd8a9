//! What only some versions of a line's format say.
ghost use Rattle.std.specs.Prelude.{◌≡◌, option_map, IfSome};
ghost use Rattle.tk_stream.specs.Ranges.{AreTimes};
ghost use Rattle.tk_stream.specs.Spelled as spelled;
ghost use Rattle.std.specs.List.{AllByRecursion};

use crate::line::gone::{Gone, gone_with};
use crate::tables::ranged::see_all;
use crate::tables::times::PollTimes;
use crate::text::read_json::listed::Listed;
use crate::text::read_json::numbers::Version;
use std::marker::Model;
use tk_ids::{AsyncOpId, ResourceId, TaskId};

/// What is gone, from version 2 on, and histograms of poll times, from version 3 on.
#[derive(Debug, Drop)]
pub(crate) struct Said {
    pub(crate) gone: Option<Gone>,
    pub(crate) times: Option<Vec<(TaskId, PollTimes)>>,
}

impl Model for Said {
    ghost use Rattle.std.specs.Prelude.{option_map};
    ghost use Rattle.tk_stream.specs.Reading.{SaidView};

    ghost Value = { SaidView };

    ghost view = { λ s. record { gone = s.gone; times = option_map (λ v. v.items) s.times } };
}

/// What a line of the version says of these, where the lists are there that it has.
pub(crate) fn said_with(
    version: Version,
    ops: Listed<AsyncOpId>,
    resources: Listed<ResourceId>,
    tasks: Listed<TaskId>,
    times: Listed<(TaskId, PollTimes)>,
) -> Option<Said>
    ensures { result ≡ spelled.said_with version (option_map (λ v. v.items) ops) (option_map (λ v. v.items) resources) (option_map (λ v. v.items) tasks) (option_map (λ v. v.items) times) }
{
    match version {
        Version::One => Some(Said {
            gone: None,
            times: None,
        }),
        Version::Two => Some(Said {
            gone: Some(gone_with(ops, resources, tasks)?),
            times: None,
        }),
        Version::Three => Some(Said {
            gone: Some(gone_with(ops, resources, tasks)?),
            times: Some(times?),
        }),
    }
}

/// The histograms that a line tells, where it tells some, are in their ranges.
pub(crate) fn see_times(times: &Option<Vec<(TaskId, PollTimes)>>)
    ensures { IfSome (option_map (λ v. v.items) times.now) (AllByRecursion AreTimes) }
{
    match times {
        Some(times) => see_all(times),
        None => {}
    }
}
