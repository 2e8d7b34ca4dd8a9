//! The lines of a block of threads that is open.
ghost use Rattle.std.specs.Prelude.{◌≡◌, ◌⊎◌, ◌++◌, ◌∷◌, [], None, Some, OnOk, IfErr};
ghost use Rattle.tk_live.specs.Stops.{work_stop};
ghost use Rattle.tk_live.specs.Items.{woken_by};
ghost use Rattle.tk_script.specs.declared.stop.Stop.TheVariants as stops;

use crate::items::WakerItem;
use crate::seats::live_waker;
use crate::worker_lines::WorkerLines;
use std::alloc::Global;
use tk_script::{Stop, Worker, WorkerLine};

// One line more of a worker, beside the lines of the other.
fn push_line(
    own: &mut WorkerLines,
    others: &WorkerLines,
    wakers: &Vec<Option<WakerItem>>,
    line: WorkerLine,
) -> Result<(), Stop>
    ensures ok { OnOk result ((work_stop own.old others.now (woken_by wakers.now.items) line ≡ None) × (own.new ≡ own.old ++ line ∷ [])) }
    ensures err { IfErr result (λ stop. (work_stop own.old others.now (woken_by wakers.now.items) line ≡ Some stop) ⊎ (stop ≡ stops.Memory)) }
{
    if others.names(line.waker) {
        return Err(Stop::BadCommand);
    }
    if own.spends(line.waker) || live_waker(wakers, line.waker).is_none() {
        return Err(Stop::NoSuchItem);
    }
    match own.push(line) {
        Ok(()) => Ok(()),
        Err(_) => Err(Stop::Memory),
    }
}

/// The lines of a block that is open: those of each worker, in order.
#[derive(Drop)]
pub(crate) struct OpenBlock {
    pub(crate) first: WorkerLines,
    pub(crate) second: WorkerLines,
}

impl OpenBlock {
    ghost use Rattle.std.specs.Prelude.{◌≡◌, ◌⊎◌, None, Some, OnOk, IfErr};
    ghost use Rattle.tk_live.specs.Blocks as blocks;
    ghost use Rattle.tk_live.specs.Runs.{block_of};
    ghost use Rattle.tk_live.specs.Stops.{work_stop};
    ghost use Rattle.tk_live.specs.Items.{woken_by};
    ghost use Rattle.tk_script.specs.declared.stop.Stop.TheVariants as stops;

    pub(crate) fn new(alloc: Global) -> OpenBlock
        ensures { block_of result ≡ blocks.no_lines }
    {
        OpenBlock {
            first: WorkerLines::new(alloc),
            second: WorkerLines::new(alloc),
        }
    }

    /// One line more of a worker, where these wakers are there before the block.
    pub(crate) fn add(
        &mut self,
        wakers: &Vec<Option<WakerItem>>,
        worker: Worker,
        line: WorkerLine,
    ) -> Result<(), Stop>
        ensures goes { OnOk result (work_stop (blocks.lines_of_worker worker (block_of self.old)) (blocks.lines_of_other worker (block_of self.old)) (woken_by wakers.now.items) line ≡ None) }
        ensures more { OnOk result (block_of self.new ≡ blocks.with_line worker line (block_of self.old)) }
        ensures err { IfErr result (λ stop. (work_stop (blocks.lines_of_worker worker (block_of self.old)) (blocks.lines_of_other worker (block_of self.old)) (woken_by wakers.now.items) line ≡ Some stop) ⊎ (stop ≡ stops.Memory)) }
    {
        match worker {
            Worker::One => push_line(&mut self.first, &self.second, wakers, line),
            Worker::Two => push_line(&mut self.second, &self.first, wakers, line),
        }
    }
}
