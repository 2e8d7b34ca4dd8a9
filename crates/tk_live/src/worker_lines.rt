//! The lines of a worker of a block, with what they say of each waker at hand.
ghost use Rattle.std.specs.Prelude.{◌≡◌};
ghost use Rattle.tk_live.specs.Blocks as blocks;

use std::alloc::{AllocError, Global};
use std::collections::HashMap;
use std::marker::Model;
use tk_script::{WakerCall, WorkerLine};

fn is_last(call: WakerCall) -> bool
    ensures { result ≡ blocks.is_last call }
{
    match call {
        WakerCall::WakeRef(_) => false,
        WakerCall::Wake(_) | WakerCall::Release => true,
    }
}

/// The lines of a worker, in order. What they say of a waker is looked up, not searched for.
#[derive(Drop)]
pub(crate) struct WorkerLines {
    lines: Vec<WorkerLine>,
    // Each waker that they name, and whether they have its last call.
    spent: HashMap<u64, bool>,
}

impl Model for WorkerLines {
    ghost use Rattle.std.specs.Prelude.{List};
    ghost use Rattle.tk_live.specs.Threads.{AreMarked, LastsAreLast};
    ghost use Rattle.tk_script.specs.declared.block.WorkerLine.{WorkerLine};

    ghost Value = { List WorkerLine };

    ghost view = { λ w. w.lines.items };

    ghost invariant = { λ w. AreMarked w.lines.items w.spent × LastsAreLast w.lines.items };
}

impl WorkerLines {
    ghost use Rattle.std.specs.Prelude.{◌≡◌, ◌++◌, ◌∷◌, [], false, OnOk, OnErr};
    ghost use Rattle.tk_live.specs.Blocks as blocks;
    ghost use Rattle.tk_live.specs.Threads.{LastsAreLast};

    pub(crate) fn new(alloc: Global) -> WorkerLines
        ensures { result ≡ [] }
    {
        WorkerLines {
            lines: Vec::new(alloc),
            spent: HashMap::new(alloc),
        }
    }

    pub(crate) fn as_slice(&self) -> &[WorkerLine]
        ensures lines { result.now ≡ self.now }
        ensures lasts { LastsAreLast self.now }
    {
        self.lines.as_slice()
    }

    /// Whether lines name a waker.
    pub(crate) fn names(&self, waker: u64) -> bool
        ensures { result ≡ blocks.is_named waker self.now }
    {
        self.spent.contains_key(&waker)
    }

    /// Whether lines have the last call of a waker.
    pub(crate) fn spends(&self, waker: u64) -> bool
        ensures { result ≡ blocks.spends waker self.now }
    {
        match self.spent.get(&waker) {
            Some(spent) => *spent,
            None => false,
        }
    }

    /// One line more, whose waker's last call no line has.
    pub(crate) fn push(&mut self, line: WorkerLine) -> Result<(), AllocError>
        requires { blocks.spends line.waker self.old ≡ false }
        ensures ok { OnOk result (self.new ≡ self.old ++ line ∷ []) }
        ensures err { OnErr result (self.new ≡ self.old) }
    {
        self.lines.reserve(1)?;
        match self.spent.insert(line.waker, is_last(line.call)) {
            Ok(_) => {
                self.lines.push_reserved(line);
                Ok(())
            }
            Err(_) => Err(AllocError),
        }
    }
}
