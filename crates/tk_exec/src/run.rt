//! Inner: an executor with room for the outputs of all its tasks.
ghost use Rattle.std.specs.Prelude.{◌≡◌, IfOk, IfErr};
ghost use Rattle.tk_exec.specs.declared.error.ExecError.TheVariants.{Memory};
ghost use Rattle.tk_exec.specs.Seats.{unfinished, outputs_of};
ghost use Rattle.tk_exec.specs.Turns.{TurnDoes};

use crate::error::ExecError;
use crate::executor::{Executor, Turn};
use crate::outputs::Outputs;
use crate::work::{Clock, Work};
use std::alloc::Global;
use std::marker::Model;
use std::sync::Wait;

/// An executor, and the list that its outputs will stand in.
#[derive(Drop)]
pub struct Run<W: Work> {
    executor: Executor<W>,
    outputs: Vec<W::Out>,
}

impl<W: Work> Model for Run<W> {
    ghost use Rattle.std.specs.Prelude.{◌≡◌, ◌≤◌, length, []};
    ghost use Rattle.std.specs.Vec.{vec_capacity};
    ghost use Rattle.tk_exec.specs.Seats.{Tasks};

    ghost Value = { Tasks W W.Out };

    ghost view = { λ r. r.executor };

    ghost invariant = { λ r. (r.outputs.items ≡ []) × (length r.executor.seats ≤ vec_capacity r.outputs) };
}

impl<W: Work> Run<W> {
    /// Makes the room. Refused with `Memory`: the executor is then handed back.
    pub fn new(alloc: Global, executor: Executor<W>) -> Result<Run<W>, (ExecError, Executor<W>)>
        ensures ok { IfOk result (λ run. run ≡ executor) }
        ensures memory { IfErr result (λ back. (back.0 ≡ Memory) × (back.1 ≡ executor)) }
    {
        match Vec::with_capacity(alloc, executor.len()) {
            Ok(outputs) => Ok(Run { executor, outputs }),
            Err(_) => Err((ExecError::Memory, executor)),
        }
    }

    /// How many tasks are not finished.
    pub fn unfinished(&self) -> usize
        ensures { result ≡ unfinished self.now.seats }
    {
        self.executor.unfinished()
    }

    /// Makes one turn.
    pub fn turn<R: Wait, C: Clock>(&mut self, rt: &R, clock: &mut C) -> Turn
        ensures { TurnDoes C.reads W.polls W.gives self.old result self.new clock.old clock.new }
    {
        self.executor.turn(rt, clock)
    }

    /// The outputs of the finished tasks, in order of spawn.
    pub fn into_outputs(self) -> Outputs<W::Out>
        ensures { result ≡ outputs_of self.seats }
    {
        Outputs::new(self.executor.into_outputs(self.outputs))
    }
}
