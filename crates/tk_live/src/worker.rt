//! What a thread of a block does.
ghost use Rattle.std.specs.Prelude.{◌<◌, ◌++◌, ◌∷◌, [], List, Option, length, true, false, IfSome, IfNone};
ghost use Rattle.tk_live.specs.Handed.{RanAll};
ghost use Rattle.tk_live.specs.declared.handed.Handed.{Handed as Waker};
ghost use Rattle.tk_script.specs.declared.block.WorkerLine.{WorkerLine as Line};

use crate::gate::Gate;
use crate::handed::{HandedWakers, make_call};
use crate::seats::{put_seat, take_seat};
use std::sync::Wait;
use tk_script::WorkerLine;

// The waker that a line names makes its call.
fn run_line<R: Wait>(rt: &R, wakers: &mut HandedWakers, line: WorkerLine)
    ensures { (first : List (Option Waker)) (ls : List Line) → RanAll ls first wakers.old.items → RanAll (ls ++ line ∷ []) first wakers.new.items }
{
    if let Some(waker) = take_seat(wakers, line.waker) {
        let called = make_call(rt, waker, line.call);
        put_seat(wakers, line.waker, called);
    }
}

/// Runs the lines of worker `k` in order, and asks the gate before each of them. It answers the wakers after them, or nothing
/// where the gate stopped it.
pub(crate) fn work<R: Wait, G: Gate>(
    rt: &R,
    gate: &G,
    k: u64,
    wakers: HandedWakers,
    lines: &[WorkerLine],
) -> Option<HandedWakers>
    ensures asked { IfSome result (λ after. 0 < length lines.now → G.answers gate.now k true) }
    ensures made { IfSome result (λ after. RanAll lines.now wakers.items after.items) }
    ensures stopped { IfNone result ((0 < length lines.now) × G.answers gate.now k false) }
{
    let mut wakers = wakers;
    for i in 0..lines.len() {
        if !gate.pass(k) {
            return None;
        }
        run_line(rt, &mut wakers, lines[i]);
    }
    Some(wakers)
}
