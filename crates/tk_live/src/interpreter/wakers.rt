//! Wakers, and their calls.

use super::Interpreter;
use crate::block::OpenBlock;
use crate::gate::Gate;
use crate::items::WakerItem;
use crate::join::run_block;
use crate::seats::{live_waker, open_task, spend_waker};
use std::alloc::Global;
use std::sync::Wait;
use std::thread::Threads;
use tk_script::Stop;

impl Interpreter {
    ghost use Rattle.std.specs.Prelude.{◌<◌, ℕ, List, Bool, length, OnOk, IfErr};
    ghost use Rattle.tk_stream.specs.Streams.{Sending};
    ghost use Rattle.tk_script.specs.Commands as said;
    ghost use Rattle.tk_live.specs.Course.{Course, joined};
    ghost use Rattle.tk_live.specs.Runs.{SilentSpec, DrawsWaker, MayDraw, RepresentsSome, Represents, block_of};
    ghost use Rattle.tk_script.specs.declared.settings.Settings.{Settings};
    ghost use Rattle.tk_live.specs.Stops.{GateStops, JoinStop};
    ghost use Rattle.tk_live.specs.Threads.{Apart};

    // A new waker of the task at a place, which its owner draws, who is 0, or a live waker.
    fn draw_waker<R: Wait>(&mut self, rt: &R, place: usize, by: u64) -> Result<(), Stop>
        requires place { place < length self.old.tasks.items }
        requires may { MayDraw self.old.tasks.items place by }
        ensures { DrawsWaker self.old place self.new result }
    {
        if let Err(_) = self.wakers.reserve(1) {
            return Err(Stop::Memory);
        }
        let number = self.tasks[place].draw_waker(rt, by)?;
        self.wakers.push_reserved(Some(WakerItem {
            task: place as u64 + 1,
            number,
        }));
        Ok(())
    }

    // A new waker of a task.
    pub(super) fn clone_waker<R: Wait>(&mut self, rt: &R, task: u64) -> Result<(), Stop>
        ensures { (line : ℕ) → SilentSpec line (said.clone task) self.old self.new result }
    {
        match open_task(&self.tasks, task) {
            Some(place) => self.draw_waker(rt, place, 0),
            None => Err(Stop::NoSuchItem),
        }
    }

    // A new waker that a waker draws.
    pub(super) fn again<R: Wait>(&mut self, rt: &R, number: u64) -> Result<(), Stop>
        requires { RepresentsSome self.old }
        ensures { (line : ℕ) → SilentSpec line (said.again number) self.old self.new result }
    {
        match live_waker(&self.wakers, number) {
            Some(waker) => self.draw_waker(rt, waker.task as usize - 1, waker.number),
            None => Err(Stop::NoSuchItem),
        }
    }

    // A wake by reference, from outside.
    pub(super) fn wake_ref<R: Wait>(&mut self, rt: &R, number: u64, moment: u64) -> Result<(), Stop>
        requires { RepresentsSome self.old }
        ensures { (line : ℕ) → SilentSpec line (said.wake_ref number moment) self.old self.new result }
    {
        let Some(waker) = live_waker(&self.wakers, number) else {
            return Err(Stop::NoSuchItem);
        };
        self.tasks[waker.task as usize - 1].wake_by_ref(rt, waker.number, moment);
        Ok(())
    }

    // A wake by value, from outside, which spends the waker.
    pub(super) fn wake<R: Wait>(&mut self, rt: &R, number: u64, moment: u64) -> Result<(), Stop>
        requires { RepresentsSome self.old }
        ensures { (line : ℕ) → SilentSpec line (said.wake number moment) self.old self.new result }
    {
        let Some(waker) = live_waker(&self.wakers, number) else {
            return Err(Stop::NoSuchItem);
        };
        self.tasks[waker.task as usize - 1].wake(rt, waker.number, moment);
        spend_waker(&mut self.wakers, number);
        Ok(())
    }

    // A release without a wake, which spends the waker.
    pub(super) fn release<R: Wait>(&mut self, rt: &R, number: u64) -> Result<(), Stop>
        requires { RepresentsSome self.old }
        ensures { (line : ℕ) → SilentSpec line (said.release number) self.old self.new result }
    {
        let Some(waker) = live_waker(&self.wakers, number) else {
            return Err(Stop::NoSuchItem);
        };
        self.tasks[waker.task as usize - 1].release(rt, waker.number);
        spend_waker(&mut self.wakers, number);
        Ok(())
    }

    // The threads of a block run its lines, and are joined.
    pub(crate) fn join<R: Threads + Wait + Sync, G: Gate + Sync>(
        &mut self,
        rt: &R,
        alloc: Global,
        gate: &G,
        block: &OpenBlock,
    ) -> Result<(), Stop>
        requires { RepresentsSome self.old }
        ensures ok { OnOk result ((settings : Settings) (c : Course) (kept : List Bool) (sent : List Sending) → Apart block.now.first block.now.second
            → Represents self.old settings c kept sent → Represents self.new settings (joined c (block_of block.now)) kept sent) }
        ensures err { IfErr result (JoinStop (GateStops (G.answers gate.now) (block_of block.now))) }
    {
        run_block(rt, alloc, gate, &mut self.tasks, &mut self.wakers, block)
    }
}
