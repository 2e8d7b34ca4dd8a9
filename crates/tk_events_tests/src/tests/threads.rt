//! Recorders on several threads, without a taker and beside one.
ghost use Rattle.std.specs.Prelude.{◌≡◌, All, IfSome};
ghost use Rattle.tk_events.specs.Handles.{Place};

use super::given::{limits, offer_poll, refusal, take, takes_any};
use std::alloc::Global;
use std::sync::Wait;
use std::sync::atomic::{AtomicBool, AtomicU64, Ordering};
use std::thread;
use std::thread::{Threads, join, map_vec};
use tk_events::{Console, Event, Limits, Recorded, Recorder, RetiredRecorder, Taker};
use tk_ids::Dropped;

// How often a taker looks whether the recorders are done.
const TURNS: u32 = 10_000_000;

// A number for each recorder.
#[derive(Drop)]
struct Tally {
    of: Vec<AtomicU64>,
}

impl Tally {
    fn new(alloc: Global, recorders: u64) -> Option<Tally> {
        let mut of = Vec::new(alloc);
        for _ in 0..recorders {
            of.push(AtomicU64::new(0)).ok()?;
        }
        Some(Tally { of })
    }

    fn word(&self, recorder: u64) -> Option<&AtomicU64> {
        self.of.get(recorder.saturating_sub(1) as usize)
    }

    fn add(&self, recorder: u64, count: u64) {
        if let Some(word) = self.word(recorder) {
            word.fetch_add(count, Ordering::SeqCst);
        }
    }

    // The number before, in whose place this one is put.
    fn replace(&self, recorder: u64, number: u64) -> u64 {
        match self.word(recorder) {
            Some(word) => word.swap(number, Ordering::SeqCst),
            None => 0,
        }
    }

    fn at(&self, place: usize) -> u64 {
        match self.of.get(place) {
            Some(word) => word.load(Ordering::SeqCst),
            None => 0,
        }
    }

    fn total(&self) -> u64 {
        let mut total = 0u64;
        for place in 0..self.of.len() {
            total = total.saturating_add(self.at(place));
        }
        total
    }

    fn is_as(&self, other: &Tally) -> bool {
        for place in 0..self.of.len() {
            if self.at(place) != other.at(place) {
                return false;
            }
        }
        true
    }
}

// The polls that were taken: of each recorder how many, and the last of them.
#[derive(Drop)]
struct Taken {
    counts: Tally,
    last: Tally,
    falls: AtomicBool,
}

impl Taken {
    fn new(alloc: Global, recorders: u64) -> Option<Taken> {
        let (counts, last) = Tally::new(alloc, recorders).zip(Tally::new(alloc, recorders))?;
        Some(Taken {
            counts,
            last,
            falls: AtomicBool::new(false),
        })
    }

    fn add(&self, recorder: u64, number: u64) {
        self.counts.add(recorder, 1);
        if self.last.replace(recorder, number) >= number {
            self.falls.store(true, Ordering::SeqCst);
        }
    }

    // Of each recorder as many as it kept, in the order of their numbers.
    fn are_those(&self, kept: &Tally) -> bool {
        self.counts.is_as(kept) && !self.falls.load(Ordering::SeqCst)
    }
}

// Offers so many polls, and tells how many were kept.
fn offer_polls<R: Wait>(rt: &R, alloc: Global, recorder: &mut Recorder, count: u64) -> u64
    ensures { recorder.new.console ≡ recorder.old.console }
{
    let mut kept = 0u64;
    for above in 0..count {
        if offer_poll(rt, alloc, recorder, above) == Some(Recorded::Kept) {
            kept = kept.saturating_add(1);
        }
    }
    kept
}

fn offer_and_retire<R: Wait>(
    rt: &R,
    alloc: Global,
    mut recorder: Recorder,
    count: u64,
    kept: &Tally,
) -> RetiredRecorder
    ensures { result.console ≡ recorder.console }
{
    let count = offer_polls(rt, alloc, &mut recorder, count);
    kept.add(recorder.number(), count);
    recorder.retire()
}

// Each recorder offers so many polls on a thread of its own.
fn offer_in_threads<R: Threads + Wait + Sync>(
    rt: &R,
    alloc: Global,
    recorders: Vec<Recorder>,
    count: u64,
    kept: &Tally,
) -> Option<Vec<RetiredRecorder>>
    ensures { (console : Place) → All (λ r. r.console ≡ console) recorders.items → IfSome result (λ all. All (λ r. r.console ≡ console) all.items) }
{
    map_vec(
        rt,
        recorders,
        &|recorder: Recorder| -> RetiredRecorder
            ensures { result.console ≡ recorder.console }
        { offer_and_retire(rt, alloc, recorder, count, kept) },
    )
    .ok()
}

fn finish(taker: &mut Taker, retired: Option<Vec<RetiredRecorder>>) -> bool
    requires { IfSome retired (λ all. All (λ r. r.console ≡ taker.old.console) all.items) }
{
    match retired {
        Some(all) => refusal(taker, all).is_none(),
        None => false,
    }
}

// Of two hundred polls that two threads offer to a buffer of one, one is kept.
fn keeps_one<R: Threads + Wait + Sync>(
    rt: &R,
    alloc: Global,
    recorders: Vec<Recorder>,
    taker: &mut Taker,
) -> bool
    requires { All (λ r. r.console ≡ taker.old.console) recorders.items }
{
    match Tally::new(alloc, 2) {
        Some(kept) => {
            let retired = offer_in_threads(rt, alloc, recorders, 100, &kept);
            let kept_one = finish(taker, retired) && kept.total() == 1;
            drop(kept);
            kept_one
        }
        None => {
            drop(recorders);
            false
        }
    }
}

fn dropped_and_left_one<R: Wait>(rt: &R, taker: &mut Taker) -> bool {
    let dropped = Dropped {
        tasks: 0,
        resources: 199,
        ops: 0,
    };
    taker.dropped() == dropped && takes_any(rt, taker) && !takes_any(rt, taker)
}

#[test]
fn two_recorders_fill_a_buffer_of_one(rt: HostRuntime) {
    match Console::open(rt.alloc(), limits(2, 1, 100)) {
        Ok((recorders, mut taker)) => {
            assert!(rt; keeps_one(&rt, rt.alloc(), recorders, &mut taker));
            assert!(rt; dropped_and_left_one(&rt, &mut taker));
            drop(taker);
        }
        Err(_) => assert!(rt; false, "no console"),
    }
}

// Counts the event at the recorder whose task polled.
fn count_event(event: &Event, taken: &Taken) {
    if let Event::Poll(poll) = event {
        taken.add(poll.task.parts().0, poll.op.parts().1);
    }
}

fn take_one<R: Wait>(rt: &R, taker: &mut Taker, taken: &Taken) -> bool
    ensures { taker.new.console ≡ taker.old.console }
{
    let counted = take(rt, taker, |event| {
        count_event(event, taken);
        true
    });
    counted.is_some()
}

// Takes until an empty answer comes after the recorders are done.
fn take_beside<R: Wait>(rt: &R, mut taker: Taker, done: &AtomicBool, taken: &Taken) -> Taker
    ensures { result.console ≡ taker.console }
{
    for _turn in 0..TURNS {
        let done = done.load(Ordering::SeqCst);
        if !take_one(rt, &mut taker, taken) {
            if done {
                return taker;
            }
            thread::yield_now();
        }
    }
    taker
}

fn offer_until_done<R: Threads + Wait + Sync>(
    rt: &R,
    alloc: Global,
    recorders: Vec<Recorder>,
    count: u64,
    kept: &Tally,
    done: &AtomicBool,
) -> Option<Vec<RetiredRecorder>>
    ensures { (console : Place) → All (λ r. r.console ≡ console) recorders.items → IfSome result (λ all. All (λ r. r.console ≡ console) all.items) }
{
    let retired = offer_in_threads(rt, alloc, recorders, count, kept);
    done.store(true, Ordering::SeqCst);
    retired
}

// The recorders offer on threads of their own while another takes. Then the taker is finished.
fn offer_and_take<R: Threads + Wait + Sync>(
    rt: &R,
    alloc: Global,
    recorders: Vec<Recorder>,
    taker: Taker,
    count: u64,
    kept: &Tally,
    taken: &Taken,
) -> (bool, Taker)
    requires { All (λ r. r.console ≡ taker.console) recorders.items }
{
    let done = AtomicBool::new(false);
    let (retired, mut taker) = join(
        rt,
        || -> Option<Vec<RetiredRecorder>>
            ensures { (console : Place) → All (λ r. r.console ≡ console) recorders.items → IfSome result (λ all. All (λ r. r.console ≡ console) all.items) }
        { offer_until_done(rt, alloc, recorders, count, kept, &done) },
        || -> Taker
            ensures { result.console ≡ taker.console }
        { take_beside(rt, taker, &done, taken) },
    );
    (finish(&mut taker, retired), taker)
}

// Each poll is taken or dropped, and of each recorder what it kept is taken, in order.
fn none_is_lost<R: Threads + Wait + Sync>(
    rt: &R,
    alloc: Global,
    limits: Limits,
    kept: &Tally,
    taken: &Taken,
) -> bool {
    match Console::open(alloc, limits) {
        Ok((recorders, taker)) => {
            let (finished, mut taker) = offer_and_take(
                rt,
                alloc,
                recorders,
                taker,
                limits.offers,
                kept,
                taken,
            );
            let all_taken = finished && are_all_taken(rt, &mut taker, limits, kept, taken);
            drop(taker);
            all_taken
        }
        Err(_) => false,
    }
}

fn are_all_taken<R: Wait>(
    rt: &R,
    taker: &mut Taker,
    limits: Limits,
    kept: &Tally,
    taken: &Taken,
) -> bool {
    let dropped = taker.dropped().resources;
    !takes_any(rt, taker)
        && taken.are_those(kept)
        && kept.total().saturating_add(dropped) == limits.recorders.saturating_mul(limits.offers)
}

fn is_followed<R: Threads + Wait + Sync>(rt: &R, alloc: Global, limits: Limits) -> bool {
    let kept = Tally::new(alloc, limits.recorders);
    match kept.zip(Taken::new(alloc, limits.recorders)) {
        Some((kept, taken)) => {
            let none_lost = none_is_lost(rt, alloc, limits, &kept, &taken);
            drop(kept);
            drop(taken);
            none_lost
        }
        None => false,
    }
}

#[test]
fn four_recorders_beside_a_taker(rt: HostRuntime) {
    assert!(rt; is_followed(&rt, rt.alloc(), limits(4, 16, 1000)));
}

#[test]
fn sixty_four_recorders_beside_a_taker(rt: HostRuntime) {
    assert!(rt; is_followed(&rt, rt.alloc(), limits(64, 1024, 10_000)));
}
