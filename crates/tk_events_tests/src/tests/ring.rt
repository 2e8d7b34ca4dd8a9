//! Random runs of one recorder beside a plain ring.

use super::given::{limits, offer_poll, on_first, take, takes_any};
use std::alloc::Global;
use std::sync::Wait;
use tk_events::{Event, Recorded, Recorder, Taker};

// The plain program: what waits, oldest first, and how many found it full.
#[derive(Drop)]
struct Ring {
    waiting: Vec<u64>,
    capacity: u64,
    dropped: u64,
}

impl Ring {
    fn put(&mut self, above: u64) -> Option<Recorded> {
        if self.waiting.len() as u64 >= self.capacity {
            self.dropped = self.dropped.saturating_add(1);
            return Some(Recorded::DroppedFull);
        }
        self.waiting.push(above).ok()?;
        Some(Recorded::Kept)
    }

    fn pop(&mut self) -> Option<u64> {
        if self.waiting.is_empty() {
            return None;
        }
        Some(self.waiting.remove(0))
    }
}

// The next of numbers that look random.
fn next(seed: u64) -> u64 {
    seed.wrapping_mul(6364136223846793005)
        .wrapping_add(1442695040888963407)
}

fn offers_alike<R: Wait>(
    rt: &R,
    alloc: Global,
    recorder: &mut Recorder,
    ring: &mut Ring,
    above: u64,
) -> bool {
    match offer_poll(rt, alloc, recorder, above) {
        Some(recorded) => ring.put(above) == Some(recorded),
        None => false,
    }
}

fn is_poll_of(event: &Event, above: u64) -> bool {
    match event {
        Event::Poll(poll) => poll.op.parts().1 == above.saturating_add(1),
        _ => false,
    }
}

fn takes_alike<R: Wait>(rt: &R, taker: &mut Taker, ring: &mut Ring) -> bool {
    match ring.pop() {
        Some(above) => take(rt, taker, |event| is_poll_of(event, above)) == Some(true),
        None => !takes_any(rt, taker),
    }
}

// So many times one of the two is chosen: an offer, at three of five numbers, or a take.
fn runs_alike<R: Wait>(
    rt: &R,
    alloc: Global,
    recorder: &mut Recorder,
    taker: &mut Taker,
    ring: &mut Ring,
    mut seed: u64,
) -> bool {
    for above in 0..1000u64 {
        seed = next(seed);
        let alike = if (seed >> 33) % 5 < 3 {
            offers_alike(rt, alloc, recorder, ring, above)
        } else {
            takes_alike(rt, taker, ring)
        };
        if !alike {
            return false;
        }
    }
    ring.dropped > 0 && taker.dropped().resources == ring.dropped
}

fn runs_as_a_ring<R: Wait>(
    rt: &R,
    alloc: Global,
    recorder: &mut Recorder,
    taker: &mut Taker,
    capacity: u64,
    seed: u64,
) -> bool {
    let mut ring = Ring {
        waiting: Vec::new(alloc),
        capacity,
        dropped: 0,
    };
    runs_alike(rt, alloc, recorder, taker, &mut ring, seed)
}

fn console_runs_as_a_ring<R: Wait>(rt: &R, alloc: Global, capacity: u64, seed: u64) -> bool {
    on_first(alloc, limits(1, capacity, 1000), |recorder, taker| {
        runs_as_a_ring(rt, alloc, recorder, taker, capacity, seed)
    })
}

#[test]
fn random_runs_are_as_a_ring(rt: HostRuntime) {
    for (capacity, seed) in [(1, 20), (3, 21), (8, 22), (3, 23)] {
        assert!(rt;
            console_runs_as_a_ring(&rt, rt.alloc(), capacity, seed),
            "seed {seed}"
        );
    }
}
