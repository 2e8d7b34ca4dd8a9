//! Lines made at random, most of them good.

use rand_core::Rng;
use rand_pcg::Pcg32;
use std::alloc::{AllocError, Global};
use tk_plain_client::{Given, Histogram, New, Part, Spoilt, Told, Waits};

/// A number below another one.
pub(super) fn below(random: &mut Pcg32, limit: u32) -> u64 {
    u64::from(random.next_u32() % limit.max(1))
}

// Once in so many times.
fn happens(random: &mut Pcg32, times: u32) -> bool {
    below(random, times) == 0
}

// One of twelve ids of recorder 1.
fn any_id(random: &mut Pcg32) -> u64 {
    below(random, 12).saturating_add(1_099_511_627_777)
}

fn has_new(news: &[New], id: u64) -> bool {
    for new in news {
        if new.id == id {
            return true;
        }
    }
    false
}

fn has_told(told: &[Told], id: u64) -> bool {
    for one in told {
        if one.id == id {
            return true;
        }
    }
    false
}

fn shape_of(news: &[New], id: u64) -> Option<u64> {
    for new in news {
        if new.id == id {
            return Some(new.shape);
        }
    }
    None
}

// An item that isn't there yet, but for one in 64.
fn add_new(random: &mut Pcg32, part: &mut Part, held: &[New]) -> Result<(), AllocError> {
    let id = any_id(random);
    let shape = below(random, 6);
    let seed = u64::from(random.next_u32());
    let is_known = has_new(held, id) || has_new(&part.news, id);
    if is_known && !happens(random, 64) {
        return Ok(());
    }
    part.news.push(New { id, shape })?;
    if !happens(random, 64) {
        part.told.push(Told { id, shape, seed })?;
    }
    Ok(())
}

// Values of the right attributes, but for one in 64.
fn told_shape(random: &mut Pcg32, shape: u64) -> u64 {
    if happens(random, 64) {
        below(random, 6)
    } else {
        shape
    }
}

// A row of an item that is there and wasn't told of, but for one in 64.
fn add_told(random: &mut Pcg32, part: &mut Part, held: &[New]) -> Result<(), AllocError> {
    let id = any_id(random);
    let seed = u64::from(random.next_u32());
    let shape = shape_of(held, id);
    let is_odd = shape.is_none() || has_told(&part.told, id);
    if is_odd && !happens(random, 64) {
        return Ok(());
    }
    let shape = told_shape(random, shape.unwrap_or(0));
    part.told.push(Told { id, shape, seed })?;
    Ok(())
}

fn is_among(ids: &[u64], id: u64) -> bool {
    for one in ids {
        if *one == id {
            return true;
        }
    }
    false
}

// An item that is there, isn't told of and isn't gone yet, but for one in 64.
fn add_gone(random: &mut Pcg32, part: &mut Part, held: &[New]) -> Result<(), AllocError> {
    let id = any_id(random);
    let is_odd = !has_new(held, id) || has_told(&part.told, id) || is_among(&part.gone, id);
    if is_odd && !happens(random, 64) {
        return Ok(());
    }
    part.gone.push(id)?;
    Ok(())
}

// Up to two new items and up to three rows of others, before the new ones' rows or after them, and up to three that are gone,
// where the line says so.
fn part_of(
    alloc: Global,
    random: &mut Pcg32,
    held: &[New],
    removes: bool,
) -> Result<Part, AllocError> {
    let mut part = Part {
        news: Vec::new(alloc),
        told: Vec::new(alloc),
        gone: Vec::new(alloc),
    };
    let early = below(random, 4);
    let late = below(random, 2);
    for _ in 0..early {
        add_told(random, &mut part, held)?;
    }
    for _ in 0..below(random, 3) {
        add_new(random, &mut part, held)?;
    }
    for _ in 0..late {
        add_told(random, &mut part, held)?;
    }
    let gone = if removes { below(random, 4) } else { 0 };
    for _ in 0..gone {
        add_gone(random, &mut part, held)?;
    }
    Ok(part)
}

// Up to two counts, of one resource twice at times.
fn counts_of(alloc: Global, random: &mut Pcg32) -> Result<Vec<(u64, u64, u64)>, AllocError> {
    let mut counts = Vec::new(alloc);
    for _ in 0..below(random, 3) {
        counts.push((any_id(random), below(random, 9), below(random, 9)))?;
    }
    Ok(counts)
}

fn has_histogram(times: &[Histogram], id: u64) -> bool {
    for one in times {
        if one.id == id {
            return true;
        }
    }
    false
}

// A histogram of a task that is there or new, isn't told of and isn't gone, but for one in 64.
fn add_histogram(
    random: &mut Pcg32,
    times: &mut Vec<Histogram>,
    held: &[New],
    tasks: &Part,
) -> Result<(), AllocError> {
    let id = any_id(random);
    let is_there = has_new(held, id) || has_new(&tasks.news, id);
    let is_odd = !is_there || has_histogram(times, id) || is_among(&tasks.gone, id);
    if is_odd && !happens(random, 64) {
        return Ok(());
    }
    let counts = buckets(random);
    let longest = u64::from(random.next_u32());
    let waits = happens(random, 2).then_some(Waits {
        counts: buckets(random),
        longest: u64::from(random.next_u32()),
    });
    times.push(Histogram {
        id,
        counts,
        longest,
        waits,
    })?;
    Ok(())
}

fn buckets(random: &mut Pcg32) -> [u64; 14] {
    let mut counts = [0; 14];
    for count in &mut counts {
        *count = below(random, 3);
    }
    counts
}

// Up to four histograms.
fn times_of(
    alloc: Global,
    random: &mut Pcg32,
    held: &[New],
    tasks: &Part,
) -> Result<Vec<Histogram>, AllocError> {
    let mut times = Vec::new(alloc);
    for _ in 0..below(random, 5) {
        add_histogram(random, &mut times, held, tasks)?;
    }
    Ok(times)
}

fn how_spoilt(random: &mut Pcg32) -> Spoilt {
    match below(random, 128) {
        0 => Spoilt::NoJson,
        1 => Spoilt::NoLine,
        _ => Spoilt::Whole,
    }
}

/// A line after those that made the items that are held, which is the next one but for one in 32.
pub(super) fn line_after(
    alloc: Global,
    random: &mut Pcg32,
    held: (&[New], &[New], &[New]),
    next: u64,
) -> Result<Given, AllocError> {
    let snapshot = happens(random, 24);
    let seq = if happens(random, 32) {
        next.saturating_add(1)
    } else {
        next
    };
    let now = below(random, 5000);
    let spoilt = how_spoilt(random);
    let removes = happens(random, 2);
    // Of what a snapshot knows nothing, nothing can be gone, but for one in 64.
    let says_gone = removes && (!snapshot || happens(random, 64));
    let tasks = part_of(alloc, random, held.0, says_gone)?;
    let resources = part_of(alloc, random, held.1, says_gone)?;
    let ops = part_of(alloc, random, held.2, says_gone)?;
    let counts = counts_of(alloc, random)?;
    let times = if removes && happens(random, 2) {
        Some(times_of(alloc, random, held.0, &tasks)?)
    } else {
        None
    };
    Ok(Given {
        tasks,
        resources,
        ops,
        counts,
        seq,
        snapshot,
        removes,
        times,
        now,
        spoilt,
    })
}
