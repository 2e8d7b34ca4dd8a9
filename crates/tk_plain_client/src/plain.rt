//! What a client makes of lines, computed plainly: each rule by a look through whole lists.

use crate::line::{Given, Histogram, New, Part, Spoilt, Told};
use std::alloc::{AllocError, Global};

/// An item that is held.
#[derive(Clone, Copy)]
pub struct Held {
    pub new: New,
    pub told: Told,
}

/// What is held.
#[derive(Drop)]
pub struct Plain {
    pub tasks: Vec<Held>,
    pub resources: Vec<Held>,
    pub ops: Vec<Held>,
    pub counts: Vec<(u64, u64, u64)>,
    pub times: Vec<Histogram>,
    pub now: u64,
    pub last: Option<u64>,
}

fn has(held: &[Held], id: u64) -> bool {
    for one in held {
        if one.new.id == id {
            return true;
        }
    }
    false
}

fn has_new(news: &[New], id: u64) -> bool {
    for new in news {
        if new.id == id {
            return true;
        }
    }
    false
}

fn told_of(told: &[Told], id: u64) -> Option<Told> {
    for one in told {
        if one.id == id {
            return Some(*one);
        }
    }
    None
}

fn repeats_new(held: &[Held], news: &[New]) -> bool {
    for (i, new) in news.iter().enumerate() {
        if has(held, new.id) || has_new(&news[..i], new.id) {
            return true;
        }
    }
    false
}

fn repeats_told(told: &[Told]) -> bool {
    for (i, one) in told.iter().enumerate() {
        if told_of(&told[..i], one.id).is_some() {
            return true;
        }
    }
    false
}

fn repeats_counts(counts: &[(u64, u64, u64)]) -> bool {
    for (i, one) in counts.iter().enumerate() {
        if counted(&counts[..i], one.0) {
            return true;
        }
    }
    false
}

fn counted(counts: &[(u64, u64, u64)], id: u64) -> bool {
    for one in counts {
        if one.0 == id {
            return true;
        }
    }
    false
}

fn is_among(ids: &[u64], id: u64) -> bool {
    for one in ids {
        if *one == id {
            return true;
        }
    }
    false
}

// Whether one is gone twice, or gone and told of.
fn repeats_gone(part: &Part) -> bool {
    for (i, id) in part.gone.iter().enumerate() {
        if is_among(&part.gone[..i], *id) || told_of(&part.told, *id).is_some() {
            return true;
        }
    }
    false
}

fn repeats(held: &[Held], part: &Part) -> bool {
    repeats_new(held, &part.news) || repeats_told(&part.told) || repeats_gone(part)
}

fn has_stranger(held: &[Held], part: &Part) -> bool {
    for one in &part.told {
        if !has(held, one.id) && !has_new(&part.news, one.id) {
            return true;
        }
    }
    for id in &part.gone {
        if !has(held, *id) {
            return true;
        }
    }
    false
}

fn lacks_statistics(part: &Part) -> bool {
    for new in &part.news {
        if told_of(&part.told, new.id).is_none() {
            return true;
        }
    }
    false
}

// Whether each item that was told of has values of its own attributes.
fn fit(held: &[Held]) -> bool {
    for one in held {
        if one.new.shape != one.told.shape {
            return false;
        }
    }
    true
}

// The items after a line: what is gone leaves, what is told takes the place of what was, and new ones go last.
fn items_after(alloc: Global, held: &[Held], part: &Part) -> Result<Vec<Held>, AllocError> {
    let mut items = Vec::new(alloc);
    for one in held {
        if !is_among(&part.gone, one.new.id) {
            let told = told_of(&part.told, one.new.id).unwrap_or(one.told);
            items.push(Held { new: one.new, told })?;
        }
    }
    for new in &part.news {
        if let Some(told) = told_of(&part.told, new.id) {
            items.push(Held { new: *new, told })?;
        }
    }
    Ok(items)
}

fn count_of(counts: &[(u64, u64, u64)], old: (u64, u64, u64)) -> (u64, u64, u64) {
    for one in counts {
        if one.0 == old.0 {
            return *one;
        }
    }
    old
}

fn counts_after(
    alloc: Global,
    held: &[(u64, u64, u64)],
    told: &[(u64, u64, u64)],
) -> Result<Vec<(u64, u64, u64)>, AllocError> {
    let mut counts = Vec::new(alloc);
    for old in held {
        counts.push(count_of(told, *old))?;
    }
    for one in told {
        if !counted(held, one.0) {
            counts.push(*one)?;
        }
    }
    Ok(counts)
}

fn histogram_of(times: &[Histogram], id: u64) -> Option<Histogram> {
    for one in times {
        if one.id == id {
            return Some(*one);
        }
    }
    None
}

// The histograms that a line tells: none, where it hasn't the keys of version 3.
fn times_told(line: &Given) -> &[Histogram] {
    match &line.times {
        Some(times) => times.as_slice(),
        None => &[],
    }
}

// Whether a histogram is told twice, or is of a task that is gone.
fn repeats_times(line: &Given) -> bool {
    let told = times_told(line);
    for (i, one) in told.iter().enumerate() {
        if histogram_of(&told[..i], one.id).is_some() || is_among(&line.tasks.gone, one.id) {
            return true;
        }
    }
    false
}

// Whether a histogram is of a task that is neither there nor new.
fn has_strange_times(held: &[Held], line: &Given) -> bool {
    for one in times_told(line) {
        if !has(held, one.id) && !has_new(&line.tasks.news, one.id) {
            return true;
        }
    }
    false
}

// The histograms after a line: those of tasks that are gone leave, what is told takes the place of what was, and new ones go last.
fn times_after(
    alloc: Global,
    held: &[Histogram],
    line: &Given,
) -> Result<Vec<Histogram>, AllocError> {
    let told = times_told(line);
    let mut times = Vec::new(alloc);
    for old in held {
        if !is_among(&line.tasks.gone, old.id) {
            times.push(histogram_of(told, old.id).unwrap_or(*old))?;
        }
    }
    for one in told {
        if histogram_of(held, one.id).is_none() {
            times.push(*one)?;
        }
    }
    Ok(times)
}

// The ids and shapes of items.
fn news_of(alloc: Global, held: &[Held]) -> Result<Vec<New>, AllocError> {
    let mut news = Vec::new(alloc);
    for one in held {
        news.push(one.new)?;
    }
    Ok(news)
}

fn part_of(alloc: Global, held: &[Held]) -> Result<Part, AllocError> {
    let news = news_of(alloc, held)?;
    let mut told = Vec::new(alloc);
    for one in held {
        told.push(one.told)?;
    }
    Ok(Part {
        news,
        told,
        gone: Vec::new(alloc),
    })
}

impl Plain {
    pub fn new(alloc: Global) -> Plain {
        Plain {
            tasks: Vec::new(alloc),
            resources: Vec::new(alloc),
            ops: Vec::new(alloc),
            counts: Vec::new(alloc),
            times: Vec::new(alloc),
            now: 0,
            last: None,
        }
    }

    /// The number that is next.
    pub fn next(&self) -> u64 {
        match self.last {
            Some(last) => last.saturating_add(1),
            None => 1,
        }
    }

    /// The tasks, resources and operations that are held.
    pub fn held(&self, alloc: Global) -> Result<(Vec<New>, Vec<New>, Vec<New>), AllocError> {
        let tasks = news_of(alloc, &self.tasks)?;
        let resources = news_of(alloc, &self.resources)?;
        let ops = news_of(alloc, &self.ops)?;
        Ok((tasks, resources, ops))
    }

    fn is_next(&self, line: &Given) -> bool {
        line.seq == self.next() || (line.snapshot && self.last.is_none())
    }

    fn repeats(&self, line: &Given) -> bool {
        repeats(&self.tasks, &line.tasks)
            || repeats(&self.resources, &line.resources)
            || repeats(&self.ops, &line.ops)
            || repeats_counts(&line.counts)
    }

    fn has_stranger(&self, line: &Given) -> bool {
        has_stranger(&self.tasks, &line.tasks)
            || has_stranger(&self.resources, &line.resources)
            || has_stranger(&self.ops, &line.ops)
    }

    // Applies a line to what is held, or to nothing where it is a snapshot. It answers the fault's number, 0 without one.
    fn apply(&mut self, alloc: Global, line: &Given) -> Result<u32, AllocError> {
        if repeats_times(line) {
            return Ok(6);
        }
        if has_strange_times(&self.tasks, line) {
            return Ok(5);
        }
        if self.repeats(line) {
            return Ok(6);
        }
        if self.has_stranger(line) {
            return Ok(5);
        }
        if lacks_statistics(&line.tasks)
            || lacks_statistics(&line.resources)
            || lacks_statistics(&line.ops)
        {
            return Ok(8);
        }
        let tasks = items_after(alloc, &self.tasks, &line.tasks)?;
        let resources = items_after(alloc, &self.resources, &line.resources)?;
        let ops = items_after(alloc, &self.ops, &line.ops)?;
        let counts = counts_after(alloc, &self.counts, &line.counts)?;
        let times = times_after(alloc, &self.times, line)?;
        if !fit(&resources) || !fit(&ops) {
            return Ok(8);
        }
        self.tasks = tasks;
        self.resources = resources;
        self.ops = ops;
        self.counts = counts;
        self.times = times;
        self.now = line.now;
        self.last = Some(line.seq);
        Ok(0)
    }

    /// Takes a line. It answers the fault's number, 0 without one; a line with a fault changes nothing.
    pub fn take(&mut self, alloc: Global, line: &Given) -> Result<u32, AllocError> {
        match line.spoilt {
            Spoilt::NoJson => return Ok(2),
            Spoilt::NoLine => return Ok(3),
            Spoilt::Whole => {}
        }
        if !self.is_next(line) {
            return Ok(4);
        }
        if !line.snapshot {
            return self.apply(alloc, line);
        }
        let mut fresh = Plain::new(alloc);
        let code = fresh.apply(alloc, line)?;
        if code == 0 {
            *self = fresh;
        }
        Ok(code)
    }

    /// A line that tells of all that is held, as a snapshot of number 1.
    pub fn snapshot(&self, alloc: Global) -> Result<Given, AllocError> {
        let tasks = part_of(alloc, &self.tasks)?;
        let resources = part_of(alloc, &self.resources)?;
        let ops = part_of(alloc, &self.ops)?;
        let mut counts = Vec::new(alloc);
        counts.extend_from_slice(&self.counts)?;
        Ok(Given {
            tasks,
            resources,
            ops,
            counts,
            seq: 1,
            snapshot: true,
            removes: false,
            times: None,
            now: self.now,
            spoilt: Spoilt::Whole,
        })
    }
}
