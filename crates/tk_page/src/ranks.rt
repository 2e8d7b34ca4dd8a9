//! Which tasks and places a page shows, and in which order: odd ones first, then by how long they ran and waited. Which places held up others longest.
ghost use Rattle.std.specs.Prelude.{◌≡◌, IfOk};
ghost use Rattle.std.specs.List.Sorted.{IsPermutation};
ghost use Rattle.tk_page.specs.Charges as charges;
ghost use Rattle.tk_page.specs.Ranks as spec;

use crate::figures::Scale;
use crate::oddities::Signs;
use std::alloc::{AllocError, Global};
use tk_odd::Held;
use tk_series::{Limited, Series};
use tk_sites::Sums;
use tk_stream::{Tables, Task};

/// Where a task or a place stands: the least comes first.
#[derive(Clone, Copy, Debug, PartialEq, Eq, PartialOrd, Ord)]
pub(crate) struct Rank {
    pub calm: bool,
    /// How far what it ran and waited is below the greatest number, or another number by which it is ranked.
    pub below: u64,
    /// Where it stands among all.
    pub place: usize,
}

fn rank_of(scale: Scale, signs: &Signs, task: &Task, place: usize) -> Rank
    ensures { result ≡ spec.rank_of scale signs.now place task.now }
{
    let busy = task.row.busy_until(scale.now);
    let sched = task.row.sched_until(scale.now);
    Rank {
        calm: !signs.has_any(task),
        below: u64::MAX - busy.saturating_add(sched),
        place,
    }
}

// The ranks of the tasks of tables, in table order.
fn list_ranks(
    alloc: Global,
    scale: Scale,
    tables: &Tables,
    signs: &Signs,
) -> Result<Vec<Rank>, AllocError>
    ensures { IfOk result (λ ranks. ranks.items ≡ spec.ranks_of scale signs.now tables.now.tasks) }
{
    let mut ranks = Vec::new(alloc);
    for place in 0..tables.task_count() {
        if let Some(task) = tables.task_at(place) {
            ranks.push(rank_of(scale, signs, task, place))?;
        }
    }
    Ok(ranks)
}

// The same of a place, by how long its tasks ran and waited.
fn rank_of_site(sums: &Sums, place: usize) -> Rank
    ensures { result ≡ spec.site_rank place sums.now }
{
    Rank {
        calm: true,
        below: u64::MAX - sums.busy.saturating_add(sums.sched),
        place,
    }
}

// The ranks of places, in their order.
fn list_site_ranks(alloc: Global, sites: &Limited<Sums>) -> Result<Vec<Rank>, AllocError>
    ensures { IfOk result (λ ranks. ranks.items ≡ spec.site_ranks_of sites.now.first) }
{
    let mut ranks = Vec::new(alloc);
    for place in 0..sites.len() {
        if let Some((_, sums)) = sites.at(place) {
            ranks.push(rank_of_site(&sums, place))?;
        }
    }
    Ok(ranks)
}

/// The ranks of places in order.
pub(crate) fn site_ranks_of(alloc: Global, sites: &Limited<Sums>) -> Result<Vec<Rank>, AllocError>
    ensures { IfOk result (λ ranks. spec.AreSiteRanks sites.now.first ranks.items) }
{
    let mut ranks = list_site_ranks(alloc, sites)?;
    ranks.as_mut_slice().sort_unstable();
    Ok(ranks)
}

// The rank of a place by what it is charged with.
fn rank_of_held(held: &Held, place: usize) -> Rank
    ensures { result ≡ charges.held_rank place held.now }
{
    Rank {
        calm: true,
        below: u64::MAX - held.charged,
        place,
    }
}

// The ranks of places by what they are charged with, in their order.
fn list_held_ranks(alloc: Global, places: &Series<Held>) -> Result<Vec<Rank>, AllocError>
    ensures { IfOk result (λ ranks. ranks.items ≡ charges.held_ranks_of places.now) }
{
    let mut ranks = Vec::new(alloc);
    for place in 0..places.len() {
        if let Some((_, held)) = places.at(place) {
            ranks.push(rank_of_held(&held, place))?;
        }
    }
    Ok(ranks)
}

/// The ranks of places by what they are charged with, in order.
pub(crate) fn held_ranks_of(alloc: Global, places: &Series<Held>) -> Result<Vec<Rank>, AllocError>
    ensures { IfOk result (λ ranks. charges.AreHeldRanks places.now ranks.items) }
{
    let mut ranks = list_held_ranks(alloc, places)?;
    ranks.as_mut_slice().sort_unstable();
    Ok(ranks)
}

/// The ranks of the tasks of tables in order.
pub(crate) fn ranks_of(
    alloc: Global,
    scale: Scale,
    tables: &Tables,
    signs: &Signs,
) -> Result<Vec<Rank>, AllocError>
    ensures all { IfOk result (λ ranks. IsPermutation (spec.ranks_of scale signs.now tables.now.tasks) ranks.items) }
    ensures sorted { IfOk result (λ ranks. spec.AreInOrder ranks.items) }
{
    let mut ranks = list_ranks(alloc, scale, tables, signs)?;
    ranks.as_mut_slice().sort_unstable();
    Ok(ranks)
}
