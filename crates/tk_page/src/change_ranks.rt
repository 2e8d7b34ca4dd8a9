//! In which order the places of two streams stand.
ghost use Rattle.std.specs.Prelude.{◌≡◌, IfOk};
ghost use Rattle.tk_page.specs.ChangeRanks as spec;

use crate::ranks::Rank;
use std::alloc::{AllocError, Global};
use tk_compare::{Compared, Spans, rate};
use tk_series::Series;

// How far a time of a second is from what it was.
fn apart(spans: Spans, before: u64, after: u64) -> u64
    ensures { result ≡ spec.apart spans before after }
{
    let old = rate(spans.before, before);
    let new = rate(spans.after, after);
    old.max(new) - old.min(new)
}

// How much of a second changed at a place.
fn changed_by(spans: Spans, x: &Compared) -> u64
    ensures { result ≡ spec.changed_by spans x.now }
{
    let ran = apart(spans, x.before.ran, x.after.ran);
    let waited = apart(spans, x.before.waited, x.after.waited);
    let held = apart(spans, x.before.held, x.after.held);
    let all = u128::from(ran) + u128::from(waited) + u128::from(held);
    u64::try_from(all).unwrap_or(u64::MAX)
}

fn rank_of_change(spans: Spans, x: &Compared, place: usize) -> Rank
    ensures { result ≡ spec.change_rank spans place x.now }
{
    Rank {
        calm: true,
        below: u64::MAX - changed_by(spans, x),
        place,
    }
}

// The ranks of places by how much changed there, in their order.
fn list_change_ranks(
    alloc: Global,
    spans: Spans,
    places: &Series<Compared>,
) -> Result<Vec<Rank>, AllocError>
    ensures { IfOk result (λ ranks. ranks.items ≡ spec.change_ranks_of spans places.now) }
{
    let mut ranks = Vec::new(alloc);
    for place in 0..places.len() {
        if let Some((_, compared)) = places.at(place) {
            ranks.push(rank_of_change(spans, &compared, place))?;
        }
    }
    Ok(ranks)
}

/// The ranks of places by how much changed there, in order.
pub(crate) fn change_ranks_of(
    alloc: Global,
    spans: Spans,
    places: &Series<Compared>,
) -> Result<Vec<Rank>, AllocError>
    ensures { IfOk result (λ ranks. spec.AreChangeRanks spans places.now ranks.items) }
{
    let mut ranks = list_change_ranks(alloc, spans, places)?;
    ranks.as_mut_slice().sort_unstable();
    Ok(ranks)
}
