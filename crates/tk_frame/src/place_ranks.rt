//! Which places stand on a screen.
ghost use Rattle.std.specs.Prelude.{◌≡◌, ◌<◌, ◌^◌, ◌+◌, IfOk, slice_get};
ghost use Rattle.std.specs.Option.{option_map_or};
ghost use Rattle.tk_frame.specs.Queries as spec;
ghost use Rattle.tk_frame.specs.Walks as inner;

use crate::odd::Odd;
use crate::query::{Query, is_place_shown, place_key};
use crate::ranks::{offer, shown_count};
use std::alloc::{AllocError, Global};
use tk_screen::Top;
use tk_stream::Tables;

fn offer_place(top: &mut Top, odd: &Odd, query: &Query<'_>, i: usize)
    ensures items { top.new.items ≡ option_map_or (λ p. inner.kept_with (spec.place_key query.now p) i top.old.room top.old.items) (slice_get (spec.places_by query.now.recent odd.now) i) top.old.items }
    ensures room { top.new.room ≡ top.old.room }
{
    if let Some((site, figures)) = odd.place_at(query.recent, i) {
        offer(top, place_key(query, site, &figures), i);
    }
}

/// The first places that are shown.
pub(crate) fn top_places(
    alloc: Global,
    odd: &Odd,
    query: &Query<'_>,
    rows: usize,
) -> Result<Top, AllocError>
    ensures { IfOk result (λ top. top.items ≡ spec.top_places query.now rows odd.now) }
{
    let mut top = Top::new(alloc, rows)?;
    for i in 0..odd.place_count(query.recent) {
        offer_place(&mut top, odd, query, i);
    }
    Ok(top)
}

// Counts the place at an index, if it is shown.
fn count_place(count: usize, odd: &Odd, query: &Query<'_>, i: usize) -> usize
    requires { count + 1 < 2 ^ 64 }
    ensures { result ≡ option_map_or (inner.counted_with (spec.is_place_shown query.now) count) (slice_get (spec.places_by query.now.recent odd.now) i) count }
{
    match odd.place_at(query.recent, i) {
        Some((site, figures)) => if is_place_shown(query, site, &figures) {
            count + 1
        } else {
            count
        },
        None => count,
    }
}

/// How many places are shown, on one screen or on several.
pub(crate) fn places_count(odd: &Odd, query: &Query<'_>) -> usize
    ensures { result ≡ spec.places_count query.now odd.now }
{
    let mut count = 0;
    for i in 0..odd.place_count(query.recent) {
        count = count_place(count, odd, query, i);
    }
    count
}

/// How many rows there are of what is shown, on one screen or on several: of places, or of tasks.
pub(crate) fn rows_count(tables: &Tables, odd: &Odd, query: &Query<'_>) -> usize
    ensures { result ≡ spec.rows_count query.now tables.now odd.now }
{
    if query.by_place {
        places_count(odd, query)
    } else {
        shown_count(tables, query)
    }
}
