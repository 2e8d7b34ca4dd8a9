//! Histograms of times: the row after some times, its words, and in which bucket a percentile lies.

use std::test::*;
use tk_core::{MOST_HANDLES, Refusal, Reply, TimesCall, TimesRow};

fn after(row: TimesRow, times: &[u64]) -> TimesRow {
    let mut row = row;
    for time in times {
        let (next, _) = row.step(TimesCall::Add(*time));
        row = next;
    }
    row
}

// The first is just below the first bound, and others are just on one.
#[test]
fn a_time_lies_above_the_bounds_that_it_has_reached(rt: HostRuntime) {
    let times = [
        16_383,
        16_384,
        20_000,
        32_768,
        2_000_000_000,
        67_108_863,
        67_108_864,
    ];
    let row = after(TimesRow::opening(), &times);
    assert!(rt; row.counts == [1, 2, 1, 0, 0, 0, 0, 0, 0, 0, 0, 0, 1, 2]);
    assert!(rt; row.longest == 2_000_000_000);
}

#[test]
fn a_histogram_in_words(rt: HostRuntime) {
    let row = after(TimesRow::opening(), &[40_000, 5]);
    let words = [0, 40_000, 1, 0, 1, 0, 0, 0, 0, 0, 0, 0, 0, 0, 0, 0];
    assert!(rt; row.to_words() == words);
    assert!(rt; TimesRow::from_words(&words) == Some(row));
    assert!(rt; TimesRow::opening().to_words() == [0; 16]);
}

#[test]
fn inspectors_are_numbered_until_none_is_left(rt: HostRuntime) {
    let (one, first) = TimesRow::opening().step(TimesCall::Enlist);
    let (two, second) = one.step(TimesCall::Enlist);
    assert!(rt; (first, second) == (Reply::Number(1), Reply::Number(2)));
    assert!(rt; two.step(TimesCall::Read) == (two, Reply::Shown(two)));
    let spent = TimesRow {
        handles: MOST_HANDLES,
        ..two
    };
    let refused = Reply::Refused(Refusal::HandlesSpent);
    assert!(rt; spent.step(TimesCall::Enlist) == (spent, refused));
}

#[test]
fn a_count_stays_at_its_greatest(rt: HostRuntime) {
    let most = u64::MAX;
    let row = TimesRow {
        handles: 0,
        longest: 9,
        counts: [most, 0, 0, 0, 0, 0, 0, 0, 0, 0, 0, 0, 0, 0],
    };
    assert!(rt; after(row, &[5]) == row);
}

// Ninety-eight short times and two long ones.
#[test]
fn percentiles_lie_where_so_many_times_are(rt: HostRuntime) {
    let row = TimesRow {
        handles: 0,
        longest: 2_000_000_000,
        counts: [0, 98, 0, 0, 0, 0, 0, 0, 0, 0, 0, 0, 0, 2],
    };
    assert!(rt; row.percentile(1) == Some(1));
    assert!(rt; row.percentile(50) == Some(1));
    assert!(rt; row.percentile(98) == Some(1));
    assert!(rt; row.percentile(99) == Some(13));
    assert!(rt; row.percentile(100) == Some(13));
    assert!(rt; TimesRow::opening().percentile(50) == None);
}
