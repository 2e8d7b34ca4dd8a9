//! What an aggregator tells, what it refuses, when closed items leave, and what it does beside threads: a test for each, of checks named as sentences.

mod beside;
mod errors;
mod given;
mod items;
mod memory;
mod refused;
mod retention;
mod tasks;
mod texts;
mod threads;
mod times;
mod waits;
mod writers;

#[test]
fn tells_what_was_recorded(rt: HostRuntime) {
    let alloc = rt.alloc();
    assert!(rt; memory::takes_again_what_found_no_memory(&rt, alloc));
    assert!(rt; tasks::tells_of_no_items(alloc));
    assert!(rt; tasks::tells_of_a_poll_and_all(&rt, alloc));
    assert!(rt; tasks::tells_of_a_dropped_task(&rt, alloc));
    assert!(rt; tasks::tells_in_one_call(&rt, alloc));
    assert!(rt; items::tells_of_each_kind(&rt, alloc));
    assert!(rt; beside::takes_in_beside_its_recorder(&rt, alloc));
}

#[test]
fn refuses_and_goes_on(rt: HostRuntime) {
    let alloc = rt.alloc();
    assert!(rt; errors::are_numbered_and_named(alloc));
    assert!(rt; refused::takes_no_more_than_its_limit(&rt, alloc));
    assert!(rt; refused::never_runs_backwards(alloc));
    assert!(rt; refused::writes_no_line_after_the_last(alloc));
    assert!(rt; refused::refuses_in_order(alloc));
    assert!(rt; writers::goes_out_byte_by_byte(&rt, alloc));
    assert!(rt; writers::goes_on_after_a_cut_second_line(&rt, alloc));
    writers::assert_cut_lines_are_mended(&rt);
}

#[test]
fn lets_closed_items_leave(rt: HostRuntime) {
    let alloc = rt.alloc();
    assert!(rt; retention::leaves_after_its_retention(&rt, alloc));
    assert!(rt; retention::is_told_as_closed_first(&rt, alloc));
    assert!(rt; retention::leaves_byte_by_byte(&rt, alloc));
    retention::assert_it_stays_where_the_line_is_cut_off(&rt);
}

#[test]
fn tells_histograms_of_poll_times(rt: HostRuntime) {
    let alloc = rt.alloc();
    assert!(rt; times::tells_histograms(&rt, alloc));
    assert!(rt; times::lets_histograms_leave(&rt, alloc));
    assert!(rt; times::reads_none_unasked(&rt, alloc));
}

#[test]
fn goes_on_beside_threads(rt: HostRuntime) {
    let alloc = rt.alloc();
    assert!(rt; waits::writes_while_an_offer_is_made(&rt, alloc));
    assert!(rt; threads::is_followed_beside_two_recorders(&rt, alloc));
}
