//! The numbers of streams.

mod given;
mod keeping;

use given::{
    FULL, FULL_NUMBERS, HELD, HELD_END, HELD_END_BY_ID, LEAVING, LEAVING_BY_ID, LEAVING_FEW,
    LEAVING_NUMBERS, LOST, LOST_BY_ID, LOST_NUMBERS, TIMED, TIMED_BEGIN_BY_PLACE, TIMED_END_BY_ID,
    TIMED_END_BY_PLACE, TIMED_OPS_BY_ID,
};
use std::alloc::Global;
use std::io;
use std::io::Write;
use tk_client::{Client, Lints};
use tk_fault::AppFault;
use tk_metrics::{Apart, By, Left, metrics, metrics_stream};
use tk_odd::{Diagnosis, Limits};

// Each label stands by itself.
fn endless(by: By) -> Apart {
    Apart { by, most: None }
}

// Whether a stream's numbers are this text.
fn has_numbers(alloc: Global, stream: &[u8], by: By, text: &str) -> bool {
    has_numbers_of(alloc, stream, endless(by), text)
}

// Whether they are with such an end of labels.
fn has_numbers_of(alloc: Global, stream: &[u8], apart: Apart, text: &str) -> bool {
    let mut reader = stream;
    let mut numbers = Vec::new(alloc);
    let outcome = metrics_stream(alloc, &mut reader, &mut numbers, apart, &Lints::default());
    outcome.is_ok() && numbers.as_slice() == text.as_bytes()
}

#[test]
fn the_numbers_of_a_stream_are_those_of_a_plain_reckoning(rt: HostRuntime) {
    assert!(rt; has_numbers(rt.alloc(), LOST, By::Name, LOST_NUMBERS));
    assert!(rt; has_numbers(rt.alloc(), LOST, By::Id, LOST_BY_ID));
}

#[test]
fn what_has_left_stays_in_the_sums_of_its_name(rt: HostRuntime) {
    assert!(rt; has_numbers(rt.alloc(), LEAVING, By::Name, LEAVING_NUMBERS));
    assert!(rt; has_numbers(rt.alloc(), LEAVING, By::Id, LEAVING_BY_ID));
}

#[test]
fn labels_past_their_end_are_one(rt: HostRuntime) {
    let few = Apart {
        by: By::Name,
        most: Some(1),
    };
    let many = Apart {
        by: By::Id,
        most: Some(1),
    };
    assert!(rt; has_numbers_of(rt.alloc(), LEAVING, few, LEAVING_FEW));
    // Where each task is shown by itself there is no end.
    assert!(rt; has_numbers_of(rt.alloc(), LEAVING, many, LEAVING_BY_ID));
}

#[test]
fn names_stand_escaped_and_sums_stay_at_the_greatest_number(rt: HostRuntime) {
    assert!(rt; has_numbers(rt.alloc(), FULL, By::Name, FULL_NUMBERS));
}

// Whether a stream's numbers end with this text.
fn end_with(alloc: Global, stream: &[u8], by: By, text: &str) -> bool {
    let mut reader = stream;
    let mut numbers = Vec::new(alloc);
    let outcome = metrics_stream(
        alloc,
        &mut reader,
        &mut numbers,
        endless(by),
        &Lints::default(),
    );
    outcome.is_ok() && numbers.as_slice().ends_with(text.as_bytes())
}

#[test]
fn numbers_name_who_holds_up_whom(rt: HostRuntime) {
    assert!(rt; end_with(rt.alloc(), HELD, By::Name, HELD_END));
    assert!(rt; end_with(rt.alloc(), HELD, By::Id, HELD_END_BY_ID));
}

// Where a text begins within the numbers of a stream, if it stands there.
fn stands_in(alloc: Global, stream: &[u8], by: By, text: &str) -> Option<usize> {
    let mut reader = stream;
    let mut numbers = Vec::new(alloc);
    metrics_stream(
        alloc,
        &mut reader,
        &mut numbers,
        endless(by),
        &Lints::default(),
    )
    .ok()?;
    let numbers = String::from_utf8(numbers).ok()?;
    numbers.find(text)
}

#[test]
fn tasks_of_one_place_are_added_up(rt: HostRuntime) {
    assert!(rt; stands_in(rt.alloc(), TIMED, By::Place, TIMED_BEGIN_BY_PLACE) == Some(0));
}

#[test]
fn histograms_are_added_up_and_keep_what_has_left(rt: HostRuntime) {
    assert!(rt; end_with(rt.alloc(), TIMED, By::Place, TIMED_END_BY_PLACE));
    assert!(rt; end_with(rt.alloc(), TIMED, By::Id, TIMED_END_BY_ID));
}

#[test]
fn by_ids_resources_that_have_left_stay_in_the_sums(rt: HostRuntime) {
    assert!(rt; stands_in(rt.alloc(), TIMED, By::Id, TIMED_OPS_BY_ID).is_some());
}

// Whether the numbers of a client's tables are this text, where nothing has left and there were so many lines.
fn tables_have_numbers(
    alloc: Global,
    client: &Client,
    diagnosis: &Diagnosis,
    lines: u64,
    text: &str,
) -> bool {
    let lints = Lints::default();
    let left = Left::none(alloc);
    match metrics(
        alloc,
        By::Name,
        &lints,
        client.tables(),
        left,
        diagnosis,
        lines,
    ) {
        Ok(numbers) => numbers.as_slice() == text.as_bytes(),
        Err(_) => false,
    }
}

// What a check answers of a value that was made. How the value ends is proved here alone, where nothing is known of it. Elsewhere that is
// dear of a client and of a diagnosis.
fn on_made<T: Drop, E: Drop, F: FnOnce(&mut T) -> bool>(made: Result<T, E>, check: F) -> bool
    requires { F.IsAlwaysCallable check }
{
    match made {
        Ok(mut value) => check(&mut value),
        Err(_) => false,
    }
}

// How many bytes a client takes as a line, of which a diagnosis is told.
fn note_line(client: &mut Client, diagnosis: &mut Diagnosis, text: &[u8]) -> Option<usize> {
    match client.feed_line(text) {
        Ok(fed) => {
            let is_noted = match &fed.change {
                Some(change) => diagnosis.note(client.tables(), change).is_ok(),
                None => true,
            };
            is_noted.then_some(fed.used)
        }
        Err(_) => None,
    }
}

// Whether a client takes two lines, of which a diagnosis is told.
fn note_two(client: &mut Client, diagnosis: &mut Diagnosis, stream: &[u8]) -> bool {
    let Some(used) = note_line(client, diagnosis, stream) else {
        return false;
    };
    match stream.get(used..) {
        Some(rest) => note_line(client, diagnosis, rest).is_some(),
        None => false,
    }
}

// Whether the tables after the two lines of a stream have these numbers.
fn two_lines_have_numbers(alloc: Global, stream: &[u8], text: &str) -> bool {
    let limits = Limits {
        long: 100_000_000,
        lints: Lints::default(),
    };
    on_made(Client::new(alloc, 100_000), |client: &mut Client| {
        on_made(Diagnosis::new(alloc, limits), |diagnosis: &mut Diagnosis| {
            note_two(client, diagnosis, stream)
                && tables_have_numbers(alloc, client, diagnosis, 2, text)
        })
    })
}

#[test]
fn tables_have_the_numbers_of_their_stream(rt: HostRuntime) {
    assert!(rt; two_lines_have_numbers(rt.alloc(), LOST, LOST_NUMBERS));
}

// Takes so many bytes, and then gives an error.
#[derive(Drop)]
struct Narrow {
    got: Vec<u8>,
    room: usize,
}

impl Write for Narrow {
    fn write(&mut self, buf: &[u8]) -> io::Result<usize> {
        if self.room == 0 {
            return Err(io::ErrorKind::BrokenPipe.into());
        }
        let n = buf.len().min(self.room);
        self.got.extend_from_slice(&buf[..n])?;
        self.room -= n;
        Ok(n)
    }

    fn flush(&mut self) -> io::Result<()> {
        Ok(())
    }
}

// Whether a writer that takes so many bytes has got just the front of the numbers.
fn keeps_the_front(alloc: Global, room: usize) -> bool {
    let mut reader = LOST;
    let mut writer = Narrow {
        got: Vec::new(alloc),
        room,
    };
    let text = LOST_NUMBERS.as_bytes();
    let front = &text[..room.min(text.len())];
    let outcome = metrics_stream(
        alloc,
        &mut reader,
        &mut writer,
        endless(By::Name),
        &Lints::default(),
    );
    outcome == Err(AppFault::Write) && writer.got.as_slice() == front
}

#[test]
fn a_writer_that_fails_keeps_the_front_that_it_took(rt: HostRuntime) {
    for room in [0usize, 1, 1000] {
        assert!(rt; keeps_the_front(rt.alloc(), room), "{room}");
    }
}

// Whether nothing is written of a stream, which stops by a fault of its own.
fn is_refused(alloc: Global, stream: &[u8]) -> bool {
    let mut reader = stream;
    let mut numbers = Vec::new(alloc);
    let outcome = metrics_stream(
        alloc,
        &mut reader,
        &mut numbers,
        endless(By::Name),
        &Lints::default(),
    );
    matches!(&outcome, Err(AppFault::Stream { .. })) && numbers.is_empty()
}

#[test]
fn nothing_is_written_of_a_stream_with_a_fault(rt: HostRuntime) {
    assert!(rt; is_refused(rt.alloc(), b"{}\n"));
    assert!(rt; is_refused(rt.alloc(), LOST_NUMBERS.as_bytes()));
}
