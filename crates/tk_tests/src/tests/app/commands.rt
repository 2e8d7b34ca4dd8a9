//! Lines that are no command.

use super::given::{assert_are_bad, runs_from};
use super::readers::Trickle;

// Words that are no command, and a byte that is no text.
#[rattlefmt::skip]
const UNKNOWN: [&[u8]; 7] = [
    b"tusk 1 spawn a", b"Task 1 spawn a", b"TASK 1 spawn a", b"tas 1 spawn a", b"tasks 1 spawn a", b"publishes 1", b"\xff",
];

// Too few words and too many.
#[rattlefmt::skip]
const WRONG_NUMBER_OF_WORDS: [&[u8]; 38] = [
    b"task", b"task 1", b"task 1 spawn", b"task 1 spawn a b",
    b"start", b"start 1", b"start 1 2 3", b"end", b"end 1", b"end 1 2 3", b"close", b"close 1", b"close 1 2 3",
    b"polls", b"polls 1 2 3", b"polls 1 2 3 4", b"polls 1 2 3 4 5 6",
    b"publish", b"publish 1 2", b"publish 1 main", b"snapshot", b"snapshot 1 2",
    b"selfwake", b"selfwake 1", b"selfwake 1 2 3", b"clone", b"clone 1 2", b"again", b"again 1 2",
    b"wakeref", b"wakeref 1", b"wakeref 1 2 3", b"wake", b"wake 1", b"wake 1 2 3", b"release", b"release 1 2", b"release 1 x",
];

#[test]
fn words_are_known_and_counted(rt: HostRuntime) {
    assert_are_bad(&rt, UNKNOWN.as_slice());
    assert_are_bad(&rt, WRONG_NUMBER_OF_WORDS.as_slice());
}

// 2^64, signs, 21 digits, and words that are no number.
#[rattlefmt::skip]
const NUMBERS: [&[u8]; 22] = [
    b"publish 18446744073709551616", b"publish 99999999999999999999", b"publish -1", b"publish +1",
    b"publish 000000000000000000001", b"publish 1a", b"publish 0x1", b"publish 1_000", b"publish 1.0", b"publish \xd9\xa1",
    b"task -1 spawn a", b"start one 5", b"end 1 five", b"close 18446744073709551616 5",
    b"snapshot -1", b"selfwake 1 -1", b"clone one", b"again 0x1", b"wake 1 18446744073709551616", b"release +1",
    b"polls 1 2 3 4 -1", b"polls 1 2 3 4 18446744073709551616",
];

// Words that are no kind, and names that are empty or have a byte outside 0x20 to 0x7E.
#[rattlefmt::skip]
const KINDS_AND_NAMES: [&[u8]; 10] = [
    b"task 1 Spawn a", b"task 1 spawned a", b"task 1 block a", b"task 1 a spawn", b"task spawn 1 a",
    b"task 1 spawn ", b"task 1 spawn a\x7f", b"task 1 spawn \x1f", b"task 1 spawn \x00", b"task 1 spawn caf\xc3\xa9",
];

#[test]
fn words_are_in_their_range(rt: HostRuntime) {
    assert_are_bad(&rt, NUMBERS.as_slice());
    assert_are_bad(&rt, KINDS_AND_NAMES.as_slice());
}

// Spaces that are too many, and other bytes that look like one.
#[rattlefmt::skip]
const SPACES: [&[u8]; 9] = [
    b"task  1 spawn a", b"task 1 spawn  a", b" publish 5", b"publish 5 ", b"publish\t5", b"publish 5\r\n", b" ", b" # a", b"\t",
];

#[test]
fn words_stand_between_single_spaces(rt: HostRuntime) {
    assert_are_bad(&rt, SPACES.as_slice());
}

// A name has at most 1,024 bytes.
#[rattlefmt::skip]
const LENGTHS: [(usize, &str); 3] = [(1, ""), (1_024, ""), (1_025, "line 1: BadCommand")];

#[test]
fn a_name_has_at_most_1024_bytes(rt: HostRuntime) {
    for (length, fault) in LENGTHS {
        let mut reader = Trickle {
            bytes: b"task 1 spawn ",
            padding: length,
            fails: false,
        };
        assert!(rt; runs_from(&rt, &mut reader, fault, ""), "{length} bytes");
    }
}
