//! Rows as sixteen words.

use std::test::*;
use tk_core::{OpCall, OpRow, ResourceRow, TaskCall, TaskRow};
use tk_ids::{AttrValue, TaskId};

// A task that was polled, woken and closed: every moment is present, so five flags, and it is not scheduled.
const TASK: [u64; 16] = [
    31, 100, 400, 1, 150, 150, 170, 20, 2, 1, 310, 1, 1, 1, 50, 0,
];

#[test]
fn a_task_in_words(rt: HostRuntime) {
    let calls = [
        TaskCall::PollStart(150),
        TaskCall::CloneWaker,
        TaskCall::WakeRef(160, true),
        TaskCall::PollEnd(170),
        TaskCall::WakeVal(310, false),
        TaskCall::Close(400),
    ];
    let (row, _) = super::polls::run(100, &calls);
    assert!(rt; row.to_words() == TASK);
    assert!(rt; TaskRow::from_words(&TASK) == Some(row));
    assert!(rt;
        TaskRow::opening(7).to_words() == [64, 7, 0, 0, 0, 0, 0, 0, 0, 0, 0, 0, 0, 0, 0, 0]
    );
}

// Bits 8 to 10 are the number of attributes, and bit 16 + i says that attribute i is a bool.
const RESOURCE: [u64; 16] = [
    2 * 256 + 2 * 65536,
    20,
    0,
    0,
    5,
    1,
    0,
    0,
    0,
    0,
    0,
    0,
    0,
    0,
    0,
    0,
];

#[test]
fn a_resource_in_words(rt: HostRuntime) {
    let row = ResourceRow::opening(20, &[AttrValue::U64(5), AttrValue::Bool(true)]);
    assert!(rt; row.to_words() == RESOURCE);
    assert!(rt; ResourceRow::from_words(&RESOURCE) == Some(row));
}

// Bit 24 + i says that attribute i is signed, and its word is the number's two's complement: 2^64 - 3 of -3.
const SIGNED_RESOURCE: [u64; 16] = [
    3 * 256 + 2 * 65536 + (1 + 4) * 16777216,
    20,
    0,
    0,
    18446744073709551613,
    0,
    9223372036854775808,
    0,
    0,
    0,
    0,
    0,
    0,
    0,
    0,
    0,
];

#[test]
fn a_resource_with_signed_numbers_in_words(rt: HostRuntime) {
    let values = [
        AttrValue::I64(-3),
        AttrValue::Bool(false),
        AttrValue::I64(-9223372036854775808),
    ];
    let row = ResourceRow::opening(20, &values);
    assert!(rt; row.to_words() == SIGNED_RESOURCE);
    assert!(rt; ResourceRow::from_words(&SIGNED_RESOURCE) == Some(row));
}

// Flags: the poll that is open, and one attribute.
const OP: [u64; 16] = [
    2 + 4 + 16 + 256,
    30,
    0,
    1,
    40,
    40,
    0,
    0,
    1,
    1099511627777,
    9,
    0,
    0,
    0,
    0,
    0,
];

#[test]
fn an_operation_in_words(rt: HostRuntime) -> Result<(), Fail> {
    let task = TaskId::from_value(1099511627777)?;
    let (row, _) = OpRow::opening(30, &[AttrValue::U64(9)]).step(OpCall::SetTask(task));
    let (row, _) = row.step(OpCall::Enlist);
    let (row, _) = row.step(OpCall::PollStart(40));
    assert!(rt; row.to_words() == OP);
    assert!(rt; OpRow::from_words(&OP) == Some(row));
    Ok(())
}

// Six attributes, the first unsigned and the others signed.
const SIGNED_OP: [u64; 16] = [
    6 * 256 + (2 + 4 + 8 + 16 + 32) * 16777216,
    30,
    0,
    0,
    0,
    0,
    0,
    0,
    0,
    0,
    18446744073709551613,
    18446744073709551615,
    0,
    9223372036854775807,
    9223372036854775808,
    18446744073709551611,
];

#[test]
fn an_operation_with_signed_numbers_in_words(rt: HostRuntime) {
    let values = [
        AttrValue::U64(18446744073709551613),
        AttrValue::I64(-1),
        AttrValue::I64(0),
        AttrValue::I64(9223372036854775807),
        AttrValue::I64(-9223372036854775808),
        AttrValue::I64(-5),
    ];
    let row = OpRow::opening(30, &values);
    assert!(rt; row.to_words() == SIGNED_OP);
    assert!(rt; OpRow::from_words(&SIGNED_OP) == Some(row));
}

// Words that no row has, each by one word of a row that was changed.
#[rattlefmt::skip]
const STRAY: [(&str, usize, u64); 7] = [
    ("a flag after the last", 0, 64 + 512),
    ("a moment without its flag", 2, 5),
    ("a last wake without its flag", 10, 5),
    ("what was waited without its flag", 15, 1),
    ("what was counted of a wait without its flag", 0, 64 + 256 * 20),
    ("an attribute's bit", 0, 64 + 256),
    ("the highest bit", 0, 1 << 63),
];

#[test]
fn words_of_no_task(rt: HostRuntime) {
    for (case, index, word) in STRAY {
        let mut words = TaskRow::opening(7).to_words();
        if index < 16 {
            words[index] = word;
        }
        assert!(rt; TaskRow::from_words(&words) == None, "{case}");
    }
}

#[rattlefmt::skip]
const STRAY_RESOURCE: [(&str, usize, u64); 11] = [
    ("seven attributes", 0, 7 * 256 + 2 * 65536),
    ("a bool of 2", 5, 2),
    ("a bool after the last attribute", 0, 2 * 256 + 4 * 65536),
    ("a value after the last attribute", 6, 1),
    ("a flag of a poll", 0, 2 + 2 * 256 + 2 * 65536),
    ("a bool that is signed too", 0, 2 * 256 + 2 * 65536 + 2 * 16777216),
    ("a signed number after the last attribute", 0, 2 * 256 + 2 * 65536 + 4 * 16777216),
    ("a bool after the sixth attribute", 0, 2 * 256 + (2 + 64) * 65536),
    ("a bool at the byte's last bit", 0, 2 * 256 + (2 + 128) * 65536),
    ("a signed number after the sixth attribute", 0, 2 * 256 + 2 * 65536 + 64 * 16777216),
    ("a signed number at the byte's last bit", 0, 2 * 256 + 2 * 65536 + 128 * 16777216),
];

#[test]
fn words_of_no_resource(rt: HostRuntime) {
    for (case, index, word) in STRAY_RESOURCE {
        let mut words = RESOURCE;
        if index < 16 {
            words[index] = word;
        }
        assert!(rt; ResourceRow::from_words(&words) == None, "{case}");
    }
}

#[rattlefmt::skip]
const STRAY_OP: [(&str, usize, u64); 8] = [
    ("a task by a number that is no id", 9, 1099511627776),
    ("a flag of a wake", 0, 2 + 4 + 16 + 32 + 256),
    ("a value after the last attribute", 11, 1),
    ("a bool that is signed too", 0, 2 + 4 + 16 + 256 + 65536 + 16777216),
    ("a bool after the sixth attribute", 0, 2 + 4 + 16 + 256 + 64 * 65536),
    ("a bool at the byte's last bit", 0, 2 + 4 + 16 + 256 + 128 * 65536),
    ("a signed number after the sixth attribute", 0, 2 + 4 + 16 + 256 + 64 * 16777216),
    ("a signed number at the byte's last bit", 0, 2 + 4 + 16 + 256 + 128 * 16777216),
];

#[test]
fn words_of_no_operation(rt: HostRuntime) {
    for (case, index, word) in STRAY_OP {
        let mut words = OP;
        if index < 16 {
            words[index] = word;
        }
        assert!(rt; OpRow::from_words(&words) == None, "{case}");
    }
}
