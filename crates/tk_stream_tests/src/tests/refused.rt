//! Texts that are no lines, and the errors.

use super::given::{changed, error_of};
use super::texts::{EMPTY, FULL, GONE, TIMED, WAIT_TIMED, WAITED, WAITED_TIMED};
use std::alloc::Global;
use std::test::Fail;
use tk_stream::LineError;

// What `serde_json` does not read: no text, words that are no JSON, no UTF-8, a bare line end in a text, and a fault after what
// no line has: another item, another kind of list, and a seventeenth key.
#[rattlefmt::skip]
const NO_JSON: [&[u8]; 13] = [
    b"", b" \n", b"line", b"{\"v\":1", b"{\"v\":1,}", b"1 2", b"\"\xFF\"", b"\"a\nb\"",
    b"{\"new_tasks\":[0,1e999]}", b"{\"new_tasks\":[0,{\"\":[}]}", b"{\"new_tasks\":{\"a\":01}}", b"{\"v\":1} 1",
    b"{\"a\":0,\"b\":0,\"c\":0,\"d\":0,\"e\":0,\"f\":0,\"g\":0,\"h\":0,\"i\":0,\"j\":0,\"k\":0,\"l\":0,\"m\":0,\"n\":0,\"o\":0,\"p\":0,\"q\":0,\"r\":-}",
];

// Values that are not of a line's kind, and an object with more keys than a line has.
#[rattlefmt::skip]
const NO_LINES: [&[u8]; 6] = [
    b"null", b"1", b"\"line\"", b"[]", b"{}",
    b"{\"a\":0,\"b\":0,\"c\":0,\"d\":0,\"e\":0,\"f\":0,\"g\":0,\"h\":0,\"i\":0,\"j\":0,\"k\":0,\"l\":0,\"m\":0,\"n\":0,\"o\":0,\"p\":0,\"q\":0}",
];

// A change of the full line after which it is no line: what stood there, and what stands there then.
#[rattlefmt::skip]
const NUMBERS: [(&str, &str); 22] = [
    ("\"v\":1",                            "\"v\":1,\"w\":1"),
    (",\"v\":1",                           ""),
    ("\"v\":1",                            "\"v\":2"),
    ("\"v\":1",                            "\"v\":\"1\""),
    ("\"v\":1",                            "\"w\":1"),
    ("\"seq\":9223372036854775808",        "\"seq\":0"),
    ("\"seq\":9223372036854775808",        "\"seq\":9223372036854775809"),
    ("\"snapshot\":true",                  "\"snapshot\":1"),
    ("\"now\":18446744073709551615",       "\"now\":-1"),
    ("\"now\":18446744073709551615",       "\"now\":1.0"),
    ("\"now\":18446744073709551615",       "\"now\":18446744073709551616"),
    ("\"now\":18446744073709551615",       "\"now\":null"),
    ("[1,2,18446744073709551615]",         "[1,2]"),
    ("[1,2,18446744073709551615]",         "[1,2,3,4]"),
    ("[1,2,18446744073709551615]",         "{\"tasks\":1}"),
    ("\"poll_counts\":[[1099511627777,1,0]]", "\"poll_counts\":null"),
    ("[1099511627777,1,0]",                "[1099511627777,1]"),
    ("[1099511627777,1,0]",                "[1,1,0]"),
    ("[1099511627777,1,0]",                "[71468255805441,1,0]"),
    ("[1099511627777,1,0]",                "[1099511627776,1,0]"),
    ("\"task\":1099511627777",             "\"task\":1"),
    ("\"task\":1099511627777",             "\"task\":false"),
];

// A change of an info in the full line after which it is no line: what stood there, and what stands there then.
#[rattlefmt::skip]
const INFOS: [(&str, &str); 20] = [
    ("\"blocking\"",                       "\"block\""),
    ("\"Sync\"",                           "\"\""),
    ("\"Sync\"",                           "\"a\\tb\""),
    ("\"Sync\"",                           "\"\\u00e9\""),
    ("\"Sync\"",                           "null"),
    ("[\"script\",1,1]",                   "[\"script\",4294967296,1]"),
    ("[\"script\",1,1]",                   "[\"script\",1,4294967296]"),
    ("[\"script\",1,1]",                   "[\"script\",1]"),
    ("\"u64\"",                            "\"u32\""),
    ("\"u64\"",                            "\"i32\""),
    ("\"u64\"",                            "[\"i64\"]"),
    ("\"count\"",                          "1"),
    ("\"count\"",                          "\"\""),
    ("[\"closed\",null,\"bool\"]",         "[\"closed\",\"bool\"]"),
    ("[\"closed\",null,\"bool\"]",         "[\"permits\",null,\"bool\"]"),
    ("[\"closed\",null,\"bool\"]",
     "[\"a\",null,\"bool\"],[\"b\",null,\"bool\"],[\"c\",null,\"bool\"],[\"d\",null,\"bool\"],[\"e\",null,\"bool\"],[\"f\",null,\"bool\"]"),
    ("\"parent\":1099511627779",           "\"parent\":1"),
    ("\"parent\":1099511627778",           "\"parent\":\"1099511627778\""),
    (",\"source\":\"Semaphore::acquire\"", ""),
    (",\"type\":\"Semaphore\"",            ",\"type\":\"Semaphore\",\"types\":1"),
];

// A change of a row in the full line after which it is no line: what stood there, and what stands there then.
#[rattlefmt::skip]
const ROWS: [(&str, &str); 21] = [
    ("[3,true]",       "[3,true,1,2,3,4,5]"),
    ("[3,true]",       "[3,\"true\"]"),
    ("[3,true]",       "[-3,true]"),
    ("[3,true]",       "[[9223372036854775808],true]"),
    ("[3,true]",       "[[-9223372036854775809],true]"),
    ("[3,true]",       "[[1,2],true]"),
    ("[3,true]",       "[[],true]"),
    ("[3,true]",       "[[1.0],true]"),
    ("[3,true]",       "[[1e2],true]"),
    ("[3,true]",       "[[-0],true]"),
    ("[3,true]",       "[[\"1\"],true]"),
    ("[3,true]",       "[[true],true]"),
    ("[3,true]",       "[[null],true]"),
    ("[3,true]",       "[[[3]],true]"),
    ("[3,true]",       "[{\"0\":3},true]"),
    (",\"wakes\":8",   ""),
    (",\"wakes\":8",   ",\"wakes\":8,\"woken\":8"),
    (",\"wakes\":8",   ",\"woken\":8"),
    (",\"wakes\":8",   ",\"wakes\":null"),
    (",\"polls\":1",   ""),
    (",\"handles\":2", ""),
];

// Changes of the line that says what is gone after which it is no line.
#[rattlefmt::skip]
const GONE_LISTS: [(&str, &str); 10] = [
    ("\"v\":2",                                "\"v\":1"),
    ("\"v\":2",                                "\"v\":3"),
    ("\"v\":2",                                "\"v\":2,\"w\":1"),
    (",\"gone_ops\":[1099511627780]",          ""),
    ("\"gone_tasks\"",                         "\"gone_task\""),
    ("\"gone_resources\":[]",                  "\"gone_resources\":null"),
    ("[1099511627780]",                        "[1]"),
    ("[1099511627780]",                        "[\"1099511627780\"]"),
    ("[1099511627780]",                        "[[1099511627780]]"),
    ("[1099511627777,1099511627779]",          "1099511627777"),
];

// Changes of the line that tells histograms after which it is no line: of its version, of a bucket, of buckets that don't rise, of
// one that is empty, and of the keys of a histogram.
#[rattlefmt::skip]
const HISTOGRAMS: [(&str, &str); 18] = [
    ("\"v\":3",                     "\"v\":2"),
    ("\"v\":3",                     "\"v\":4"),
    ("\"v\":3",                     "\"v\":3,\"w\":1"),
    ("\"gone_ops\":[],",            ""),
    ("\"task_times\"",              "\"task_time\""),
    ("[13,1]",                      "[14,1]"),
    ("[13,1]",                      "[13,0]"),
    ("[13,1]",                      "[4,1]"),
    ("[13,1]",                      "[3,1]"),
    ("[13,1]",                      "[13,1,1]"),
    ("[13,1]",                      "[13]"),
    ("[13,1]",                      "13"),
    ("[13,1]",                      "[13,1.0]"),
    ("[13,14]",                     "[13,14],[14,1]"),
    ("\"counts\":[],",              ""),
    ("\"longest\":0",               "\"longest\":-1"),
    ("\"longest\":0",               "\"longest\":0,\"shortest\":0"),
    ("\"id\":1099511627778",        "\"id\":1"),
];

// Changes of what a row says that counts its waits, and of the version: 4 has a row that does, and no other has one.
#[rattlefmt::skip]
const WAITS: [(&str, &str); 14] = [
    ("\"v\":4",                "\"v\":1"),
    ("\"v\":4",                "\"v\":2"),
    ("\"v\":4",                "\"v\":3"),
    ("\"v\":4",                "\"v\":5"),
    ("[5,18446744073709551615,72057594037927935]", "5"),
    ("[5,18446744073709551615,72057594037927935]", "[5]"),
    ("[5,18446744073709551615,72057594037927935]", "[5,6]"),
    ("[5,18446744073709551615,72057594037927935]", "[5,6,7,8]"),
    ("[5,18446744073709551615,72057594037927935]", "[5,null,7]"),
    ("[5,18446744073709551615,72057594037927935]", "[5,6,null]"),
    ("[5,18446744073709551615,72057594037927935]", "[5,18446744073709551616,7]"),
    ("72057594037927935]",   "72057594037927936]"),
    ("72057594037927935]",   "18446744073709551615]"),
    ("72057594037927935]",   "-1]"),
];

// Changes of a line that tells histograms of waits after which it is no line: of its version, of the two keys that waits have, and of
// a bucket.
#[rattlefmt::skip]
const WAIT_HISTOGRAMS: [(&str, &str); 15] = [
    ("\"v\":4",              "\"v\":3"),
    ("\"v\":4",              "\"v\":2"),
    ("\"v\":4",              "\"v\":1"),
    (",\"longest_wait\":0",  ""),
    (",\"waits\":[]",        ""),
    ("\"waits\":[]",         "\"waits\":null"),
    ("\"waits\":[]",         "\"waits\":0"),
    ("\"waits\":[]",         "\"waits\":[],\"shortest\":0"),
    ("\"longest_wait\":0",   "\"longest_wait\":-1"),
    ("\"longest_wait\":0",   "\"longest_waits\":0"),
    ("\"counts\":[],",       ""),
    ("[13,1]",               "[14,1]"),
    ("[13,1]",               "[13,0]"),
    ("[13,1]",               "[3,1]"),
    ("[13,1]",               "[13,18446744073709551616]"),
];

// Changes of a line of version 1 after which it is none.
#[rattlefmt::skip]
const PLAIN: [(&str, &str); 4] = [
    ("\"new_tasks\":[]",   "\"new_tasks\":[],\"new_tasks\":[0]"),
    ("\"new_tasks\":[]",   "\"new_tasks\":[],\"new_tasks\":null"),
    ("\"v\":1",              "\"v\":2"),
    ("\"dropped\":[0,0,0],", "\"dropped\":[0,0,0],\"gone_ops\":[],\"gone_resources\":[],\"gone_tasks\":[],"),
];

fn all_are(alloc: Global, texts: &[&[u8]], wanted: LineError) -> bool {
    for text in texts {
        if error_of(alloc, text) != Some(wanted) {
            return false;
        }
    }
    true
}

fn is_bad_shape(alloc: Global, line: &str, old: &str, new: &str) -> bool {
    match changed(alloc, line, old, new) {
        Some(text) => error_of(alloc, text.as_bytes()) == Some(LineError::BadShape),
        None => false,
    }
}

fn all_are_bad_shapes(alloc: Global, line: &str, changes: &[(&str, &str)]) -> bool {
    for (old, new) in changes {
        if !is_bad_shape(alloc, line, old, new) {
            return false;
        }
    }
    true
}

#[test]
fn refuses_what_is_no_json(rt: HostRuntime) {
    assert!(rt; all_are(rt.alloc(), NO_JSON.as_slice(), LineError::BadJson));
}

#[test]
fn refuses_values_of_other_kinds(rt: HostRuntime) {
    assert!(rt; all_are(rt.alloc(), NO_LINES.as_slice(), LineError::BadShape));
}

#[test]
fn refuses_other_numbers(rt: HostRuntime) {
    assert!(rt; all_are_bad_shapes(rt.alloc(), FULL, NUMBERS.as_slice()));
}

#[test]
fn refuses_other_infos(rt: HostRuntime) {
    assert!(rt; all_are_bad_shapes(rt.alloc(), FULL, INFOS.as_slice()));
}

#[test]
fn refuses_other_rows(rt: HostRuntime) {
    assert!(rt; all_are_bad_shapes(rt.alloc(), FULL, ROWS.as_slice()));
}

#[test]
fn refuses_other_versions(rt: HostRuntime) {
    assert!(rt; all_are_bad_shapes(rt.alloc(), GONE, GONE_LISTS.as_slice()));
    assert!(rt; all_are_bad_shapes(rt.alloc(), EMPTY, PLAIN.as_slice()));
}

#[test]
fn refuses_other_histograms(rt: HostRuntime) {
    assert!(rt; all_are_bad_shapes(rt.alloc(), TIMED, HISTOGRAMS.as_slice()));
    assert!(rt; all_are_bad_shapes(rt.alloc(), WAIT_TIMED, WAIT_HISTOGRAMS.as_slice()));
}

#[test]
fn refuses_other_waits(rt: HostRuntime) {
    assert!(rt; all_are_bad_shapes(rt.alloc(), WAITED, WAITS.as_slice()));
    assert!(rt; all_are_bad_shapes(rt.alloc(), WAITED_TIMED, WAITS.as_slice()));
}

// So many arrays, each in the one before it.
fn nested(alloc: Global, depth: u32) -> Option<String> {
    let mut text = String::new(alloc);
    for _i in 0..depth {
        text.push('[').ok()?;
    }
    for _i in 0..depth {
        text.push(']').ok()?;
    }
    Some(text)
}

fn error_of_nested(alloc: Global, depth: u32) -> Option<LineError> {
    let text = nested(alloc, depth)?;
    error_of(alloc, text.as_bytes())
}

// `serde_json` reads values that nest 127 deep.
#[test]
fn refuses_what_nests_too_deep(rt: HostRuntime) {
    assert!(rt; error_of_nested(rt.alloc(), 127) == Some(LineError::BadShape));
    assert!(rt; error_of_nested(rt.alloc(), 128) == Some(LineError::BadJson));
}

// Each error has its number and its text.
#[rattlefmt::skip]
const ERRORS: [(LineError, u32, &str); 3] = [
    (LineError::Memory,   1, "out of memory"),
    (LineError::BadJson,  2, "the line is not JSON"),
    (LineError::BadShape, 3, "the JSON is not a line"),
];

#[test]
fn numbers_and_names_errors(rt: HostRuntime) -> Result<(), Fail> {
    for (error, number, text) in ERRORS {
        let printed = format!(in rt.alloc(); "{error}")?;
        assert!(rt;
            error.code() == number && printed.as_str() == text,
            "{text}"
        );
    }
    Ok(())
}
