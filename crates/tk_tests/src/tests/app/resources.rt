//! Resources, as lines tell them, and the calls of their owners and users.

use super::given::{assert_all_stop, assert_all_write, assert_are_bad};

// A resource with two attributes, of which its user changed one.
const NEW: &str =
    r#"{"dropped":[0,0,0],"new_ops":[],"new_resources":[{"attrs":[["permits",null,"u64"],["closed",null,"bool"]],"id":1099511627777,"kind":"Sync","loc":["script",1,1],"parent":null,"type":"Semaphore"}],"new_tasks":[],"now":50,"op_stats":[],"poll_counts":[],"resource_stats":[{"attrs":[3,false],"created":20,"dropped":null,"handles":2,"id":1099511627777}],"seq":1,"snapshot":false,"task_stats":[],"v":1}"#;

// Its user changed the other one too, and its owner closed it.
const CHANGED: &str =
    r#"{"dropped":[0,0,0],"new_ops":[],"new_resources":[],"new_tasks":[],"now":60,"op_stats":[],"poll_counts":[],"resource_stats":[{"attrs":[3,true],"created":20,"dropped":55,"handles":2,"id":1099511627777}],"seq":2,"snapshot":false,"task_stats":[],"v":1}"#;

// A resource without attributes.
const PLAIN: &str =
    r#"{"dropped":[0,0,0],"new_ops":[],"new_resources":[{"attrs":[],"id":1099511627777,"kind":"Sync","loc":["script",1,1],"parent":null,"type":"Notify"}],"new_tasks":[],"now":50,"op_stats":[],"poll_counts":[],"resource_stats":[{"attrs":[],"created":20,"dropped":null,"handles":2,"id":1099511627777}],"seq":1,"snapshot":false,"task_stats":[],"v":1}"#;

// As many attributes as there may be, each at an end of its range.
const SIX: &str =
    r#"{"dropped":[0,0,0],"new_ops":[],"new_resources":[{"attrs":[["a",null,"u64"],["b",null,"u64"],["c",null,"u64"],["d",null,"u64"],["e",null,"u64"],["f",null,"u64"]],"id":1099511627777,"kind":"K","loc":["script",1,1],"parent":null,"type":"T"}],"new_tasks":[],"now":50,"op_stats":[],"poll_counts":[],"resource_stats":[{"attrs":[0,1,2,3,4,18446744073709551615],"created":1,"dropped":null,"handles":2,"id":1099511627777}],"seq":1,"snapshot":false,"task_stats":[],"v":1}"#;

// A signed attribute that went below 0.
const SIGNED: &str =
    r#"{"dropped":[0,0,0],"new_ops":[],"new_resources":[{"attrs":[["lag",null,"i64"]],"id":1099511627777,"kind":"Sync","loc":["script",1,1],"parent":null,"type":"S"}],"new_tasks":[],"now":2,"op_stats":[],"poll_counts":[],"resource_stats":[{"attrs":[[-3]],"created":1,"dropped":null,"handles":2,"id":1099511627777}],"seq":1,"snapshot":false,"task_stats":[],"v":1}"#;

// Six signed attributes: both zeros, a small one, both ends of the range, and one of 20 digits.
const SIX_SIGNED: &str =
    r#"{"dropped":[0,0,0],"new_ops":[],"new_resources":[{"attrs":[["a",null,"i64"],["b",null,"i64"],["c",null,"i64"],["d",null,"i64"],["e",null,"i64"],["f",null,"i64"]],"id":1099511627777,"kind":"K","loc":["script",1,1],"parent":null,"type":"T"}],"new_tasks":[],"now":50,"op_stats":[],"poll_counts":[],"resource_stats":[{"attrs":[[0],[0],[-3],[9223372036854775807],[-9223372036854775808],[-7]],"created":1,"dropped":null,"handles":2,"id":1099511627777}],"seq":1,"snapshot":false,"task_stats":[],"v":1}"#;

// All three kinds, and the signed one from the least number to the greatest: -2^63, then twice 2^63 - 1 more, and 1.
const MIXED: &str =
    r#"{"dropped":[0,0,0],"new_ops":[],"new_resources":[{"attrs":[["a",null,"u64"],["b",null,"i64"],["c",null,"bool"]],"id":1099511627777,"kind":"K","loc":["script",1,1],"parent":null,"type":"T"}],"new_tasks":[],"now":50,"op_stats":[],"poll_counts":[],"resource_stats":[{"attrs":[1,[9223372036854775807],true],"created":1,"dropped":null,"handles":2,"id":1099511627777}],"seq":1,"snapshot":false,"task_stats":[],"v":1}"#;

const CALLED: &[u8] =
    b"resource 20 Sync Semaphore permits=5 closed=false\nrsub 1 0 2\npublish 50\nrset 1 1 true\nradd 1 0 1\nrsub 1 0 1\nrclose 1 55\npublish 60\n";

#[rattlefmt::skip]
const LINES: [(&str, &[u8], &[&str]); 6] = [
    ("a resource and its calls", CALLED, &[NEW, CHANGED]),
    ("no attributes",            b"resource 20 Sync Notify\npublish 50\n", &[PLAIN]),
    ("six attributes",           b"resource 1 K T a=0 b=1 c=2 d=3 e=4 f=18446744073709551615\npublish 50\n", &[SIX]),
    ("a signed attribute",       b"resource 1 Sync S lag=+0\nrsub 1 0 +3\npublish 2\n", &[SIGNED]),
    ("six signed attributes",    b"resource 1 K T a=+0 b=-0 c=-3 d=+9223372036854775807 e=-9223372036854775808 f=-00000000000000000007\npublish 50\n", &[SIX_SIGNED]),
    ("each kind",                b"resource 1 K T a=1 b=+5 c=true\nrset 1 1 -9223372036854775808\nradd 1 1 +9223372036854775807\nrsub 1 1 -9223372036854775807\nradd 1 1 +1\npublish 50\n", &[MIXED]),
];

#[test]
fn resources_are_told(rt: HostRuntime) {
    assert_all_write(&rt, LINES.as_slice());
}

// Each script stops at its last line.
#[rattlefmt::skip]
const REFUSED: [(&str, &[u8], &str); 27] = [
    ("a change after a close",       b"resource 1 Sync S a=1\nrclose 1 2\nradd 1 0 1\n",           "line 3: Closed"),
    ("a second close",               b"resource 1 Sync S a=1\nrclose 1 2\nrclose 1 3\n",           "line 3: NoSuchItem"),
    ("no resource was made",         b"rclose 1 2\n",                                               "line 1: NoSuchItem"),
    ("one resource was made",        b"resource 1 Sync S a=1\nradd 2 0 1\n",                        "line 2: NoSuchItem"),
    ("a close of resource 0",        b"resource 1 Sync S a=1\nrclose 0 1\n",                        "line 2: NoSuchItem"),
    ("a change of resource 0",       b"resource 1 Sync S a=1\nrset 0 0 1\n",                        "line 2: NoSuchItem"),
    ("no attribute at all",          b"resource 1 Sync S\nradd 1 0 1\n",                            "line 2: NoAttribute"),
    ("an attribute after the last", b"resource 1 Sync S a=1\nrset 1 1 1\n",                        "line 2: NoAttribute"),
    ("the greatest index",           b"resource 1 Sync S a=1\nrset 1 18446744073709551615 1\n",     "line 2: NoAttribute"),
    ("a number for a flag",          b"resource 1 Sync S a=true\nrset 1 0 1\n",                     "line 2: WrongKind"),
    ("a flag for a number",          b"resource 1 Sync S a=1\nrset 1 0 true\n",                     "line 2: WrongKind"),
    ("a flag is added",              b"resource 1 Sync S a=true\nradd 1 0 true\n",                  "line 2: WrongKind"),
    ("a flag is taken away",         b"resource 1 Sync S a=true\nrsub 1 0 true\n",                  "line 2: WrongKind"),
    ("below 0",                      b"resource 1 Sync S a=5\nrsub 1 0 6\n",                        "line 2: OutOfRange"),
    ("above the greatest",           b"resource 1 Sync S a=1\nradd 1 0 18446744073709551615\n",     "line 2: OutOfRange"),
    ("a plain number is added to a signed one",   b"resource 1 Sync S a=+5\nradd 1 0 1\n",        "line 2: WrongKind"),
    ("a plain number for a signed one",           b"resource 1 Sync S a=+5\nrset 1 0 5\n",        "line 2: WrongKind"),
    ("a signed number is taken from a plain one", b"resource 1 Sync S a=5\nrsub 1 0 +1\n",        "line 2: WrongKind"),
    ("a signed number for a plain one",           b"resource 1 Sync S a=5\nrset 1 0 +5\n",        "line 2: WrongKind"),
    ("a flag for a signed number",                b"resource 1 Sync S a=-5\nrset 1 0 true\n",     "line 2: WrongKind"),
    ("a signed number for a flag",                b"resource 1 Sync S a=true\nrset 1 0 +1\n",     "line 2: WrongKind"),
    ("above the greatest signed number", b"resource 1 Sync S a=+9223372036854775807\nradd 1 0 +1\n", "line 2: OutOfRange"),
    ("below the least",                  b"resource 1 Sync S a=-9223372036854775808\nradd 1 0 -1\n", "line 2: OutOfRange"),
    ("the least is taken away",          b"resource 1 Sync S a=-0\nrsub 1 0 -9223372036854775808\n", "line 2: OutOfRange"),
    ("a missing word comes first",   b"rclose 1\n",                                                 "line 1: BadCommand"),
    ("the resource comes first",     b"resource 1 Sync S a=1\nradd 2 9 true\n",                     "line 2: NoSuchItem"),
    ("the close comes first",        b"resource 1 Sync S a=1\nrclose 1 2\nradd 1 9 true\n",         "line 3: Closed"),
];

#[test]
fn a_resource_is_there_and_takes_the_change(rt: HostRuntime) {
    assert_all_stop(&rt, REFUSED.as_slice());
}

// Lines that are no command: words that are missing, too many or out of range, and attributes.
#[rattlefmt::skip]
const BAD: [&[u8]; 32] = [
    b"resource", b"resource 1", b"resource 1 Sync", b"resource one Sync S", b"resource 1 \x7f S", b"resource 1 Sync \x7f", b"resource 1  S a=1",
    b"resource 1 Sync S ", b"resource 1 Sync S a", b"resource 1 Sync S =1", b"resource 1 Sync S a=", b"resource 1 Sync S a=True", b"resource 1 Sync S a=-true",
    b"resource 1 Sync S a=18446744073709551616", b"resource 1 Sync S a=b=1", b"resource 1 Sync S a=1=", b"resource 1 Sync S a=1 a=2", b"resource 1 Sync S a=1 b=2 a=true",
    b"resource 1 Sync S a=1 b=1 c=1 d=1 e=1 f=1 g=1", b"resource 1 Sync S \x1f=1",
    b"radd", b"radd 1 0", b"radd 1 0 1 2", b"radd one 0 1", b"radd 1 -1 1", b"radd 1 0 yes", b"rsub 1 0", b"rsub 1 0 TRUE", b"rset 1 0", b"rset 1 0 ", b"rclose", b"rclose 1 2 3",
];

// Values with a sign that are none: out of range, no digit or another byte after the sign, 21 digits.
#[rattlefmt::skip]
const BAD_SIGNED: [&[u8]; 21] = [
    b"resource 1 Sync S a=+9223372036854775808", b"resource 1 Sync S a=-9223372036854775809", b"resource 1 Sync S a=-18446744073709551616",
    b"resource 1 Sync S a=+", b"resource 1 Sync S a=-", b"resource 1 Sync S a=+-1", b"resource 1 Sync S a=-+1", b"resource 1 Sync S a=--1", b"resource 1 Sync S a=+1x",
    b"resource 1 Sync S a=-000000000000000000001", b"resource 1 Sync S a=+000000000000000000001", b"resource 1 Sync S a=1-", b"resource 1 Sync S a=-1.0", b"resource 1 Sync S a=- 1",
    b"radd 1 0 +", b"radd 1 0 -9223372036854775809", b"rsub 1 0 +9223372036854775808", b"rsub 1 0 -", b"rset 1 0 --1", b"rset 1 +0 1", b"rset +1 0 1",
];

#[test]
fn signs_stand_before_digits(rt: HostRuntime) {
    assert_are_bad(&rt, BAD_SIGNED.as_slice());
}

#[test]
fn resources_have_their_words(rt: HostRuntime) {
    assert_are_bad(&rt, BAD.as_slice());
}
