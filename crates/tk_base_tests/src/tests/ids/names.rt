//! Names.

use crate::tests::printed::is_printed;
use std::alloc::Global;
use tk_ids::{IdError, Name};

const LONGEST: [u8; 1024] = [b'n'; 1024];

const TOO_LONG: [u8; 1025] = [b'n'; 1025];

// Bytes that are a name.
#[rattlefmt::skip]
const NAMES: [(&str, &[u8]); 5] = [
    ("a word",           b"accept"),
    ("one space",        b" "),
    ("the last byte",    b"~"),
    ("any printable",    b"net::accept(\"a\\b\") [#7]"),
    ("1,024 bytes",      &LONGEST),
];

// Bytes that are none.
#[rattlefmt::skip]
const NO_NAMES: [(&str, &[u8]); 6] = [
    ("nothing",                      b""),
    ("1,025 bytes",                  &TOO_LONG),
    ("a byte 0x7F",                  b"del\x7F"),
    ("a byte below the space",       b"tab\x09"),
    ("a letter past ASCII",          b"caf\xC3\xA9"),
    ("a byte that is no UTF-8",      b"\xFF"),
];

fn is_kept(alloc: Global, bytes: &[u8]) -> bool {
    match Name::new(alloc, bytes) {
        Ok(name) => {
            let kept = name.as_bytes() == bytes
                && name.as_str().as_bytes() == bytes
                && is_printed(alloc, &name, name.as_str());
            drop(name);
            kept
        }
        Err(_) => false,
    }
}

#[test]
fn keeps_the_bytes(rt: HostRuntime) {
    let alloc: Global = rt.alloc();
    for (case, bytes) in NAMES {
        assert!(rt; is_kept(alloc, bytes), "{case}");
    }
}

#[test]
fn refuses_what_is_no_name(rt: HostRuntime) {
    let alloc: Global = rt.alloc();
    for (case, bytes) in NO_NAMES {
        assert!(rt;
            Name::new(alloc, bytes).err() == Some(IdError::BadName),
            "{case}"
        );
    }
}

fn has_bytes<E: Drop>(copy: Result<Name, E>, name: &Name) -> bool {
    match copy {
        Ok(copy) => {
            let has = copy == *name && copy.as_bytes() == name.as_bytes();
            drop(copy);
            has
        }
        Err(_) => false,
    }
}

// Whether a copy and a clone of the name are equal to it, and to no longer name.
fn is_copied(alloc: Global, name: &Name) -> bool {
    has_bytes(name.copy(), name)
        && has_bytes(name.clone(), name)
        && !has_bytes(Name::new(alloc, b"accepts"), name)
}

#[test]
fn copies_have_the_bytes(rt: HostRuntime) {
    let alloc: Global = rt.alloc();
    match Name::new(alloc, b"accept") {
        Ok(name) => {
            assert!(rt; is_copied(alloc, &name));
            drop(name);
        }
        Err(_) => assert!(rt; false, "no name"),
    }
}
