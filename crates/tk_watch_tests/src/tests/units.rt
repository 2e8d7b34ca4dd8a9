//! Numbers as people read them.

use std::alloc::Global;
use tk_screen::{put_duration, put_share};

fn reads(alloc: Global, nanos: u64, wanted: &str) -> bool {
    let mut out = String::new(alloc);
    put_duration(&mut out, nanos).is_ok() && out.as_str() == wanted
}

#[test]
fn a_time_is_in_the_greatest_unit_that_it_has_one_of(rt: HostRuntime) {
    for (nanos, wanted) in [
        (0, "0 ns"),
        (999, "999 ns"),
        (1_000, "1.0 us"),
        (1_999, "1.9 us"),
        (999_999, "999.9 us"),
        (1_250_000, "1.2 ms"),
        (999_999_999, "999.9 ms"),
        (1_000_000_000, "1.0 s"),
        (90_000_000_000, "90.0 s"),
        (u64::MAX, "18446744073.7 s"),
    ] {
        assert!(rt; reads(rt.alloc(), nanos, wanted), "at {nanos}");
    }
}

fn shares(alloc: Global, part: u64, whole: u64, wanted: &str) -> bool {
    let mut out = String::new(alloc);
    put_share(&mut out, part, whole).is_ok() && out.as_str() == wanted
}

#[test]
fn a_share_is_rounded_down(rt: HostRuntime) {
    for (part, whole, wanted) in [
        (0, 0, "-"),
        (0, 3, "0%"),
        (2, 3, "66%"),
        (3, 3, "100%"),
        (u64::MAX - 1, u64::MAX, "99%"),
    ] {
        assert!(rt;
            shares(rt.alloc(), part, whole, wanted),
            "{part} of {whole}"
        );
    }
}
