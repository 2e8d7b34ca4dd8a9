//! Numbers and texts of refusals.

use crate::tests::printed::is_printed;
use std::alloc::Global;
use tk_core::Refusal;

#[rattlefmt::skip]
const REFUSALS: [(Refusal, u32, &str); 8] = [
    (Refusal::AlreadyPolling, 1, "a poll is open"),
    (Refusal::NotPolling, 2, "no poll is open"),
    (Refusal::Closed, 3, "the item is closed"),
    (Refusal::HandlesSpent, 4, "no more handles can be drawn"),
    (Refusal::NoAttribute, 5, "there is no attribute of this index"),
    (Refusal::WrongKind, 6, "the attribute is of another kind"),
    (Refusal::OutOfRange, 7, "the attribute would leave its range"),
    (Refusal::Memory, 8, "out of memory"),
];

#[test]
fn each_refusal_has_a_number_and_a_text(rt: HostRuntime) {
    let alloc: Global = rt.alloc();
    for (refusal, code, text) in REFUSALS {
        assert!(rt;
            refusal.code() == code && is_printed(alloc, &refusal, text),
            "{text}"
        );
    }
}
