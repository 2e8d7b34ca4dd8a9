//! One entry of a history, for contracts and for programs that keep a list of calls.

/// A call, by whom it was made, and its reply. Caller 0 is the owner; another caller has the number that a call answered.
#[derive(Clone, Copy, Debug, PartialEq, Eq)]
pub struct Entry<C, R> {
    pub caller: u64,
    pub call: C,
    pub reply: R,
}
