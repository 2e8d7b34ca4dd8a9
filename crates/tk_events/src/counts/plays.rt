//! What the steps on a table of counts tell.
use crate::counts::view::View;
use atomic_table::{Join, Play, Split};

/// An adder adds 1 to one of its words.
pub(crate) struct Add;

impl Play<u8, View> for Add {
    ghost use Rattle.tk_events.specs.Counts.{Adds};

    ghost then = { Adds };
}

/// The reader reads a word.
pub(crate) struct Read;

impl Play<u8, View> for Read {
    ghost use Rattle.tk_events.specs.Counts.{Reads};

    ghost then = { Reads };
}

/// The reader makes the next adder.
pub(crate) struct Make;

impl Split<View> for Make {
    ghost use Rattle.tk_events.specs.Counts.{makes, newborn};

    ghost left = { makes };

    ghost right = { newborn };
}

/// The reader takes in an adder.
pub(crate) struct TakeIn;

impl Join<View> for TakeIn {
    ghost use Rattle.tk_events.specs.Counts.{takes_in, spent};

    ghost both = { takes_in };

    ghost spent = { spent };
}

/// The reader gives the one adder back that it took in.
pub(crate) struct GiveBack;

impl Split<View> for GiveBack {
    ghost use Rattle.tk_events.specs.Counts.{gives_back, given_back};

    ghost left = { gives_back };

    ghost right = { given_back };
}

/// An adder lends its seat.
pub(crate) struct Lend;

impl Split<View> for Lend {
    ghost use Rattle.tk_events.specs.Counts.{spent};

    ghost left = { λ v. spent };

    ghost right = { λ v. v };
}
