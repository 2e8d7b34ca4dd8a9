//! What the steps on a buffer tell.
use crate::buffer::view::View;
use crate::item::{Item, Offer};
use crossbeam_queue::protocol::{Join, Lesson, Outcome, Split};
use std::marker::PhantomData;
use tk_cell::Pick;

/// A push of a recorder.
pub(crate) struct Push;

impl Outcome<Item, View> for Push {
    ghost use Rattle.std.specs.Prelude.{◌≡◌};
    ghost use Rattle.tk_events.specs.Offers.{offer_of};
    ghost use Rattle.tk_events.specs.Buffer.{keeps};

    ghost then = { λ v x w. w ≡ keeps v (offer_of x) };
}

impl Lesson<Item, View> for Push {
    ghost use Rattle.tk_events.specs.Buffer.{IsContentFor};

    ghost fact = { IsContentFor };
}

/// A pop of the taker.
pub(crate) struct Pop;

impl Outcome<Item, View> for Pop {
    ghost use Rattle.std.specs.Prelude.{◌≡◌};
    ghost use Rattle.tk_events.specs.Offers.{offer_of, offers_of};
    ghost use Rattle.tk_events.specs.Buffer.{takes, IsBalanced};

    ghost then = { λ v x w. (w ≡ takes v (offer_of x)) × ((left : _) × IsBalanced w (offers_of left)) };
}

impl Lesson<Item, View> for Pop {
    ghost use Rattle.tk_events.specs.Offers.{offers_of};
    ghost use Rattle.tk_events.specs.Buffer.{IsBalanced};

    ghost fact = { λ v items. IsBalanced v (offers_of items) };
}

/// A recorder notes the offer that is picked, which the buffer refused.
pub(crate) struct Note<K> {
    pick: PhantomData<K>,
}

impl<K: Pick<Offer>> Split<View> for Note<K> {
    ghost use Rattle.tk_events.specs.Buffer.{notes, spent};

    ghost left = { notes K.picked };

    ghost right = { λ v. spent };
}

/// The taker sets how many recorders there may be.
pub(crate) struct Limit<K> {
    pick: PhantomData<K>,
}

impl<K: Pick<u64>> Split<View> for Limit<K> {
    ghost use Rattle.tk_events.specs.Buffer.{limits, spent};

    ghost left = { limits K.picked };

    ghost right = { λ v. spent };
}

/// The taker makes the next recorder.
pub(crate) struct Make;

impl Split<View> for Make {
    ghost use Rattle.tk_events.specs.Buffer.{makes, newborn};

    ghost left = { makes };

    ghost right = { newborn };
}

/// The taker takes in what a recorder had offered.
pub(crate) struct TakeIn;

impl Join<View> for TakeIn {
    ghost use Rattle.tk_events.specs.Buffer.{takes_in, spent};

    ghost both = { takes_in };

    ghost spent = { spent };
}

/// The taker gives the one recorder back that it took in.
pub(crate) struct GiveBack;

impl Split<View> for GiveBack {
    ghost use Rattle.tk_events.specs.Buffer.{gives_back, given_back};

    ghost left = { gives_back };

    ghost right = { given_back };
}

/// A recorder lends its pass.
pub(crate) struct Lend;

impl Split<View> for Lend {
    ghost use Rattle.tk_events.specs.Buffer.{spent};

    ghost left = { λ v. spent };

    ghost right = { λ v. v };
}
