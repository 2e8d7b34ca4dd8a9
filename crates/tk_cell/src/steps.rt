//! Inner: what each step on a cell tells, and how a pass is split and joined.

use crate::part::Part;
use atomic_table::{Join, Split};
use crossbeam_utils::rule::Outcome;
use std::marker::{Brand, PhantomData};
use tk_core::Sequential;

/// What a step on something shared is about, for the proof alone. A call at `Brand` picks it.
pub trait Pick<T> {
    ghost use Rattle.std.specs.Prelude.{Option};

    ghost picked: { Option T };
}

impl<T> Pick<T> for Brand {
    ghost use Rattle.std.specs.Prelude.{None};

    ghost picked = { None };
}

/// The swap that sets the opening row that is picked.
pub(crate) struct Opens<O, K> {
    object: PhantomData<O>,
    pick: PhantomData<K>,
}

impl<O: Sequential, K: Pick<O>> Outcome<[u64; 16], Part<O, O::Call, O::Reply>> for Opens<O, K> {
    ghost use Rattle.tk_cell.specs.Steps.{OpensAt};

    ghost then = { OpensAt K.picked };
}

/// The load that makes the call that is picked, where that changes no word.
pub(crate) struct Looks<O, K> {
    object: PhantomData<O>,
    pick: PhantomData<K>,
}

impl<O: Sequential, K: Pick<O::Call>> Outcome<[u64; 16], Part<O, O::Call, O::Reply>>
    for Looks<O, K> {
    ghost use Rattle.tk_cell.specs.Steps.{LooksAt};

    ghost then = { LooksAt O.meaning K.picked };
}

/// The exchange that makes the call that is picked.
pub(crate) struct Exchanges<O, K> {
    object: PhantomData<O>,
    pick: PhantomData<K>,
}

impl<O: Sequential, K: Pick<O::Call>> Outcome<[u64; 16], Part<O, O::Call, O::Reply>>
    for Exchanges<O, K> {
    ghost use Rattle.tk_cell.specs.Steps.{ExchangesAt};

    ghost then = { ExchangesAt O.meaning K.picked };
}

/// The load after a token was taken in.
pub(crate) struct Settling<O> {
    object: PhantomData<O>,
}

impl<O: Sequential> Outcome<[u64; 16], Part<O, O::Call, O::Reply>> for Settling<O> {
    ghost use Rattle.tk_cell.specs.Steps.{SettlesAt};

    ghost then = { SettlesAt O.meaning };
}

/// Splits off the caller that is picked.
pub(crate) struct OffSplit<K> {
    pick: PhantomData<K>,
}

impl<O, C, R, K: Pick<u64>> Split<Part<O, C, R>> for OffSplit<K> {
    ghost use Rattle.tk_cell.specs.Parts.{left_of, right_of};

    ghost left = { left_of K.picked };

    ghost right = { right_of K.picked };
}

/// Hands the whole view to another pass.
pub(crate) struct Whole;

impl<O, C, R> Split<Part<O, C, R>> for Whole {
    ghost use Rattle.tk_cell.specs.declared.part.Part.TheVariants.{Spent};

    ghost left = { λ p. Spent };

    ghost right = { λ p. p };
}

/// Takes another view in.
pub(crate) struct Both;

impl<O, C, R> Join<Part<O, C, R>> for Both {
    ghost use Rattle.tk_cell.specs.Parts.{taken_in};
    ghost use Rattle.tk_cell.specs.declared.part.Part.TheVariants.{Spent};

    ghost both = { taken_in };

    ghost spent = { Spent };
}

/// The load after what was told was taken in.
pub(crate) struct Heard<O> {
    object: PhantomData<O>,
}

impl<O: Sequential> Outcome<[u64; 16], Part<O, O::Call, O::Reply>> for Heard<O> {
    ghost use Rattle.tk_cell.specs.Steps.{HearsAt};

    ghost then = { HearsAt O.meaning };
}

/// The load at which two tokens meet.
pub(crate) struct Met<O> {
    object: PhantomData<O>,
}

impl<O: Sequential> Outcome<[u64; 16], Part<O, O::Call, O::Reply>> for Met<O> {
    ghost use Rattle.tk_cell.specs.Steps.{MeetsAt};

    ghost then = { MeetsAt O.meaning };
}

/// Tells what a token has seen.
pub(crate) struct Tells;

impl<O, C, R> Split<Part<O, C, R>> for Tells {
    ghost use Rattle.tk_cell.specs.Parts.{told_of};

    ghost left = { λ p. p };

    ghost right = { told_of };
}

/// Goes on as the caller that is picked.
pub(crate) struct GoesOnAs<K> {
    pick: PhantomData<K>,
}

impl<O, C, R, K: Pick<u64>> Split<Part<O, C, R>> for GoesOnAs<K> {
    ghost use Rattle.tk_cell.specs.Parts.{gone_on};
    ghost use Rattle.tk_cell.specs.declared.part.Part.TheVariants.{Spent};

    ghost left = { gone_on K.picked };

    ghost right = { λ p. Spent };
}

/// Parts two tokens that met.
pub(crate) struct Parting;

impl<O, C, R> Split<Part<O, C, R>> for Parting {
    ghost use Rattle.tk_cell.specs.Parts.{first_of, second_of};

    ghost left = { first_of };

    ghost right = { second_of };
}

/// Takes in what was told.
pub(crate) struct TakesTold;

impl<O, C, R> Join<Part<O, C, R>> for TakesTold {
    ghost use Rattle.tk_cell.specs.Parts.{hearing};
    ghost use Rattle.tk_cell.specs.declared.part.Part.TheVariants.{Spent};

    ghost both = { hearing };

    ghost spent = { Spent };
}
