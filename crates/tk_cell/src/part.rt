//! Inner: the rule of a cell, and what it sees of each token.

use crate::view::View;
use crossbeam_utils::rule::Protocol;
use std::marker::PhantomData;
use tk_core::Sequential;

/// What the rule sees of one token. No value of it is made.
pub enum Part<O, C, R> {
    /// The cell has no opening row yet.
    Unopened,
    /// A token with this view.
    One(View<O, C, R>),
    /// A token that took in another one, with the second view, before the load by which it learns which of the two has seen more.
    Two(View<O, C, R>, View<O, C, R>),
    /// What a token had seen when it told of it: no number is held, and no call made by it.
    Told(View<O, C, R>),
    /// A token that hears what was told, with the second view, before the load by which it learns which of the two has seen more.
    Hearing(View<O, C, R>, View<O, C, R>),
    /// A token that was handed on, or taken in.
    Spent,
}

/// The rule of a cell: its words are those of one legal history, of which each token has seen a part.
pub struct Rule<O> {
    object: PhantomData<O>,
}

impl<O: Sequential> Protocol<[u64; 16], Part<O, O::Call, O::Reply>> for Rule<O> {
    ghost use Rattle.tk_cell.specs.Parts.{Kept};
    ghost use Rattle.tk_cell.specs.declared.part.Part.TheVariants.{Unopened};

    ghost holds = { Kept O.meaning };

    ghost first = { Unopened };
}
