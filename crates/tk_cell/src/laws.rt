//! What holds of every legal history, each law as the contract of a function.
ghost use Rattle.tk_cell.specs.Calls.{PrefixIsLegal};
ghost use Rattle.tk_cell.specs.Ours.{CallsInOrder, HearingAddsNothing, MeetingAddsNothing, JoinsInterleave, AllAreOurs, ItsOwnAreAll, IsAlone, BesideIsWhole};

use tk_core::Sequential;

/// A beginning of a legal history is legal.
pub fn prefix_is_legal<O: Sequential>()
    ensures { PrefixIsLegal O.meaning }
{}

/// What a token has seen of the callers that it holds is each of their calls, in order: a call adds its entry and nothing
/// else, and what is heard of others adds nothing.
pub fn own_calls_stand_in_order<O: Sequential>()
    ensures calls { CallsInOrder O.meaning }
    ensures hearing { HearingAddsNothing O.meaning }
    ensures meeting { MeetingAddsNothing O.meaning }
{}

/// Where two tokens become one, the calls of both, after what both had seen, are interleaved, each list in its order.
pub fn joined_calls_are_interleaved<O: Sequential>()
    ensures { JoinsInterleave O.meaning }
{}

/// A token that holds all callers has seen the whole history, and nothing comes between two of its calls.
pub fn who_holds_all_is_alone<O: Sequential>()
    ensures whole { AllAreOurs O.meaning }
    ensures own { ItsOwnAreAll O.meaning }
    ensures alone { IsAlone O.meaning }
{}

/// Where two tokens hold all whom their own calls made, a call that one makes beside the other is answered after a history of
/// their calls and of no others, each list in its order.
pub fn a_call_beside_sees_all<O: Sequential>()
    ensures { BesideIsWhole O.meaning }
{}
