//! What holds of every legal history, each law as the contract of a function.
ghost use Rattle.tk_core.specs.declared.task.row.TaskRow.{TaskRow};
ghost use Rattle.tk_core.specs.Legal.{IsLegal};
ghost use Rattle.tk_core.specs.Task.{IsOpening};
ghost use Rattle.tk_core.specs.TaskMeaning.{task_meaning};
ghost use Rattle.tk_cell.specs.Views.{IsDistinct};
ghost use Rattle.tk_core.specs.OpMeaning.{op_meaning};
ghost use Rattle.tk_core.specs.ResourceMeaning.{resource_meaning};
ghost use Rattle.tk_core.specs.declared.op.call.OpCall.TheVariants as op_calls;
ghost use Rattle.tk_core.specs.declared.resource.call.ResourceCall.TheVariants as resource_calls;
ghost use Rattle.tk_core.specs.declared.task.call.TaskCall.TheVariants as task_calls;
ghost use Rattle.tk_ledgers.specs.Beside.{ShowsTheirCalls};
ghost use Rattle.tk_ledgers.specs.Called.{CallsAreCalled, ReadingsShowCalled, TasksTellCalled, ResourcesTellCalled, OpsTellCalled};
ghost use Rattle.tk_ledgers.specs.Callers.{CallsKeepAll, HandingOutKeepsAll, TakingBackKeepsAll, BesideKeepsAll, CallsKeepOnly, CallsKeepLive, DrawnIsNew, HandingOutKeepsLive, HandlesStayLive, TakingBackKeepsLive};
ghost use Rattle.tk_ledgers.specs.Handles.{DrawsAlone};
ghost use Rattle.tk_ledgers.specs.Ops.{OpsTellPolls};
ghost use Rattle.tk_ledgers.specs.Resources.{ResourcesTellCloses};
ghost use Rattle.tk_ledgers.specs.Scopes.{StaysTimed};
ghost use Rattle.tk_ledgers.specs.Tasks.{TaskEntries, TasksTellPolls};
ghost use Rattle.tk_ledgers.specs.Times.{ShowsFirstPolls, ShowsFirstBefore, ShowsAllPolls};
ghost use Rattle.tk_ledgers.specs.Wakers.{ClonesLessDropsAreLive, wakers};

use tk_core::{Reply, Sequential};

/// In a legal history of a task each waker has a number of its own, and clones minus drops is the number of live wakers:
/// of those that made no wake by value and no release.
///
/// That a wake by value is one wake and one drop, and that live wakers are clones minus drops, is tokio-console's.
pub fn clones_less_drops_are_live_wakers()
    ensures distinct { (opening : TaskRow) (h : TaskEntries) → IsOpening opening → IsLegal task_meaning opening h
        → IsDistinct (wakers h) }
    ensures live { (opening : TaskRow) (h : TaskEntries) → IsOpening opening → IsLegal task_meaning opening h
        → ClonesLessDropsAreLive h }
{}

/// What an inspector reads beside the hand that holds the other callers of its item is the row after that hand's calls, in their
/// order, and after no others.
pub fn a_reading_beside_shows_the_calls()
    ensures tasks { ShowsTheirCalls task_meaning task_calls.Read }
    ensures resources { ShowsTheirCalls resource_meaning resource_calls.Read }
    ensures ops { ShowsTheirCalls op_meaning op_calls.Read }
{}

/// The callers in one hand hold each number that was answered to one of their calls, but for those of callers that are elsewhere: inspectors,
/// and callers that were handed out. A call of the hand leaves these, and so does a reading beside it; who is handed out is one more, and
/// who is taken back is one less. And a handle that was handed out holds callers of its role alone, whatever calls it makes.
pub fn a_hand_holds_whom_it_made<O: Sequential>()
    ensures calls { CallsKeepAll O.meaning }
    ensures handing_out { HandingOutKeepsAll O.meaning }
    ensures taking_back { TakingBackKeepsAll O.meaning }
    ensures beside { BesideKeepsAll O.meaning }
    ensures role { CallsKeepOnly O.meaning }
{}

/// Who of a hand is live: who was drawn, and was none of the live, and who was before, until a last call or while it is handed out.
pub fn a_hand_keeps_who_is_live<O: Sequential>()
    ensures calls { CallsKeepLive O.meaning }
    ensures drawn { DrawnIsNew O.meaning }
    ensures handing_out { HandingOutKeepsLive O.meaning }
    ensures handles { HandlesStayLive O.meaning }
    ensures taking_back { TakingBackKeepsLive O.meaning }
{}

/// Whether a poll is open, and whether the item is closed, which the owner's own calls tell, is told by all calls of a hand that holds the
/// owner: no other caller polls or closes.
pub fn a_hand_tells_of_its_polls()
    ensures tasks { TasksTellPolls }
    ensures resources { ResourcesTellCloses }
    ensures ops { OpsTellPolls }
{}

/// What a hand called, from the row that its ledger opened with: each call that is accepted is one more, and a reading beside the hand shows the
/// row after just these calls, and leaves them.
pub fn a_hand_shows_what_it_called<O: Sequential<Reply = Reply<O>>>(read: O::Call)
    ensures calls { CallsAreCalled O.meaning }
    ensures readings { ReadingsShowCalled O.meaning read }
{}

/// Whether a poll is open, and whether the item is closed, is told by what its hand called.
pub fn what_a_hand_called_tells_of_its_polls()
    ensures tasks { TasksTellCalled }
    ensures resources { ResourcesTellCalled }
    ensures ops { OpsTellCalled }
{}

/// An owner that holds its own number alone, as one that was just made, does so after it made wakers, users and inspectors.
pub fn an_owner_stays_alone()
    ensures tasks { DrawsAlone task_meaning }
    ensures resources { DrawsAlone resource_meaning }
    ensures ops { DrawsAlone op_meaning }
{}

/// A reading of a task's histogram shows how long the first of the task's polls ran, as many as its counts add up to while none of them
/// has stopped at 2^64 - 1: the longest, and how many lie in each bucket. It shows that of all polls where the reader had learnt what
/// the histogram's owner has seen, which the receipt of the task's owner has ([`crate::TaskReceipt::take_times`]).
///
/// That the times of a histogram are how long its task's polls ran is known of an owner ([`crate::TaskOwner::has_times`]), and stays so
/// whatever its list grows by.
pub fn a_histogram_shows_the_first_polls()
    ensures first { ShowsFirstPolls }
    ensures before { ShowsFirstBefore }
    ensures all { ShowsAllPolls }
    ensures stays { StaysTimed }
{}
