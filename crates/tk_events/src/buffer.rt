//! The buffer: a queue that the recorders and the taker share, and its rule.
//!
//! Each recorder has a pass, which knows what it offered; the taker's pass knows what it took. What was taken of a
//! recorder, and then what the queue holds of it, is what the recorder's pass knows as kept (`specs/Buffer.antt`).
ghost use Rattle.std.specs.Prelude.{◌≡◌, ◌<◌, ◌∷◌, ◌++◌, [], Some, All, List, IfOk, IfSome, IfNone};
ghost use Rattle.tk_events.specs.declared.item.Offer.{Offer};
ghost use Rattle.std.specs.Arc.{arc_value};
ghost use Rattle.crossbeam_queue.specs.Fifo.{Held};
ghost use Rattle.crossbeam_queue.specs.Passes.{view, IsSamePass, IsPassOf, ruled_capacity};
ghost use Rattle.tk_events.specs.declared.buffer.view.Role.TheVariants.{Takes, Records};
ghost use Rattle.tk_events.specs.Offers.{Item};
ghost use Rattle.tk_events.specs.declared.recorder.Recorded.TheVariants.{Kept, DroppedFull};
ghost use Rattle.tk_events.specs.Offers.{offer_of, offers_of, by};
ghost use Rattle.tk_events.specs.Buffer.{first, limits as limited, keeps, notes, takes, makes, newborn, takes_in, gives_back, given_back, lent, returned, IsContentFor, IsBalanced};

pub mod plays;
pub mod view;

use crate::item::{Item, Offer};
use crate::recorder::Recorded;
use crossbeam_queue::{Pass, RuledArrayQueue};
use plays::{GiveBack, Lend, Limit, Make, Note, Pop, Push, TakeIn};
use std::alloc::{AllocError, Global};
use std::marker::Brand;
use std::sync::{Arc, Wait};
use tk_cell::Pick;
use view::{Rule, View};

/// The buffer, which the recorders and the taker share.
pub type Buffer = RuledArrayQueue<Item, View, Rule>;

/// A buffer of this capacity, and the taker's pass, which knows how many recorders there may be.
pub(crate) fn open<K: Pick<u64>>(
    alloc: Global,
    capacity: usize,
    recorders: u64,
) -> Result<(Arc<Buffer>, Pass<Item, View>), AllocError>
    requires picked { K.picked ≡ Some recorders }
    requires capacity { 0 < capacity }
    ensures own { IfOk result (λ b. IsPassOf (arc_value b.0) b.1) }
    ensures capacity { IfOk result (λ b. ruled_capacity (arc_value b.0) ≡ capacity) }
    ensures view { IfOk result (λ b. view b.1 ≡ limited (Some recorders) first) }
{
    let _ = recorders;
    let (queue, mut pass) = Buffer::ruled(alloc, capacity)?;
    let _ = queue.another::<Limit<K>>(&mut pass);
    Ok((Arc::new(alloc, queue)?, pass))
}

/// The pass of the next recorder, split off the taker's.
pub(crate) fn next_recorder(buffer: &Buffer, pass: &mut Pass<Item, View>) -> Pass<Item, View>
    requires own { IsPassOf buffer.now pass.old }
    requires role { (view pass.old).role ≡ Takes }
    requires room { (view pass.old).made < (view pass.old).recorders }
    ensures own { IsSamePass pass.old pass.new }
    ensures made { view pass.new ≡ makes (view pass.old) }
    ensures own_new { IsPassOf buffer.now result }
    ensures new { view result ≡ newborn (view pass.old) }
{
    buffer.another::<Make>(pass)
}

// The pass notes an offer that the buffer refused.
fn note<K: Pick<Offer>>(buffer: &Buffer, pass: &mut Pass<Item, View>, item: &Item)
    requires picked { K.picked ≡ Some (offer_of item.now) }
    requires own { IsPassOf buffer.now pass.old }
    requires role { (view pass.old).role ≡ Records }
    ensures own { IsSamePass pass.old pass.new }
    ensures noted { view pass.new ≡ notes (Some (offer_of item.now)) (view pass.old) }
{
    let _ = item;
    let _ = buffer.another::<Note<K>>(pass);
}

/// Offers an item, and notes it where it is refused.
pub(crate) fn offer<R: Wait>(
    rt: &R,
    buffer: &Buffer,
    pass: &mut Pass<Item, View>,
    item: Item,
) -> Recorded
    requires own { IsPassOf buffer.now pass.old }
    requires role { (view pass.old).role ≡ Records }
    requires number { item.recorder ≡ (view pass.old).number }
    requires above { All (λ o. o.number < item.number) (view pass.old).kept }
    ensures own { IsSamePass pass.old pass.new }
    ensures kept { result ≡ Kept → view pass.new ≡ keeps (view pass.old) (offer_of item) }
    ensures refused { result ≡ DroppedFull → view pass.new ≡ notes (Some (offer_of item)) (view pass.old) }
    ensures full { result ≡ DroppedFull → Held (ruled_capacity buffer.now) (IsContentFor (view pass.old)) }
{
    match buffer.push_as::<Push, R>(rt, pass, item) {
        Ok(()) => Recorded::Kept,
        Err(back) => {
            note::<Brand>(buffer, pass, &back);
            Recorded::DroppedFull
        }
    }
}

/// Takes the front item.
pub(crate) fn pop<R: Wait>(rt: &R, buffer: &Buffer, pass: &mut Pass<Item, View>) -> Option<Item>
    requires own { IsPassOf buffer.now pass.old }
    requires role { (view pass.old).role ≡ Takes }
    ensures own { IsSamePass pass.old pass.new }
    ensures some { IfSome result (λ x. view pass.new ≡ takes (view pass.old) (offer_of x)) }
    ensures left { (left : List Item) × IsBalanced (view pass.new) (offers_of left) }
    ensures none { IfNone result ((view pass.new ≡ view pass.old) × Held 0 (λ items. IsBalanced (view pass.old) (offers_of items))) }
{
    buffer.pop_as::<Pop, R>(rt, pass)
}

/// The taker's pass takes in what a recorder had offered.
pub(crate) fn take_in(buffer: &Buffer, pass: &mut Pass<Item, View>, other: Pass<Item, View>)
    requires own { IsPassOf buffer.now pass.old × IsPassOf buffer.now other }
    requires role { (view pass.old).role ≡ Takes }
    requires other_role { (view other).role ≡ Records }
    ensures own { IsSamePass pass.old pass.new }
    ensures known { view pass.new ≡ takes_in (view pass.old) (view other) }
{
    buffer.absorb::<TakeIn>(pass, other);
}

/// The pass of the one recorder that the taker's pass took in, which knows then how many of its offers were taken. So a taker can be lent a
/// recorder's pass while it takes.
pub(crate) fn give_back(buffer: &Buffer, pass: &mut Pass<Item, View>) -> Pass<Item, View>
    requires own { IsPassOf buffer.now pass.old }
    requires role { (view pass.old).role ≡ Takes }
    ensures own { IsSamePass pass.old pass.new }
    ensures rest { view pass.new ≡ gives_back (view pass.old) }
    ensures own_new { IsPassOf buffer.now result }
    ensures back { view result ≡ given_back (view pass.old) }
{
    buffer.another::<GiveBack>(pass)
}

/// A pop of the taker, beside a recorder that lends its pass for the time of the call. What was taken of this recorder, and then
/// what is left, is what it has kept; and where the buffer was empty, all of it was taken.
pub(crate) fn pop_beside<R: Wait>(
    rt: &R,
    buffer: &Buffer,
    pass: &mut Pass<Item, View>,
    lender: Pass<Item, View>,
) -> (Option<Item>, Pass<Item, View>)
    requires own { IsPassOf buffer.now pass.old × IsPassOf buffer.now lender }
    requires role { (view pass.old).role ≡ Takes }
    requires lender_role { (view lender).role ≡ Records }
    requires knows_none { (view pass.old).known ≡ [] }
    ensures own { IsSamePass pass.old pass.new }
    ensures own_back { IsPassOf buffer.now result.1 }
    ensures back { view result.1 ≡ lent (view pass.old).recorders (view pass.new).taken (returned (view lender) ∷ []) }
    ensures some { IfSome result.0 (λ x. view pass.new ≡ takes (view pass.old) (offer_of x)) }
    ensures none { IfNone result.0 (view pass.new ≡ view pass.old) }
    ensures left { (left : List Item) × IsBalanced (view pass.new) (offers_of left) }
    ensures front { (left : List Offer) × (by (view lender).number ((view pass.new).taken ++ left) ≡ (view lender).kept) }
    ensures all_taken { IfNone result.0 (by (view lender).number (view pass.old).taken ≡ (view lender).kept) }
{
    take_in(buffer, pass, lender);
    let item = pop(rt, buffer, pass);
    let back = give_back(buffer, pass);
    (item, back)
}

// The whole pass of a recorder.
fn lend(buffer: &Buffer, pass: &mut Pass<Item, View>) -> Pass<Item, View>
    requires own { IsPassOf buffer.now pass.old }
    ensures own { IsPassOf buffer.now result }
    ensures whole { view result ≡ view pass.old }
{
    buffer.another::<Lend>(pass)
}

/// As [`pop_beside`], where the recorder's pass stays in its place.
pub(crate) fn pop_lent<R: Wait>(
    rt: &R,
    buffer: &Buffer,
    pass: &mut Pass<Item, View>,
    lender: &mut Pass<Item, View>,
) -> Option<Item>
    requires own { IsPassOf buffer.now pass.old × IsPassOf buffer.now lender.old }
    requires role { (view pass.old).role ≡ Takes }
    requires lender_role { (view lender.old).role ≡ Records }
    requires knows_none { (view pass.old).known ≡ [] }
    ensures own { IsSamePass pass.old pass.new }
    ensures own_back { IsPassOf buffer.now lender.new }
    ensures back { view lender.new ≡ lent (view pass.old).recorders (view pass.new).taken (returned (view lender.old) ∷ []) }
    ensures some { IfSome result (λ x. view pass.new ≡ takes (view pass.old) (offer_of x)) }
    ensures none { IfNone result (view pass.new ≡ view pass.old) }
    ensures left { (left : List Item) × IsBalanced (view pass.new) (offers_of left) }
    ensures front { (left : List Offer) × (by (view lender.old).number ((view pass.new).taken ++ left) ≡ (view lender.old).kept) }
    ensures all_taken { IfNone result (by (view lender.old).number (view pass.old).taken ≡ (view lender.old).kept) }
{
    let theirs = lend(buffer, lender);
    let (item, back) = pop_beside(rt, buffer, pass, theirs);
    *lender = back;
    item
}

/// What the buffer holds is what is left of the recorders that were taken in.
pub(crate) fn settle(buffer: &Buffer, pass: &mut Pass<Item, View>)
    requires own { IsPassOf buffer.now pass.old }
    requires role { (view pass.old).role ≡ Takes }
    ensures own { IsSamePass pass.old pass.new }
    ensures same { view pass.new ≡ view pass.old }
    ensures left { (left : List Item) × IsBalanced (view pass.new) (offers_of left) }
{
    buffer.learn_as::<Pop>(pass);
}
