//! Two threads wake one task, and the owner learns of both.
ghost use Rattle.std.specs.Prelude.{◌≡◌, IfSome};
ghost use Rattle.std.specs.Arc.{arc_value};
ghost use Rattle.tk_core.specs.TaskMeaning.{task_meaning};
ghost use Rattle.tk_core.specs.declared.task.call.TaskCall.TheVariants.{CloneWaker};
ghost use Rattle.tk_cell.specs.Roles.{IsOwner, IsMadeBy};

use std::marker::Model;
use std::sync::{Arc, Wait};
use std::thread::{Threads, join};
use tk_cell::{Shared, Token};
use tk_core::{Reply, TaskCall, TaskRow};

const WAKES: u64 = 1_000;

/// A waker of a task: a caller that was made by a clone, and that is not used up.
#[derive(Drop)]
struct Waker {
    shared: Arc<Shared<TaskRow>>,
    token: Token<TaskRow>,
}

impl Model for Waker {
    ghost use Rattle.std.specs.Prelude.{◌≡◌};
    ghost use Rattle.std.specs.Arc.{arc_value};
    ghost use Rattle.tk_core.specs.TaskMeaning.{task_meaning};
    ghost use Rattle.tk_core.specs.declared.task.call.TaskCall.{TaskCall};
    ghost use Rattle.tk_core.specs.declared.task.call.TaskCall.TheVariants.{CloneWaker};
    ghost use Rattle.tk_core.specs.declared.task.row.TaskRow.{TaskRow};
    ghost use Rattle.tk_core.specs.declared.reply.Reply.{Reply};
    ghost use Rattle.tk_cell.specs.Views.{Known};
    ghost use Rattle.tk_cell.specs.Roles.{IsMadeBy};

    ghost Value = { Known TaskRow TaskCall (Reply TaskRow) };

    ghost view = { λ w. w.token };

    ghost invariant = { λ w. (w.token.ledger ≡ arc_value w.shared) × IsMadeBy task_meaning CloneWaker w.token.view };
}

// Splits a waker off.
fn clone_waker<R: Wait>(
    rt: &R,
    shared: &Arc<Shared<TaskRow>>,
    owner: &mut Token<TaskRow>,
) -> Option<Waker>
    requires own { owner.old.ledger ≡ arc_value shared.now }
    requires owner { IsOwner task_meaning owner.old.view }
    ensures own { owner.new.ledger ≡ owner.old.ledger }
    ensures owner { IsOwner task_meaning owner.new.view }
    ensures waker { IfSome result (λ waker. waker.ledger ≡ owner.old.ledger) }
{
    let Ok(theirs) = Arc::try_clone(shared) else {
        return None;
    };
    match shared.call(rt, owner, TaskCall::CloneWaker) {
        Reply::Number(number) => {
            let token = shared.split(owner, number);
            Some(Waker {
                shared: theirs,
                token,
            })
        }
        _ => {
            drop(theirs);
            None
        }
    }
}

// Wakes by reference, and gives the token back.
fn wake<R: Wait>(rt: &R, waker: Waker) -> Token<TaskRow>
    ensures { result.ledger ≡ waker.ledger }
{
    let Waker { shared, mut token } = waker;
    wake_often(rt, &shared, &mut token);
    drop(shared);
    token
}

#[tactic(auto, using(tk_cell::proofs::RoleLemmas::made_role, tk_cell::proofs::RoleLemmas::made_calls))]
fn wake_often<R: Wait>(rt: &R, shared: &Shared<TaskRow>, token: &mut Token<TaskRow>)
    requires own { token.old.ledger ≡ shared.now }
    requires waker { IsMadeBy task_meaning CloneWaker token.old.view }
    ensures { token.new.ledger ≡ token.old.ledger }
{
    for moment in 0..WAKES {
        shared.call(rt, token, TaskCall::WakeRef(moment, false));
    }
}

#[tactic(auto, using(tk_cell::proofs::RoleLemmas::owner_role, tk_cell::proofs::RoleLemmas::owner_joins))]
// Two threads wake at once; the owner takes in what both have seen, and reads.
fn wake_twice<R: Wait + Threads + Sync>(
    rt: &R,
    shared: &Shared<TaskRow>,
    owner: &mut Token<TaskRow>,
    one: Waker,
    two: Waker,
) -> Reply<TaskRow>
    requires own { owner.old.ledger ≡ shared.now }
    requires owner { IsOwner task_meaning owner.old.view }
    requires one { one.ledger ≡ shared.now }
    requires two { two.ledger ≡ shared.now }
{
    let (seen_by_one, seen_by_two) = join(
        rt,
        || -> Token<TaskRow>
            ensures { result.ledger ≡ one.ledger }
        { wake(rt, one) },
        || -> Token<TaskRow>
            ensures { result.ledger ≡ two.ledger }
        { wake(rt, two) },
    );
    let seen = shared.join(rt, seen_by_one, seen_by_two);
    shared.absorb(rt, owner, seen);
    shared.call(rt, owner, TaskCall::Read)
}

// What the owner, who is caller 0, reads after the wakes of callers 1 and 2.
fn read_behind<R: Wait + Threads + Sync>(
    rt: &R,
    shared: &Arc<Shared<TaskRow>>,
    owner: &mut Token<TaskRow>,
) -> Option<TaskRow>
    requires own { owner.old.ledger ≡ arc_value shared.now }
    requires owner { IsOwner task_meaning owner.old.view }
{
    let one = clone_waker(rt, shared, owner)?;
    let Some(two) = clone_waker(rt, shared, owner) else {
        drop(one);
        return None;
    };
    let numbered = one.token.caller() == 1 && two.token.caller() == 2;
    match wake_twice(rt, shared, owner, one, two) {
        Reply::Shown(row) => (numbered && owner.caller() == 0).then_some(row),
        _ => None,
    }
}

fn counts_all_wakes(row: Option<TaskRow>) -> bool {
    match row {
        Some(row) => row.wakes == 2 * WAKES && row.clones == 2 && row.drops == 0,
        None => false,
    }
}

#[test]
fn wakes_of_two_threads_add_up(rt: HostRuntime) {
    match Shared::new(&rt, rt.alloc(), TaskRow::opening(7)) {
        Ok((shared, mut owner)) => {
            let row = read_behind(&rt, &shared, &mut owner);
            drop(shared);
            drop(owner);
            assert!(rt; counts_all_wakes(row));
        }
        Err(_) => assert!(rt; false, "no ledger"),
    }
}
