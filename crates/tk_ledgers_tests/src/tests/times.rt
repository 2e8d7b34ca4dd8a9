//! A histogram's owner, and who reads what it adds.
ghost use Rattle.std.specs.Prelude.{◌≡◌};

use super::given::FIRST;
use std::alloc::Global;
use std::sync::Wait;
use tk_ids::TaskId;
use tk_ledgers::{TimesInspector, TimesOwner};

fn histogram<R: Wait>(rt: &R, alloc: Global) -> Option<TimesOwner> {
    let id = TaskId::from_value(FIRST).ok()?;
    TimesOwner::new(rt, alloc, id).ok()
}

fn reads<R: Wait>(rt: &R, inspector: &mut TimesInspector, count: u64, longest: u64) -> bool {
    let row = inspector.read(rt);
    row.counts[0] == count && row.longest == longest && row.handles == 1
}

fn is_read<R: Wait>(rt: &R, owner: &mut TimesOwner) -> bool {
    let Ok(mut inspector) = owner.inspect(rt) else {
        return false;
    };
    let before = reads(rt, &mut inspector, 0, 0);
    owner.add(rt, 30);
    owner.add(rt, 20);
    let after = reads(rt, &mut inspector, 2, 30);
    drop(inspector);
    before && after
}

#[test]
fn an_inspector_reads_what_was_added(rt: HostRuntime) {
    match histogram(&rt, rt.alloc()) {
        Some(mut owner) => {
            assert!(rt; is_read(&rt, &mut owner));
            drop(owner);
        }
        None => assert!(rt; false, "no histogram"),
    }
}

fn learns<R: Wait>(rt: &R, owner: TimesOwner, inspector: &mut TimesInspector) -> bool
    requires { owner.token.ledger ≡ inspector.old.token.ledger }
{
    inspector.learn(rt, owner.retire());
    reads(rt, inspector, 1, 7)
}

fn is_learnt<R: Wait>(rt: &R, mut owner: TimesOwner) -> bool {
    let Ok(mut inspector) = owner.inspect(rt) else {
        drop(owner);
        return false;
    };
    owner.add(rt, 7);
    let learnt = learns(rt, owner, &mut inspector);
    drop(inspector);
    learnt
}

#[test]
fn an_inspector_learns_of_an_owner_that_adds_no_more(rt: HostRuntime) {
    match histogram(&rt, rt.alloc()) {
        Some(owner) => assert!(rt; is_learnt(&rt, owner)),
        None => assert!(rt; false, "no histogram"),
    }
}
