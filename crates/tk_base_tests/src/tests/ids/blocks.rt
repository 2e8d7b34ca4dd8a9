//! Blocks of ids.

use std::test::Fail;
use tk_ids::{IdBlock, IdError};

// Recorders and counts of which there is no block.
#[rattlefmt::skip]
const NO_BLOCKS: [(&str, u64, [u64; 3]); 5] = [
    ("recorder 0",         0,  [0, 0, 0]),
    ("recorder 65",        65, [0, 0, 0]),
    ("too many tasks",     1,  [1099511627776, 0, 0]),
    ("too many resources", 1,  [0, 1099511627776, 0]),
    ("too many ops",       64, [0, 0, 1099511627776]),
];

fn draws_task(block: &mut IdBlock, parts: (u64, u64)) -> bool {
    match block.next_task() {
        Ok(id) => id.parts() == parts,
        Err(_) => false,
    }
}

fn draws_resource(block: &mut IdBlock, parts: (u64, u64)) -> bool {
    match block.next_resource() {
        Ok(id) => id.parts() == parts,
        Err(_) => false,
    }
}

fn draws_op(block: &mut IdBlock, parts: (u64, u64)) -> bool {
    match block.next_op() {
        Ok(id) => id.parts() == parts,
        Err(_) => false,
    }
}

fn draws_each(block: &mut IdBlock) -> bool {
    draws_task(block, (3, 1))
        && draws_task(block, (3, 2))
        && draws_resource(block, (3, 1))
        && draws_op(block, (3, 1))
        && draws_op(block, (3, 2))
        && draws_op(block, (3, 3))
}

#[test]
fn counts_each_kind_by_itself(rt: HostRuntime) -> Result<(), Fail> {
    let mut block = IdBlock::new(3)?;
    assert!(rt; draws_each(&mut block));
    assert!(rt;
        block.recorder() == 3 && block.tasks() == 2 && block.resources() == 1 && block.ops() == 3
    );
    Ok(())
}

fn goes_on(block: &mut IdBlock) -> bool {
    draws_task(block, (64, 8)) && draws_resource(block, (64, 9)) && draws_op(block, (64, 10))
}

#[test]
fn goes_on_where_an_earlier_block_stopped(rt: HostRuntime) -> Result<(), Fail> {
    let mut block = IdBlock::resume(64, 7, 8, 9)?;
    assert!(rt; goes_on(&mut block));
    Ok(())
}

const LAST: (u64, u64) = (1, 1099511627775);

fn ends_tasks(block: &mut IdBlock) -> bool {
    draws_task(block, LAST)
        && block.next_task() == Err(IdError::IdsSpent)
        && block.next_task() == Err(IdError::IdsSpent)
        && draws_resource(block, (1, 1))
}

fn ends_resources(block: &mut IdBlock) -> bool {
    draws_resource(block, LAST)
        && block.next_resource() == Err(IdError::IdsSpent)
        && draws_op(block, (1, 1))
}

fn ends_ops(block: &mut IdBlock) -> bool {
    draws_op(block, LAST) && block.next_op() == Err(IdError::IdsSpent) && draws_task(block, (1, 1))
}

#[test]
fn ends_at_the_last_number_of_each_kind(rt: HostRuntime) -> Result<(), Fail> {
    let mut tasks = IdBlock::resume(1, 1099511627774, 0, 0)?;
    assert!(rt; ends_tasks(&mut tasks));
    let mut resources = IdBlock::resume(1, 0, 1099511627774, 0)?;
    assert!(rt; ends_resources(&mut resources));
    let mut ops = IdBlock::resume(1, 0, 0, 1099511627774)?;
    assert!(rt; ends_ops(&mut ops));
    Ok(())
}

fn is_refused(block: Result<IdBlock, IdError>) -> bool {
    match block {
        Ok(_) => false,
        Err(error) => error == IdError::BadId,
    }
}

#[test]
fn refuses_recorders_and_counts_out_of_range(rt: HostRuntime) {
    for (case, r, [tasks, resources, ops]) in NO_BLOCKS {
        assert!(rt;
            is_refused(IdBlock::resume(r, tasks, resources, ops)),
            "{case}"
        );
    }
    assert!(rt; is_refused(IdBlock::new(0)) && is_refused(IdBlock::new(65)));
}
