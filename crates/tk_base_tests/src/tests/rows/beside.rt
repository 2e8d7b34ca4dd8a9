//! `step`, beside the definitions computed over whole histories.

use super::random::Random;
use super::{plain_ops, plain_resources, plain_tasks};
use std::alloc::{AllocError, Global};
use std::test::*;
use tk_core::{Entry, OpCall, OpRow, Reply, ResourceCall, ResourceRow, TaskCall, TaskRow};
use tk_ids::{AttrValue, TaskId};

const SEEDS: [u64; 4] = [1, 7, 2026, 99991];

const CALLS: u64 = 250;

const FIRSTS: [AttrValue; 4] = [
    AttrValue::U64(5),
    AttrValue::Bool(false),
    AttrValue::U64(u64::MAX - 3),
    AttrValue::I64(-2),
];

// Whether a call's answer and row are those that the definitions give of the history with it. The row moves on.
fn task_steps(
    alloc: Global,
    row: &mut TaskRow,
    history: &mut Vec<Entry<TaskCall, Reply<TaskRow>>>,
    call: TaskCall,
) -> Result<bool, AllocError> {
    let (next, reply) = row.step(call);
    let is_answered = reply == plain_tasks::answer(row, call);
    history.push(Entry {
        caller: 0,
        call,
        reply,
    })?;
    let is_plain = next == plain_tasks::row(alloc, 100, history.as_slice())?;
    let is_read_back = TaskRow::from_words(&next.to_words()) == Some(next);
    *row = next;
    Ok(is_answered && is_plain && is_read_back)
}

fn tasks_step(alloc: Global, seed: u64) -> Result<bool, AllocError> {
    let mut random = Random::new(seed);
    let mut row = TaskRow::counting(100);
    let mut history = Vec::new(alloc);
    for _ in 0..CALLS {
        if !task_steps(alloc, &mut row, &mut history, random.task_call())? {
            return Ok(false);
        }
    }
    Ok(true)
}

#[test]
fn tasks_step_as_their_definitions_say(rt: HostRuntime) -> Result<(), Fail> {
    for seed in SEEDS {
        assert!(rt; tasks_step(rt.alloc(), seed)?, "{seed}");
    }
    Ok(())
}

fn resource_steps(
    alloc: Global,
    row: &mut ResourceRow,
    history: &mut Vec<Entry<ResourceCall, Reply<ResourceRow>>>,
    call: ResourceCall,
) -> Result<bool, AllocError> {
    let (next, reply) = row.step(call);
    let is_answered = reply == plain_resources::answer(row, call);
    history.push(Entry {
        caller: 0,
        call,
        reply,
    })?;
    let is_plain = next == plain_resources::row(alloc, 100, &FIRSTS, history.as_slice())?;
    let is_read_back = ResourceRow::from_words(&next.to_words()) == Some(next);
    *row = next;
    Ok(is_answered && is_plain && is_read_back)
}

fn resources_step(alloc: Global, seed: u64) -> Result<bool, AllocError> {
    let mut random = Random::new(seed);
    let mut row = ResourceRow::opening(100, &FIRSTS);
    let mut history = Vec::new(alloc);
    for _ in 0..CALLS {
        if !resource_steps(alloc, &mut row, &mut history, random.resource_call())? {
            return Ok(false);
        }
    }
    Ok(true)
}

#[test]
fn resources_step_as_their_definitions_say(rt: HostRuntime) -> Result<(), Fail> {
    for seed in SEEDS {
        assert!(rt; resources_step(rt.alloc(), seed)?, "{seed}");
    }
    Ok(())
}

fn op_steps(
    alloc: Global,
    row: &mut OpRow,
    history: &mut Vec<Entry<OpCall, Reply<OpRow>>>,
    call: OpCall,
) -> Result<bool, AllocError> {
    let (next, reply) = row.step(call);
    let is_answered = reply == plain_ops::answer(row, call);
    history.push(Entry {
        caller: 0,
        call,
        reply,
    })?;
    let is_plain = next == plain_ops::row(alloc, 100, &FIRSTS, history.as_slice())?;
    let is_read_back = OpRow::from_words(&next.to_words()) == Some(next);
    *row = next;
    Ok(is_answered && is_plain && is_read_back)
}

fn operations_step(alloc: Global, seed: u64, tasks: &[TaskId; 2]) -> Result<bool, AllocError> {
    let mut random = Random::new(seed);
    let mut row = OpRow::opening(100, &FIRSTS);
    let mut history = Vec::new(alloc);
    for _ in 0..CALLS {
        if !op_steps(alloc, &mut row, &mut history, random.op_call(tasks))? {
            return Ok(false);
        }
    }
    Ok(true)
}

#[test]
fn operations_step_as_their_definitions_say(rt: HostRuntime) -> Result<(), Fail> {
    let tasks = [
        TaskId::from_value(1099511627777)?,
        TaskId::from_value(71468255805439)?,
    ];
    for seed in SEEDS {
        assert!(rt; operations_step(rt.alloc(), seed, &tasks)?, "{seed}");
    }
    Ok(())
}
