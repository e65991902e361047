//! Calls of a die. What it needs for its life it has from its birth on: no ask and no slot is made again, whatever
//! allocation is refused. An outcome may need memory for what its reads gave. Where memory is scarce, one that is refused
//! for lack of it is asked for again, and has to be answered then as without the refusal.

use flash_die::Nand;
use planned_die::{AskRefusal, Burst, PlannedDie};
use slot_core::Outcome;
use slot_types::{JobNo, Op, Refusal, SlotReply, TaskNo};
use std::alloc::Global;
use test_memory::Memory;

/// What becomes of an ask: the number of its job, or why it is refused.
pub(crate) fn ask<N: Nand>(
    die: &mut PlannedDie<N>,
    alloc: Global,
    task: u32,
    ops: &[Op],
) -> Result<JobNo, AskRefusal> {
    die.ask(alloc, task, TaskNo(task), ops)
}

/// What becomes of a burst: its jobs, or why it is refused.
pub(crate) fn ask_all<N: Nand>(
    die: &mut PlannedDie<N>,
    alloc: Global,
    task: u32,
    ops: &[Op],
) -> Result<Burst, AskRefusal> {
    die.ask_all(alloc, task, TaskNo(task), ops)
}

/// Carries out the present slot.
pub(crate) fn carry<N: Nand>(die: &mut PlannedDie<N>, alloc: Global) -> Result<SlotReply, Refusal> {
    die.slot(alloc, 9)
}

pub(crate) fn outcome_of<N: Nand>(
    memory: Memory,
    die: &PlannedDie<N>,
    alloc: Global,
    number: u32,
) -> Result<Outcome, Refusal> {
    match die.core().outcome(alloc, JobNo(number)) {
        Err(Refusal::NoMemory) if memory.asks_again() => die.core().outcome(alloc, JobNo(number)),
        answer => answer,
    }
}
