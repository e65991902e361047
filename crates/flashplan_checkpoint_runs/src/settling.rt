//! Slots after the last one of a run, until all is done.

ghost use Rattle.std.specs.Prelude.{◌≡◌, ◌<◌, ◌≤◌, List, OnOk, length};
ghost use Rattle.std.specs.List.{AllZip};
ghost use Rattle.slot_types.specs.Refusal.{FailsForMemory};
ghost use Rattle.flashplan_script_runs.specs.RunningDies.{RunningDie, running_of};
ghost use Rattle.flashplan_script_runs.specs.ScriptRuns.{GoesOn};
ghost use Rattle.flashplan_checkpoint_runs.specs.Runs.{running, starts_of};

use crate::dies::StoreDies;
use flash_die::MemoryNand;
use flashplan_script_runs::ScriptDie;
use slot_core::DieCore;
use slot_types::{JobNo, MAX_JOBS, MAX_SLOT, Refusal};
use std::alloc::Global;

/// The most slots that the work takes which is left on a die: those to the last release, one for each operation that is left, and for each
/// collection two for each page of a block, and those of an erase.
fn most_slots(die: &DieCore<MemoryNand>) -> u32 {
    let shape = die.plan().shape;
    let collection = shape
        .pages
        .saturating_mul(2)
        .saturating_add(shape.erase_slots);
    let now = die.now();
    let mut release = now;
    let mut work: u32 = 0;
    for number in 0..MAX_JOBS {
        let Some(job) = die.job_record(JobNo(number)) else {
            break;
        };
        if !job.is_pending() {
            continue;
        }
        release = release.max(job.release());
        let whole = if job.collects() {
            collection
        } else {
            u32::try_from(job.op_count()).unwrap_or(u32::MAX)
        };
        work = work.saturating_add(whole.saturating_sub(job.work()));
    }
    release.saturating_sub(now).saturating_add(work)
}

/// Whether the job or collection of this number is neither done nor waived.
fn is_pending(die: &DieCore<MemoryNand>, number: u32) -> bool {
    match die.job_record(JobNo(number)) {
        Some(job) => job.is_pending(),
        None => false,
    }
}

/// Carries out slots until the job or collection of this number is done or waived, or this slot is the present one.
fn carry_out(
    alloc: Global,
    die: &mut DieCore<MemoryNand>,
    number: u32,
    end: u32,
) -> Result<(), Refusal>
    requires { end ≤ MAX_SLOT }
    ensures went_on { OnOk result (GoesOn (running_of die.old) (running_of die.new)) }
    ensures start { die.new.start ≡ die.old.start }
    ensures refused { FailsForMemory result }
{
    for slot in die.now()..end {
        if !is_pending(die, number) {
            return Ok(());
        }
        die.carry_to(alloc, slot.saturating_add(1))?;
    }
    Ok(())
}

/// Carries out slots until all that a die accepted is done or was waived, at most as many as that work can take, and none beyond
/// slot 1,048,576. Answers how many these were. The only refusal is NoMemory.
fn settle_die(alloc: Global, die: &mut DieCore<MemoryNand>) -> Result<u32, Refusal>
    ensures went_on { OnOk result (GoesOn (running_of die.old) (running_of die.new)) }
    ensures start { die.new.start ≡ die.old.start }
    ensures refused { FailsForMemory result }
{
    let now = die.now();
    let end = now.saturating_add(most_slots(die)).min(MAX_SLOT);
    for number in 0..MAX_JOBS {
        if die.now() >= end || die.job_record(JobNo(number)).is_none() {
            break;
        }
        carry_out(alloc, die, number, end)?;
    }
    Ok(die.now().saturating_sub(now))
}

/// The same for one of these.
fn settle_at(alloc: Global, dies: &mut StoreDies, place: usize) -> Result<u32, Refusal>
    requires there { place < length dies.old.items }
    ensures went_on { OnOk result ((came : List RunningDie) →
        AllZip GoesOn came (running dies.old.items) → AllZip GoesOn came (running dies.new.items)) }
    ensures starts { starts_of dies.new.items ≡ starts_of dies.old.items }
    ensures count { length dies.new.items ≡ length dies.old.items }
    ensures refused { FailsForMemory result }
{
    settle_die(alloc, &mut dies[place])
}

/// The same for each die; answers by die how many slots it took. The only refusal is NoMemory.
pub fn settle(alloc: Global, dies: &mut StoreDies) -> Result<Vec<u32>, Refusal>
    ensures went_on { OnOk result (AllZip GoesOn (running dies.old.items) (running dies.new.items)) }
    ensures starts { starts_of dies.new.items ≡ starts_of dies.old.items }
    ensures count { length dies.new.items ≡ length dies.old.items }
    ensures refused { FailsForMemory result }
{
    let mut idle = Vec::new(alloc);
    for place in 0..dies.len() {
        let slots = settle_at(alloc, dies, place)?;
        idle.push(slots)?;
    }
    Ok(idle)
}
