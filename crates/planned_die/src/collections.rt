//! The collections that a die enters itself.

ghost use Rattle.std.specs.Prelude.{◌≡◌, ◌+◌, ◌<◌, ◌≤◌, false, length};
ghost use Rattle.die_log.specs.Model.Log.{now};
ghost use Rattle.die_log.specs.Model.Lives.{Lives};
ghost use Rattle.planned_log.specs.KeptLogs.{comes_at};
ghost use Rattle.planned_log.specs.Laws.{IsKept};
ghost use Rattle.planned_die.specs.Planned.{IsReservedFor};
ghost use Rattle.planned_die.specs.OwnCollections.{AreQuiet};
ghost use Rattle.planned_die.specs.PlannedCalls.{with_own};

use crate::terms::terms_at;
use demand_rules::Terms;
use flash_die::Nand;
use slot_core::DieCore;
use slot_types::TaskNo;
use std::alloc::Global;

/// Whether a collection of this period comes in the slot.
fn comes(period: u32, slot: u32) -> bool
    requires some { 0 < period }
    ensures { result ≡ comes_at period slot }
{
    slot % period == 0
}

/// Enters the collection of the task in the present slot, if the plan has one. It takes no memory.
fn enter_own<N: Nand>(
    core: &mut DieCore<N>,
    terms: &Terms,
    alloc: Global,
    caller: u32,
    life: u32,
    task: u32,
)
    requires lived { (earlier : Lives)
        × IsKept core.old.start terms.now earlier life task core.old.log }
    requires runs { core.old.stopped ≡ false }
    requires task { task < length core.old.start.plan.caps }
    requires early { now core.old.log < life }
    requires reserved { IsReservedFor terms.now life core.old }
    ensures entered { core.new ≡ with_own caller terms.now core.old task (task + 1) }
    ensures kept { (earlier : Lives)
        → IsKept core.old.start terms.now earlier life task core.old.log
        → IsKept core.new.start terms.now earlier life (task + 1) core.new.log }
    ensures slot_stays { now core.new.log ≡ now core.old.log }
    ensures reserved { IsReservedFor terms.now life core.new }
{
    let slot = core.now();
    let own = terms_at(terms, task as usize);
    if !comes(own.collect_period, slot) {
        return;
    }
    match core.collect(
        alloc,
        caller,
        TaskNo(task),
        slot,
        slot + own.collect_deadline,
    ) {
        Ok(_) => {}
        // No plan refuses its own collections, and memory is reserved for them.
        Err(_) => unreachable!(),
    }
}

/// Enters the collections of the present slot that haven't come yet, task by task. It takes no memory.
#[inline(never)]
fn enter_each<N: Nand>(
    core: &mut DieCore<N>,
    terms: &Terms,
    alloc: Global,
    caller: u32,
    life: u32,
    entered: &mut u32,
)
    requires lived { (earlier : Lives)
        × IsKept core.old.start terms.now earlier life entered.old core.old.log }
    requires runs { core.old.stopped ≡ false }
    requires early { now core.old.log < life }
    requires reserved { IsReservedFor terms.now life core.old }
    ensures entered { core.new ≡ with_own caller terms.now core.old entered.old entered.new }
    ensures kept { (earlier : Lives)
        → IsKept core.old.start terms.now earlier life entered.old core.old.log
        → IsKept core.new.start terms.now earlier life entered.new core.new.log }
    ensures all { entered.new ≡ length core.old.start.plan.caps }
    ensures slot_stays { now core.new.log ≡ now core.old.log }
    ensures reserved { IsReservedFor terms.now life core.new }
{
    core.promises();
    let tasks = core.plan().caps.len();
    while (*entered as usize) < tasks {
        enter_own(core, terms, alloc, caller, life, *entered);
        *entered += 1;
    }
}

/// Enters the collections of the present slot that haven't come yet. It takes no memory. Before slot `quiet` none comes, and
/// no task is looked at.
#[inline(always)]
pub(crate) fn enter_rest<N: Nand>(
    core: &mut DieCore<N>,
    terms: &Terms,
    alloc: Global,
    caller: u32,
    life: u32,
    quiet: u32,
    entered: &mut u32,
)
    requires lived { (earlier : Lives)
        × IsKept core.old.start terms.now earlier life entered.old core.old.log }
    requires runs { core.old.stopped ≡ false }
    requires early { now core.old.log < life }
    requires reserved { IsReservedFor terms.now life core.old }
    requires quiet { AreQuiet terms.now.tasks (now core.old.log) quiet }
    ensures entered { core.new ≡ with_own caller terms.now core.old entered.old entered.new }
    ensures kept { (earlier : Lives)
        → IsKept core.old.start terms.now earlier life entered.old core.old.log
        → IsKept core.new.start terms.now earlier life entered.new core.new.log }
    ensures all { entered.new ≡ length core.old.start.plan.caps }
    ensures slot_stays { now core.new.log ≡ now core.old.log }
    ensures reserved { IsReservedFor terms.now life core.new }
{
    if core.now() >= quiet {
        enter_each(core, terms, alloc, caller, life, entered);
        return;
    }
    core.promises();
    *entered = core.plan().caps.len() as u32;
}
