//! What a checkpoint says of the dies of a plan, in sentences.

ghost use Rattle.std.specs.List.{AllZip};
ghost use Rattle.std.specs.Prelude.{OnOk};
ghost use Rattle.plan_rules.specs.Bound.{MeetsBound};
ghost use Rattle.flashplan_checkpoint_runs.specs.SavedDies.{FitsDie};

use crate::faults::RunFault;
use crate::lines::{FIRST_LINE, lines_of};
use crate::starts::{check_die, same_store};
use crate::stocks::{is_stocked_task, most_lacking};
use checkpoint_texts::{SavedDie, SavedStore};
use plan_rules::plan_test;
use slot_types::{DiePlan, Refusal, StorePlan, Times};
use std::alloc::Global;
use std::io;
use std::io::Write;

/// Tells of the pages of a die.
fn put_pages(text: &mut Vec<u8>, number: usize, plan: &DiePlan, die: &SavedDie) -> io::Result<()> {
    let mut placed: u32 = 0;
    for page in die.pages.as_slice() {
        if page.place.is_some() {
            placed = placed.saturating_add(1);
        }
    }
    let mut balances: u64 = 0;
    for balance in die.balances.as_slice() {
        balances = balances.saturating_add(u64::from(*balance));
    }
    let reserve = u64::from(plan.shape.pages.saturating_sub(plan.alpha));
    let reserves = (plan.caps.len() as u64).saturating_mul(reserve);
    let logical = plan.logical;
    let spare = die.spare;
    let mut free: u64 = 0;
    for block in die.blocks.as_slice() {
        free = free.saturating_add(u64::from(plan.shape.pages.saturating_sub(block.filled)));
    }
    writeln!(
        text,
        "die {number}: {placed} of {logical} logical pages lie in cells; {free} pages are free: {spare} spare, \
         {balances} of balances, {reserves} of reserves."
    )
}

/// Tells the balances of a die, and whether its plan's work goes on.
fn put_tasks(text: &mut Vec<u8>, number: usize, plan: &DiePlan, die: &SavedDie) -> io::Result<()>
    requires bound { MeetsBound plan.now }
{
    for task in 0..plan.caps.len() {
        let (Some(cap), Some(balance)) = (plan.caps.get(task), die.balances.get(task)) else {
            break;
        };
        writeln!(
            text,
            "die {number} task {task}: its balance is {balance} of {cap}."
        )?;
    }
    let Some(times) = &plan.times else {
        return Ok(());
    };
    if plan_test(plan).is_err() {
        return writeln!(
            text,
            "die {number}: the plan doesn't pass its test, so nothing is known of its work."
        );
    }
    put_work(text, number, plan, die, times)
}

/// Tells whether the work of a die's plan goes on.
fn put_work(
    text: &mut Vec<u8>,
    number: usize,
    plan: &DiePlan,
    die: &SavedDie,
    times: &Times,
) -> io::Result<()> {
    let mut goes_on = true;
    for task in 0..plan.caps.len() {
        let (Some(cap), Some(balance), Some(t)) = (
            plan.caps.get(task),
            die.balances.get(task),
            times.tasks.get(task),
        ) else {
            break;
        };
        if !is_stocked_task(*cap, *balance, t) {
            goes_on = false;
            let lacks = cap.saturating_sub(*balance);
            let most = most_lacking(t);
            writeln!(
                text,
                "die {number} task {task}: {lacks} pages are missing to its cap, and at most {most} may be for the plan's work to go on."
            )?;
        }
    }
    if goes_on {
        writeln!(text, "die {number}: the plan's work goes on from here.")
    } else {
        writeln!(
            text,
            "die {number}: the plan's work doesn't go on from here."
        )
    }
}

/// Tells how often the blocks of a die were erased.
fn put_wear(text: &mut Vec<u8>, number: usize, die: &SavedDie) -> io::Result<()> {
    let mut least = u32::MAX;
    let mut greatest: u32 = 0;
    let mut sum: u64 = 0;
    for block in die.blocks.as_slice() {
        least = least.min(block.erases);
        greatest = greatest.max(block.erases);
        sum = sum.saturating_add(u64::from(block.erases));
    }
    let count = (die.blocks.len() as u64).max(1);
    let hundredths = sum.saturating_mul(100) / count;
    let (whole, tenths, rest) = (hundredths / 100, hundredths / 10 % 10, hundredths % 10);
    writeln!(
        text,
        "die {number}: its blocks were erased {least} to {greatest} times, {whole}.{tenths}{rest} in the mean."
    )
}

/// Tells of a die.
fn put_die(text: &mut Vec<u8>, number: usize, plan: &DiePlan, die: &SavedDie) -> io::Result<()>
    requires bound { MeetsBound plan.now }
{
    put_pages(text, number, plan, die)?;
    put_tasks(text, number, plan, die)?;
    put_wear(text, number, die)
}

/// Adds what a checkpoint says of a die, which has to fit its plan. `first` is its first record.
fn explain_die(
    alloc: Global,
    text: &mut Vec<u8>,
    number: usize,
    plan: &DiePlan,
    saved: &SavedDie,
    first: u32,
) -> Result<(), RunFault> {
    let die = u32::try_from(number).unwrap_or(u32::MAX);
    check_die(alloc, plan, saved, die, first)?;
    match put_die(text, number, plan, saved) {
        Ok(()) => Ok(()),
        Err(_) => Err(RunFault::Refused(Refusal::NoMemory)),
    }
}

/// That what was saved of dies fits the plans of a store, of which there are as many; that pages have bytes isn't asked for.
///
/// Refused as [`run_script`](crate::run_script) is of what was saved, but that pages may have no bytes.
pub fn check_store(alloc: Global, plan: &StorePlan, saved: &SavedStore) -> Result<(), RunFault>
    ensures fit { OnOk result (AllZip FitsDie plan.now saved.now) }
{
    same_store(plan.len(), saved)?;
    let mut left = saved.as_slice();
    let mut number: u32 = 0;
    let mut first = FIRST_LINE;
    for own in plan.as_slice() {
        let Some((die, later)) = left.split_first() else {
            unreachable!()
        };
        check_die(alloc, own, die, number, first)?;
        number = number.saturating_add(1);
        first = first.saturating_add(lines_of(die));
        left = later;
    }
    Ok(())
}

/// Adds sentences to a text: what a checkpoint says of the dies of a plan, which it has to fit: the pages, the balances, whether the
/// plan's work goes on from there, and how often blocks were erased (the mean to the hundredth below).
///
/// Refused as [`run_script`](crate::run_script) is of what was saved, but that pages may have no bytes.
pub fn explain(
    alloc: Global,
    text: &mut Vec<u8>,
    plan: &StorePlan,
    saved: &SavedStore,
) -> Result<(), RunFault> {
    same_store(plan.len(), saved)?;
    let dies = saved.as_slice();
    let mut first = FIRST_LINE;
    for number in 0..dies.len() {
        let Some(plan) = plan.get(number) else {
            break;
        };
        explain_die(alloc, text, number, plan, &dies[number], first)?;
        first = first.saturating_add(lines_of(&dies[number]));
    }
    Ok(())
}
