//! Dies as they start.

ghost use Rattle.std.specs.Prelude.{◌≡◌, ◌≤◌, [], false, All, List, IfErr, IfOk, IfNone, IfSome, IsSome, OnOk, length, map, position};
ghost use Rattle.slot_types.specs.Refusal.{FailsForMemory};
ghost use Rattle.plan_rules.specs.Bound.{MeetsBound};
ghost use Rattle.checkpoint_texts.specs.SavedDies.{checkpoint_of};
ghost use Rattle.die_checkpoint.specs.Fits.{Fits};
ghost use Rattle.die_log.specs.Model.Start.{fresh};
ghost use Rattle.flashplan_script_runs.specs.RunningDies.{HasEmptyLog};
ghost use Rattle.slot_types.specs.declared.plans.DiePlan.{DiePlan};
ghost use Rattle.die_checkpoint.specs.Faults.{HasCheckpointFault};
ghost use Rattle.flashplan_checkpoint_runs.specs.Refusals.{RefusesDie, RefusesSaved};
ghost use Rattle.flashplan_checkpoint_runs.specs.Runs.{running, starts_of};
ghost use Rattle.flashplan_checkpoint_runs.specs.SavedDies.{FitsDie, HaveBytes, is_bare, saved_start, saved_starts};

use crate::devices::device_of;
use crate::dies::{StoreDies, push_die};
use crate::faults::RunFault;
use crate::lines::{FIRST_LINE, line_of, line_of_page, lines_of};
use checkpoint_texts::{SavedDie, SavedPage, SavedStore};
use die_checkpoint::{Checkpoint, CheckpointFault};
use flash_die::MemoryNand;
use slot_core::DieCore;
use slot_types::{DiePlan, Refusal, StorePlan};
use std::alloc::Global;

/// A die on which nothing was done. The only refusal is NoMemory.
fn fresh_die(alloc: Global, plan: DiePlan) -> Result<DieCore<MemoryNand>, Refusal>
    requires { MeetsBound plan }
    ensures ok { IfOk result (λ die. die.start ≡ fresh plan) }
    ensures log { IfOk result (λ die. die.log ≡ []) }
    ensures runs { IfOk result (λ die. die.stopped ≡ false) }
    ensures refused { FailsForMemory result }
{
    let nand = match MemoryNand::new(alloc, plan.shape) {
        Ok(nand) => nand,
        Err(_) => return Err(Refusal::NoMemory),
    };
    match DieCore::new(alloc, plan, nand) {
        Ok(die) => Ok(die),
        Err(_) => Err(Refusal::NoMemory),
    }
}

/// Dies on which nothing was done, one of each plan. The only refusal is NoMemory.
pub fn fresh_store(alloc: Global, plan: StorePlan) -> Result<StoreDies, Refusal>
    requires { All MeetsBound plan }
    ensures ok { IfOk result (λ dies. starts_of dies.items ≡ map fresh plan) }
    ensures empty { IfOk result (λ dies. All HasEmptyLog (running dies.items)) }
    ensures run { IfOk result (λ dies. All (λ die. die.stopped ≡ false) dies.items) }
    ensures count { IfOk result (λ dies. length dies.items ≡ length plan) }
    ensures refused { FailsForMemory result }
{
    let mut dies = Vec::new(alloc);
    for plan in plan.into_vec() {
        let die = fresh_die(alloc, plan)?;
        push_die(&mut dies, die)?;
    }
    Ok(dies)
}

/// Where the first page is that lies in a cell and has no bytes.
fn bare_at(pages: &[SavedPage]) -> Option<usize>
    ensures { result ≡ position is_bare pages.now }
{
    pages
        .iter()
        .position(|page| page.place.is_some() && page.bytes.is_none())
}

/// The first page that lies in a cell and has no bytes.
fn first_bare(pages: &[SavedPage]) -> Option<u32>
    ensures none { IfNone result (HaveBytes pages.now) }
    ensures some { IfSome result (λ _. IsSome (position is_bare pages.now)) }
{
    match bare_at(pages) {
        Some(page) => Some(u32::try_from(page).unwrap_or(u32::MAX)),
        None => None,
    }
}

/// Why a die that was saved isn't taken.
fn unfit(saved: &SavedDie, die: u32, first: u32, fault: CheckpointFault) -> RunFault
    ensures { (plan : DiePlan) → HasCheckpointFault plan (checkpoint_of saved.now) fault →
        RefusesDie plan saved.now result }
{
    match fault {
        CheckpointFault::NoMemory => RunFault::Refused(Refusal::NoMemory),
        _ => RunFault::Unfit {
            die,
            line: line_of(first, saved, fault),
            fault,
        },
    }
}

/// What stands on a die that was saved, which fits its plan. `die` and `first` are its number and its first record in the text,
/// which a fault names.
pub fn check_die(
    alloc: Global,
    plan: &DiePlan,
    saved: &SavedDie,
    die: u32,
    first: u32,
) -> Result<Checkpoint, RunFault>
    ensures checkpoint { IfOk result (λ made. made ≡ checkpoint_of saved.now) }
    ensures fits { OnOk result (Fits plan.now (checkpoint_of saved.now)) }
    ensures refused { IfErr result (RefusesDie plan.now saved.now) }
{
    let checkpoint = saved.checkpoint(alloc)?;
    match checkpoint.check(alloc, plan) {
        Ok(()) => Ok(checkpoint),
        Err(fault) => Err(unfit(saved, die, first, fault)),
    }
}

/// Whether all placed pages of a die have bytes.
pub fn check_bytes(saved: &SavedDie, die: u32, first: u32) -> Result<(), RunFault>
    ensures have { OnOk result (HaveBytes saved.now.pages) }
    ensures refused { (plan : DiePlan) → FitsDie plan saved.now →
        IfErr result (RefusesDie plan saved.now) }
{
    if let Some(page) = first_bare(saved.pages.as_slice()) {
        let line = line_of_page(first, page);
        return Err(RunFault::NoBytes { die, line, page });
    }
    Ok(())
}

/// A die that goes on as it was saved, on a device in memory that is as it was left. It is at slot 0, and its log is empty.
fn saved_die(
    alloc: Global,
    plan: DiePlan,
    saved: &SavedDie,
    die: u32,
    first: u32,
) -> Result<DieCore<MemoryNand>, RunFault>
    ensures ok { IfOk result (λ core. core.start ≡ saved_start plan saved.now) }
    ensures log { IfOk result (λ core. core.log ≡ []) }
    ensures runs { IfOk result (λ core. core.stopped ≡ false) }
    ensures fits { OnOk result (FitsDie plan saved.now) }
    ensures have { OnOk result (HaveBytes saved.now.pages) }
    ensures refused { IfErr result (RefusesDie plan saved.now) }
{
    let checkpoint = check_die(alloc, &plan, saved, die, first)?;
    check_bytes(saved, die, first)?;
    let device = device_of(alloc, &plan, saved)?;
    match DieCore::resume(alloc, plan, device, &checkpoint) {
        Ok(core) => Ok(core),
        Err(_) => Err(RunFault::Refused(Refusal::NoMemory)),
    }
}

/// Refuses what was saved of another number of dies.
pub fn same_store(count: usize, saved: &SavedStore) -> Result<(), RunFault>
    ensures same { OnOk result (length saved.now ≡ count) }
    ensures refused { (plans : List DiePlan) → length plans ≡ count →
        IfErr result (RefusesSaved plans saved.now) }
{
    if saved.len() == count {
        return Ok(());
    }
    Err(RunFault::OtherStore {
        saved: u32::try_from(saved.len()).unwrap_or(u32::MAX),
        dies: u32::try_from(count).unwrap_or(u32::MAX),
    })
}

/// Dies that go on as they were saved, one of each plan.
///
/// Refused where there are more or fewer dies than plans; else with the first fault of the first die that doesn't fit its plan, or
/// of whose placed pages one has no bytes, and the record of the checkpoint's text; or with NoMemory.
pub fn saved_store(
    alloc: Global,
    plan: StorePlan,
    saved: &SavedStore,
) -> Result<StoreDies, RunFault>
    ensures ok { IfOk result (λ dies. starts_of dies.items ≡ saved_starts plan saved.now) }
    ensures empty { IfOk result (λ dies. All HasEmptyLog (running dies.items)) }
    ensures run { IfOk result (λ dies. All (λ die. die.stopped ≡ false) dies.items) }
    ensures count { IfOk result (λ dies. length dies.items ≡ length plan) }
    ensures refused { IfErr result (RefusesSaved plan saved.now) }
{
    same_store(plan.len(), saved)?;
    let mut left = saved.as_slice();
    let mut number: u32 = 0;
    let mut first = FIRST_LINE;
    let mut dies = Vec::new(alloc);
    for plan in plan.into_vec() {
        let Some((next, later)) = left.split_first() else {
            unreachable!()
        };
        let die = saved_die(alloc, plan, next, number, first)?;
        push_die(&mut dies, die)?;
        number = number.saturating_add(1);
        first = first.saturating_add(lines_of(next));
        left = later;
    }
    Ok(dies)
}
