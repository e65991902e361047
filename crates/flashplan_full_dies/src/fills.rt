//! The dies of a store, filled.

ghost use Rattle.std.specs.Prelude.{◌≤◌, All, IfErr, IfOk, OnOk, length};
ghost use Rattle.plan_rules.specs.Bound.{MeetsBound};
ghost use Rattle.flashplan_arrivals.specs.PlannedScripts.{HasPassed};
ghost use Rattle.flashplan_full_dies.specs.FullDies.{AreFilled, IsUnfilled};

use crate::faults::FillFault;
use crate::lives::{Lived, longest_life, one_life};
use crate::pages::are_full;
use crate::writers::first_unwritten;
use checkpoint_texts::SavedStore;
use flashplan_arrivals::{Fault, test_all};
use slot_types::StorePlan;
use std::alloc::Global;

/// The most lives that are run.
pub const MOST_LIVES: u32 = 1_000;

/// Full dies, and the lives that they had.
#[derive(Drop)]
pub struct Filled {
    pub saved: SavedStore,
    /// How many lives.
    pub lives: u32,
    /// How many rows were refused in all of these.
    pub refused: u64,
}

/// That no more lives are asked for than are run, the times of each die pass their test, and each has a task that writes.
fn check_asked(plan: &StorePlan, least: u32) -> Result<(), FillFault>
    requires few { length plan.now ≤ 8 }
    requires bound { All MeetsBound plan.now }
    ensures few { OnOk result (least ≤ MOST_LIVES) }
    ensures passed { OnOk result (All HasPassed plan.now) }
    ensures refused { IfErr result (IsUnfilled plan.now least) }
{
    if least > MOST_LIVES {
        return Err(FillFault::TooManyLives);
    }
    if let Err(refusal) = test_all(plan.as_slice()) {
        return Err(FillFault::Unplanned(Fault::Refused(refusal)));
    }
    match first_unwritten(plan.as_slice()) {
        Some(die) => Err(FillFault::NeverFull { die }),
        None => Ok(()),
    }
}

/// Full dies of a plan with times: what stands on them once each of their logical pages lies in a cell, after at least
/// `least` lives from fresh dies on, and at most [`MOST_LIVES`]. In each the tasks ask for all that the plan allows,
/// for as many slots as the dies' numbers last. Where the periods of a life end by then, it ends there, so that nothing
/// of the next one is refused or late. The tasks write each page once, in order, before they draw any. The seed chooses
/// what is drawn.
///
/// Refused where more lives are asked for than are run; with BadPlan where a die has no times that pass their test;
/// where one has no task that writes: the first such die; where a page isn't written in [`MOST_LIVES`] lives; or with
/// NoMemory.
pub fn fill(alloc: Global, plan: &StorePlan, least: u32, seed: u32) -> Result<Filled, FillFault>
    requires some { 1 ≤ length plan.now }
    requires few { length plan.now ≤ 8 }
    requires bound { All MeetsBound plan.now }
    ensures filled { IfOk result (AreFilled plan.now least) }
    ensures refused { IfErr result (IsUnfilled plan.now least) }
{
    check_asked(plan, least)?;
    let mut slots = longest_life(plan);
    let mut from = None;
    let mut refused: u64 = 0;
    for life in 0..MOST_LIVES {
        let lives = life + 1;
        let lived = one_life(alloc, plan, from, slots, seed.wrapping_add(lives))?;
        slots = lived.slots;
        refused += u64::from(lived.refused);
        let saved = lived.saved;
        if lives >= least && are_full(&saved) {
            return Ok(Filled {
                saved,
                lives,
                refused,
            });
        }
        from = Some(saved);
    }
    Err(FillFault::TooSlow)
}
