//! One life of a store's dies by their plan.

ghost use Rattle.std.specs.Prelude.{◌≤◌, ℕ, All, IfErr, IfOk, length};
ghost use Rattle.plan_rules.specs.Bound.{MeetsBound};
ghost use Rattle.flashplan_arrivals.specs.PlannedScripts.{HasPassed, IsPlannedScript};
ghost use Rattle.flashplan_full_dies.specs.FullDies.{IsLife, IsUnfilled};

use crate::copies::store_copy;
use crate::faults::FillFault;
use crate::pages::held_pages;
use checkpoint_texts::SavedStore;
use flashplan_arrivals::{Fault, Manner, arrivals_from, life};
use flashplan_checkpoint_runs::{StoreRun, run_script, save_dies};
use slot_types::{DiePlan, MAX_SLOT, StorePlan};
use std::alloc::Global;

/// For how many slots the numbers of each of these dies last.
fn shortest_life(plans: &[DiePlan]) -> u32
    ensures { result ≤ MAX_SLOT }
{
    let mut least = MAX_SLOT;
    for own in plans {
        least = least.min(life(own));
    }
    least
}

/// The most slots up to `slots` by which the periods of these dies end: a multiple of their hyperperiod, which is one
/// for all dies of a plan's text. They are `slots` where the periods end by none.
fn ended_by(plans: &[DiePlan], slots: u32) -> u32
    ensures { result ≤ slots }
{
    let mut end = slots;
    for own in plans {
        if let Some(times) = &own.times
            && times.common <= end
            && times.common > 0
        {
            end -= end % times.common;
        }
    }
    end
}

/// How many slots the longest life of the dies of a plan has.
pub(crate) fn longest_life(plan: &StorePlan) -> u32
    ensures { result ≤ MAX_SLOT }
{
    let plans = plan.as_slice();
    ended_by(plans, shortest_life(plans))
}

/// A script for `slots` slots.
#[derive(Drop)]
struct LifeScript {
    text: Vec<u8>,
    slots: u32,
}

/// How often a script that has too many bytes is halved at most: from 1,048,576 slots to none.
const HALVINGS: u32 = 21;

/// The script of all that the tasks of a plan ask for in a life: for `most` slots, or half of them, and so on, until it
/// has few enough bytes. It fills the pages of the dies that don't lie in cells yet.
fn script_of(
    alloc: Global,
    plan: &StorePlan,
    from: Option<&SavedStore>,
    most: u32,
    seed: u32,
) -> Result<LifeScript, FillFault>
    requires some { 1 ≤ length plan.now }
    requires few { length plan.now ≤ 8 }
    requires bound { All MeetsBound plan.now }
    requires passed { All HasPassed plan.now }
    requires slots { most ≤ MAX_SLOT }
    ensures planned { IfOk result (λ script.
        IsPlannedScript plan.now script.slots script.text.items) }
    ensures few { IfOk result (λ script. script.slots ≤ MAX_SLOT) }
    ensures refused { (least : ℕ) → IfErr result (IsUnfilled plan.now least) }
{
    let held = held_pages(alloc, from)?;
    let manner = Manner {
        fills: true,
        ..Manner::all(seed)
    };
    let mut slots = most;
    for _ in 0..HALVINGS {
        match arrivals_from(alloc, plan, slots, manner, held.as_slice()) {
            Ok(text) => return Ok(LifeScript { text, slots }),
            Err(Fault::TooLong) => slots = ended_by(plan.as_slice(), slots / 2),
            Err(fault) => return Err(FillFault::Unplanned(fault)),
        }
    }
    Err(FillFault::Unplanned(Fault::TooLong))
}

/// What was saved of dies at the end of a life, which had `slots` slots, and how many of its rows were refused.
#[derive(Drop)]
pub(crate) struct Lived {
    pub(crate) saved: SavedStore,
    pub(crate) slots: u32,
    pub(crate) refused: u32,
}

/// One life of the dies of a plan, fresh ones or from what was saved of them. It has all that their tasks ask for in at
/// most `most` slots, and as many slots more as are needed until all is done. The pages that don't lie in cells yet are
/// written first.
pub(crate) fn one_life(
    alloc: Global,
    plan: &StorePlan,
    from: Option<SavedStore>,
    most: u32,
    seed: u32,
) -> Result<Lived, FillFault>
    requires some { 1 ≤ length plan.now }
    requires few { length plan.now ≤ 8 }
    requires bound { All MeetsBound plan.now }
    requires passed { All HasPassed plan.now }
    requires slots { most ≤ MAX_SLOT }
    ensures lived { IfOk result (λ lived. IsLife plan.now from lived.refused lived.saved) }
    ensures few { IfOk result (λ lived. lived.slots ≤ MAX_SLOT) }
    ensures refused { (least : ℕ) → IfErr result (IsUnfilled plan.now least) }
{
    let LifeScript { text, slots } = script_of(alloc, plan, from.as_ref(), most, seed)?;
    let own = store_copy(alloc, plan)?;
    let StoreRun { dies, refused, .. } = run_script(
        alloc,
        own,
        from,
        text.as_slice(),
        slots,
        true,
    )?;
    let saved = save_dies(alloc, dies)?;
    Ok(Lived {
        saved,
        slots,
        refused: refused.count,
    })
}
