//! The plans of a store's dies without their terms.

ghost use Rattle.std.specs.Prelude.{◌≡◌, IfOk};
ghost use Rattle.slot_types.specs.Refusal.{FailsForMemory};
ghost use Rattle.terms_texts.specs.Plans.{plan_in, plans_in};

use crate::stores::{DieTerms, StoreTerms};
use slot_types::{Caps, DiePlan, Refusal, StorePlan};
use std::alloc::Global;

/// The same caps once more. The only refusal is NoMemory.
fn same_caps(alloc: Global, caps: &[u32]) -> Result<Caps, Refusal>
    ensures same { IfOk result (λ same. same ≡ caps.now) }
    ensures refused { FailsForMemory result }
{
    let mut same = Caps::new(alloc);
    for cap in caps {
        same.push(*cap)?;
    }
    Ok(same)
}

/// The plan of a die without its terms.
fn plan_of(alloc: Global, die: &DieTerms) -> Result<DiePlan, Refusal>
    ensures plan { IfOk result (λ plan. plan ≡ plan_in die.now) }
    ensures refused { FailsForMemory result }
{
    let caps = same_caps(alloc, die.plan.caps.as_slice())?;
    Ok(DiePlan {
        shape: die.plan.shape,
        logical: die.plan.logical,
        alpha: die.plan.alpha,
        caps,
        times: None,
    })
}

/// The plans of a store's dies, by die, without their terms: what a run of these dies needs. They have no times. The only
/// refusal is NoMemory.
pub fn plans_of(alloc: Global, store: &StoreTerms) -> Result<StorePlan, Refusal>
    ensures plans { IfOk result (λ plans. plans ≡ plans_in store.now) }
    ensures refused { FailsForMemory result }
{
    let mut plans = StorePlan::new(alloc);
    for die in store.as_slice() {
        plans.push(plan_of(alloc, die)?)?;
    }
    Ok(plans)
}
