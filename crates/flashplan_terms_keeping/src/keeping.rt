//! Whether a script keeps the plans of its dies, and if not, what breaks them first.

ghost use Rattle.std.specs.Prelude.{◌≡◌, ◌<◌, ◌≤◌, All, IfOk, IfSome, None, length};
ghost use Rattle.terms_texts.specs.Stores.{IsUsable};
ghost use Rattle.flashplan_terms_keeping.specs.Verdicts.{IsBrokenScript, KeepsOn, Says};

use crate::verdicts::{Broken, Verdict};
use demand_keeping::{Breach, keeps_demand_plan};
use flashplan_arrivals::events_on;
use slot_types::{Refusal, StorePlan};
use std::alloc::Global;
use terms_texts::{StoreTerms, plans_of};

/// What breaks the plan of a die first, unless its rows keep it.
fn die_breach(
    alloc: Global,
    text: &[u8],
    plans: &StorePlan,
    store: &StoreTerms,
    slots: u32,
    die: u32,
) -> Result<Option<Breach>, Refusal>
    requires own { die < length store.now }
    requires same { length plans.now ≡ length store.now }
    requires usable { All IsUsable store.now }
    ensures broken { IfOk result (λ found.
        IfSome found (IsBrokenScript store.now slots text.now die)) }
    ensures kept { IfOk result (λ found.
        found ≡ None → KeepsOn store.now slots text.now die) }
{
    let own = &store.as_slice()[die as usize];
    let events = events_on(alloc, text, plans, slots, die)?;
    match keeps_demand_plan(alloc, &own.plan, &own.terms, events.as_slice())? {
        Ok(()) => Ok(None),
        Err(breach) => Ok(Some(breach)),
    }
}

/// Whether the rows of a script keep the plan of each die, as
/// [`keeps_demand_plan`](demand_keeping::keeps_demand_plan) judges it; and if not, the first die whose plan they break, and
/// the first condition of that plan that doesn't hold. It refuses what the reader of scripts refuses, and NoMemory.
pub fn keep_terms(
    alloc: Global,
    text: &[u8],
    store: &StoreTerms,
    slots: u32,
) -> Result<Verdict, Refusal>
    requires some { 1 ≤ length store.now }
    requires few { length store.now ≤ 8 }
    requires usable { All IsUsable store.now }
    ensures { IfOk result (Says store.now slots text.now) }
{
    let plans = plans_of(alloc, store)?;
    for die in 0..store.len() {
        let die = die as u32;
        if let Some(breach) = die_breach(alloc, text, &plans, store, slots, die)? {
            return Ok(Verdict::Broken(Broken { die, breach }));
        }
    }
    Ok(Verdict::Kept)
}
