//! The plans of a store's dies, of a text with terms or without.

ghost use Rattle.std.specs.Prelude.{◌≤◌, All, IfOk, length};
ghost use Rattle.plan_rules.specs.Bound.{MeetsBound};
ghost use Rattle.flashplan_commands.specs.PlanKinds.{ReadsPlan, ReadsStore};

use crate::slot_lengths::slot_for;
use flashplan_terms_design::is_terms_text;
use plan_texts::{plan_text, read_plan};
use slot_types::{Refusal, StorePlan};
use std::alloc::Global;
use std::io::Read;
use terms_texts::{StoreTerms, TermsRefusal, plans_of, read_terms};
use text_base::FlaggedReader;

/// Why a plan's text makes no store.
#[derive(Clone, Copy, PartialEq, Eq, Debug, Drop)]
pub enum Unread {
    /// Of a plan without terms; or the reader failed, or memory ran out.
    Refused(Refusal),
    /// Of a plan with terms.
    WithTerms(TermsRefusal),
}

impl From<Refusal> for Unread {
    ghost use Rattle.std.specs.Prelude.{◌≡◌};
    ghost use Rattle.flashplan_commands.specs.declared.stores.Unread.TheVariants.{Refused};

    ghost from_gives = { λ refusal made. made ≡ Refused refusal };

    fn from(refusal: Refusal) -> Self {
        Unread::Refused(refusal)
    }
}

impl From<TermsRefusal> for Unread {
    ghost use Rattle.std.specs.Prelude.{◌≡◌};
    ghost use Rattle.flashplan_commands.specs.declared.stores.Unread.TheVariants.{WithTerms};

    ghost from_gives = { λ refusal made. made ≡ WithTerms refusal };

    fn from(refusal: TermsRefusal) -> Self {
        Unread::WithTerms(refusal)
    }
}

impl Unread {
    /// The refusal without its place.
    pub fn refusal(self) -> Refusal {
        match self {
            Unread::Refused(refusal) => refusal,
            Unread::WithTerms(refusal) => refusal.refusal(),
        }
    }
}

/// A plan as it was read: the store that its text makes.
#[derive(Drop)]
pub enum PlanRead {
    Plain(StorePlan),
    WithTerms(StoreTerms),
}

/// A plan as it was read, and how many us a slot takes, where that is known.
#[derive(Drop)]
pub struct TimedPlan {
    pub plan: PlanRead,
    pub slot_us: Option<u32>,
}

/// The plans of a store's dies, and how many us a slot takes, where that is known.
#[derive(Drop)]
pub struct TimedStore {
    pub store: StorePlan,
    pub slot_us: Option<u32>,
}

/// Reads a plan, with terms or without: of each kind as [`read_terms`] and [`read_plan`] do, no more of it than 1,048,577
/// bytes. Which kind it is, [`is_terms_text`] tells. A slot is as long as is asked for, or as the plan's text begins.
/// ReadFault comes where the reader fails, and NoMemory where memory is refused.
pub fn timed_plan_in<R: Read + Drop>(
    alloc: Global,
    plan: R,
    asked: Option<u32>,
) -> Result<TimedPlan, Unread>
    ensures { IfOk result (λ timed. ReadsPlan (R.remaining plan) timed.plan) }
{
    let text = plan_text(alloc, &mut FlaggedReader::new(plan))?;
    let slot_us = slot_for(alloc, &text, asked)?;
    if is_terms_text(alloc, &text)? {
        let store = read_terms(alloc, &text)?;
        Ok(TimedPlan {
            plan: PlanRead::WithTerms(store),
            slot_us,
        })
    } else {
        let store = read_plan(alloc, &text)?;
        Ok(TimedPlan {
            plan: PlanRead::Plain(store),
            slot_us,
        })
    }
}

/// Reads the plans of a store's dies, of a plan with terms or without, as [`timed_plan_in`] does: of one with terms, which
/// has passed its tests, without these. It is refused as [`timed_plan_in`] refuses it.
pub fn timed_store_of<R: Read + Drop>(
    alloc: Global,
    plan: R,
    asked: Option<u32>,
) -> Result<TimedStore, Unread>
    ensures store { IfOk result (λ timed. ReadsStore (R.remaining plan) timed.store) }
    ensures some { IfOk result (λ timed. 1 ≤ length timed.store) }
    ensures few { IfOk result (λ timed. length timed.store ≤ 8) }
    ensures bound { IfOk result (λ timed. All MeetsBound timed.store) }
{
    let TimedPlan { plan, slot_us } = timed_plan_in(alloc, plan, asked)?;
    match plan {
        PlanRead::Plain(store) => Ok(TimedStore { store, slot_us }),
        PlanRead::WithTerms(terms) => {
            let store = plans_of(alloc, &terms)?;
            Ok(TimedStore { store, slot_us })
        }
    }
}

/// Reads them as [`timed_store_of`] does, whatever the length of a slot.
pub fn store_of<R: Read + Drop>(alloc: Global, plan: R) -> Result<StorePlan, Unread>
    ensures store { IfOk result (ReadsStore (R.remaining plan)) }
    ensures some { IfOk result (λ store. 1 ≤ length store) }
    ensures few { IfOk result (λ store. length store ≤ 8) }
    ensures bound { IfOk result (All MeetsBound) }
{
    let timed = timed_store_of(alloc, plan, None)?;
    Ok(timed.store)
}
