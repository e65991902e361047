//! A run of the heaviest use that a plan allows.

ghost use Rattle.std.specs.Prelude.{◌≡◌, ◌≤◌, All, IfOk, Ok, length};
ghost use Rattle.plan_rules.specs.Bound.{MeetsBound};
ghost use Rattle.terms_texts.specs.Stores.{IsStore, IsUsable};
ghost use Rattle.terms_texts.specs.TermsText.{read_numbers};
ghost use Rattle.terms_texts.specs.declared.numbers.TermsNumbers.{TermsNumbers};
ghost use Rattle.flashplan_arrivals.specs.PlannedScripts.{IsPlannedScript};
ghost use Rattle.flashplan_terms_keeping.specs.Verdicts.{IsKeptScript};
ghost use Rattle.flashplan_design_pages.specs.Pages.{AreFiguresOf, IsRunFor};

use demand_rules::TaskTerms;
use flashplan_arrivals::{Fault, Manner, arrivals};
use flashplan_fit::Fitted;
use flashplan_run_figures::Life;
use flashplan_slot_times::Units;
use flashplan_terms_arrivals::{arrivals as terms_arrivals, life_of};
use flashplan_watched_runs::{Reported, Shown, draw, report};
use plan_texts::read_plan;
use slot_types::{MAX_SLOT, Refusal, StorePlan};
use std::alloc::Global;
use terms_texts::{StoreTerms, plans_of, read_terms};

/// What draws the operations and their pages.
pub(crate) const SEED: u32 = 0;

/// The fewest slots of a run, if a life has as many.
const FEWEST: u32 = 100_000;

/// The fewest slots of a picture, and the most.
const LEAST_DRAWN: u32 = 40;

const MOST_DRAWN: u32 = 200;

/// How long a run is, and how many of its slots are drawn.
#[derive(Clone, Copy, Drop)]
pub(crate) struct RunSlots {
    pub(crate) slots: u32,
    pub(crate) drawn: u32,
}

impl RunSlots {
    /// Of tasks with these terms: twice the longest period, 100,000 slots at least and a life at most. Of these
    /// `interval` are drawn, as many as a length of interval has, but 40 at least and 200 at most.
    pub(crate) fn of(tasks: &[TaskTerms], interval: u32) -> RunSlots
        ensures few { result.slots ≤ 1048576 }
    {
        let mut longest: u32 = 0;
        for task in tasks {
            longest = longest.max(task.period);
        }
        let slots = longest.saturating_mul(2).max(FEWEST);
        let slots = slots.min(life_of(tasks)).min(MAX_SLOT);
        RunSlots {
            slots,
            drawn: interval.max(LEAST_DRAWN).min(MOST_DRAWN).min(slots),
        }
    }
}

/// What a run came to, as records, and the picture of its first slots.
#[derive(Drop)]
pub(crate) struct Run {
    pub(crate) figures: Vec<u8>,
    pub(crate) picture: Vec<u8>,
}

/// Why there is no script of arrivals. Of a plan that was found, and of no more slots than a life has, it is NoMemory alone.
fn refusal_of(fault: Fault) -> Refusal {
    match fault {
        Fault::Refused(refusal) => refusal,
        Fault::TooMany { .. } | Fault::TooLong | Fault::Astray => Refusal::BadPlan,
    }
}

/// The records of a run of a script on fresh dies.
fn figures_of(
    alloc: Global,
    store: StorePlan,
    script: &[u8],
    slots: u32,
    life: Life,
) -> Result<Vec<u8>, Refusal>
    requires few { slots ≤ MAX_SLOT }
    requires bound { All MeetsBound store }
    ensures { IfOk result (λ figures. AreFiguresOf store script.now slots figures.items) }
{
    let Reported {
        text,
        refused: _,
        sights: _,
        failure: _,
    } = report(alloc, store, script, slots, life, Units::NONE, true, None)?;
    Ok(text)
}

/// The picture of the first slots of such a run, with their times.
fn picture_of(
    alloc: Global,
    store: StorePlan,
    script: &[u8],
    run: RunSlots,
    slot_us: u32,
) -> Result<Vec<u8>, Refusal>
    requires few { run.slots ≤ MAX_SLOT }
    requires bound { All MeetsBound store }
{
    let shown = Shown {
        from: 0,
        to: run.drawn,
        worst: false,
        as_text: false,
        all: false,
        units: Units {
            slot_us: Some(slot_us),
            page_bytes: None,
        },
    };
    let Reported {
        text,
        refused: _,
        sights: _,
        failure: _,
    } = draw(alloc, store, script, run.slots, 0, shown, None)?;
    Ok(text)
}

/// A run of a script, of a store and of the same once more.
fn ran(
    alloc: Global,
    store: StorePlan,
    again: StorePlan,
    script: &[u8],
    run: RunSlots,
    life: Life,
) -> Result<Run, Refusal>
    requires few { run.slots ≤ MAX_SLOT }
    requires bound { All MeetsBound store }
    requires bound_again { All MeetsBound again }
    ensures { IfOk result (λ ran. AreFiguresOf store script.now run.slots ran.figures.items) }
{
    let figures = figures_of(alloc, store, script, run.slots, life)?;
    let picture = picture_of(alloc, again, script, run, life.slot_us)?;
    Ok(Run { figures, picture })
}

/// The script of all that the tasks of plans with times may ask for.
fn script_of_times(alloc: Global, store: &StorePlan, slots: u32) -> Result<Vec<u8>, Refusal>
    requires some { 1 ≤ length store.now }
    requires few { length store.now ≤ 8 }
    requires bound { All MeetsBound store.now }
    ensures { IfOk result (λ text. IsPlannedScript store.now slots text.items) }
{
    match arrivals(alloc, store, slots, Manner::all(SEED)) {
        Ok(script) => Ok(script),
        Err(fault) => Err(refusal_of(fault)),
    }
}

/// The same of plans with terms.
fn script_of_terms(alloc: Global, store: &StoreTerms, slots: u32) -> Result<Vec<u8>, Refusal>
    requires some { 1 ≤ length store.now }
    requires few { length store.now ≤ 8 }
    requires usable { All IsUsable store.now }
    ensures { IfOk result (λ text. IsKeptScript store.now slots text.items) }
{
    match terms_arrivals(alloc, store, slots, SEED) {
        Ok(script) => Ok(script),
        Err(fault) => Err(refusal_of(fault)),
    }
}

/// A run of a plan with times.
fn run_times(alloc: Global, plan: &[u8], run: RunSlots, life: Life) -> Result<Run, Refusal>
    requires { run.slots ≤ MAX_SLOT }
    ensures { IfOk result (λ ran. IsRunFor plan.now run.slots ran.figures.items) }
{
    let store = read_plan(alloc, plan)?;
    let script = script_of_times(alloc, &store, run.slots)?;
    let again = read_plan(alloc, plan)?;
    ran(alloc, store, again, &script, run, life)
}

/// The plan with terms of a text.
fn store_of_terms(alloc: Global, plan: &[u8]) -> Result<StoreTerms, Refusal>
    ensures ok { IfOk result (λ store. (numbers : TermsNumbers)
        × (read_numbers plan.now ≡ Ok numbers) × IsStore numbers store) }
    ensures some { IfOk result (λ store. 1 ≤ length store) }
    ensures few { IfOk result (λ store. length store ≤ 8) }
    ensures usable { IfOk result (All IsUsable) }
{
    match read_terms(alloc, plan) {
        Ok(store) => Ok(store),
        Err(refusal) => Err(refusal.refusal()),
    }
}

/// A run of a plan with terms.
fn run_terms(alloc: Global, plan: &[u8], run: RunSlots, life: Life) -> Result<Run, Refusal>
    requires { run.slots ≤ MAX_SLOT }
    ensures { IfOk result (λ ran. IsRunFor plan.now run.slots ran.figures.items) }
{
    let store = store_of_terms(alloc, plan)?;
    let script = script_of_terms(alloc, &store, run.slots)?;
    let plans = plans_of(alloc, &store)?;
    let again = plans_of(alloc, &store)?;
    ran(alloc, plans, again, &script, run, life)
}

/// A run of all that the tasks of a plan that was found may ask for, on a fresh die in memory: its figures, with the years that
/// blocks last where the datasheet says how often one may be erased, and the picture of its first slots. NoMemory; another
/// refusal has never been seen.
pub(crate) fn run_of(alloc: Global, fitted: &Fitted, run: RunSlots) -> Result<Run, Refusal>
    requires { run.slots ≤ MAX_SLOT }
    ensures { IfOk result (λ ran. IsRunFor fitted.now.text.items run.slots ran.figures.items) }
{
    let life = Life {
        endurance: fitted.sheet.part.endurance.unwrap_or(0),
        slot_us: fitted.slot_us,
    };
    if fitted.sheet.is_plain() {
        run_times(alloc, fitted.text.as_slice(), run, life)
    } else {
        run_terms(alloc, fitted.text.as_slice(), run, life)
    }
}
