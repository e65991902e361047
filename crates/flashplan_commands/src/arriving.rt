//! The script of a plan's arrivals.

ghost use Rattle.std.specs.Prelude.{◌≡◌, ◌≤◌, All, IfErr, IfOk, OnErr, OnOk, if◌then◌else◌, is_ok, length};
ghost use Rattle.plan_rules.specs.Bound.{MeetsBound};
ghost use Rattle.terms_texts.specs.Stores.{IsUsable};
ghost use Rattle.text_base.specs.Writing.{IsNotWhole};
ghost use Rattle.flashplan_arrivals.specs.PlannedScripts.{IsPlannedScript};
ghost use Rattle.flashplan_terms_keeping.specs.Verdicts.{IsKeptScript};
ghost use Rattle.flashplan_commands.specs.Acts.{AreArrivals, Ends, PrintsArrivals};

use crate::checkpoint_acts::{begun_in, end_unrun};
use crate::plan_faults::end_unread;
use crate::stores::{PlanRead, TimedPlan, Unread, timed_plan_in};
use checkpoint_texts::SavedStore;
use flashplan_arrivals::{Fault as Unplanned, Filling, Manner, arrivals_from, fillings_from};
use flashplan_checkpoint_runs::{RunFault, check_store};
use flashplan_full_dies::{HeldPages, held_pages};
use flashplan_slot_times::Slots;
use flashplan_terms_arrivals::arrivals as terms_arrivals;
use slot_types::{MAX_SLOT, Refusal, StorePlan};
use std::alloc::Global;
use std::io::{Read, Write};
use terms_texts::StoreTerms;
use text_base::{Output, write_whole};

/// What is reported beside a plan without terms that has no arrivals.
const WANTED: &str =
    "arrivals wants a plan that is accepted, with times (version 2) or terms: flashplan explain says more";

/// Why no script of arrivals is printed.
#[derive(Clone, Copy, Drop)]
enum Unmade {
    Unread(Unread),
    Unplanned(Unplanned),
    /// The dies don't go on from the checkpoint.
    Unbegun(RunFault),
    /// This option is none for a plan with terms.
    OfTimes(&'static str),
}

impl From<Unread> for Unmade {
    fn from(unread: Unread) -> Unmade {
        Unmade::Unread(unread)
    }
}

impl From<Unplanned> for Unmade {
    fn from(fault: Unplanned) -> Unmade {
        Unmade::Unplanned(fault)
    }
}

impl From<RunFault> for Unmade {
    fn from(fault: RunFault) -> Unmade {
        Unmade::Unbegun(fault)
    }
}

impl From<Refusal> for Unmade {
    fn from(refusal: Refusal) -> Unmade {
        Unmade::Unread(Unread::Refused(refusal))
    }
}

/// A plan that has times, with the pages that lie in cells.
#[derive(Drop)]
struct HeldStore {
    store: StorePlan,
    held: HeldPages,
    /// How many us a slot takes, where that is known.
    slot_us: Option<u32>,
}

/// The script of a plan's arrivals; and the plan, if it has times.
#[derive(Drop)]
struct Made {
    script: Vec<u8>,
    store: Option<HeldStore>,
}

/// The option of these that a plan with terms has no use for: it says where a die is filled, or that less is asked for than
/// the plan allows. `load` is a percentage: less is asked for where it is below 100.
fn of_times_alone(manner: Manner) -> Option<&'static str> {
    if manner.fills {
        Some("--fill")
    } else if manner.phases {
        Some("--phases")
    } else if manner.jitter > 0 {
        Some("--jitter")
    } else if manner.load < 100 {
        Some("--load")
    } else {
        None
    }
}

/// The script of the arrivals of a plan with terms, of which a manner may name the seed alone.
fn with_terms(
    alloc: Global,
    store: &StoreTerms,
    slots: u32,
    manner: Manner,
    begins_fresh: bool,
) -> Result<Vec<u8>, Unmade>
    requires some { 1 ≤ length store.now }
    requires few { length store.now ≤ 8 }
    requires usable { All IsUsable store.now }
    ensures { IfOk result (λ script. IsKeptScript store.now slots script.items) }
{
    if !begins_fresh {
        return Err(Unmade::OfTimes("--from"));
    }
    if let Some(option) = of_times_alone(manner) {
        return Err(Unmade::OfTimes(option));
    }
    let script = terms_arrivals(alloc, store, slots, manner.seed)?;
    Ok(script)
}

/// Which pages lie in cells of dies that were saved, which have to be those of the plan.
fn held_in(
    alloc: Global,
    store: &StorePlan,
    from: Option<&SavedStore>,
) -> Result<HeldPages, Unmade> {
    if let Some(saved) = from {
        check_store(alloc, store, saved)?;
    }
    let held = held_pages(alloc, from)?;
    Ok(held)
}

/// The script of a plan's arrivals, with times or with terms, for dies that begin fresh, or go on from a checkpoint.
fn script_of<R: Read + Drop, C: Read + Drop>(
    alloc: Global,
    plan: R,
    from: Option<C>,
    slots: u32,
    manner: Manner,
) -> Result<Made, Unmade>
    ensures { IfOk result (λ made. AreArrivals (R.remaining plan) slots made.script.items) }
{
    let TimedPlan { plan, slot_us } = timed_plan_in(alloc, plan, None)?;
    match plan {
        PlanRead::Plain(store) => {
            let from = begun_in(alloc, from)?;
            let held = held_in(alloc, &store, from.as_ref())?;
            let manner = Manner {
                fills: manner.fills || from.is_some(),
                ..manner
            };
            let script = arrivals_from(alloc, &store, slots, manner, held.as_slice())?;
            Ok(Made {
                script,
                store: Some(HeldStore {
                    store,
                    held,
                    slot_us,
                }),
            })
        }
        PlanRead::WithTerms(store) => {
            let script = with_terms(alloc, &store, slots, manner, from.is_none())?;
            Ok(Made {
                script,
                store: None,
            })
        }
    }
}

/// Prints the script of a plan's arrivals, which is made whole before its first byte. Answers the plan, if it has times, with
/// the pages that lie in cells.
fn print_arrivals<R: Read + Drop, C: Read + Drop, W: Output>(
    alloc: Global,
    plan: R,
    from: Option<C>,
    slots: u32,
    manner: Manner,
    out: &mut W,
) -> Result<Option<HeldStore>, Unmade>
    requires slots { slots ≤ MAX_SLOT }
    ensures printed { OnOk result
        (PrintsArrivals (R.remaining plan) slots (W.contents out.old) (W.contents out.new)) }
    ensures part { OnErr result
        (IsNotWhole W.contents W.has_failed (PrintsArrivals (R.remaining plan) slots) out.old
        out.new) }
{
    let made = script_of(alloc, plan, from, slots, manner)?;
    write_whole(out, &made.script)?;
    Ok(made.store)
}

/// A number of slots, with their time where the length of one is known.
fn timed(count: u64, slot_us: Option<u32>) -> Slots {
    Slots { count, slot_us }
}

/// Says from which of `slots` slots on a die is full; or that it isn't, and what would be needed. A writer that fails
/// is passed over.
fn report_filling<E: Write>(
    err: &mut E,
    die: usize,
    filling: Filling,
    slots: u32,
    slot_us: Option<u32>,
) {
    let all = timed(u64::from(slots), slot_us);
    let life = timed(u64::from(filling.life), slot_us);
    let _ = match filling.from {
        None => writeln!(
            err,
            "die {die} is never full: none of its tasks writes, and one has to"
        ),
        Some(from) if from <= u64::from(slots) => {
            let at = timed(from, slot_us);
            writeln!(err, "die {die} is full from slot {at} on")
        }
        Some(from) if from <= u64::from(filling.life) => {
            let at = timed(from, slot_us);
            writeln!(
                err,
                "die {die} isn't full in {all} slots: it would be from slot {at} on, so --slots has to be {from} at least"
            )
        }
        Some(from) => {
            let at = timed(from, slot_us);
            writeln!(
                err,
                "die {die} isn't full in its life of {life} slots: that would take {at}, so it has to have fewer logical \
                 pages, or its tasks to write more"
            )
        }
    };
}

/// Reports of each die from which of `slots` slots on it is full. Lack of memory is passed over.
fn report_full<E: Write>(alloc: Global, err: &mut E, plan: &HeldStore, slots: u32) {
    let Ok(fillings) = fillings_from(alloc, &plan.store, plan.held.as_slice()) else {
        return;
    };
    for die in 0..fillings.len() {
        report_filling(err, die, fillings[die], slots, plan.slot_us);
    }
}

/// Reports what was made of a plan's arrivals, and answers the status.
fn end_arrivals<E: Write>(
    alloc: Global,
    err: &mut E,
    slots: u32,
    fills: bool,
    made: Result<Option<HeldStore>, Unmade>,
) -> u8
    ensures { result ≡ (if is_ok made then 0 else 1) }
{
    match made {
        Ok(plan) => {
            if let Some(plan) = plan
                && fills
            {
                report_full(alloc, err, &plan, slots);
            }
            0
        }
        Err(fault) => end_unmade(err, fault),
    }
}

/// Reports that a plan has no arrivals, and answers the status. A writer that fails is passed over.
fn end_refused<E: Write>(err: &mut E, unread: Unread) -> u8
    ensures { result ≡ 1 }
{
    let _ = end_unread(err, unread);
    if unread == Unread::Refused(Refusal::BadPlan) {
        let _ = writeln!(err, "{WANTED}");
    }
    1
}

/// Reports why no script was made, and answers the status. A writer that fails is passed over.
fn end_unmade<E: Write>(err: &mut E, unmade: Unmade) -> u8
    ensures { result ≡ 1 }
{
    match unmade {
        Unmade::Unread(unread) => return end_refused(err, unread),
        Unmade::Unplanned(Unplanned::Refused(refusal)) => {
            return end_refused(err, Unread::Refused(refusal));
        }
        Unmade::Unbegun(fault) => return end_unrun(err, fault),
        Unmade::Unplanned(fault) => {
            let _ = writeln!(err, "error: {fault}");
        }
        Unmade::OfTimes(option) => {
            let _ = writeln!(
                err,
                "error: {option} is for plans with times alone, and this one has terms"
            );
        }
    }
    1
}

/// Prints the script of a plan's arrivals, whole. Answers the status: 0, or 1 where something was refused, which is
/// reported: nothing was written then, or not the whole.
#[tactic(auto, using(crate::proofs::EndedSo::ends))]
pub fn act_arrivals<R: Read + Drop, C: Read + Drop, W: Output, E: Write>(
    alloc: Global,
    plan: R,
    from: Option<C>,
    slots: u32,
    manner: Manner,
    out: &mut W,
    err: &mut E,
) -> u8
    requires slots { slots ≤ MAX_SLOT }
    ensures { Ends W.contents W.has_failed (PrintsArrivals (R.remaining plan) slots) out.old out.new
        result }
{
    let fills = manner.fills || from.is_some();
    let made = print_arrivals(alloc, plan, from, slots, manner, out);
    end_arrivals(alloc, err, slots, fills, made)
}
