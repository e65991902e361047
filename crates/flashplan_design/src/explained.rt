//! Why a plan is accepted or not, in sentences.

ghost use Rattle.std.specs.Prelude.{◌≡◌, ◌↔◌, ◌++◌, ℕ, List, IsTrue, IfOk, OnOk};
ghost use Rattle.slot_types.specs.Refusal.{FailsForMemory};
ghost use Rattle.flashplan_design.specs.AcceptedPlans.{IsAccepted};
ghost use Rattle.plan_texts.specs.PlanText.{plan_of};
ghost use Rattle.flashplan_design.specs.Explanations.{AreFound, IsExplanation, IsVerdict, found_text};

use crate::bounds::put_bound;
use crate::causes::put_cause;
use crate::found::{Found, found_of, nothing, put_found};
use crate::lifetimes::put_life;
use crate::limits::{put_die_limits, put_shape, put_strays};
use crate::loads::put_load;
use crate::sayings::Sayings;
use crate::subjects::TaskName;
use crate::wholes::are_named;
use flashplan_slot_times::Units;
use plan_texts::{PlanNumbers, TaskNumbers, die_plan, plan_numbers, read_plan};
use slot_types::{DiePlan, MAX_DIES, Refusal};
use std::alloc::Global;
use std::io;
use std::io::Write;

/// What is said of a plan.
#[derive(Drop)]
pub struct Explained {
    /// The sentences, each a line.
    pub text: Vec<u8>,
    pub is_accepted: bool,
}

/// Writes whether the plan of a text is accepted, as its reader judges it.
fn put_verdict(alloc: Global, text: &mut Vec<u8>, plan: &[u8]) -> Result<bool, Refusal>
    ensures accepted { IfOk result (λ is_accepted. IsTrue is_accepted ↔ IsAccepted plan.now) }
    ensures said { OnOk result ((verdict : List ℕ) ×
        ((text.new.items ≡ text.old.items ++ verdict) × IsVerdict plan.now verdict)) }
    ensures refused { FailsForMemory result }
{
    match read_plan(alloc, plan) {
        Ok(_) => match writeln!(text, "The plan is accepted.") {
            Ok(()) => Ok(true),
            Err(_) => Err(Refusal::NoMemory),
        },
        Err(Refusal::NoMemory) => Err(Refusal::NoMemory),
        Err(refusal) => match writeln!(text, "The plan is refused: {refusal}.") {
            Ok(()) => Ok(false),
            Err(_) => Err(Refusal::NoMemory),
        },
    }
}

/// The names of a die's tasks, in the order of their numbers. The only refusal is NoMemory.
fn names_of(alloc: Global, tasks: &[TaskNumbers], die: u32) -> Result<Vec<TaskName>, Refusal>
    ensures { FailsForMemory result }
{
    let mut names = Vec::new(alloc);
    for place in 0..tasks.len() {
        if tasks[place].die == die {
            let name = TaskName {
                nth: place as u64 + 1,
                die,
                task: u32::try_from(names.len()).unwrap_or(u32::MAX),
            };
            names.push(name)?;
        }
    }
    Ok(names)
}

/// The names of all tasks, by die. The only refusal is NoMemory.
fn names_of_all(alloc: Global, plan: &PlanNumbers) -> Result<Vec<TaskName>, Refusal>
    ensures { FailsForMemory result }
{
    let mut names = Vec::new(alloc);
    for die in 0..plan.top.dies.min(MAX_DIES) {
        let own = names_of(alloc, plan.tasks.as_slice(), die)?;
        names.extend_from_slice(&own)?;
    }
    Ok(names)
}

/// Writes the demand of a die with times, and how long it lives.
fn put_timed(said: &mut Sayings, die: u32, names: &[TaskName], plan: &DiePlan) -> io::Result<()> {
    let Some(times) = &plan.times else {
        return Ok(());
    };
    put_load(said, die, names, plan, times)?;
    put_life(said, die, names, times)
}

/// Writes the bound and the demand of a die whose numbers are within their limits, or which are not; and says whether
/// all are.
fn put_die(
    said: &mut Sayings,
    die: u32,
    names: &[TaskName],
    plan: &mut DiePlan,
) -> io::Result<bool> {
    let before = said.faults.len();
    put_die_limits(&mut said.faults, die, names, plan)?;
    if before < said.faults.len() {
        return Ok(false);
    }
    put_bound(said, die, plan)?;
    put_timed(said, die, names, plan)?;
    Ok(true)
}

/// Writes the shape of the dies and the tasks that are of none, and says whether the dies can be explained.
fn put_top(text: &mut Vec<u8>, plan: &PlanNumbers) -> io::Result<bool> {
    let before = text.len();
    put_shape(text, &plan.top)?;
    if before < text.len() {
        return Ok(false);
    }
    put_strays(text, plan.tasks.as_slice(), plan.top.dies)?;
    Ok(true)
}

/// Writes what the numbers of a die of a plan come to, and says whether they are within their limits. The only refusal is
/// NoMemory.
fn put_one(alloc: Global, said: &mut Sayings, plan: &PlanNumbers, die: u32) -> Result<bool, Refusal>
    ensures { FailsForMemory result }
{
    let names = names_of(alloc, plan.tasks.as_slice(), die)?;
    let mut made = die_plan(alloc, plan, die)?;
    match put_die(said, die, &names, &mut made) {
        Ok(is_within) => Ok(is_within),
        Err(_) => Err(Refusal::NoMemory),
    }
}

/// Writes what the numbers of a plan come to, and says whether all are within their limits. The only refusal is NoMemory.
fn put_numbers(alloc: Global, said: &mut Sayings, plan: &PlanNumbers) -> Result<bool, Refusal>
    ensures { FailsForMemory result }
{
    match put_top(&mut said.faults, plan) {
        Ok(true) => {}
        Ok(false) => return Ok(false),
        Err(_) => return Err(Refusal::NoMemory),
    }
    let mut are_within = are_named(plan.tasks.as_slice(), plan.top.dies);
    for die in 0..plan.top.dies.min(MAX_DIES) {
        if !put_one(alloc, said, plan, die)? {
            are_within = false;
        }
    }
    Ok(are_within)
}

/// Writes what the numbers of a plan come to, and gives what was found of it, where all are within their limits. The only
/// refusal is NoMemory.
fn explain_numbers(
    alloc: Global,
    said: &mut Sayings,
    plan: &PlanNumbers,
    is_accepted: bool,
) -> Result<Found, Refusal>
    ensures found { IfOk result (λ found. AreFound plan.now is_accepted
        found.findings.items found.rows.items found.changes.items) }
    ensures refused { FailsForMemory result }
{
    if put_numbers(alloc, said, plan)? {
        let names = names_of_all(alloc, plan)?;
        found_of(alloc, plan, &names, is_accepted)
    } else {
        Ok(nothing(alloc))
    }
}

/// Writes what a text's plan comes to, or the fault of the text; and gives what was found of the plan. The only refusal is
/// NoMemory.
fn explain_text(
    alloc: Global,
    said: &mut Sayings,
    text: &[u8],
    is_accepted: bool,
) -> Result<Found, Refusal>
    ensures found { IfOk result (λ found. IfOk (plan_of text.now) (λ plan.
        AreFound plan is_accepted found.findings.items found.rows.items found.changes.items)) }
    ensures refused { FailsForMemory result }
{
    match plan_numbers(alloc, text) {
        Ok(numbers) => explain_numbers(alloc, said, &numbers, is_accepted),
        Err(Refusal::PlanText { cause }) => {
            match put_cause(alloc, &mut said.faults, text, cause) {
                Ok(()) => Ok(nothing(alloc)),
                Err(_) => Err(Refusal::NoMemory),
            }
        }
        Err(_) => Err(Refusal::NoMemory),
    }
}

/// Adds what is said, and what was found, to a text. The only refusal is NoMemory.
fn put_said(
    text: &mut Vec<u8>,
    said: &Sayings,
    found: &Found,
    slot_us: Option<u32>,
) -> Result<(), Refusal>
    ensures said { OnOk result ((more : List ℕ) ×
        (text.new.items ≡ (text.old.items ++ more) ++ found_text slot_us
        found.now.findings.items found.now.rows.items found.now.changes.items)) }
    ensures refused { FailsForMemory result }
{
    if said.put(text).is_err() || put_found(text, found, slot_us).is_err() {
        return Err(Refusal::NoMemory);
    }
    Ok(())
}

/// Explains the text of a plan, in sentences of a line each: whether the plan is accepted, as
/// [`read_plan`](plan_texts::read_plan) judges it. If it isn't, its faults follow: the first of the text, or each
/// number that is out of its limits or doesn't go with the others, and with which blocks or logical pages the bound would be
/// met. After these stand by die the figures of its bound, and for a plan with times the margins and the demand, by task
/// and in sum, and how long the die lives. Then comes with which numbers, one at a time, each die would do, bound and test:
/// each is the extreme one; what each alpha comes to with the caps and collect periods that go with it, by die; and last, of
/// a plan that is refused, which of these numbers to change, the cheapest change first, at most ten. Each number of slots
/// is followed by its time, where it is known how long a slot is. The only refusal is NoMemory.
pub fn explain(alloc: Global, plan: &[u8], units: Units) -> Result<Explained, Refusal>
    ensures accepted { IfOk result (λ explained. IsTrue explained.is_accepted ↔ IsAccepted plan.now) }
    ensures said { IfOk result (λ explained. IsExplanation units.slot_us plan.now explained.text.items) }
    ensures refused { FailsForMemory result }
{
    let mut text = Vec::new(alloc);
    let is_accepted = put_verdict(alloc, &mut text, plan)?;
    let mut said = Sayings::new(alloc, units);
    let found = explain_text(alloc, &mut said, plan, is_accepted)?;
    put_said(&mut text, &said, &found, units.slot_us)?;
    Ok(Explained { text, is_accepted })
}
