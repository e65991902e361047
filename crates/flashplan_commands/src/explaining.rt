//! What is said of a plan, and of a checkpoint of its dies.

ghost use Rattle.std.specs.Prelude.{◌≡◌, ◌++◌, ℕ, IfErr, IfOk, List, OnErr};
ghost use Rattle.slot_types.specs.Refusal.{FailsForMemory};
ghost use Rattle.text_base.specs.Writing.{IsNotWhole};
ghost use Rattle.flashplan_commands.specs.Acts.{EndsSaying, Explains, ExplainsMore, IsHostFault, Says, SaysOf, SaysTested, SaysText};
ghost use Rattle.flashplan_commands.specs.Acts.{accepted_status, explained_status};

use crate::checkpoint_acts::{end_unrun, saved_in};
use crate::endings::end_refused;
use crate::life_lines::life_lines;
use crate::slot_lengths::{slot_for, units_with};
use flashplan_checkpoint_runs::{RunFault, explain as explain_checkpoint};
use flashplan_design::{Explained, explain};
use flashplan_slot_times::Units;
use flashplan_terms_design::{explain_terms, is_terms_text};
use plan_texts::{plan_text, read_plan};
use slot_types::{Refusal, StorePlan};
use std::alloc::Global;
use std::io::{Read, Write};
use terms_texts::read_terms;
use text_base::{FlaggedReader, Output, write_whole};

/// What is said, with more after it. The only refusal is NoMemory.
fn with_more(explained: Explained, more: &[u8]) -> Result<Explained, Refusal>
    ensures verdict { IfOk result (λ whole. whole.is_accepted ≡ explained.is_accepted) }
    ensures text { IfOk result (λ whole. whole.text.items ≡ explained.text.items ++ more.now) }
    ensures refused { FailsForMemory result }
{
    let mut explained = explained;
    explained.text.extend_from_slice(more)?;
    Ok(explained)
}

/// What the tests of a plan answer, with terms or without. The only refusal is NoMemory.
fn tested(alloc: Global, plan: &[u8], units: Units) -> Result<Explained, Refusal>
    ensures said { IfOk result (λ explained.
        SaysTested units.slot_us plan.now explained.is_accepted explained.text.items) }
    ensures refused { FailsForMemory result }
{
    if is_terms_text(alloc, plan)? {
        explain_terms(alloc, plan, units.slot_us)
    } else {
        explain(alloc, plan, units)
    }
}

/// What is said of the text of a plan, with terms or without. The only refusal is NoMemory.
fn said_of(alloc: Global, plan: &[u8], asked: Units) -> Result<Explained, Refusal>
    ensures said { IfOk result (λ explained.
        SaysText asked.slot_us plan.now explained.is_accepted explained.text.items) }
    ensures refused { FailsForMemory result }
{
    let slot_us = slot_for(alloc, plan, asked.slot_us)?;
    let units = units_with(asked, slot_us);
    let explained = tested(alloc, plan, units)?;
    let lives = life_lines(alloc, plan, asked, units, &explained.text)?;
    with_more(explained, &lives)
}

/// What is said of a plan.
fn explained_of<R: Read + Drop>(alloc: Global, plan: R, asked: Units) -> Result<Explained, Refusal>
    ensures said { IfOk result (λ explained.
        SaysOf asked.slot_us (R.remaining plan) explained.is_accepted explained.text.items) }
    ensures refused { IfErr result IsHostFault }
{
    let text = plan_text(alloc, &mut FlaggedReader::new(plan))?;
    said_of(alloc, &text, asked)
}

/// Prints what is said of a plan, and says whether it is accepted.
fn print_explained<R: Read + Drop, W: Output>(
    alloc: Global,
    plan: R,
    asked: Units,
    out: &mut W,
) -> Result<bool, Refusal>
    ensures printed { IfOk result (λ is_accepted.
        Explains asked.slot_us (R.remaining plan) is_accepted (W.contents out.old) (W.contents out.new)) }
    ensures part { OnErr result
        (IsNotWhole W.contents W.has_failed (Says (Explains asked.slot_us (R.remaining plan))) out.old out.new) }
    ensures refused { IfErr result IsHostFault }
{
    let explained = explained_of(alloc, plan, asked)?;
    write_whole(out, &explained.text)?;
    Ok(explained.is_accepted)
}

/// The plans of the dies of a text, with terms or without.
fn store_in(alloc: Global, plan: &[u8]) -> Result<StorePlan, Refusal> {
    if !is_terms_text(alloc, plan)? {
        return read_plan(alloc, plan);
    }
    let mut store = StorePlan::new(alloc);
    match read_terms(alloc, plan) {
        Ok(dies) => {
            for die in dies.as_slice() {
                store.push(die.plan.clone()?)?;
            }
            Ok(store)
        }
        Err(refusal) => Err(refusal.refusal()),
    }
}

/// Why nothing is said of a checkpoint.
const UNSAID: &str =
    "plan: --from says nothing: the dies of a plan that isn't accepted go on from no checkpoint.";

/// Says that nothing is said of a checkpoint. The only refusal is NoMemory.
fn unsaid(alloc: Global) -> Result<Vec<u8>, Refusal> {
    let mut text = Vec::new(alloc);
    match writeln!(text, "{UNSAID}") {
        Ok(()) => Ok(text),
        Err(_) => Err(Refusal::NoMemory),
    }
}

/// What is said of a checkpoint of the dies of a plan that is accepted.
fn said_from<C: Read + Drop>(alloc: Global, plan: &[u8], from: C) -> Result<Vec<u8>, RunFault> {
    let mut more = Vec::new(alloc);
    let store = store_in(alloc, plan)?;
    let saved = saved_in(alloc, from)?;
    explain_checkpoint(alloc, &mut more, &store, &saved)?;
    Ok(more)
}

/// What is said of a checkpoint of the dies of a plan, if there is one: of a plan that isn't accepted, that nothing is.
fn more_of<C: Read + Drop>(
    alloc: Global,
    plan: &[u8],
    from: Option<C>,
    is_accepted: bool,
) -> Result<Vec<u8>, RunFault> {
    match from {
        Some(from) if is_accepted => said_from(alloc, plan, from),
        Some(_) => Ok(unsaid(alloc)?),
        None => Ok(Vec::new(alloc)),
    }
}

/// What is said of a plan, and of a checkpoint of its dies.
fn explained_from<P: Read + Drop, C: Read + Drop>(
    alloc: Global,
    plan: P,
    from: Option<C>,
    asked: Units,
) -> Result<Explained, RunFault>
    ensures said { IfOk result (λ explained. (said more : List ℕ)
        × SaysOf asked.slot_us (P.remaining plan) explained.is_accepted said
        × (explained.text.items ≡ said ++ more)) }
{
    let text = plan_text(alloc, &mut FlaggedReader::new(plan))?;
    let explained = said_of(alloc, &text, asked)?;
    let more = more_of(alloc, &text, from, explained.is_accepted)?;
    Ok(with_more(explained, &more)?)
}

/// Prints what is said of a plan, and of a checkpoint of its dies. Says whether it is accepted.
fn print_explained_from<P: Read + Drop, C: Read + Drop, W: Output>(
    alloc: Global,
    plan: P,
    from: Option<C>,
    asked: Units,
    out: &mut W,
) -> Result<bool, RunFault>
    ensures printed { IfOk result (λ is_accepted.
        ExplainsMore asked.slot_us (P.remaining plan) is_accepted (W.contents out.old) (W.contents out.new)) }
    ensures part { OnErr result
        (IsNotWhole W.contents W.has_failed (Says (ExplainsMore asked.slot_us (P.remaining plan))) out.old out.new) }
{
    let explained = explained_from(alloc, plan, from, asked)?;
    write_whole(out, &explained.text)?;
    Ok(explained.is_accepted)
}

/// Answers the status of what is said of a plan, and reports why nothing is. A writer that fails is passed over.
fn end_said<E: Write>(err: &mut E, said: Result<bool, Refusal>) -> u8
    ensures { result ≡ explained_status said }
{
    match said {
        Ok(true) => 0,
        Ok(false) => 1,
        Err(refusal) => end_refused(err, refusal),
    }
}

/// Answers the status of what is said of a plan and of a checkpoint, and reports why nothing is. A writer that fails is
/// passed over.
fn end_explained<E: Write>(err: &mut E, explained: Result<bool, RunFault>) -> u8
    ensures { result ≡ explained_status explained }
{
    match explained {
        Ok(true) => 0,
        Ok(false) => 1,
        Err(fault) => end_unrun(err, fault),
    }
}

/// Prints what is said of a plan, whole. Answers the status: 0 where the plan is accepted, and 1 where it isn't, or where
/// something was refused, which is reported; nothing was written then, or not the whole.
#[tactic(auto, using(crate::proofs::EndedSo::ends_explained))]
pub fn act_explain<P: Read + Drop, W: Output, E: Write>(
    alloc: Global,
    plan: P,
    asked: Units,
    out: &mut W,
    err: &mut E,
) -> u8
    ensures { EndsSaying W.contents W.has_failed (Explains asked.slot_us (P.remaining plan)) accepted_status
        out.old out.new
        result }
{
    let said = print_explained(alloc, plan, asked, out);
    end_said(err, said)
}

/// Prints what is said of a plan, and of a checkpoint of its dies if there is one, whole. Answers the status, as
/// [`act_explain`] does.
#[tactic(auto, using(crate::proofs::EndedSo::ends_explained))]
pub fn act_explain_from<P: Read + Drop, C: Read + Drop, W: Output, E: Write>(
    alloc: Global,
    plan: P,
    from: Option<C>,
    asked: Units,
    out: &mut W,
    err: &mut E,
) -> u8
    ensures { EndsSaying W.contents W.has_failed (ExplainsMore asked.slot_us (P.remaining plan)) accepted_status
        out.old out.new
        result }
{
    let explained = print_explained_from(alloc, plan, from, asked, out);
    end_explained(err, explained)
}
