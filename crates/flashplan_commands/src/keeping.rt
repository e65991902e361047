//! Whether a script keeps the plans of its dies.

ghost use Rattle.std.specs.Prelude.{◌≡◌, ◌≤◌, All, IfOk, OnErr, false, length, true};
ghost use Rattle.plan_rules.specs.Bound.{MeetsBound};
ghost use Rattle.terms_texts.specs.Stores.{IsUsable};
ghost use Rattle.text_base.specs.Writing.{IsNotWhole};
ghost use Rattle.flashplan_commands.specs.Acts.{EndsSaying, PrintsKept, Says, SaysKept, SaysTermsKept, SaysTimesKept, kept_status, verdict_status};

use crate::plan_faults::end_unread;
use crate::stores::{PlanRead, Unread, timed_plan_in};
use flashplan_keeping::{Verdict, keep, script_text, sentence};
use flashplan_terms_keeping::{Verdict as TermsVerdict, keep_terms, sentence as terms_sentence};
use slot_types::{MAX_SLOT, Refusal, StorePlan};
use std::alloc::Global;
use std::io::{Read, Write};
use terms_texts::StoreTerms;
use text_base::{Output, write_whole};

/// What is reported beside a plan without terms that no script keeps.
const WANTED: &str =
    "keeps wants a plan that is accepted, with times (version 2) or terms: flashplan explain says more";

/// What is printed of a script that keeps the plans of its dies.
const KEPT: &[u8] = b"the script keeps the plan of each die\n";

/// Whether a script keeps the plans of its dies, and what is said of that.
#[derive(Drop)]
struct Kept {
    keeps: bool,
    text: Vec<u8>,
}

/// What is said of a script that keeps the plans of its dies. The only refusal is NoMemory.
fn kept_whole(alloc: Global) -> Result<Kept, Refusal>
    ensures { IfOk result (λ kept. kept.keeps ≡ true) }
{
    Ok(Kept {
        keeps: true,
        text: Vec::from_slice(alloc, KEPT)?,
    })
}

/// What is said of one that doesn't: a condition that doesn't hold.
fn broken(text: Vec<u8>) -> Kept
    ensures { result.keeps ≡ false }
{
    Kept { keeps: false, text }
}

/// Whether a script keeps plans with times, with a condition that doesn't hold where it doesn't.
fn keeps_times(
    alloc: Global,
    store: &StorePlan,
    text: &[u8],
    slots: u32,
    slot_us: Option<u32>,
) -> Result<Kept, Refusal>
    requires some { 1 ≤ length store.now }
    requires few { length store.now ≤ 8 }
    requires bound { All MeetsBound store.now }
    ensures { IfOk result (λ kept. SaysTimesKept store.now slots text.now kept.keeps) }
{
    match keep(alloc, text, store, slots)? {
        Verdict::Kept => kept_whole(alloc),
        Verdict::Broken(breach) => {
            let said = sentence(alloc, text, store, slots, breach, slot_us)?;
            Ok(broken(said))
        }
    }
}

/// Whether a script keeps plans with terms, with a condition that doesn't hold where it doesn't.
fn keeps_terms(
    alloc: Global,
    store: &StoreTerms,
    text: &[u8],
    slots: u32,
    slot_us: Option<u32>,
) -> Result<Kept, Refusal>
    requires some { 1 ≤ length store.now }
    requires few { length store.now ≤ 8 }
    requires usable { All IsUsable store.now }
    ensures { IfOk result (λ kept. SaysTermsKept store.now slots text.now kept.keeps) }
{
    match keep_terms(alloc, text, store, slots)? {
        TermsVerdict::Kept => kept_whole(alloc),
        TermsVerdict::Broken(breach) => {
            let said = terms_sentence(alloc, text, store, slots, breach, slot_us)?;
            Ok(broken(said))
        }
    }
}

/// Whether a script keeps the plans of its dies, with a condition that doesn't hold where it doesn't.
fn kept_of<P: Read + Drop, S: Read + Drop>(
    alloc: Global,
    plan: P,
    script: S,
    slots: u32,
    slot_us: Option<u32>,
) -> Result<Kept, Unread>
    requires slots { slots ≤ MAX_SLOT }
    ensures said { IfOk result (λ kept.
        SaysKept (P.remaining plan) (S.remaining script) slots kept.keeps) }
{
    let read = timed_plan_in(alloc, plan, slot_us)?;
    let text = script_text(alloc, script)?;
    let kept = match &read.plan {
        PlanRead::Plain(store) => keeps_times(alloc, store, &text, slots, read.slot_us)?,
        PlanRead::WithTerms(store) => keeps_terms(alloc, store, &text, slots, read.slot_us)?,
    };
    Ok(kept)
}

/// Prints whether a script keeps the plans of its dies, and says whether it does, as [`kept_of`] finds.
fn print_kept<P: Read + Drop, S: Read + Drop, W: Output>(
    alloc: Global,
    plan: P,
    script: S,
    slots: u32,
    slot_us: Option<u32>,
    out: &mut W,
) -> Result<bool, Unread>
    requires slots { slots ≤ MAX_SLOT }
    ensures printed { IfOk result (λ keeps.
        PrintsKept (P.remaining plan) (S.remaining script) slots keeps (W.contents out.old)
        (W.contents out.new)) }
    ensures part { OnErr result
        (IsNotWhole W.contents W.has_failed
        (Says (PrintsKept (P.remaining plan) (S.remaining script) slots)) out.old out.new) }
{
    let kept = kept_of(alloc, plan, script, slots, slot_us)?;
    write_whole(out, &kept.text)?;
    Ok(kept.keeps)
}

/// Reports why it isn't known whether a script keeps its plans, or answers whether it does.
fn end_kept<E: Write>(err: &mut E, kept: Result<bool, Unread>) -> u8
    ensures { result ≡ kept_status kept }
{
    match kept {
        Ok(true) => 0,
        Ok(false) => 3,
        Err(unread) => {
            let _ = end_unread(err, unread);
            if unread == Unread::Refused(Refusal::BadPlan) {
                let _ = writeln!(err, "{WANTED}");
            }
            1
        }
    }
}

/// Prints whether a script keeps the plans of its dies, whole, or what breaks one. Answers the status: 0 where it keeps
/// them, 3 where it doesn't, 1 where something was refused, which is reported: nothing was written then, or not the
/// whole.
#[tactic(auto, using(crate::proofs::EndedSo::ends_kept))]
pub fn act_keeps<P: Read + Drop, S: Read + Drop, W: Output, E: Write>(
    alloc: Global,
    plan: P,
    script: S,
    slots: u32,
    slot_us: Option<u32>,
    out: &mut W,
    err: &mut E,
) -> u8
    requires slots { slots ≤ MAX_SLOT }
    ensures { EndsSaying W.contents W.has_failed
        (PrintsKept (P.remaining plan) (S.remaining script) slots)
        verdict_status out.old out.new result }
{
    let kept = print_kept(alloc, plan, script, slots, slot_us, out);
    end_kept(err, kept)
}
