//! What is said of the text of a plan with terms.

ghost use Rattle.std.specs.Prelude.{◌≡◌, ◌++◌, ℕ, All, List, IfOk, Ok, OnOk, codes};
ghost use Rattle.slot_types.specs.Refusal.{FailsForMemory};
ghost use Rattle.slot_types.specs.Texts.{refusal_text};
ghost use Rattle.demand_rules.specs.Faults.{IsDemandLoad};
ghost use Rattle.terms_texts.specs.Refusing.{refusal_of};
ghost use Rattle.terms_texts.specs.Stores.{IsUsable, die_of};
ghost use Rattle.terms_texts.specs.TermsText.{read_numbers};
ghost use Rattle.flashplan_terms_changes.specs.Alphas.{SaysAlphas};
ghost use Rattle.flashplan_terms_design.specs.DieTexts.{full_stop};
ghost use Rattle.flashplan_terms_design.specs.Explaining.{ExplainsBound, ExplainsDie, ExplainsDieFault, ExplainsDies, ExplainsFirst, ExplainsRefusal};
ghost use Rattle.terms_texts.specs.declared.numbers.TermsNumbers.{TermsNumbers};
ghost use Rattle.flashplan_terms_design.specs.Explaining.{ExplainsTerms, ExplainsUnusable, SaysAllMargins, SaysChanges, SaysDieMargins};

use crate::fault_texts::{put_bound, put_shape, put_stray, put_terms, put_text_fault};
use crate::loads::put_passing;
use crate::numbers::put_numbers;
use demand_rules::{TermsFault, terms_test};
use flashplan_design::{Explained, greatest_logical, least_blocks};
use flashplan_terms_changes::{put_alphas, put_cheapest, written};
use flashplan_terms_margins::{put_caps, put_margins, put_room};
use slot_types::Refusal;
use std::alloc::Global;
use std::io;
use std::io::Write;
use terms_texts::{
    DieFault, DieTerms, TermsNumbers, TermsRefusal, die_terms, read_terms, terms_numbers,
};

/// Adds what is said of a die that passes its tests. The only refusal is NoMemory.
fn put_die(
    text: &mut Vec<u8>,
    die: usize,
    made: &DieTerms,
    slot_us: Option<u32>,
) -> Result<(), Refusal>
    requires { IsUsable made.now }
    ensures said { IfOk result (λ _. (said : List ℕ) × ExplainsDie slot_us die made.now said
        × (text.new.items ≡ text.old.items ++ said)) }
    ensures refused { FailsForMemory result }
{
    let Ok(found) = terms_test(&made.plan, &made.terms) else {
        return Err(Refusal::NoMemory);
    };
    written(put_passing(text, die, made, &found, slot_us))
}

/// Adds what is said of dies that pass theirs. The only refusal is NoMemory.
fn put_dies(text: &mut Vec<u8>, dies: &[DieTerms], slot_us: Option<u32>) -> Result<(), Refusal>
    requires { All IsUsable dies.now }
    ensures said { IfOk result (λ _. (said : List ℕ) × ExplainsDies slot_us 0 dies.now said
        × (text.new.items ≡ text.old.items ++ said)) }
    ensures refused { FailsForMemory result }
{
    for die in 0..dies.len() {
        put_die(text, die, &dies[die], slot_us)?;
    }
    Ok(())
}

/// Adds how far the logical pages, the blocks and the caps of a die may change by its bound, and the terms of its tasks.
fn put_changes_of(
    text: &mut Vec<u8>,
    die: usize,
    made: DieTerms,
    slot_us: Option<u32>,
) -> io::Result<()>
    ensures { OnOk result ((said : List ℕ) × SaysChanges slot_us made die said
        × (text.new.items ≡ text.old.items ++ said)) }
{
    let mut made = made;
    let logical = greatest_logical(&mut made.plan);
    let blocks = least_blocks(&mut made.plan);
    put_room(text, die, logical, blocks)?;
    let made = put_caps(text, die, made)?;
    put_margins(text, die, made, slot_us)
}

/// Adds those of a die of a plan. The only refusal is NoMemory.
fn put_changes(
    alloc: Global,
    text: &mut Vec<u8>,
    numbers: &TermsNumbers,
    die: u32,
    slot_us: Option<u32>,
) -> Result<(), Refusal>
    ensures said { IfOk result (λ _. (said : List ℕ) × SaysDieMargins slot_us numbers.now die said
        × (text.new.items ≡ text.old.items ++ said)) }
    ensures refused { FailsForMemory result }
{
    let made = die_terms(alloc, numbers, die)?;
    written(put_changes_of(text, die as usize, made, slot_us))
}

/// Adds those of all dies. The only refusal is NoMemory.
fn put_all_changes(
    alloc: Global,
    text: &mut Vec<u8>,
    numbers: &TermsNumbers,
    slot_us: Option<u32>,
) -> Result<(), Refusal>
    ensures said { IfOk result (λ _. (said : List ℕ)
        × SaysAllMargins slot_us numbers.now numbers.now.top.dies said
        × (text.new.items ≡ text.old.items ++ said)) }
    ensures refused { FailsForMemory result }
{
    for die in 0..numbers.top.dies {
        put_changes(alloc, text, numbers, die, slot_us)?;
    }
    Ok(())
}

/// What is said of a store whose dies pass their tests. The only refusal is NoMemory.
fn accepted(
    alloc: Global,
    plan: &[u8],
    dies: &[DieTerms],
    slot_us: Option<u32>,
) -> Result<Vec<u8>, Refusal>
    requires { All IsUsable dies.now }
    ensures said { IfOk result (λ text. (said : List ℕ) × ExplainsDies slot_us 0 dies.now said
        × (numbers : TermsNumbers) × (read_numbers plan.now ≡ Ok numbers)
        × (more : List ℕ) × SaysAllMargins slot_us numbers numbers.top.dies more
        × (rows : List ℕ) × SaysAlphas slot_us numbers numbers.top.pages rows
        × (text.items ≡ (codes "The plan is accepted" ++ full_stop) ++ said ++ more ++ rows)) }
    ensures refused { FailsForMemory result }
{
    let Ok(numbers) = terms_numbers(alloc, plan) else {
        return Err(Refusal::NoMemory);
    };
    let mut text = Vec::new(alloc);
    written(writeln!(text, "The plan is accepted."))?;
    put_dies(&mut text, dies, slot_us)?;
    put_all_changes(alloc, &mut text, &numbers, slot_us)?;
    put_alphas(alloc, &mut text, &numbers, slot_us)?;
    Ok(text)
}

/// Adds that a die doesn't meet its bound, and with which numbers it would.
fn put_bound_of(text: &mut Vec<u8>, die: usize, made: DieTerms) -> io::Result<()>
    ensures { OnOk result ((said : List ℕ) × ExplainsBound die made said
        × (text.new.items ≡ text.old.items ++ said)) }
{
    let mut made = made;
    let logical = greatest_logical(&mut made.plan);
    let blocks = least_blocks(&mut made.plan);
    put_bound(text, die, logical, blocks)
}

/// Adds why a die doesn't pass its tests, and which numbers of its tasks would do, one at a time.
fn put_terms_of(
    text: &mut Vec<u8>,
    die: usize,
    made: DieTerms,
    fault: TermsFault,
    slot_us: Option<u32>,
) -> io::Result<()>
    ensures { OnOk result ((said : List ℕ) × ExplainsDieFault slot_us die made (DieFault.Terms fault) said
        × (text.new.items ≡ text.old.items ++ said)) }
{
    put_terms(text, die, fault, slot_us)?;
    put_margins(text, die, made, slot_us)
}

/// Adds why a die may not be used.
fn put_die_fault(
    text: &mut Vec<u8>,
    die: usize,
    made: DieTerms,
    fault: DieFault,
    slot_us: Option<u32>,
) -> io::Result<()>
    ensures { OnOk result ((said : List ℕ) × ExplainsDieFault slot_us die made fault said
        × (text.new.items ≡ text.old.items ++ said)) }
{
    match fault {
        DieFault::Bound => put_bound_of(text, die, made),
        DieFault::Terms(fault) => put_terms_of(text, die, made, fault, slot_us),
    }
}

/// Adds the numbers of a die that may not be used, and why.
fn put_unusable(
    text: &mut Vec<u8>,
    die: usize,
    made: DieTerms,
    fault: DieFault,
    slot_us: Option<u32>,
) -> io::Result<()>
    ensures { OnOk result ((said : List ℕ) × ExplainsUnusable slot_us die made fault said
        × (text.new.items ≡ text.old.items ++ said)) }
{
    put_numbers(text, die, &made, slot_us)?;
    put_die_fault(text, die, made, fault, slot_us)
}

/// Adds those of a die of a plan. The only refusal is NoMemory.
fn put_planned(
    alloc: Global,
    text: &mut Vec<u8>,
    numbers: &TermsNumbers,
    die: u32,
    fault: DieFault,
    slot_us: Option<u32>,
) -> Result<(), Refusal>
    ensures said { IfOk result (λ _. (said : List ℕ)
        × ExplainsUnusable slot_us die (die_of numbers.now die) fault said
        × (text.new.items ≡ text.old.items ++ said)) }
    ensures refused { FailsForMemory result }
{
    let made = die_terms(alloc, numbers, die)?;
    written(put_unusable(text, die as usize, made, fault, slot_us))
}

/// Adds those of a die of a plan, what each alpha comes to, and the cheapest changes. The only refusal is NoMemory.
fn put_first_of(
    alloc: Global,
    text: &mut Vec<u8>,
    numbers: &TermsNumbers,
    die: u32,
    fault: DieFault,
    slot_us: Option<u32>,
) -> Result<(), Refusal>
    ensures said { IfOk result (λ _. (said : List ℕ) × ExplainsFirst slot_us numbers.now die fault said
        × (text.new.items ≡ text.old.items ++ said)) }
    ensures refused { FailsForMemory result }
{
    put_planned(alloc, text, numbers, die, fault, slot_us)?;
    put_alphas(alloc, text, numbers, slot_us)?;
    put_cheapest(alloc, text, numbers, slot_us)
}

/// Adds those of a text that is read. The only refusal is NoMemory.
fn put_first(
    alloc: Global,
    text: &mut Vec<u8>,
    plan: &[u8],
    die: u32,
    fault: DieFault,
    slot_us: Option<u32>,
) -> Result<(), Refusal>
    ensures said { IfOk result (λ _. (said : List ℕ)
        × ExplainsRefusal slot_us (read_numbers plan.now) (TermsRefusal.Die die fault) said
        × (text.new.items ≡ text.old.items ++ said)) }
    ensures refused { FailsForMemory result }
{
    let Ok(numbers) = terms_numbers(alloc, plan) else {
        return Err(Refusal::NoMemory);
    };
    put_first_of(alloc, text, &numbers, die, fault, slot_us)
}

/// Adds why a text makes no store. The only refusal is NoMemory.
fn put_refusal(
    alloc: Global,
    text: &mut Vec<u8>,
    plan: &[u8],
    refusal: TermsRefusal,
    slot_us: Option<u32>,
) -> Result<(), Refusal>
    ensures said { IfOk result (λ _. (said : List ℕ) × ExplainsRefusal slot_us (read_numbers plan.now) refusal said
        × (text.new.items ≡ text.old.items ++ said)) }
    ensures refused { FailsForMemory result }
{
    match refusal {
        TermsRefusal::Outside(_) => Err(Refusal::NoMemory),
        TermsRefusal::Text { cause, place } => written(put_text_fault(text, cause, place)),
        TermsRefusal::BadShape => written(put_shape(text)),
        TermsRefusal::NoDie { task } => written(put_stray(text, task)),
        TermsRefusal::Die { die, fault } => put_first(alloc, text, plan, die, fault, slot_us),
    }
}

/// What is said of a text that makes no store. The only refusal is NoMemory.
fn refused(
    alloc: Global,
    plan: &[u8],
    refusal: TermsRefusal,
    slot_us: Option<u32>,
) -> Result<Vec<u8>, Refusal>
    ensures said { IfOk result (λ text. (said : List ℕ) × ExplainsRefusal slot_us (read_numbers plan.now) refusal said
        × (text.items
        ≡ (codes "The plan is refused: " ++ refusal_text (refusal_of refusal) ++ full_stop) ++ said)) }
    ensures refused { FailsForMemory result }
{
    let mut text = Vec::new(alloc);
    let name = refusal.refusal();
    written(writeln!(text, "The plan is refused: {name}."))?;
    put_refusal(alloc, &mut text, plan, refusal, slot_us)?;
    Ok(text)
}

/// Explains the text of a plan with terms, in sentences of a line each: whether the plan is accepted, as
/// [`read_terms`](terms_texts::read_terms) judges it. If it is, these follow by die: its numbers and those of its tasks,
/// the most slots of a collection, the long-run load, the tightest interval with what may be asked of it and what is to
/// spare, and by task what its collections give and what its cap has to cover; and then by die how far its logical pages,
/// its blocks and its caps may change by its bound, and by task how far its terms may, one at a time. If it isn't, what is wrong first: the fault of the text and where it lies; or the
/// numbers of the first die that doesn't meet its bound, has a number out of its limits or doesn't pass its tests, why, and
/// what would do. Periods, deadlines, a collection's slots, and intervals that are the tightest or overfull are followed by
/// their times, where it is known how many us a slot takes. The only refusal is NoMemory.
pub fn explain_terms(alloc: Global, plan: &[u8], slot_us: Option<u32>) -> Result<Explained, Refusal>
    ensures said { IfOk result (λ explained.
        ExplainsTerms slot_us plan.now explained.is_accepted explained.text.items) }
    ensures refused { FailsForMemory result }
{
    match read_terms(alloc, plan) {
        Ok(store) => Ok(Explained {
            text: accepted(alloc, plan, store.as_slice(), slot_us)?,
            is_accepted: true,
        }),
        Err(refusal) => Ok(Explained {
            text: refused(alloc, plan, refusal, slot_us)?,
            is_accepted: false,
        }),
    }
}
