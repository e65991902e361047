//! What another alpha comes to, in lines.

ghost use Rattle.std.specs.Prelude.{◌≡◌, ◌++◌, ℕ, List, IfOk, OnOk, codes};
ghost use Rattle.slot_types.specs.Refusal.{FailsForMemory};
ghost use Rattle.terms_texts.specs.Stores.{die_of};
ghost use Rattle.flashplan_terms_changes.specs.Alphas.{FindsRow, SaysAlphas, SaysDies, SaysRow, found_text, load_text, of_die};
ghost use Rattle.flashplan_terms_changes.specs.Alphas.{periods_text, row_line, row_text, slow_text, with_alpha};
ghost use Rattle.flashplan_design.specs.Alphas.{caps_text, does_text, logical_text, numbers_text};

use crate::alphas::{AlphaRow, row_of, with_alpha};
use crate::outputs::written;
use demand_rules::TaskTerms;
use flashplan_slot_times::Slots;
use slot_types::{DiePlan, Refusal};
use std::alloc::Global;
use std::io;
use std::io::Write;
use terms_texts::{DieTerms, TermsNumbers, die_terms};

/// Adds numbers.
fn put_numbers(text: &mut Vec<u8>, numbers: &[u32]) -> io::Result<()>
    ensures { OnOk result (text.new.items ≡ text.old.items ++ numbers_text numbers.now) }
{
    for number in numbers {
        write!(text, " {number}")?;
    }
    Ok(())
}

/// Adds an alpha, and the caps that go with it.
fn put_caps(text: &mut Vec<u8>, plan: &DiePlan) -> io::Result<()>
    ensures { OnOk result (text.new.items ≡ text.old.items ++ caps_text plan.now) }
{
    let alpha = plan.alpha;
    write!(text, "with alpha {alpha}, caps")?;
    put_numbers(text, plan.caps.as_slice())
}

/// Adds the collect periods of tasks.
fn put_periods(text: &mut Vec<u8>, tasks: &[TaskTerms], slot_us: Option<u32>) -> io::Result<()>
    ensures { OnOk result (text.new.items ≡ text.old.items ++ periods_text slot_us tasks.now) }
{
    for task in tasks {
        let count = u64::from(task.collect_period);
        let period = Slots { count, slot_us };
        write!(text, " {period}")?;
    }
    Ok(())
}

/// Adds the collect periods that go with an alpha, which are the collect deadlines, too.
fn put_slow(text: &mut Vec<u8>, made: &DieTerms, slot_us: Option<u32>) -> io::Result<()>
    ensures { OnOk result (text.new.items ≡ text.old.items ++ slow_text slot_us made.now) }
{
    write!(text, " and collect_periods and collect_deadlines")?;
    put_periods(text, made.terms.tasks.as_slice(), slot_us)
}

/// Adds all that goes with an alpha.
fn put_along(text: &mut Vec<u8>, made: &DieTerms, slot_us: Option<u32>) -> io::Result<()>
    ensures { OnOk result (text.new.items
        ≡ text.old.items ++ (caps_text made.now.plan ++ slow_text slot_us made.now)) }
{
    put_caps(text, &made.plan)?;
    put_slow(text, made, slot_us)
}

/// Adds the load in the long run.
fn put_load(text: &mut Vec<u8>, load: u32) -> io::Result<()>
    ensures { OnOk result (text.new.items ≡ text.old.items ++ load_text load) }
{
    write!(
        text,
        ", in the long run {load} of each 1000000 slots are asked for"
    )
}

/// Adds how many logical pages the bound of a die allows.
fn put_logical(text: &mut Vec<u8>, logical: u32) -> io::Result<()>
    ensures { OnOk result (text.new.items ≡ text.old.items ++ logical_text logical) }
{
    write!(text, ", and the greatest logical is {logical}")
}

/// Adds whether a die would do so, and ends the line.
fn put_does(text: &mut Vec<u8>, does: bool) -> io::Result<()>
    ensures { OnOk result (text.new.items ≡ text.old.items ++ does_text does) }
{
    if does {
        writeln!(text, ": it would do.")
    } else {
        writeln!(text, ", which is less than it has.")
    }
}

/// Adds how many logical pages the bound of a die allows, and whether it would do with its own; and ends the line.
fn put_room(text: &mut Vec<u8>, row: &AlphaRow) -> io::Result<()>
    ensures { OnOk result (text.new.items
        ≡ text.old.items ++ (logical_text row.now.logical ++ does_text row.now.does)) }
{
    put_logical(text, row.logical)?;
    put_does(text, row.does)
}

/// Adds what an alpha comes to.
fn put_found(text: &mut Vec<u8>, row: &AlphaRow) -> io::Result<()>
    ensures { OnOk result (text.new.items ≡ text.old.items ++ found_text row.now) }
{
    put_load(text, row.load)?;
    put_room(text, row)
}

/// Adds what goes with an alpha, and what it comes to.
fn put_rest(text: &mut Vec<u8>, row: &AlphaRow, slot_us: Option<u32>) -> io::Result<()>
    ensures { OnOk result (text.new.items ≡ text.old.items
        ++ ((caps_text row.now.made.plan ++ slow_text slot_us row.now.made) ++ found_text row.now)) }
{
    put_along(text, &row.made, slot_us)?;
    put_found(text, row)
}

/// Adds what a line on a die begins with.
fn put_die(text: &mut Vec<u8>, die: usize) -> io::Result<()>
    ensures { OnOk result (text.new.items ≡ text.old.items ++ of_die die) }
{
    write!(text, "die {die}: ")
}

/// Adds a row, a line.
fn put_row(text: &mut Vec<u8>, die: usize, row: &AlphaRow, slot_us: Option<u32>) -> io::Result<()>
    ensures { OnOk result (text.new.items ≡ text.old.items ++ row_line slot_us die row.now) }
{
    put_die(text, die)?;
    put_rest(text, row, slot_us)
}

/// Adds a row, if there is one.
fn put_if_found(
    text: &mut Vec<u8>,
    die: usize,
    found: &Option<AlphaRow>,
    slot_us: Option<u32>,
) -> io::Result<()>
    ensures { OnOk result (text.new.items ≡ text.old.items ++ row_text slot_us die found.now) }
{
    match found {
        Some(row) => put_row(text, die, row, slot_us),
        None => Ok(()),
    }
}

/// The row of a die with this alpha, if there is one. The only refusal is NoMemory.
fn row_with(
    alloc: Global,
    numbers: &TermsNumbers,
    alpha: u32,
    die: u32,
) -> Result<Option<AlphaRow>, Refusal>
    ensures found { IfOk result (FindsRow (with_alpha (die_of numbers.now die) alpha)) }
    ensures refused { FailsForMemory result }
{
    let made = die_terms(alloc, numbers, die)?;
    let along = with_alpha(alloc, made, alpha)?;
    Ok(row_of(along))
}

/// Adds what is said of a die of a plan with this alpha. The only refusal is NoMemory.
fn put_one(
    alloc: Global,
    text: &mut Vec<u8>,
    numbers: &TermsNumbers,
    alpha: u32,
    die: u32,
    slot_us: Option<u32>,
) -> Result<(), Refusal>
    ensures said { IfOk result (λ _. (said : List ℕ) × SaysRow slot_us numbers.now alpha die said
        × (text.new.items ≡ text.old.items ++ said)) }
    ensures refused { FailsForMemory result }
{
    let found = row_with(alloc, numbers, alpha, die)?;
    written(put_if_found(text, die as usize, &found, slot_us))
}

/// Adds what is said of all dies with this alpha. The only refusal is NoMemory.
fn put_dies(
    alloc: Global,
    text: &mut Vec<u8>,
    numbers: &TermsNumbers,
    alpha: u32,
    slot_us: Option<u32>,
) -> Result<(), Refusal>
    ensures said { IfOk result (λ _. (said : List ℕ) × SaysDies slot_us numbers.now alpha numbers.now.top.dies said
        × (text.new.items ≡ text.old.items ++ said)) }
    ensures refused { FailsForMemory result }
{
    for die in 0..numbers.top.dies {
        put_one(alloc, text, numbers, alpha, die, slot_us)?;
    }
    Ok(())
}

/// Adds what each alpha comes to, from 1 to the pages of a block, by die, with the caps, the collect periods and the collect
/// deadlines that go with it, a line each, where the die meets its bound and passes its tests so with some number of logical
/// pages. The only refusal is NoMemory.
pub fn put_alphas(
    alloc: Global,
    text: &mut Vec<u8>,
    numbers: &TermsNumbers,
    slot_us: Option<u32>,
) -> Result<(), Refusal>
    ensures said { IfOk result (λ _. (said : List ℕ) × SaysAlphas slot_us numbers.now numbers.now.top.pages said
        × (text.new.items ≡ text.old.items ++ said)) }
    ensures refused { FailsForMemory result }
{
    for before in 0..numbers.top.pages {
        put_dies(alloc, text, numbers, before + 1, slot_us)?;
    }
    Ok(())
}
