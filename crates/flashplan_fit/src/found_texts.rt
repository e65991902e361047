//! The text of a plan that was found.

ghost use Rattle.std.specs.Prelude.{◌≡◌, ◌++◌, ℕ, List, IfOk, OnOk};
ghost use Rattle.flashplan_fit.specs.Fits.{slot_line};
ghost use Rattle.flashplan_fit.specs.Texts.{asked_text, common_text, demand_text, end_text, interval_text, life_text, load_text};
ghost use Rattle.flashplan_fit.specs.Texts.{long_run_text, no_end_text, share_text, spare_text, taken_text, tight_text, tightest_text};

use crate::datasheets::Part;
use crate::lives::Life;
use crate::searches::{Found, Share};
use crate::terms_searches::FoundTerms;
use demand_rules::DemandLoad;
use flashplan_slot_times::Slots;
use slot_types::{DiePlan, Refusal, Times};
use std::alloc::Global;
use std::io;
use std::io::Write;
use terms_texts::{DieTerms, TaskList, TaskNumbers, TermsNumbers, TopNumbers, write_terms};

/// Adds how long a slot is.
fn put_slot(text: &mut Vec<u8>, slot_us: u32) -> io::Result<()>
    ensures { OnOk result (text.new.items ≡ text.old.items ++ slot_line slot_us) }
{
    write!(text, "# a slot is {slot_us} us; ")
}

/// A text that begins with how long a slot is.
fn with_slot(alloc: Global, slot_us: u32, rest: &[u8]) -> Result<Vec<u8>, Refusal>
    ensures { IfOk result (λ text. text.items ≡ slot_line slot_us ++ rest.now) }
{
    let mut text = Vec::new(alloc);
    if put_slot(&mut text, slot_us).is_err() {
        return Err(Refusal::NoMemory);
    }
    text.extend_from_slice(rest)?;
    Ok(text)
}

/// Adds keys with their numbers.
fn put_numbers(text: &mut Vec<u8>, numbers: &[(&str, u32)]) -> io::Result<()> {
    for (key, number) in numbers {
        writeln!(text, "{key} = {number}")?;
    }
    Ok(())
}

/// Adds of how many slots something is said.
fn put_common(text: &mut Vec<u8>, common: u32, slot_us: Option<u32>) -> io::Result<()>
    ensures { OnOk result (text.new.items ≡ text.old.items ++ common_text slot_us common) }
{
    let slots = Slots {
        count: u64::from(common),
        slot_us,
    };
    write!(text, "of each {slots} slots")
}

/// Adds how many of them all tasks take.
fn put_taken(text: &mut Vec<u8>, demand: u64, slot_us: Option<u32>) -> io::Result<()>
    ensures { OnOk result (text.new.items ≡ text.old.items ++ taken_text slot_us demand) }
{
    let slots = Slots {
        count: demand,
        slot_us,
    };
    write!(text, " all tasks take at most {slots}")
}

/// Adds both.
fn put_demand(text: &mut Vec<u8>, share: Share, slot_us: Option<u32>) -> io::Result<()>
    ensures { OnOk result (text.new.items ≡ text.old.items ++ demand_text slot_us share) }
{
    put_common(text, share.common, slot_us)?;
    put_taken(text, share.demand, slot_us)
}

/// Adds how many are to spare.
fn put_spare(text: &mut Vec<u8>, spare: u64, slot_us: Option<u32>) -> io::Result<()>
    ensures { OnOk result (text.new.items ≡ text.old.items ++ spare_text slot_us spare) }
{
    let slots = Slots {
        count: spare,
        slot_us,
    };
    writeln!(text, ": {slots} to spare")
}

/// Adds how much the tasks take.
fn put_share(text: &mut Vec<u8>, share: Share, slot_us: Option<u32>) -> io::Result<()>
    ensures { OnOk result (text.new.items ≡ text.old.items ++ share_text slot_us share) }
{
    let Share { demand, common } = share;
    put_demand(text, share, slot_us)?;
    put_spare(text, u64::from(common).saturating_sub(demand), slot_us)
}

/// Adds that periods end in no life, which has `life` slots.
fn put_no_end(text: &mut Vec<u8>, life: u32, slot_us: Option<u32>) -> io::Result<()>
    ensures { OnOk result (text.new.items ≡ text.old.items ++ no_end_text slot_us life) }
{
    let slots = Slots {
        count: u64::from(life),
        slot_us,
    };
    write!(
        text,
        "# its periods end in no life, which has {slots} slots"
    )
}

/// Adds where they would end, if that is known.
fn put_end(text: &mut Vec<u8>, end: Option<u32>, slot_us: Option<u32>) -> io::Result<()>
    ensures { OnOk result (text.new.items ≡ text.old.items ++ end_text slot_us end) }
{
    match end {
        None => writeln!(text),
        Some(end) => {
            let slots = Slots {
                count: u64::from(end),
                slot_us,
            };
            writeln!(
                text,
                ": the least multiple of each collect_period is {slots}"
            )
        }
    }
}

/// Adds that no life is long enough for the periods to end, where none is.
fn put_life(text: &mut Vec<u8>, life: Life, slot_us: Option<u32>) -> io::Result<()>
    ensures { OnOk result (text.new.items ≡ text.old.items ++ life_text slot_us life) }
{
    match life {
        Life::Ends => Ok(()),
        Life::EndsNowhere { life, end } => {
            put_no_end(text, life, slot_us)?;
            put_end(text, end, slot_us)
        }
    }
}

/// Adds what a plan has beside its tasks.
fn put_top(text: &mut Vec<u8>, plan: &DiePlan, common: u32) -> io::Result<()> {
    put_numbers(
        text,
        &[
            ("version", 2),
            ("dies", 1),
            ("blocks", plan.shape.blocks),
            ("pages", plan.shape.pages),
            ("erase_slots", plan.shape.erase_slots),
            ("logical", plan.logical),
            ("alpha", plan.alpha),
            ("common", common),
        ],
    )
}

/// Adds the tasks of a plan.
fn put_tasks(text: &mut Vec<u8>, plan: &DiePlan, times: &Times) -> io::Result<()> {
    for (cap, task) in plan.caps.as_slice().iter().zip(times.tasks.as_slice()) {
        text.write_all(b"\n[[task]]\n")?;
        put_numbers(
            text,
            &[
                ("die", 0),
                ("cap", *cap),
                ("period", task.period),
                ("collect_period", task.collect_period),
                ("work", task.work),
                ("writes", task.writes),
            ],
        )?;
    }
    Ok(())
}

/// Adds how long programs take, where a datasheet says how long most do.
fn put_typical(text: &mut Vec<u8>, part: &Part) -> io::Result<()> {
    let Some(typical_us) = part.program_typical_us else {
        return Ok(());
    };
    let program_us = part.program_us;
    writeln!(
        text,
        "# it holds a program of {program_us} us, the longest; most take {typical_us} us"
    )
}

/// Adds all of a text but the length of its slots.
fn put_rest(text: &mut Vec<u8>, part: &Part, found: &Found) -> io::Result<()> {
    let plan = &found.plan;
    let Some(times) = &plan.times else {
        return Ok(());
    };
    let slot_us = Some(found.slot_us);
    put_share(text, found.share, slot_us)?;
    put_life(text, found.life, slot_us)?;
    put_typical(text, part)?;
    put_top(text, plan, times.common)?;
    put_tasks(text, plan, times)
}

/// The text of a plan that was found. The only refusal is NoMemory.
pub fn text_of(alloc: Global, part: &Part, found: &Found) -> Result<Vec<u8>, Refusal>
    ensures { IfOk result (λ text. (rest : List ℕ) ×
        (text.items ≡ slot_line found.now.slot_us ++ rest)) }
{
    let mut rest = Vec::new(alloc);
    if put_rest(&mut rest, part, found).is_err() {
        return Err(Refusal::NoMemory);
    }
    with_slot(alloc, found.slot_us, rest.as_slice())
}

/// Adds what is asked for in the long run.
fn put_long_run(text: &mut Vec<u8>, load: u32) -> io::Result<()>
    ensures { OnOk result (text.new.items ≡ text.old.items ++ long_run_text load) }
{
    writeln!(
        text,
        "in the long run {load} of each 1000000 slots are asked for"
    )
}

/// Adds how long the tightest interval is.
fn put_interval(text: &mut Vec<u8>, tightest: u32, slot_us: Option<u32>) -> io::Result<()>
    ensures { OnOk result (text.new.items ≡ text.old.items ++ interval_text slot_us tightest) }
{
    let slots = Slots {
        count: u64::from(tightest),
        slot_us,
    };
    write!(text, "# the tightest interval has {slots} slots")
}

/// Adds how much may be asked of it.
fn put_asked(text: &mut Vec<u8>, demand: u32, slot_us: Option<u32>) -> io::Result<()>
    ensures { OnOk result (text.new.items ≡ text.old.items ++ asked_text slot_us demand) }
{
    let slots = Slots {
        count: u64::from(demand),
        slot_us,
    };
    write!(text, ", of which {slots} may be asked for")
}

/// Adds how much may be asked of the tightest interval.
fn put_tightest(text: &mut Vec<u8>, load: &DemandLoad, slot_us: Option<u32>) -> io::Result<()>
    ensures { OnOk result (text.new.items ≡ text.old.items ++ tightest_text slot_us load.now) }
{
    put_interval(text, load.tightest, slot_us)?;
    put_asked(text, load.tightest.saturating_sub(load.slack), slot_us)
}

/// Adds what is to spare of it, too.
fn put_tight(text: &mut Vec<u8>, load: &DemandLoad, slot_us: Option<u32>) -> io::Result<()>
    ensures { OnOk result (text.new.items ≡ text.old.items ++ tight_text slot_us load.now) }
{
    put_tightest(text, load, slot_us)?;
    put_spare(text, u64::from(load.slack), slot_us)
}

/// Adds what is asked of the slots of a plan with terms.
fn put_load(text: &mut Vec<u8>, load: &DemandLoad, slot_us: Option<u32>) -> io::Result<()>
    ensures { OnOk result (text.new.items ≡ text.old.items ++ load_text slot_us load.now) }
{
    put_long_run(text, load.load)?;
    put_tight(text, load, slot_us)
}

/// The numbers of a plan with terms.
fn numbers_of(alloc: Global, die: &DieTerms) -> Result<TermsNumbers, Refusal> {
    let plan = &die.plan;
    let mut tasks = TaskList::new(alloc);
    for (cap, terms) in plan.caps.as_slice().iter().zip(die.terms.tasks.as_slice()) {
        tasks.push(TaskNumbers {
            die: 0,
            cap: *cap,
            terms: *terms,
        })?;
    }
    Ok(TermsNumbers {
        top: TopNumbers {
            dies: 1,
            blocks: plan.shape.blocks,
            pages: plan.shape.pages,
            erase_slots: plan.shape.erase_slots,
            logical: plan.logical,
            alpha: plan.alpha,
        },
        tasks,
    })
}

/// The text of a plan with terms that was found. Refused as NoMemory, or as the writer of plans refuses it.
pub fn terms_text_of(alloc: Global, part: &Part, found: &FoundTerms) -> Result<Vec<u8>, Refusal>
    ensures { IfOk result (λ text. (rest : List ℕ) ×
        (text.items ≡ slot_line found.now.slot_us ++ rest)) }
{
    let mut rest = Vec::new(alloc);
    if put_load(&mut rest, &found.load, Some(found.slot_us)).is_err()
        || put_typical(&mut rest, part).is_err()
    {
        return Err(Refusal::NoMemory);
    }
    let numbers = numbers_of(alloc, &found.die)?;
    match write_terms(alloc, &numbers) {
        Ok(plan) => rest.extend_from_slice(plan.as_bytes())?,
        Err(refusal) => return Err(refusal.refusal()),
    }
    with_slot(alloc, found.slot_us, rest.as_slice())
}
