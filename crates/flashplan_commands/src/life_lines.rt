//! What is said of a plan behind its explanation: how long a life of a die with terms lasts, how much its tasks write and
//! read, and which options say nothing of it.

ghost use Rattle.slot_types.specs.Refusal.{FailsForMemory};

use crate::slot_lengths::UNKNOWN_SLOT;
use flashplan_slot_times::{Rate, Slots, Units};
use flashplan_terms_arrivals::life_of;
use slot_types::Refusal;
use std::alloc::Global;
use std::io;
use std::io::Write;
use terms_texts::{DieTerms, TermsRefusal, read_terms};

/// What was written; a list refuses memory alone.
fn written(put: io::Result<()>) -> Result<(), Refusal> {
    match put {
        Ok(()) => Ok(()),
        Err(_) => Err(Refusal::NoMemory),
    }
}

/// Adds how long a life of a die lasts where its tasks ask for all that they may, in as few jobs as may be.
fn put_life(text: &mut Vec<u8>, die: usize, made: &DieTerms, units: Units) -> io::Result<()> {
    let life = Slots {
        count: u64::from(life_of(made.terms.tasks.as_slice())),
        slot_us: units.slot_us,
    };
    writeln!(
        text,
        "die {die}: where jobs are as few as may be, its life has {life} slots; `renew` begins the next one."
    )
}

/// Adds how much the jobs of a task write, and read or trim, where the length of a slot and the bytes of a page are known.
fn put_rate(
    text: &mut Vec<u8>,
    die: usize,
    task: usize,
    made: &DieTerms,
    units: Units,
) -> io::Result<()> {
    let Units {
        slot_us: Some(slot_us),
        page_bytes: Some(page_bytes),
    } = units
    else {
        return Ok(());
    };
    let Some(terms) = made.terms.tasks.get(task) else {
        return Ok(());
    };
    let slots = terms.period;
    let written = Rate {
        pages: terms.writes,
        page_bytes,
        slots,
        slot_us,
    };
    let other = Rate {
        pages: terms.work.saturating_sub(terms.writes),
        page_bytes,
        slots,
        slot_us,
    };
    writeln!(
        text,
        "die {die} task {task}: its jobs write at most {written}, and read at most {other} beside."
    )
}

/// Adds both of each of these dies.
fn put_dies(text: &mut Vec<u8>, dies: &[DieTerms], units: Units) -> io::Result<()> {
    for die in 0..dies.len() {
        let made = &dies[die];
        put_life(text, die, made, units)?;
        for task in 0..made.terms.tasks.len() {
            put_rate(text, die, task, made, units)?;
        }
    }
    Ok(())
}

/// How a time ends in what is said.
const TIMES: [&[u8]; 5] = [b" us)", b" ms)", b" s)", b" min)", b" h)"];

/// What stands behind a number of slots.
const SLOTS: &[u8] = b" slots";

/// How a rate ends.
const RATE: &[u8] = b" MB/s";

/// Whether these bytes stand in a text.
fn has(text: &[u8], bytes: &[u8]) -> bool {
    for at in 0..text.len() {
        if text[at..].starts_with(bytes) {
            return true;
        }
    }
    false
}

/// Adds which options say nothing of a plan, of which this is said.
fn put_unsaid(text: &mut Vec<u8>, asked: Units, known: Units, said: &[u8]) -> io::Result<()> {
    let times = TIMES.iter().any(|time| has(said, time));
    if asked.slot_us.is_some() && !times {
        writeln!(
            text,
            "plan: --slot-us says nothing: no slots are counted here."
        )?;
    }
    if known.page_bytes.is_none() || has(said, RATE) {
        return Ok(());
    }
    if known.slot_us.is_none() && has(said, SLOTS) {
        writeln!(text, "plan: --page-bytes says nothing: {UNKNOWN_SLOT}.")
    } else {
        writeln!(
            text,
            "plan: --page-bytes says nothing: no task's jobs are counted here."
        )
    }
}

/// What stands behind the explanation of a plan with terms that is accepted: how long lives last, and what tasks write and
/// read. Fails where memory is refused.
fn lives_of(alloc: Global, plan: &[u8], known: Units) -> Result<Vec<u8>, Refusal> {
    let mut text = Vec::new(alloc);
    match read_terms(alloc, plan) {
        Ok(dies) => written(put_dies(&mut text, dies.as_slice(), known))?,
        Err(TermsRefusal::Outside(_)) => return Err(Refusal::NoMemory),
        Err(_) => {}
    }
    Ok(text)
}

/// These lines, and which options say nothing of the plan beside what was said of it already.
fn put_lives(
    alloc: Global,
    plan: &[u8],
    asked: Units,
    known: Units,
    said: &[u8],
) -> Result<Vec<u8>, Refusal> {
    let mut text = lives_of(alloc, plan, known)?;
    let mut whole = Vec::from_slice(alloc, said)?;
    whole.extend_from_slice(&text)?;
    written(put_unsaid(&mut text, asked, known, &whole))?;
    Ok(text)
}

/// What is said of a plan after this: of one with terms that is accepted how long lives last, and what tasks write and read;
/// and which options say nothing of it. The only refusal is NoMemory.
pub(crate) fn life_lines(
    alloc: Global,
    plan: &[u8],
    asked: Units,
    known: Units,
    said: &[u8],
) -> Result<Vec<u8>, Refusal>
    ensures refused { FailsForMemory result }
{
    match put_lives(alloc, plan, asked, known, said) {
        Ok(text) => Ok(text),
        Err(_) => Err(Refusal::NoMemory),
    }
}
