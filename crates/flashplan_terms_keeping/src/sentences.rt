//! What breaks a plan with deadlines and bursts, in a sentence.

use crate::verdicts::Broken;
use crate::windows::{Excess, Window};
use demand_keeping::{Breach, CollectionRule, Count, JobRule};
use demand_rules::TaskTerms;
use flashplan_keeping::phrases::{
    put_count, put_end, put_last_due, put_many_slots, put_missing, put_multiple, put_number,
    put_release, put_row, put_task, second_of, slot_after, slots_in,
};
use flashplan_keeping::{Line, die_lines};
use flashplan_slot_times::Slots;
use slot_types::{MAX_JOBS, MAX_OPS, Refusal};
use std::alloc::Global;
use std::io;
use std::io::Write;
use terms_texts::{DieTerms, StoreTerms, plans_of};

/// Tells which number is too small.
fn put_least(text: &mut Vec<u8>, name: &str, is: Slots, least: Slots, why: &str) -> io::Result<()> {
    writeln!(
        text,
        "{name} is {is}, and has to be at least {least}, {why}"
    )
}

/// Tells which number is too great.
fn put_most(text: &mut Vec<u8>, name: &str, is: Slots, most: Slots, why: &str) -> io::Result<()> {
    writeln!(text, "{name} is {is}, and has to be at most {most}, {why}")
}

/// Tells a deadline that comes too soon after the release of its job.
fn put_soon(
    text: &mut Vec<u8>,
    line: &Line,
    own: &TaskTerms,
    slot_us: Option<u32>,
) -> io::Result<()> {
    let due = slots_in(line.due, slot_us);
    let least = slot_after(line.release, own.deadline, slot_us);
    put_least(text, "due", due, least, "a deadline after its release")
}

/// Tells a deadline that comes too long after its job.
fn put_held(
    text: &mut Vec<u8>,
    line: &Line,
    own: &TaskTerms,
    slot_us: Option<u32>,
) -> io::Result<()> {
    let due = slots_in(line.due, slot_us);
    let most = slot_after(line.at, own.held, slot_us);
    let why = "as long after it comes as it may be held";
    put_most(text, "due", due, most, why)
}

/// Tells which condition on a job doesn't hold.
fn put_job(
    text: &mut Vec<u8>,
    made: &DieTerms,
    own: &TaskTerms,
    line: &Line,
    rule: JobRule,
    slot_us: Option<u32>,
) -> io::Result<()> {
    match rule {
        JobRule::Task => put_task(text, &made.plan),
        JobRule::Release => {
            let (release, least) = (slots_in(line.release, slot_us), slots_in(line.at, slot_us));
            let why = "the slot before which it comes";
            put_least(text, "release", release, least, why)
        }
        JobRule::Due => put_soon(text, line, own, slot_us),
        JobRule::Held => put_held(text, line, own, slot_us),
        JobRule::LastDue => put_last_due(text, slots_in(line.due, slot_us)),
        JobRule::SomeOps | JobRule::FewOps => {
            put_count(text, line.ops as u64, "operations", 1, MAX_OPS)
        }
        JobRule::Pages => {
            let (page, last) = (line.page, made.plan.logical.saturating_sub(1));
            writeln!(
                text,
                "it asks for page {page}, and pages go from 0 to {last}"
            )
        }
    }
}

/// Tells which condition on a collection doesn't hold.
fn put_collection(
    text: &mut Vec<u8>,
    made: &DieTerms,
    own: &TaskTerms,
    line: &Line,
    slots: u32,
    rule: CollectionRule,
    slot_us: Option<u32>,
) -> io::Result<()> {
    let due = slot_after(line.release, own.collect_deadline, slot_us);
    match rule {
        CollectionRule::Task => put_task(text, &made.plan),
        CollectionRule::Release => put_release(text, line, slot_us),
        CollectionRule::Multiple => put_multiple(text, line, own.collect_period, slot_us),
        CollectionRule::BeforeEnd => put_end(text, line, slots, slot_us),
        CollectionRule::Due => {
            let why = "a collect_deadline after its release";
            put_number(text, "due", slots_in(line.due, slot_us), due, why)
        }
        CollectionRule::LastDue => put_last_due(text, due),
    }
}

/// Tells that more is released, or comes, in a period than the plan allows.
fn put_excess(
    text: &mut Vec<u8>,
    count: Count,
    counted: u64,
    window: &Window,
    limit: u32,
    slot_us: Option<u32>,
) -> io::Result<()> {
    let first = slots_in(window.start, slot_us);
    let last = Slots {
        count: window.end.saturating_sub(1),
        slot_us,
    };
    match count {
        Count::Operations => writeln!(
            text,
            "with it {counted} operations are released in slots {first} to {last}, and at most {limit} may be"
        ),
        Count::Writes => writeln!(
            text,
            "with it {counted} writes come in slots {first} to {last}, and at most {limit} may"
        ),
    }
}

/// The row that is the event of an index: the slots before it are events, too.
fn row_of(lines: &[Line], index: usize) -> Option<Line> {
    for place in 0..lines.len() {
        let line = lines[place];
        if place.saturating_add(line.at as usize) == index {
            return Some(line);
        }
    }
    None
}

/// How many collections of a task come in a slot.
fn came(lines: &[Line], task: u32, slot: u32) -> usize {
    lines
        .iter()
        .filter(|line| line.collects && line.task == task && line.at == slot)
        .count()
}

/// What the sentence of a breach needs.
#[derive(Clone, Copy)]
struct Reported<'a> {
    die: u32,
    made: &'a DieTerms,
    lines: &'a [Line],
    slots: u32,
    slot_us: Option<u32>,
}

impl Reported<'_> {
    /// The terms of a task.
    fn own(&self, task: u32) -> TaskTerms {
        match self.made.terms.tasks.get(task as usize) {
            Some(own) => *own,
            None => TaskTerms {
                period: 0,
                deadline: 0,
                held: 0,
                work: 0,
                writes: 0,
                collect_period: 0,
                collect_deadline: 0,
            },
        }
    }

    /// Tells what breaks the plan at a job.
    fn put_job(&self, text: &mut Vec<u8>, index: usize, rule: JobRule) -> io::Result<()> {
        let Some(line) = row_of(self.lines, index) else {
            return Ok(());
        };
        put_row(text, self.die, &line, self.slot_us)?;
        let own = self.own(line.task);
        put_job(text, self.made, &own, &line, rule, self.slot_us)
    }

    /// Tells what breaks the plan at a collection.
    fn put_collection(
        &self,
        text: &mut Vec<u8>,
        index: usize,
        rule: CollectionRule,
    ) -> io::Result<()> {
        let Some(line) = row_of(self.lines, index) else {
            return Ok(());
        };
        put_row(text, self.die, &line, self.slot_us)?;
        let own = self.own(line.task);
        let (slots, slot_us) = (self.slots, self.slot_us);
        put_collection(text, self.made, &own, &line, slots, rule, slot_us)
    }

    /// Tells in which period a task asks for too much, and with which row.
    fn put_window(
        &self,
        text: &mut Vec<u8>,
        count: Count,
        task: u32,
        start: u32,
    ) -> io::Result<()> {
        let own = self.own(task);
        let end = u64::from(start).saturating_add(u64::from(own.period));
        let limit = match count {
            Count::Operations => own.work,
            Count::Writes => own.writes,
        };
        let window = Window { task, start, end };
        match window.excess(count, limit, self.lines) {
            Some(Excess { line, counted }) => {
                put_row(text, self.die, &line, self.slot_us)?;
                put_excess(text, count, counted, &window, limit, self.slot_us)
            }
            None => Ok(()),
        }
    }

    /// Tells how many collections come in a slot that has one.
    fn put_came(&self, text: &mut Vec<u8>, task: u32, slot: u32) -> io::Result<()> {
        match second_of(self.lines, task, slot) {
            Some(line) => {
                put_row(text, self.die, &line, self.slot_us)?;
                let came = came(self.lines, task, slot);
                writeln!(text, "{came} collections come in this slot, and 1 may")
            }
            None => {
                let period = self.own(task).collect_period;
                put_missing(text, self.die, task, slot, period, self.slot_us)
            }
        }
    }

    /// Tells that a die gets more jobs and collections than it may.
    fn put_many(&self, text: &mut Vec<u8>) -> io::Result<()> {
        match self.lines.get(MAX_JOBS as usize) {
            Some(line) => {
                put_row(text, self.die, line, self.slot_us)?;
                writeln!(
                    text,
                    "{MAX_JOBS} jobs and collections come before it, and no more may"
                )
            }
            None => Ok(()),
        }
    }

    /// Tells what breaks the plan.
    fn put(&self, text: &mut Vec<u8>, breach: Breach) -> io::Result<()> {
        let die = self.die;
        match breach {
            Breach::Limits(_) => writeln!(
                text,
                "die {die}: a number of its terms is out of its limits"
            ),
            Breach::Slots => put_many_slots(text, self.slots, self.slot_us),
            Breach::Arrivals => self.put_many(text),
            Breach::Job { index, rule } => self.put_job(text, index, rule),
            Breach::Collection { index, rule } => self.put_collection(text, index, rule),
            Breach::Operations { task, start } => {
                self.put_window(text, Count::Operations, task, start)
            }
            Breach::Writes { task, start } => self.put_window(text, Count::Writes, task, start),
            Breach::Collections { task, slot } => self.put_came(text, task, slot),
        }
    }
}

/// What breaks the plan of a die first, in a sentence: the record, its slot and its task, what is asked, and what the plan
/// allows. Each slot, and each number of slots, is followed by its time, where it is known how many us one takes. It
/// refuses what the reader of scripts refuses, and NoMemory.
pub fn sentence(
    alloc: Global,
    text: &[u8],
    store: &StoreTerms,
    slots: u32,
    broken: Broken,
    slot_us: Option<u32>,
) -> Result<Vec<u8>, Refusal> {
    let mut said = Vec::new(alloc);
    let plans = plans_of(alloc, store)?;
    let lines = die_lines(alloc, text, &plans, slots, broken.die)?;
    let Some(made) = store.get(broken.die as usize) else {
        return Ok(said);
    };
    let reported = Reported {
        die: broken.die,
        made,
        lines: &lines,
        slots,
        slot_us,
    };
    match reported.put(&mut said, broken.breach) {
        Ok(()) => Ok(said),
        Err(_) => Err(Refusal::NoMemory),
    }
}
