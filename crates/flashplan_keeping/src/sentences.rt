//! What breaks a plan, in a sentence.

use crate::die_rows::{Line, die_lines};
use crate::phrases::{
    put_count, put_end, put_last_due, put_many_slots, put_missing, put_multiple, put_number,
    put_release, put_row, put_task, second_of, slot_after, slots_in,
};
use crate::verdicts::Broken;
use flashplan_breaches::{Breach, CollectionRule, JobRule, task_times};
use slot_types::{DiePlan, MAX_JOBS, Refusal, StorePlan, TaskTimes};
use std::alloc::Global;
use std::io;
use std::io::Write;

/// Tells the deadline of a row that has another time left.
fn put_due(
    text: &mut Vec<u8>,
    line: &Line,
    period: u32,
    slot_us: Option<u32>,
    why: &str,
) -> io::Result<()> {
    let due = slot_after(line.release, period, slot_us);
    put_number(text, "due", slots_in(line.due, slot_us), due, why)
}

/// Tells which condition on a job doesn't hold.
fn put_job(
    text: &mut Vec<u8>,
    plan: &DiePlan,
    own: TaskTimes,
    line: &Line,
    rule: JobRule,
    slot_us: Option<u32>,
) -> io::Result<()> {
    match rule {
        JobRule::Task => put_task(text, plan),
        JobRule::Release => put_release(text, line, slot_us),
        JobRule::Due => put_due(
            text,
            line,
            own.period,
            slot_us,
            "a period after its release",
        ),
        JobRule::LastDue => put_last_due(text, slots_in(line.due, slot_us)),
        JobRule::SomeOps | JobRule::FewOps => {
            put_count(text, line.ops as u64, "operations", 1, own.work)
        }
        JobRule::Pages => {
            let (page, last) = (line.page, plan.logical.saturating_sub(1));
            writeln!(
                text,
                "it asks for page {page}, and pages go from 0 to {last}"
            )
        }
        JobRule::FewWrites => put_count(text, line.writes as u64, "writes", 0, own.writes),
    }
}

/// Tells which condition on a collection doesn't hold.
fn put_collection(
    text: &mut Vec<u8>,
    plan: &DiePlan,
    own: TaskTimes,
    line: &Line,
    slots: u32,
    rule: CollectionRule,
    slot_us: Option<u32>,
) -> io::Result<()> {
    let period = own.collect_period;
    match rule {
        CollectionRule::Task => put_task(text, plan),
        CollectionRule::Release => put_release(text, line, slot_us),
        CollectionRule::Multiple => put_multiple(text, line, period, slot_us),
        CollectionRule::BeforeEnd => put_end(text, line, slots, slot_us),
        CollectionRule::Due => {
            let why = "a collect period after its release";
            put_due(text, line, period, slot_us, why)
        }
        CollectionRule::LastDue => put_last_due(text, slot_after(line.release, period, slot_us)),
    }
}

/// Tells a job that comes too soon after another one.
fn put_period(
    text: &mut Vec<u8>,
    own: TaskTimes,
    first: &Line,
    second: &Line,
    slot_us: Option<u32>,
) -> io::Result<()> {
    let from = slot_after(first.release, own.period, slot_us);
    let (release, record) = (slots_in(second.release, slot_us), first.record);
    writeln!(
        text,
        "release is {release}, and has to be at least {from}, a period after that of record {record}"
    )
}

/// What the sentence of a breach needs.
#[derive(Clone, Copy)]
struct Reported<'a> {
    die: u32,
    plan: &'a DiePlan,
    lines: &'a [Line],
    slots: u32,
    slot_us: Option<u32>,
}

impl Reported<'_> {
    /// The times of a task.
    fn own(&self, task: u32) -> TaskTimes {
        match &self.plan.times {
            Some(times) => task_times(times, task),
            None => TaskTimes {
                period: 0,
                collect_period: 0,
                work: 0,
                writes: 0,
            },
        }
    }

    /// Tells how many collections come in a slot that has one.
    fn put_came(&self, text: &mut Vec<u8>, task: u32, slot: u32, came: usize) -> io::Result<()> {
        match second_of(self.lines, task, slot) {
            Some(line) => {
                put_row(text, self.die, &line, self.slot_us)?;
                writeln!(text, "{came} collections come in this slot, and 1 may")
            }
            None => {
                let period = self.own(task).collect_period;
                put_missing(text, self.die, task, slot, period, self.slot_us)
            }
        }
    }

    /// Tells what breaks the plan at a row.
    fn put_at(&self, text: &mut Vec<u8>, line: &Line, breach: Breach) -> io::Result<()> {
        put_row(text, self.die, line, self.slot_us)?;
        let own = self.own(line.task);
        match breach {
            Breach::Job { rule, .. } => put_job(text, self.plan, own, line, rule, self.slot_us),
            Breach::Collection { rule, .. } => {
                let (slots, slot_us) = (self.slots, self.slot_us);
                put_collection(text, self.plan, own, line, slots, rule, slot_us)
            }
            Breach::Period { earlier, .. } => match self.lines.get(earlier) {
                Some(first) => put_period(text, own, first, line, self.slot_us),
                None => Ok(()),
            },
            _ => writeln!(
                text,
                "{MAX_JOBS} jobs and collections come before it, and no more may"
            ),
        }
    }

    /// Tells what breaks the plan.
    fn put(&self, text: &mut Vec<u8>, breach: Breach) -> io::Result<()> {
        let place = match breach {
            Breach::Job { place, .. } | Breach::Collection { place, .. } => place,
            Breach::Period { later, .. } => later,
            Breach::Count { task, slot, came } => return self.put_came(text, task, slot, came),
            Breach::TooMany => MAX_JOBS as usize,
            Breach::TooManySlots => {
                return put_many_slots(text, self.slots, self.slot_us);
            }
        };
        match self.lines.get(place) {
            Some(line) => self.put_at(text, line, breach),
            None => Ok(()),
        }
    }
}

/// What breaks the plan of a die, in a sentence: the record, its slot and its task, what is asked, and what the plan
/// allows. Each slot, and each number of slots, is followed by its time, where it is known how many us one takes.
pub fn sentence(
    alloc: Global,
    text: &[u8],
    plan: &StorePlan,
    slots: u32,
    broken: Broken,
    slot_us: Option<u32>,
) -> Result<Vec<u8>, Refusal> {
    let mut said = Vec::new(alloc);
    let lines = die_lines(alloc, text, plan, slots, broken.die)?;
    let Some(own) = plan.get(broken.die as usize) else {
        return Ok(said);
    };
    let reported = Reported {
        die: broken.die,
        plan: own,
        lines: &lines,
        slots,
        slot_us,
    };
    match reported.put(&mut said, broken.breach) {
        Ok(()) => Ok(said),
        Err(_) => Err(Refusal::NoMemory),
    }
}
