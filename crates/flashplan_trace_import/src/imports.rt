//! A script and a plan for the requests of traces, a die each.

use crate::faults::{ImportFault, LineFault, TraceFault};
use crate::traces::{Action, Request, Trace, trace_of};
use slot_types::{MAX_DIES, Refusal};
use std::alloc::Global;
use std::io;
use std::io::Write;

/// What a trace is read by.
#[derive(Clone, Copy, PartialEq, Eq, Debug, Drop)]
pub struct Measure {
    /// How many microseconds a slot takes; 0 is taken as 1.
    pub slot_us: u32,
    /// How many slots after it came a request is due; 0 is taken as 1.
    pub due: u32,
}

/// Which text is made of a trace.
#[derive(Clone, Copy, PartialEq, Eq, Debug, Drop)]
pub enum Made {
    Plan,
    Script,
}

/// The part that a plan is made for.
const PAGES: u32 = 64;

const ERASE_SLOTS: u32 = 8;

/// How many pages a collection gives.
const ALPHA: u32 = 16;

/// The most blocks of a die.
const MOST_BLOCKS: u64 = 1024;

/// The most jobs and collections of a die.
const MOST_JOBS: usize = 65_536;

/// What a task asks for.
#[derive(Clone, Copy, Drop)]
struct Task {
    /// The most writes of a job.
    most: u32,
    /// How many writes there are, up to the slot after its last job.
    writes: u32,
    end: u32,
}

impl Task {
    const NOTHING: Task = Task {
        most: 0,
        writes: 0,
        end: 0,
    };

    fn add(&mut self, request: &Request) {
        self.end = self.end.max(request.slot.saturating_add(1));
        if request.action == Action::Write {
            self.most = self.most.max(request.pages);
            self.writes = self.writes.saturating_add(request.pages);
        }
    }

    fn cap(self) -> u32 {
        self.most.saturating_add(ALPHA).saturating_mul(2)
    }

    // How far apart its collections come, so that they give back what it writes on the mean, and a tenth more; none where it
    // writes nothing.
    fn collect_period(self) -> Option<u32> {
        let given = u64::from(ALPHA)
            .saturating_mul(u64::from(self.end))
            .saturating_mul(10);
        let written = u64::from(self.writes).saturating_mul(11);
        let period = given.checked_div(written)?;
        Some(u32::try_from(period).unwrap_or(u32::MAX).max(1))
    }
}

// What each task of a trace asks for.
fn tasks_of(alloc: Global, trace: &Trace) -> Result<Vec<Task>, TraceFault> {
    let mut tasks = vec![in alloc; Task::NOTHING; trace.tasks as usize]?;
    for request in &trace.requests {
        if let Some(task) = tasks.get_mut(request.task as usize) {
            task.add(request);
        }
    }
    Ok(tasks)
}

// The pages of all requests, each once, rising: a page by its task and its place in the file.
fn pages_of(alloc: Global, trace: &Trace) -> Result<Vec<(u32, u64)>, TraceFault> {
    let mut pages = Vec::new(alloc);
    for request in &trace.requests {
        for place in 0..request.pages {
            let page = request.first.saturating_add(u64::from(place));
            pages.reserve(1)?;
            pages.push_reserved((request.task, page));
        }
    }
    pages.as_mut_slice().sort(alloc)?;
    pages.dedup();
    Ok(pages)
}

// The least blocks that meet the bound for `logical` pages.
fn blocks_for(tasks: &[Task], logical: usize) -> u64 {
    let count = tasks.len() as u64;
    let mut free = u64::from(ALPHA - 1).saturating_add(count.saturating_mul(u64::from(
        PAGES - ALPHA,
    )));
    for task in tasks {
        free = free.saturating_add(u64::from(task.cap()));
    }
    let closed = (logical as u64 / u64::from(PAGES - ALPHA + 1)).saturating_add(1);
    closed
        .saturating_add(free / u64::from(PAGES))
        .saturating_add(count)
}

// What a die is asked for.
#[derive(Drop)]
struct Die {
    trace: Trace,
    tasks: Vec<Task>,
    pages: Vec<(u32, u64)>,
}

// The die of a trace.
fn die_of(alloc: Global, text: &[u8], measure: Measure) -> Result<Die, TraceFault> {
    let trace = trace_of(alloc, text, measure.slot_us, measure.due)?;
    let tasks = tasks_of(alloc, &trace)?;
    let pages = pages_of(alloc, &trace)?;
    Ok(Die {
        trace,
        tasks,
        pages,
    })
}

// The die that has most pages, the first of several, and how many: all dies of a plan have as many.
fn greatest(dies: &[Die]) -> (u32, usize) {
    let mut greatest = 0;
    let mut logical = 0;
    let mut number: u32 = 0;
    for die in dies {
        if die.pages.len() > logical {
            greatest = number;
            logical = die.pages.len();
        }
        number = number.saturating_add(1);
    }
    (greatest, logical)
}

// The least blocks that do for each die. Where these are more than a die has, the die with most pages is at fault.
fn blocks_of(dies: &[Die]) -> Result<u64, ImportFault> {
    let (greatest, logical) = greatest(dies);
    let mut blocks = 0;
    for die in dies {
        blocks = blocks_for(die.tasks.as_slice(), logical).max(blocks);
    }
    if blocks > MOST_BLOCKS {
        return Err(ImportFault {
            die: greatest,
            fault: TraceFault::Blocks { blocks },
        });
    }
    Ok(blocks)
}

// A row: its slot, its die, whether it is a job, and the place of the request, or the number of the task that
// collects.
type Row = (u32, u32, bool, u32);

// Adds the rows of a die.
fn add_rows(
    rows: &mut Vec<Row>,
    die: u32,
    trace: &Trace,
    tasks: &[Task],
) -> Result<(), TraceFault> {
    let begun = rows.len();
    let mut number: u32 = 0;
    for task in tasks {
        if let Some(period) = task.collect_period() {
            let mut slot: u32 = 0;
            for _ in 0..MOST_JOBS {
                if slot >= task.end {
                    break;
                }
                rows.reserve(1)?;
                rows.push_reserved((slot, die, false, number));
                slot = slot.saturating_add(period);
            }
        }
        number = number.saturating_add(1);
    }
    let mut place: u32 = 0;
    for request in &trace.requests {
        if rows.len().saturating_sub(begun) >= MOST_JOBS {
            return Err(TraceFault::Line {
                line: request.line,
                fault: LineFault::Jobs,
            });
        }
        rows.reserve(1)?;
        rows.push_reserved((request.slot, die, true, place));
        place = place.saturating_add(1);
    }
    Ok(())
}

// The rows of dies, in their order.
fn rows_of(alloc: Global, dies: &[Die]) -> Result<Vec<Row>, ImportFault> {
    let mut rows = Vec::new(alloc);
    let mut number: u32 = 0;
    for die in dies {
        if let Err(fault) = add_rows(&mut rows, number, &die.trace, die.tasks.as_slice()) {
            return Err(ImportFault { die: number, fault });
        }
        number = number.saturating_add(1);
    }
    rows.as_mut_slice().sort(alloc)?;
    Ok(rows)
}

// Adds the operations of a request. The sixteen bytes of a write name what is written: the die, the task, the page, and
// the line.
fn put_ops(
    text: &mut Vec<u8>,
    die: u32,
    request: &Request,
    pages: &[(u32, u64)],
) -> io::Result<()> {
    for place in 0..request.pages {
        if place > 0 {
            text.write_all(b" ")?;
        }
        let key = (request.task, request.first.saturating_add(u64::from(place)));
        let page = pages.partition_point(|known| *known < key);
        let (task, line) = (request.task, request.line);
        match request.action {
            Action::Read => write!(text, "R{page}")?,
            Action::Trim => write!(text, "T{page}")?,
            Action::Write => write!(text, "W{page}={die:04x}{task:04x}{page:016x}{line:08x}")?,
        }
    }
    Ok(())
}

// Adds the row of a collection.
fn put_collection(
    text: &mut Vec<u8>,
    die: u32,
    tasks: &[Task],
    task: u32,
    slot: u32,
) -> io::Result<()> {
    let period = match tasks.get(task as usize) {
        Some(task) => task.collect_period().unwrap_or(1),
        None => 1,
    };
    let end = slot.saturating_add(period).min(slot_types::MAX_SLOT);
    writeln!(text, "{slot},{die},{task},collect,{slot},{end},")
}

// Adds the row of a job.
fn put_job(
    text: &mut Vec<u8>,
    number: u32,
    die: &Die,
    request: &Request,
    due: u32,
) -> io::Result<()> {
    let (slot, task) = (request.slot, request.task);
    let end = slot.saturating_add(due);
    write!(text, "{slot},{number},{task},job,{slot},{end},")?;
    put_ops(text, number, request, die.pages.as_slice())?;
    text.write_all(b"\n")
}

fn put_script(text: &mut Vec<u8>, dies: &[Die], rows: &[Row], due: u32) -> io::Result<()> {
    text.write_all(b"at,die,task,kind,release,due,ops\n")?;
    for (slot, number, is_job, of) in rows {
        let Some(die) = dies.get(*number as usize) else {
            continue;
        };
        if !*is_job {
            put_collection(text, *number, die.tasks.as_slice(), *of, *slot)?;
        } else if let Some(request) = die.trace.requests.get(*of as usize) {
            put_job(text, *number, die, request, due)?;
        }
    }
    Ok(())
}

fn put_tasks(text: &mut Vec<u8>, number: u32, tasks: &[Task]) -> io::Result<()> {
    for task in tasks {
        let cap = task.cap();
        writeln!(text, "\n[[task]]\ndie = {number}\ncap = {cap}")?;
    }
    Ok(())
}

// How many requests there are, and how many slots they need until the last is due.
fn sums_of(dies: &[Die], due: u32) -> (usize, u32) {
    let mut requests: usize = 0;
    let mut slots: u32 = 0;
    for die in dies {
        requests = requests.saturating_add(die.trace.requests.len());
        for task in &die.tasks {
            slots = slots.max(task.end);
        }
    }
    (requests, slots.saturating_add(due))
}

fn put_plan(text: &mut Vec<u8>, dies: &[Die], blocks: u64, measure: Measure) -> io::Result<()> {
    let Measure { slot_us, due } = measure;
    let (requests, slots) = sums_of(dies, due);
    let (_, logical) = greatest(dies);
    let count = dies.len();
    writeln!(
        text,
        "# {requests} requests; a slot is {slot_us} us, each request is due after {due}: --slots {slots} runs them all"
    )?;
    writeln!(
        text,
        "version = 1\ndies = {count}\nblocks = {blocks}\npages = {PAGES}\nerase_slots = {ERASE_SLOTS}\nlogical = {logical}\nalpha = {ALPHA}"
    )?;
    let mut number: u32 = 0;
    for die in dies {
        put_tasks(text, number, die.tasks.as_slice())?;
        number = number.saturating_add(1);
    }
    Ok(())
}

// The dies of traces, in their order.
fn dies_of(alloc: Global, traces: &[&[u8]], measure: Measure) -> Result<Vec<Die>, ImportFault> {
    let mut dies = Vec::new(alloc);
    let mut number: u32 = 0;
    for trace in traces {
        if number >= MAX_DIES {
            return Err(ImportFault {
                die: number,
                fault: TraceFault::Dies,
            });
        }
        match die_of(alloc, trace, measure) {
            Ok(die) => {
                dies.reserve(1)?;
                dies.push_reserved(die);
            }
            Err(fault) => return Err(ImportFault { die: number, fault }),
        }
        number = number.saturating_add(1);
    }
    Ok(dies)
}

/// Makes a script of fio's I/O logs (version 3: time in microseconds, file, action, offset, length), or the plan
/// without times that it runs on. Each trace is a die, in their order, 1 to 8 of them, and each file of it a task of that
/// die. Each request is a job, whose pages of 4,096 bytes are numbered task by task, without those that no request of the
/// die has; a collection of each task that writes comes as often as its writes need on the mean, and a tenth more often.
/// All dies have as many pages and blocks as the one that needs most.
///
/// A fault names the first trace that is at fault, and the first such line of it; where all together need too many
/// blocks, the trace with most pages.
pub fn import(
    alloc: Global,
    traces: &[&[u8]],
    measure: Measure,
    made: Made,
) -> Result<Vec<u8>, ImportFault> {
    let measure = Measure {
        slot_us: measure.slot_us.max(1),
        due: measure.due.max(1),
    };
    if traces.is_empty() {
        return Err(ImportFault {
            die: 0,
            fault: TraceFault::Empty,
        });
    }
    let dies = dies_of(alloc, traces, measure)?;
    let blocks = blocks_of(dies.as_slice())?;
    let rows = rows_of(alloc, dies.as_slice())?;
    let mut text = Vec::new(alloc);
    let put = match made {
        Made::Plan => put_plan(&mut text, dies.as_slice(), blocks, measure),
        Made::Script => put_script(&mut text, dies.as_slice(), rows.as_slice(), measure.due),
    };
    match put {
        Ok(()) => Ok(text),
        Err(_) => Err(Refusal::NoMemory.into()),
    }
}
