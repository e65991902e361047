//! A task of the recorder: what it asks its port for, and what it is answered. It waits for nobody.

ghost use Rattle.std.specs.Prelude.{◌≡◌};

use crate::answers::{Accepted, Answers, NONE_YET, accepted_in};
use crate::plan::{CONTROL, LOGGER};
use demand_rules::TaskTerms;
use flash_die::Nand;
use ongoing_die::Taken;
use planned_ports::{AskRefused, SharedPlannedDie, TaskPort};
use slot_types::{Op, PageData};
use std::alloc::{AllocError, Global};
use std::sync::Wait;
use std::thread;
use std::time::{Clock, Duration};
use task_outcomes::TaskOutcome;

/// How far apart a task's looks at the clock are at least, in microseconds.
const LOOK: u64 = 50;

/// What a task asks for: `jobs` jobs, each of which reads a page of its own and writes it anew.
#[derive(Clone, Copy, Drop)]
pub(crate) struct Task {
    pub(crate) terms: TaskTerms,
    pub(crate) jobs: u32,
    /// Its pages, which it takes by turns.
    pub(crate) first_page: u32,
    pub(crate) pages: u32,
}

/// The control, with enough jobs to take more than a hundred lives.
pub(crate) const CONTROL_TASK: Task = Task {
    terms: CONTROL,
    jobs: 812,
    first_page: 0,
    pages: 1,
};

/// The logger, with as many as take that long, too.
pub(crate) const LOGGER_TASK: Task = Task {
    terms: LOGGER,
    jobs: 204,
    first_page: 1,
    pages: 5,
};

impl Task {
    /// The page of its job of this number, from 1 on.
    fn page(&self, job: u32) -> u32 {
        let turn = job.checked_rem(self.pages).unwrap_or(0);
        self.first_page.saturating_add(turn)
    }

    /// The operations of this job: what it writes is its number.
    fn ops(&self, job: u32) -> [Op; 2] {
        let page = self.page(job);
        [Op::Read(page), Op::Write(page, sample(job))]
    }
}

impl Task {
    /// Whether this is the outcome of the job that was accepted so, after as many others: done by its deadline, and its read gave
    /// what the task's job before on that page wrote, if there is one.
    fn is_told(&self, before: usize, asked: &Accepted, outcome: &TaskOutcome) -> bool {
        let job = u32::try_from(before).unwrap_or(u32::MAX).saturating_add(1);
        let wrote = job.saturating_sub(self.pages);
        let has_read = match outcome.reads.get(0) {
            Some(page) => wrote == 0 || job_in(*page) == wrote,
            None => false,
        };
        has_read
            && outcome.release == asked.release
            && outcome.due == asked.due
            && outcome.completion <= asked.due
    }
}

/// What the job of this number writes.
fn sample(job: u32) -> PageData {
    let mut bytes = [0; 16];
    let number = job.to_le_bytes();
    bytes[0] = number[0];
    bytes[1] = number[1];
    bytes[2] = number[2];
    bytes[3] = number[3];
    PageData(bytes)
}

/// The number of the job that wrote a page: 0 of a page that was never written.
pub(crate) fn job_in(page: PageData) -> u32 {
    u32::from_le_bytes([page.0[0], page.0[1], page.0[2], page.0[3]])
}

/// From which slot on a task may ask again that asked in this one: a period after the release of what was accepted.
fn next_after(accepted: &Option<Accepted>, slot: u64, period: u32) -> u64 {
    match accepted {
        Some(accepted) => accepted.release.saturating_add(u64::from(period)),
        None => slot.saturating_add(1),
    }
}

/// What a task was answered, which of its asks were accepted, and how many of their outcomes it took.
#[derive(Drop)]
pub(crate) struct Diary {
    pub(crate) answers: Answers,
    pub(crate) accepted: Vec<Accepted>,
    /// How many outcomes it took. They come in the order of its asks.
    pub(crate) told: usize,
    /// How many of these weren't as they ought to be: of the ask, in time, and read from the page what was written there last.
    pub(crate) wrong: u32,
}

impl Diary {
    /// An empty one, with room for all jobs of a task.
    pub(crate) fn new(alloc: Global, task: &Task) -> Result<Diary, AllocError> {
        let accepted = Vec::with_capacity(alloc, task.jobs as usize)?;
        Ok(Diary {
            answers: NONE_YET,
            accepted,
            told: 0,
            wrong: 0,
        })
    }

    /// Notes what became of the task's next job.
    fn note_outcome(&mut self, task: &Task, outcome: &TaskOutcome) {
        let is_right = match self.accepted.get(self.told) {
            Some(asked) => task.is_told(self.told, asked, outcome),
            None => false,
        };
        if !is_right {
            self.wrong = self.wrong.saturating_add(1);
        }
        self.told = self.told.saturating_add(1);
    }

    /// Notes what was accepted, if something was.
    fn keep(&mut self, accepted: Option<Accepted>) {
        if let Some(accepted) = accepted {
            // There is room for all.
            let _ = self.accepted.push(accepted).is_ok();
        }
    }

    /// Notes what the task was answered that asked in this slot. It answers from which slot on it may ask again.
    fn note(&mut self, answer: Result<Taken, AskRefused>, slot: u64, period: u32) -> u64 {
        self.answers.note(&answer);
        let accepted = accepted_in(answer);
        let next = next_after(&accepted, slot, period);
        self.keep(accepted);
        next
    }

    /// All jobs of the task were accepted, or it is to ask no more.
    fn is_full(&self, task: &Task) -> bool {
        self.answers.end.is_some() || self.accepted.len() >= task.jobs as usize
    }
}

/// Takes all outcomes that there are, and notes them.
pub(crate) fn take_outcomes<N: Nand, R: Wait>(
    rt: &R,
    die: &SharedPlannedDie<N>,
    port: &mut TaskPort<N>,
    task: &Task,
    diary: &mut Diary,
)
    requires { port.old.lock ≡ die.now }
    ensures { port.new.lock ≡ die.now }
{
    for _ in 0..u64::MAX {
        match port.take_outcome(rt, die) {
            Ok(Some(outcome)) => diary.note_outcome(task, &outcome),
            _ => break,
        }
    }
}

/// Asks for the next job, where the clock has come to the slot `from`. It answers from which one on the task may ask then.
fn ask_from<N: Nand, R: Clock + Wait>(
    rt: &R,
    die: &SharedPlannedDie<N>,
    port: &mut TaskPort<N>,
    task: &Task,
    from: u64,
    diary: &mut Diary,
) -> u64
    requires { port.old.lock ≡ die.now }
    ensures { port.new.lock ≡ die.now }
{
    take_outcomes(rt, die, port, task, diary);
    // A die that is stopped has no clock: then the task asks, and ends with the answer.
    let slot = port.clock(rt, die).unwrap_or(u64::MAX);
    if slot < from {
        let _ = thread::sleep(rt, Duration::from_micros(LOOK));
        return from;
    }
    let done = u32::try_from(diary.accepted.len()).unwrap_or(u32::MAX);
    let ops = task.ops(done.saturating_add(1));
    let answer = port.ask(rt, die, &ops);
    diary.note(answer, slot, task.terms.period)
}

/// A task's thread: it looks at the clock now and then, and asks for the next job once its plan lets it, until all were
/// accepted or the die takes no more.
pub(crate) fn run_task<N: Nand, R: Clock + Wait>(
    rt: &R,
    die: &SharedPlannedDie<N>,
    port: TaskPort<N>,
    task: &Task,
    diary: Diary,
) -> (TaskPort<N>, Diary)
    requires { port.lock ≡ die.now }
    ensures { result.0.lock ≡ die.now }
{
    let (mut port, mut diary) = (port, diary);
    let mut from = 0u64;
    for _ in 0..u64::MAX {
        if diary.is_full(task) {
            break;
        }
        from = ask_from(rt, die, &mut port, task, from, &mut diary);
    }
    (port, diary)
}
