//! Plays a table on a die that goes on by itself: what each step asks, and the answer with what the step wants.

use crate::ongoing_steps::{Answer, Turn};
use crate::said::Reported;
use crate::shut_dies::shut;
use flash_die::Nand;
use ongoing_die::{AskRefusal, AskStop, OngoingCheckpointRefusal, OngoingDie, SlotStop, Taken};
use slot_core::Outcome;
use slot_types::{JobNo, Op, PageData, Refusal, SlotReply, TaskNo};
use std::alloc::Global;
use std::process::Abort;
use test_memory::Memory;

/// An answer as tables have it.
fn taken_as(taken: &Taken) -> Answer {
    match taken {
        Taken::Enters {
            release,
            due,
            first,
            jobs: 1,
        } => Answer::Enters {
            release: *release,
            due: *due,
            number: first.0,
        },
        Taken::Enters {
            release,
            due,
            first,
            jobs,
        } => Answer::EnterAll {
            release: *release,
            due: *due,
            first: first.0,
            jobs: *jobs,
        },
        Taken::Waits { release, due } => Answer::Waits {
            release: *release,
            due: *due,
        },
    }
}

/// The same, or the refusal.
fn numbered<E: Drop>(answer: Result<Taken, E>) -> Result<Answer, E> {
    match answer {
        Ok(taken) => Ok(taken_as(&taken)),
        Err(refusal) => Err(refusal),
    }
}

/// Whether a slot carried this number out, or was idle.
fn is_of(got: &Result<SlotReply, SlotStop>, want: Option<u32>) -> bool {
    match got {
        Ok(reply) => match reply.ran {
            Some((number, _)) => Some(number.0) == want,
            None => want.is_none(),
        },
        Err(_) => false,
    }
}

/// The next slots carry these numbers out, or are idle.
fn carries<N: Nand, R: Abort>(
    said: &Reported<R>,
    die: &mut OngoingDie<N>,
    alloc: Global,
    jobs: &[Option<u32>],
) {
    for job in jobs {
        let got = die.slot(alloc, 9);
        said.fits(is_of(&got, *job), &got, job);
    }
}

/// `count` slots are carried out.
fn slots<N: Nand, R: Abort>(
    said: &Reported<R>,
    die: &mut OngoingDie<N>,
    alloc: Global,
    count: u32,
) {
    for _ in 0..count {
        let got = die.slot(alloc, 9);
        said.fits(got.is_ok(), &got, &"a slot");
    }
}

/// What became of a job.
fn outcome_of<N: Nand>(
    memory: Memory,
    die: &OngoingDie<N>,
    alloc: Global,
    number: u32,
) -> Result<Outcome, Refusal> {
    match die.die().core().outcome(alloc, JobNo(number)) {
        Err(Refusal::NoMemory) if memory.asks_again() => {
            die.die().core().outcome(alloc, JobNo(number))
        }
        answer => answer,
    }
}

fn is_done_at(outcome: &Result<Outcome, Refusal>, want: (u32, i64)) -> bool {
    match outcome {
        Ok(
            Outcome::Done {
                completion,
                lateness,
                ..
            },
        ) => (*completion, *lateness) == want,
        _ => false,
    }
}

fn gave(outcome: &Result<Outcome, Refusal>, want: &[PageData]) -> bool {
    match outcome {
        Ok(Outcome::Done { reads, .. }) => reads.as_slice() == want,
        _ => false,
    }
}

/// Why no checkpoint is taken; None where one is.
fn untaken<N: Nand>(
    memory: Memory,
    die: &mut OngoingDie<N>,
    alloc: Global,
) -> Option<OngoingCheckpointRefusal> {
    match shut(memory, die, alloc) {
        Ok(_) => None,
        Err(refusal) => Some(refusal),
    }
}

/// Nothing was done late in the present life.
fn is_in_time<N: Nand>(die: &OngoingDie<N>) -> bool {
    match die.die().worst() {
        Some(worst) => worst.lateness <= 0,
        None => true,
    }
}

/// More than a job may have, whatever its task.
const TOO_MUCH: &[Op] = &[Op::Read(0); 65];

/// As much as the second task may ask for in a period.
const ALL: &[Op] = &[
    Op::Write(0, PageData([1; 16])),
    Op::Write(1, PageData([1; 16])),
    Op::Read(2),
    Op::Read(3),
];

/// The first task's read is taken: it is due 6 slots after it is released, which is now, or where it waits the next
/// multiple of 80 slots.
fn asks_in_time<N: Nand, R: Abort>(said: &Reported<R>, die: &mut OngoingDie<N>, alloc: Global) {
    let clock = die.clock();
    let got = die.ask(alloc, 0, TaskNo(0), &[Op::Read(4)]);
    let right = match got {
        Ok(Taken::Enters { release, due, .. }) => {
            clock % 80 < 75 && release == clock && due.checked_sub(release) == Some(6)
        }
        Ok(Taken::Waits { release, due }) => {
            clock % 80 == 75
                && release.checked_sub(clock) == Some(5)
                && due.checked_sub(release) == Some(6)
        }
        Err(_) => false,
    };
    said.fits(right, &got, &"a job of the first task")
}

/// In each of `count` slots the second task asks for too much, and for as much as it may in a period; the first one
/// asks for a read each 10 slots.
fn babbles<N: Nand, R: Abort>(
    said: &Reported<R>,
    die: &mut OngoingDie<N>,
    alloc: Global,
    count: u32,
) {
    for slot in 0..count {
        let got = die.ask(alloc, 1, TaskNo(1), TOO_MUCH);
        said.same(
            &got,
            &Err(AskStop::Plan(AskRefusal::TooManyOps { most: 4 })),
        );
        let _ = die.ask(alloc, 1, TaskNo(1), ALL);
        if slot % 10 == 5 {
            asks_in_time(said, die, alloc);
        }
        slots(said, die, alloc, 1);
        said.fits(is_in_time(die), &die.die().worst(), &"nothing late");
    }
}

/// How many operations the task's ask has that waits; 0 where none does.
fn waiting<N: Nand>(die: &OngoingDie<N>, task: u32) -> usize {
    match die.waiting(TaskNo(task)) {
        Some(ops) => ops.len(),
        None => 0,
    }
}

/// Plays a step.
fn goes<N: Nand, R: Abort>(
    said: &Reported<R>,
    die: &mut OngoingDie<N>,
    alloc: Global,
    turn: &Turn,
) {
    match turn {
        Turn::Asks { task, ops, want } => {
            said.same(&numbered(die.ask(alloc, *task, TaskNo(*task), *ops)), want)
        }
        Turn::AsksAll { task, ops, want } => said.same(
            &numbered(die.ask_all(alloc, *task, TaskNo(*task), *ops)),
            want,
        ),
        Turn::AsksAt {
            task,
            ops,
            at,
            want,
        } => said.same(
            &numbered(die.ask_at(alloc, *task, TaskNo(*task), *ops, *at)),
            want,
        ),
        Turn::AsksAllAt {
            task,
            ops,
            at,
            want,
        } => said.same(
            &numbered(die.ask_all_at(alloc, *task, TaskNo(*task), *ops, *at)),
            want,
        ),
        Turn::Carries { jobs } => carries(said, die, alloc, *jobs),
        Turn::Slots { count } => slots(said, die, alloc, *count),
        Turn::Babbles { slots } => babbles(said, die, alloc, *slots),
        Turn::NoSlot { want } => {
            let got = die.slot(alloc, 9);
            said.same(&got, &Err(*want))
        }
        Turn::Waiting { task, ops } => said.same(&waiting(die, *task), ops),
        Turn::Clock { slot } => said.same(&die.clock(), slot),
        Turn::Done {
            job,
            completion,
            lateness,
        } => {
            let got = outcome_of(said.memory, die, alloc, *job);
            let want = (*completion, *lateness);
            said.fits(is_done_at(&got, want), &got, &want)
        }
        Turn::Gave { job, reads } => {
            let got = outcome_of(said.memory, die, alloc, *job);
            said.fits(gave(&got, *reads), &got, reads)
        }
        Turn::Untaken { want } => { said.same(&untaken(said.memory, die, alloc), &Some(*want)) }
        Turn::InTime => {
            let worst = die.die().worst();
            said.fits(is_in_time(die), &worst, &"nothing late")
        }
    }
}

/// Plays a table on a die. The test fails at the first step that goes otherwise than it says.
pub(crate) fn play<N: Nand, R: Abort>(
    rt: &R,
    memory: Memory,
    die: &mut OngoingDie<N>,
    alloc: Global,
    turns: &[Turn],
) {
    for (place, turn) in turns.iter().enumerate() {
        let said = Reported {
            rt,
            memory,
            table: "table",
            step: place.saturating_add(1),
        };
        goes(&said, die, alloc, turn);
    }
}
