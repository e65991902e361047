//! Plays a table on a die: what each step asks, and the answer with what the step wants.

use crate::again::{ask, ask_all, carry, outcome_of};
use crate::said::Reported;
use crate::steps::{Fact, Jobs, Step};
use flash_die::Nand;
use planned_die::{AskRefusal, Burst, PlannedDie};
use slot_core::{Outcome, Worst};
use slot_types::{JobNo, Op, Refusal, SlotReply};
use std::alloc::Global;
use std::process::Abort;
use test_memory::Memory;

/// An answer with a number as tables have it.
fn numbered(answer: Result<JobNo, AskRefusal>) -> Result<u32, AskRefusal> {
    match answer {
        Ok(number) => Ok(number.0),
        Err(refusal) => Err(refusal),
    }
}

/// What became of a burst as tables have it.
fn jobs_of(answer: Result<Burst, AskRefusal>) -> Result<Jobs, AskRefusal> {
    match answer {
        Ok(burst) => Ok(Jobs {
            first: burst.first.0,
            jobs: burst.jobs,
        }),
        Err(refusal) => Err(refusal),
    }
}

/// Whether a slot carried this number out, or was idle.
fn is_of(got: &Result<SlotReply, Refusal>, want: Option<u32>) -> bool {
    match got {
        Ok(reply) => match reply.ran {
            Some((number, _)) => Some(number.0) == want,
            None => want.is_none(),
        },
        Err(_) => false,
    }
}

/// The next slots carry these numbers out, or are idle.
fn carries<N: Nand, R: Abort>(
    said: &Reported<R>,
    die: &mut PlannedDie<N>,
    alloc: Global,
    jobs: &[Option<u32>],
) {
    for job in jobs {
        let got = carry(die, alloc);
        said.fits(is_of(&got, *job), &got, job);
    }
}

/// `count` slots are carried out.
fn slots<N: Nand, R: Abort>(
    said: &Reported<R>,
    die: &mut PlannedDie<N>,
    alloc: Global,
    count: u32,
) {
    for _ in 0..count {
        let got = carry(die, alloc);
        said.fits(got.is_ok(), &got, &"a slot");
    }
}

/// One operation more than the second task of bursts may ask for in a period.
const MORE_THAN_ALL: &[Op] = &[Op::Read(0); 71];

/// As much as it may.
const ALL_AT_ONCE: &[Op] = &[Op::Read(0); 70];

/// In each of `count` slots the second task asks for a burst that is too much, and for all that it may in a period.
fn bursts<N: Nand, R: Abort>(
    said: &Reported<R>,
    die: &mut PlannedDie<N>,
    alloc: Global,
    count: u32,
) {
    for _ in 0..count {
        let got = ask_all(die, alloc, 1, MORE_THAN_ALL);
        said.same(&jobs_of(got), &Err(AskRefusal::TooManyOps { most: 70 }));
        let _ = ask_all(die, alloc, 1, ALL_AT_ONCE);
        slots(said, die, alloc, 1);
    }
}

/// How a job or a collection is to have ended.
#[derive(Clone, Copy, PartialEq, Eq, Debug)]
struct End {
    completion: u32,
    lateness: i64,
    given: u32,
}

/// How it ended, if it is done.
fn end_of(outcome: &Result<Outcome, Refusal>) -> Option<End> {
    match outcome {
        Ok(
            Outcome::Done {
                completion,
                lateness,
                given,
                ..
            },
        ) => Some(End {
            completion: *completion,
            lateness: *lateness,
            given: *given,
        }),
        _ => None,
    }
}

/// It is done, and ended so.
fn ended<N: Nand, R: Abort>(
    said: &Reported<R>,
    die: &PlannedDie<N>,
    alloc: Global,
    number: u32,
    want: End,
) {
    let got = outcome_of(said.memory, die, alloc, number);
    said.fits(end_of(&got) == Some(want), &got, &want)
}

fn is_late(worst: Option<Worst>) -> bool {
    match worst {
        Some(worst) => worst.lateness > 0,
        None => false,
    }
}

/// Plays what stands of a die.
fn stands<N: Nand, R: Abort>(said: &Reported<R>, die: &PlannedDie<N>, alloc: Global, fact: &Fact) {
    match fact {
        Fact::Done {
            job,
            completion,
            lateness,
        } => {
            let want = End {
                completion: *completion,
                lateness: *lateness,
                given: 0,
            };
            ended(said, die, alloc, *job, want)
        }
        Fact::Now { slot, first } => said.same(&(die.now(), die.first()), &(*slot, *first)),
        Fact::NothingLate => {
            let worst = die.worst();
            said.fits(!is_late(worst), &worst, &"nothing late")
        }
    }
}

/// Plays a step.
fn goes<N: Nand, R: Abort>(
    said: &Reported<R>,
    die: &mut PlannedDie<N>,
    alloc: Global,
    step: &Step,
) {
    match step {
        Step::Asks { task, ops, want } => {
            said.same(&numbered(ask(die, alloc, *task, *ops)), want)
        }
        Step::AsksAll { task, ops, want } => said.same(
            &jobs_of(ask_all(die, alloc, *task, *ops)),
            want,
        ),
        Step::Carries { jobs } => carries(said, die, alloc, *jobs),
        Step::Slots { count } => slots(said, die, alloc, *count),
        Step::Bursts { slots } => bursts(said, die, alloc, *slots),
        Step::NoSlot { want } => {
            let got = carry(die, alloc);
            said.same(&got, &Err(*want))
        }
        Step::Renews { want } => said.same(&die.renew(), want),
        Step::Is(fact) => stands(said, die, alloc, fact),
    }
}

/// Plays a table on a die. The test fails at the first step that goes otherwise than it says.
pub(crate) fn play<N: Nand, R: Abort>(
    rt: &R,
    memory: Memory,
    die: &mut PlannedDie<N>,
    alloc: Global,
    steps: &[Step],
) {
    for (place, step) in steps.iter().enumerate() {
        let said = Reported {
            rt,
            memory,
            table: "table",
            step: place.saturating_add(1),
        };
        goes(&said, die, alloc, step);
    }
}
