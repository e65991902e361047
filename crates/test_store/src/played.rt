//! Plays a table with a pass on its die: what each step asks, and the answer with what the step wants.

ghost use Rattle.std.specs.Prelude.{◌≡◌};

use crate::again::{carry, certificate_of, outcome_of, submit};
use crate::passes::{hands_over, lets_go, passes_on};
use crate::said::Reported;
use crate::scarce::grows_or_stays;
use crate::steps::{Bounds, Fact, Step};
use die_service::{Die, DiePass};
use flash_die::Nand;
use late_cert::Certificate;
use slot_core::{Outcome, Worst};
use slot_types::{JobNo, PageData, Refusal};
use std::alloc::Global;
use std::env::Env;
use std::process::Abort;
use std::sync::Wait;

// A job is done at this completion, with this lateness.
fn done<R: Abort>(
    said: &Reported<R>,
    got: &Result<Outcome, Refusal>,
    want_completion: u32,
    want_lateness: i64,
) {
    let right = match got {
        Ok(
            Outcome::Done {
                completion,
                lateness,
                ..
            },
        ) => { (*completion == want_completion) & (*lateness == want_lateness) }
        _ => false,
    };
    said.fits(right, got, &(want_completion, want_lateness))
}

// A job is done, and its first read gave this page.
fn read<R: Abort>(said: &Reported<R>, got: &Result<Outcome, Refusal>, page: PageData) {
    let right = match got {
        Ok(Outcome::Done { reads, .. }) => reads.get(0) == Some(&page),
        _ => false,
    };
    said.fits(right, got, &page)
}

// Whether a certificate is of a job alone, from its start to its completion.
fn is_of(found: &Certificate, want: &Bounds) -> bool {
    found.job == JobNo(want.job)
        && found.start == want.start
        && found.due == want.due
        && found.completion == want.completion
        && found.jobs.as_slice() == [JobNo(want.job)].as_slice()
}

// A certificate is of a job alone, from its start to its completion.
fn certified<R: Abort>(
    said: &Reported<R>,
    got: &Result<Option<Certificate>, Refusal>,
    want: &Bounds,
) {
    let right = match got {
        Ok(Some(found)) => is_of(found, want),
        _ => false,
    };
    said.fits(right, got, want)
}

// Plays what stands of a die.
fn stands<N: Nand, R: Wait + Abort + Env>(
    said: &Reported<R>,
    die: &Die<N>,
    pass: &mut DiePass<N>,
    fact: &Fact,
)
    requires { pass.old.lock ≡ die.now }
    ensures { pass.new.lock ≡ pass.old.lock }
{
    match fact {
        Fact::Done {
            job,
            completion,
            lateness,
        } => {
            done(
                said,
                &outcome_of(said.rt, die, pass, *job),
                *completion,
                *lateness,
            )
        }
        Fact::Read { job, page } => read(said, &outcome_of(said.rt, die, pass, *job), *page),
        Fact::Waiting { job } => {
            said.same(&outcome_of(said.rt, die, pass, *job), &Ok(Outcome::Waiting))
        }
        Fact::Worst { job, lateness } => {
            let want = Worst {
                job: JobNo(*job),
                lateness: *lateness,
            };
            said.same(&die.worst(said.rt, pass), &Some(want))
        }
        Fact::Certified(bounds) => certified(said, &certificate_of(said.rt, die, pass), bounds),
        Fact::Entries { count } => said.same(&die.look(pass), count),
        Fact::Now { slot } => said.same(&die.now(said.rt, pass), slot),
        Fact::Out { passes } => said.same(&die.out(said.rt, pass), passes),
    }
}

// Plays a step.
fn goes<N: Nand, R: Wait + Abort + Env>(
    said: &Reported<R>,
    alloc: Global,
    die: &Die<N>,
    pass: &mut DiePass<N>,
    step: &Step,
)
    requires { pass.old.lock ≡ die.now }
    ensures { pass.new.lock ≡ pass.old.lock }
{
    match step {
        Step::Submit {
            release,
            due,
            op,
            want,
        } => {
            said.same(
                &submit(said.rt, alloc, die, pass, *release, *due, *op),
                want,
            )
        }
        Step::Slot { want } => said.same(&carry(said.rt, die, pass), want),
        Step::HandOver {
            release,
            due,
            op,
            job,
        } => { hands_over(said, alloc, die, pass, *release, *due, *op, *job) }
        Step::PassOn {
            release,
            due,
            op,
            job,
        } => { passes_on(said, alloc, die, pass, *release, *due, *op, *job) }
        Step::LetGo => lets_go(said, die, pass),
        Step::Grows => {
            let right = grows_or_stays(said.rt, alloc, die, pass);
            said.fits(
                right,
                &die.look(pass),
                &"an entry for each call that found memory",
            )
        }
        Step::Is(fact) => stands(said, die, pass, fact),
    }
}

/// Plays a table with a pass on its die. The test fails at the first step that the die answers otherwise than it says.
pub(crate) fn play<N: Nand, R: Wait + Abort + Env>(
    rt: &R,
    alloc: Global,
    die: &Die<N>,
    pass: &mut DiePass<N>,
    table: &str,
    steps: &[Step],
)
    requires { pass.old.lock ≡ die.now }
    ensures { pass.new.lock ≡ pass.old.lock }
{
    for place in 0..steps.len() {
        let said = Reported {
            rt,
            table,
            step: place.saturating_add(1),
        };
        goes(&said, alloc, die, pass, &steps[place]);
    }
}
