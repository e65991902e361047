//! What crosses to C and back of a die that keeps its plan.

ghost use Rattle.std.specs.Prelude.{◌≡◌, map, IfOk, IfErr, IsSome};
ghost use Rattle.slot_types.specs.Refusal.{FailsForMemory};
ghost use Rattle.flash_c.specs.Planned.{kind_of, life_of, taken_of, task_terms_in, terms_in};

use crate::shapes::{FlashLife, FlashTaken, FlashTerms};
use demand_rules::{TaskTerms, Terms, TermsList};
use planned_die::PlannedDie;
use slot_types::Refusal;
use std::alloc::Global;
use stepped_die::MirrorNand;
use stepped_plan::{AskKind, Taken};

/// The terms that these stand for.
pub(crate) fn terms_in(alloc: Global, terms: &[FlashTerms]) -> Result<Terms, Refusal>
    ensures terms { IfOk result (λ made. made ≡ terms_in terms.now) }
    ensures refused { FailsForMemory result }
{
    let mut tasks = TermsList::new(alloc);
    for task in terms {
        tasks.push(TaskTerms {
            period: task.period,
            deadline: task.deadline,
            held: task.held,
            work: task.work,
            writes: task.writes,
            collect_period: task.collect_period,
            collect_deadline: task.collect_deadline,
        })?;
    }
    Ok(Terms { tasks })
}

/// A burst, or a job where it is 0.
pub(crate) fn kind_of(burst: u32) -> AskKind
    ensures { result ≡ kind_of burst }
{
    if burst == 0 {
        AskKind::Job
    } else {
        AskKind::Burst
    }
}

pub(crate) fn taken_of(taken: Taken) -> FlashTaken
    ensures { result ≡ taken_of taken }
{
    match taken {
        Taken::Enters {
            release,
            due,
            first,
            jobs,
        } => FlashTaken {
            release,
            due,
            waits: 0,
            first: first.0,
            jobs,
        },
        Taken::Waits { release, due } => FlashTaken {
            release,
            due,
            waits: 1,
            first: 0,
            jobs: 0,
        },
    }
}

pub(crate) fn life_of(die: &PlannedDie<MirrorNand>) -> FlashLife
    ensures { result ≡ life_of die.now }
{
    FlashLife {
        first: die.first(),
        slots: die.life(),
        now: die.now(),
    }
}
