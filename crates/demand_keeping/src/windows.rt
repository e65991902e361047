//! What is counted of a task's jobs, and in which slot.

ghost use Rattle.std.specs.Prelude.{◌≡◌, ◌≤◌, [], ◌∷◌, count_by, IsNone, IfSome};
ghost use Rattle.slot_types.specs.Operations.{is_write};
ghost use Rattle.plan_rules.specs.Keeping.{arrivals, slots};
ghost use Rattle.demand_keeping.specs.BySlot.{CountsNothing, CountsOne};
ghost use Rattle.demand_keeping.specs.Windows.{first_with};

use slot_types::{Event, Op};

/// What is counted of a task's jobs, and in which slot.
#[derive(Clone, Copy, PartialEq, Eq, Debug, Drop)]
pub enum Count {
    /// Operations, in the slot of a job's release.
    Operations,
    /// Writes, in the slot in which a job comes.
    Writes,
}

/// The limit of a task.
#[derive(Clone, Copy)]
pub(crate) struct Limit {
    pub count: Count,
    pub task: u32,
    pub period: u32,
    pub limit: u32,
}

/// What is counted of a job, in which slot, and which of the events it is.
#[derive(Clone, Copy, Drop)]
pub(crate) struct Counted {
    pub index: usize,
    pub slot: u32,
    pub amount: usize,
}

fn writes(ops: &[Op]) -> usize
    ensures { result ≡ count_by is_write ops.now }
{
    ops.iter().filter(|op| op.is_write()).count()
}

/// How many slots an event carries out.
pub(crate) fn slots_in(event: &Event) -> u32
    ensures result { result ≡ slots (event.now ∷ []) }
    ensures one { result ≤ 1 }
{
    match event {
        Event::Slot => 1,
        _ => 0,
    }
}

/// Where the first window begins that has this slot.
pub(crate) fn start_with(of: Limit, slot: u32) -> u32
    ensures { result ≡ first_with of.period slot }
{
    slot.saturating_sub(of.period.saturating_sub(1))
}

/// What is counted of a job of the task, if the event that comes in slot `now` is one.
pub(crate) fn count_of(of: Limit, index: usize, now: u32, event: &Event) -> Option<Counted>
    ensures none { IsNone result → CountsNothing of.count of.task (arrivals now (event.now ∷ [])) }
    ensures some { IfSome result (λ own.
        CountsOne of.count of.task (arrivals now (event.now ∷ [])) own.slot own.amount) }
    ensures index { IfSome result (λ own. own.index ≡ index) }
{
    if let Event::Submit {
        task: other,
        release,
        ops,
        ..
    } = event
    {
        if other.0 == of.task {
            return Some(match of.count {
                Count::Operations => Counted {
                    index,
                    slot: *release,
                    amount: ops.len(),
                },
                Count::Writes => Counted {
                    index,
                    slot: now,
                    amount: writes(ops.as_slice()),
                },
            });
        }
    }
    None
}
