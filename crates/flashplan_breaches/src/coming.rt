//! The jobs and collections of a die's events, with the slot that is present when each comes.

ghost use Rattle.std.specs.Prelude.{◌≡◌, ◌≤◌, ◌++◌, ◌∷◌, [], map, IfOk, OnOk};
ghost use Rattle.slot_types.specs.Refusal.{FailsForMemory};
ghost use Rattle.plan_rules.specs.Keeping.{arrivals, slots};
ghost use Rattle.flashplan_breaches.specs.Arrivals.{arrival_of};

use slot_types::{Event, Op, Refusal};
use std::alloc::Global;

/// A job or a collection that comes. A collection has no operations.
#[derive(Clone, Copy, Drop)]
pub struct Arrived<'a> {
    /// The slot that is present when it comes.
    pub at: u32,
    pub collects: bool,
    pub task: u32,
    pub release: u32,
    pub due: u32,
    pub ops: &'a [Op],
}

/// How many slots events carry out.
pub fn slots_of(events: &[Event]) -> usize
    ensures { result ≡ slots events.now }
{
    events
        .iter()
        .filter(|event| matches!(event, Event::Slot))
        .count()
}

/// Adds a job or a collection. The only refusal is NoMemory.
fn add<'a>(all: &mut Vec<Arrived<'a>>, one: Arrived<'a>) -> Result<(), Refusal>
    ensures added { OnOk result (all.new.items ≡ all.old.items ++ one.entry ∷ []) }
    ensures refused { FailsForMemory result }
{
    all.push(one)?;
    Ok(())
}

/// The jobs and collections of events, in their order. The only refusal is NoMemory.
pub fn arrivals_in(alloc: Global, events: &[Event]) -> Result<Vec<Arrived<'_>>, Refusal>
    requires { slots events.now ≤ 1048576 }
    ensures all { IfOk result (λ all. map arrival_of all.items ≡ arrivals 0 events.entry.now) }
    ensures refused { FailsForMemory result }
{
    let mut all = Vec::new(alloc);
    let mut now: u32 = 0;
    for event in events {
        match event {
            Event::Submit {
                task,
                release,
                due,
                ops,
            } => {
                let job = Arrived {
                    at: now,
                    collects: false,
                    task: task.0,
                    release: *release,
                    due: *due,
                    ops: ops.as_slice(),
                };
                add(&mut all, job)?;
            }
            Event::Collect { task, release, due } => {
                let collection = Arrived {
                    at: now,
                    collects: true,
                    task: task.0,
                    release: *release,
                    due: *due,
                    ops: &[],
                };
                add(&mut all, collection)?;
            }
            Event::Slot => now += 1,
        }
    }
    Ok(all)
}
