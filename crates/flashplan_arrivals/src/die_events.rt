//! What a script asks of a die, with the slots between.

ghost use Rattle.std.specs.Prelude.{◌≡◌, ◌-◌, ◌≤◌, ◌++◌, ◌∷◌, List, IfOk, OnOk, length, replicate};
ghost use Rattle.slot_types.specs.Refusal.{FailsForMemory};
ghost use Rattle.task_script.specs.Feeds.{feed_of};
ghost use Rattle.script_texts.specs.declared.script_rows.ScriptItem.{ScriptItem};
ghost use Rattle.flashplan_arrivals.specs.PlannedScripts.{AreEventsOf};
ghost use Rattle.flashplan_arrivals.specs.Steps.{later_events};

use script_texts::{ScriptItem, ScriptReader};
use slot_types::{Event, Items, Refusal, StorePlan};
use std::alloc::Global;
use std::io::Read;

/// Events, in their order.
pub type Events = Items<Event>;

/// Adds the slots from one to before another.
fn carry(events: &mut Events, now: u32, to: u32) -> Result<(), Refusal>
    requires { now ≤ to }
    ensures ok { OnOk result (events.new ≡ events.old ++ replicate (to - now) Event.Slot) }
    ensures refused { FailsForMemory result }
{
    for _ in now..to {
        events.push(Event::Slot)?;
    }
    Ok(())
}

/// Adds the slots before a row of a run of `slots` slots, and its event. Answers the slot that is present then.
fn add(events: &mut Events, now: u32, slots: u32, item: ScriptItem) -> Result<u32, Refusal>
    requires { now ≤ slots }
    ensures within { IfOk result (λ after. after ≤ slots) }
    ensures ok { IfOk result (λ after. (rest : List ScriptItem) →
        events.old ++ later_events slots now (item ∷ rest)
        ≡ events.new ++ later_events slots after rest) }
    ensures refused { FailsForMemory result }
{
    let to = item.at.min(slots).max(now);
    carry(events, now, to)?;
    events.push(item.event)?;
    Ok(to)
}

/// Adds a row, if it is of a die.
fn add_own(
    events: &mut Events,
    now: u32,
    slots: u32,
    die: u32,
    item: ScriptItem,
) -> Result<u32, Refusal>
    requires { now ≤ slots }
    ensures within { IfOk result (λ after. after ≤ slots) }
    ensures ok { IfOk result (λ after. (rest : List ScriptItem) →
        events.old ++ later_events slots now (feed_of (item ∷ rest) die)
        ≡ events.new ++ later_events slots after (feed_of rest die)) }
    ensures refused { FailsForMemory result }
{
    if item.die == die {
        add(events, now, slots, item)
    } else {
        Ok(now)
    }
}

/// The events of a run of `slots` slots on a die: what its rows of a script ask for, and its slots.
pub fn events_on<R: Read + Drop>(
    alloc: Global,
    reader: R,
    plan: &StorePlan,
    slots: u32,
    die: u32,
) -> Result<Events, Refusal>
    ensures events { IfOk result (AreEventsOf (R.remaining reader) (length plan.now) slots die) }
{
    let mut events = Events::new(alloc);
    let mut now: u32 = 0;
    let mut script = ScriptReader::new(alloc, reader, plan, slots)?;
    for _ in 0..u64::MAX {
        match script.next() {
            Ok(Some(item)) => now = add_own(&mut events, now, slots, die, item)?,
            Ok(None) => {
                carry(&mut events, now, slots)?;
                return Ok(events);
            }
            Err(refusal) => return Err(refusal),
        }
    }
    // No script has as many rows as 64 bits count.
    Err(Refusal::ReadFault)
}
