//! The careful task: it asks for one operation each 10 slots, from slot 5 on, by turns for a read and for a write.

ghost use Rattle.std.specs.Prelude.{◌≡◌};

use crate::heard::{Heard, as_heard};
use crate::plans::Plan;
use flash_die::Nand;
use planned_ports::{SharedPlannedDie, TaskPort};
use slot_types::{Op, PageData};
use std::sync::{Barrier, Wait};

/// What the task hears that asks in this slot, as the rules say: it is due 6 slots after its release, which is now; or
/// where it would be due after the end of the life, it is released there.
pub(crate) fn wanted(slot: u64, plan: &Plan) -> Heard {
    let life = u64::from(plan.life);
    let in_life = plan.slot_in_life(slot);
    if in_life.saturating_add(6) <= life {
        Heard::Enters {
            release: slot,
            due: slot.saturating_add(6),
            jobs: 1,
        }
    } else {
        let release = slot.saturating_add(life.saturating_sub(in_life));
        Heard::Waits {
            release,
            due: release.saturating_add(6),
        }
    }
}

const PAGE: u32 = 4;

const WRITE: Op = Op::Write(PAGE, PageData([7; 16]));

/// Asks for the operation of this slot, if there is one.
fn ask_at<N: Nand, R: Wait>(
    rt: &R,
    die: &SharedPlannedDie<N>,
    port: &mut TaskPort<N>,
    slot: u32,
) -> Option<Heard>
    requires { port.old.lock ≡ die.now }
    ensures { port.new.lock ≡ die.now }
{
    match slot % 20 {
        5 => Some(as_heard(port.ask(rt, die, &[Op::Read(PAGE)]))),
        15 => Some(as_heard(port.ask(rt, die, &[WRITE]))),
        _ => None,
    }
}

/// Asks during `slots` slots, each of which is carried out between two arrivals at the gate. It notes what it hears.
pub(crate) fn ask_in_turn<N: Nand, R: Wait>(
    rt: &R,
    die: &SharedPlannedDie<N>,
    port: TaskPort<N>,
    slots: u32,
    gate: &Barrier,
    notes: Vec<Heard>,
) -> (TaskPort<N>, Vec<Heard>)
    requires { port.lock ≡ die.now }
    ensures { result.0.lock ≡ die.now }
{
    let (mut port, mut notes) = (port, notes);
    for slot in 0..slots {
        if let Some(heard) = ask_at(rt, die, &mut port, slot) {
            // Room was made for all.
            let _ = notes.push(heard).is_ok();
        }
        gate.wait(rt);
        gate.wait(rt);
    }
    (port, notes)
}
