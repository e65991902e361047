//! The clock: it carries slots out in step with a task, or waits for nobody.

ghost use Rattle.std.specs.Prelude.{◌≡◌};

use flash_die::Nand;
use planned_ports::{ClockPort, SharedPlannedDie};
use std::sync::atomic::{AtomicBool, Ordering};
use std::sync::{Barrier, Wait};

/// Carries `slots` slots out, each between two arrivals at the gate. It answers how many were.
pub(crate) fn tick<N: Nand, R: Wait>(
    rt: &R,
    die: &SharedPlannedDie<N>,
    clock: ClockPort<N>,
    slots: u32,
    gate: &Barrier,
) -> (ClockPort<N>, u32)
    requires { clock.lock ≡ die.now }
    ensures { result.0.lock ≡ die.now }
{
    let (mut clock, mut carried) = (clock, 0u32);
    for _ in 0..slots {
        gate.wait(rt);
        if clock.slot(rt, die).is_ok() {
            carried = carried.saturating_add(1);
        }
        gate.wait(rt);
    }
    (clock, carried)
}

/// Carries `slots` slots out, at once. It answers how many were.
pub(crate) fn carry<N: Nand, R: Wait>(
    rt: &R,
    die: &SharedPlannedDie<N>,
    clock: &mut ClockPort<N>,
    slots: u32,
) -> u32
    requires { clock.old.lock ≡ die.now }
    ensures { clock.new.lock ≡ die.now }
{
    let mut carried = 0u32;
    for _ in 0..slots {
        if clock.slot(rt, die).is_ok() {
            carried = carried.saturating_add(1);
        }
    }
    carried
}

/// Carries slots out until it is told to stop, and waits for no task. It answers how many were.
pub(crate) fn tick_on<N: Nand, R: Wait>(
    rt: &R,
    die: &SharedPlannedDie<N>,
    clock: ClockPort<N>,
    stop: &AtomicBool,
) -> (ClockPort<N>, u32)
    requires { clock.lock ≡ die.now }
    ensures { result.0.lock ≡ die.now }
{
    let (mut clock, mut carried) = (clock, 0u32);
    for _ in 0..u64::MAX {
        if stop.load(Ordering::SeqCst) {
            break;
        }
        if clock.slot(rt, die).is_ok() {
            carried = carried.saturating_add(1);
        }
    }
    (clock, carried)
}
