//! A die of which a port is missing stays shared.

ghost use Rattle.std.specs.Prelude.{◌≡◌, All, Err, IfSome};

use crate::clocks::carry;
use crate::dies::a_die;
use crate::plans::PLAN;
use crate::ports::put_last;
use crate::shared::{Ports, Shared, close_all, open_two};
use crate::wrong::Wrong;
use flash_die::Nand;
use planned_ports::{ClockPort, SharedPlannedDie, StillOpen, TaskPort, close};
use slot_types::Refusal;
use std::alloc::Global;
use std::sync::Wait;

/// What a refusal hands back. Of any types, since a die would be proved through all its parts.
fn what_is_refused<T: Drop, E>(answer: Result<T, E>) -> Option<E>
    ensures { IfSome result (λ kept. answer ≡ Err kept) }
{
    match answer {
        Ok(_) => None,
        Err(kept) => Some(kept),
    }
}

/// Closes a die of which a port is missing: it hands back all that it was given. None where it is closed.
fn stays_open<N: Nand, R: Wait>(
    rt: &R,
    die: SharedPlannedDie<N>,
    clock: ClockPort<N>,
    tasks: Vec<TaskPort<N>>,
) -> Option<StillOpen<N>>
    requires clock { clock.lock ≡ die }
    requires tasks { All (λ port. port.lock ≡ die) tasks.items }
    ensures die { IfSome result (λ kept. kept.die ≡ die) }
    ensures clock { IfSome result (λ kept. kept.clock.lock ≡ kept.die) }
    ensures tasks { IfSome result (λ kept.
        All (λ port. port.lock ≡ kept.die) kept.tasks.items) }
{
    what_is_refused(close(rt, die, clock, tasks))
}

/// Closes a die that was handed back with all but this port. It answers why it was, how many ports came back, and the
/// clock.
fn closes_then<N: Nand, R: Wait>(
    rt: &R,
    alloc: Global,
    kept: StillOpen<N>,
    missing: TaskPort<N>,
) -> Result<(Refusal, usize, u64), Wrong>
    requires clock { kept.clock.lock ≡ kept.die }
    requires tasks { All (λ port. port.lock ≡ kept.die) kept.tasks.items }
    requires missing { missing.lock ≡ kept.die }
{
    let StillOpen {
        die,
        clock,
        mut tasks,
        refusal,
    } = kept;
    let back = tasks.len();
    put_last(&die, &mut tasks, missing);
    let die = close_all(rt, alloc, die, clock, tasks)?;
    Ok((refusal, back, die.die().clock()))
}

/// Closes a die first without a task's port, which hands all back, and then with it.
fn closes_twice<R: Wait>(rt: &R, alloc: Global) -> Result<(Refusal, usize, u64), Wrong> {
    let Shared {
        die,
        ports,
        mut list,
    } = open_two(rt, alloc, a_die(alloc, &PLAN)?, &[])?;
    let Ports {
        mut clock,
        first,
        second,
    } = ports;
    let _ = carry(rt, &die, &mut clock, 3);
    put_last(&die, &mut list, first);
    match stays_open(rt, die, clock, list) {
        Some(kept) => closes_then(rt, alloc, kept, second),
        None => Err(Wrong::NoPort),
    }
}

#[test]
fn a_die_stays_shared_while_a_port_is_missing(rt: HostRuntime) {
    assert_eq!(rt;
        closes_twice(&rt, rt.alloc()),
        Ok((Refusal::PassesOut { out: 1 }, 1, 3))
    );
}
