//! Nobody waits for anybody: two tasks ask as soon as they may, and each of their asks is taken in time, while a third one
//! asks as fast as it can and is refused.

ghost use Rattle.std.specs.Prelude.{◌≡◌};

use crate::babblers::babble_once;
use crate::clocks::carry;
use crate::crowd::{Crowd, CrowdPorts, CrowdTold, run_crowd};
use crate::dies::a_die;
use crate::eager::{Answered, Eager};
use crate::plans::{THREE, THREE_IN_THIRTY, TWO_IN_TWENTY};
use crate::ports::{put_last, take_last};
use crate::shared::{Ports, Shared, close_two, open_two};
use crate::wrong::Wrong;
use flash_die::Nand;
use planned_ports::SharedPlannedDie;
use slot_types::{Op, PageData};
use std::alloc::Global;
use std::sync::Wait;
use std::thread::Threads;
use task_outcomes::OutcomeDie;

/// How often each task asks: the second one in three lives at least.
const ASKS: u32 = 50;

/// Each time they ask for all that they may in a period.
const CROWD: Crowd = Crowd {
    plan: THREE,
    first: Eager {
        terms: TWO_IN_TWENTY,
        ops: &[Op::Write(4, PageData([4; 16])), Op::Read(4)],
        asks: ASKS,
    },
    second: Eager {
        terms: THREE_IN_THIRTY,
        ops: &[Op::Write(3, PageData([3; 16])), Op::Read(3), Op::Read(0)],
        asks: ASKS,
    },
};

/// Carries slots out up to the second one of a life. It answers how many were.
fn begin_life<N: Nand, R: Wait>(
    rt: &R,
    die: &SharedPlannedDie<N>,
    ports: &mut CrowdPorts<N>,
    crowd: &Crowd,
) -> u32
    requires { ports.old.clock.lock ≡ die.now }
    ensures clock { ports.new.clock.lock ≡ die.now }
    ensures first { ports.new.first ≡ ports.old.first }
    ensures second { ports.new.second ≡ ports.old.second }
    ensures babbler { ports.new.babbler ≡ ports.old.babbler }
{
    let life = crowd.plan.life;
    let slot = match ports.clock.clock(rt, die) {
        Some(clock) => u32::try_from(crowd.plan.slot_in_life(clock)).unwrap_or(0),
        None => 0,
    };
    carry(
        rt,
        die,
        &mut ports.clock,
        life.saturating_sub(slot).saturating_add(1),
    )
}

/// What comes after the threads: at the beginning of a life, where none of its asks waits, the babbler asks twice in one
/// slot, so that it was granted something and refused as too soon.
fn end_crowd<N: Nand, R: Wait>(
    rt: &R,
    die: &SharedPlannedDie<N>,
    ports: &mut CrowdPorts<N>,
    crowd: &Crowd,
    told: &mut CrowdTold,
)
    requires clock { ports.old.clock.lock ≡ die.now }
    requires babbler { ports.old.babbler.lock ≡ die.now }
    ensures clock { ports.new.clock.lock ≡ die.now }
    ensures first { ports.new.first ≡ ports.old.first }
    ensures second { ports.new.second ≡ ports.old.second }
    ensures babbler { ports.new.babbler.lock ≡ die.now }
{
    let carried = begin_life(rt, die, ports, crowd);
    told.carried = told.carried.saturating_add(carried);
    babble_once(rt, die, &mut ports.babbler, &crowd.plan, &mut told.babble);
    babble_once(rt, die, &mut ports.babbler, &crowd.plan, &mut told.babble);
}

/// Opens a die of three tasks, runs the threads on it, and closes it.
fn crowd_die<N: Nand + Send, R: Threads + Wait + Sync>(
    rt: &R,
    alloc: Global,
    die: Box<OutcomeDie<N>>,
    crowd: &Crowd,
) -> Result<(Box<OutcomeDie<N>>, CrowdTold), Wrong> {
    let Shared {
        die,
        ports,
        mut list,
    } = open_two(rt, alloc, die, &[])?;
    let Some(first) = take_last(&die, &mut list) else {
        return Err(Wrong::NoPort);
    };
    let ports = CrowdPorts {
        clock: ports.clock,
        first,
        second: ports.first,
        babbler: ports.second,
    };
    let (mut ports, mut told) = run_crowd(rt, &die, ports, crowd);
    end_crowd(rt, &die, &mut ports, crowd, &mut told);
    put_last(&die, &mut list, ports.first);
    let ports = Ports {
        clock: ports.clock,
        first: ports.second,
        second: ports.babbler,
    };
    let die = close_two(rt, alloc, Shared { die, ports, list })?;
    Ok((die, told))
}

/// All of a task's asks were taken in time.
fn check_answered(answered: Answered) -> Result<(), Wrong> {
    let all = Answered {
        in_time: ASKS,
        otherwise: 0,
    };
    if answered == all {
        Ok(())
    } else {
        Err(Wrong::Heard {
            ask: answered.in_time,
        })
    }
}

/// What the threads told is right: nothing was refused to the tasks, and the babbler for what it had asked for alone.
fn check_crowd(told: &CrowdTold) -> Result<(), Wrong> {
    check_answered(told.first)?;
    check_answered(told.second)?;
    let babble = told.babble;
    if babble.granted > 0 && babble.too_soon > 0 && babble.other == 0 && babble.odd == 0 {
        Ok(())
    } else {
        Err(Wrong::Babble(babble))
    }
}

/// Runs the threads on a new die. It answers whether the clock stands at as many slots as were carried out, and nothing
/// of its last life was late.
fn crowds<R: Threads + Wait + Sync>(rt: &R, alloc: Global) -> Result<bool, Wrong> {
    let (die, told) = crowd_die(rt, alloc, a_die(alloc, &CROWD.plan)?, &CROWD)?;
    check_crowd(&told)?;
    let in_time = match die.die().die().worst() {
        Some(worst) => worst.lateness <= 0,
        None => true,
    };
    Ok(in_time && die.die().clock() == u64::from(told.carried))
}

#[test]
fn nobody_waits_and_a_babbler_alone_is_refused(rt: HostRuntime) {
    assert_eq!(rt; crowds(&rt, rt.alloc()), Ok(true));
}
