//! A task beside a babbler is answered as without it, over many lives, and nothing is late.

use crate::dies::a_die;
use crate::plans::{LOUD_BURSTS, PLAN, Plan};
use crate::runs::{Run, check_told, run_die};
use crate::threads::Told;
use crate::wrong::Wrong;
use flash_die::MemoryNand;
use slot_types::TaskNo;
use std::alloc::Global;
use std::sync::Wait;
use std::thread::Threads;
use task_outcomes::OutcomeDie;

/// What threads tell of a new die that is shared over `lives` lives.
fn told_of<R: Threads + Wait + Sync>(
    rt: &R,
    alloc: Global,
    plan: &Plan,
    lives: u32,
    is_loud: bool,
) -> Result<Told, Wrong> {
    let run = Run {
        plan: *plan,
        slots: lives.saturating_mul(plan.life),
        is_loud,
        rest: 0,
        at_end: is_loud,
    };
    let (die, told) = run_die(rt, alloc, a_die(alloc, plan)?, &run)?;
    check_told(&told, 0, &run)?;
    if die.die().clock() == u64::from(run.slots) {
        Ok(told)
    } else {
        Err(Wrong::Clock)
    }
}

/// Whether a task hears the same beside a babbler, which was granted something and refused something.
fn hears_the_same<R: Threads + Wait + Sync>(
    rt: &R,
    alloc: Global,
    plan: &Plan,
    lives: u32,
) -> Result<bool, Wrong> {
    let alone = told_of(rt, alloc, plan, lives, false)?;
    let beside = told_of(rt, alloc, plan, lives, true)?;
    let babbled = beside.babble.granted > 0 && beside.babble.too_soon > 0;
    Ok(babbled && alone.heard == beside.heard)
}

#[test]
fn a_task_hears_the_same_beside_a_babbler(rt: HostRuntime) {
    assert_eq!(rt; hears_the_same(&rt, rt.alloc(), &PLAN, 150), Ok(true));
}

/// The babbler asks for bursts of two jobs, of which one waits at the end of each life.
#[test]
fn a_task_hears_the_same_beside_bursts(rt: HostRuntime) {
    assert_eq!(rt; hears_the_same(&rt, rt.alloc(), &LOUD_BURSTS, 20), Ok(true));
}

/// Nothing was late in the life of the die's log, and the careful task's last ask waits.
fn check_life(die: &OutcomeDie<MemoryNand>, life: u32) -> Result<(), Wrong> {
    if let Some(worst) = die.die().die().worst() {
        if worst.lateness > 0 {
            return Err(Wrong::Late { life });
        }
    }
    match die.die().waiting(TaskNo(0)) {
        Some(ops) if ops.len() == 1 => Ok(()),
        _ => Err(Wrong::Waiting),
    }
}

/// Shares a die for a life, and closes it where that ends. Since any call after the last slot begins the next life, the
/// babbler has ended by then.
fn lives_once<R: Threads + Wait + Sync>(
    rt: &R,
    alloc: Global,
    die: Box<OutcomeDie<MemoryNand>>,
    life: u32,
) -> Result<Box<OutcomeDie<MemoryNand>>, Wrong> {
    let run = Run {
        plan: PLAN,
        slots: PLAN.life - 1,
        is_loud: true,
        rest: 1,
        at_end: false,
    };
    let from = die.die().clock();
    let (die, told) = run_die(rt, alloc, die, &run)?;
    check_told(&told, from, &run)?;
    check_life(&die, life)?;
    Ok(die)
}

/// Opens and closes a die for `lives` lives. It answers the clock then.
fn lives_on<R: Threads + Wait + Sync>(rt: &R, alloc: Global, lives: u32) -> Result<u64, Wrong> {
    let mut die = a_die(alloc, &PLAN)?;
    for life in 0..lives {
        die = lives_once(rt, alloc, die, life)?;
    }
    Ok(die.die().clock())
}

#[test]
fn nothing_is_late_in_lives_that_are_opened_and_closed(rt: HostRuntime) {
    assert_eq!(rt; lives_on(&rt, rt.alloc(), 50), Ok(4_000));
}
