//! Worked rows: dies of 8 blocks behind their locks.

use crate::closing::{End, play_one};
use crate::dies::play_both;
use crate::made::{ONES, TWOS, faulty_dies};
use crate::steps::Fact::{Certified, Done, Entries, Now, Out, Read, Waiting, Worst};
use crate::steps::Step::{HandOver, Is, LetGo, PassOn, Slot, Submit};
use crate::steps::{Bounds, Step};
use die_service::RefusedAt;
use slot_types::{Op, Refusal};
use std::alloc::Global;
use std::env::Env;
use std::process::Abort;
use std::sync::Wait;
use std::test::Fail;
use test_memory::is_scarce;

// The first pass of a die writes, and the second, which takes it in, reads.
#[rattlefmt::skip]
const JOINED: &[Step] = &[
    HandOver { release: 0, due: 5, op: Op::Write(3, TWOS), job: 0 },
    Is(Entries { count: 2 }),
    Submit { release: 1, due: 6, op: Op::Read(3), want: Ok(1) },
    Slot { want: Ok(Some(1)) },
    Is(Read { job: 1, page: TWOS }),
    Is(Certified(Bounds { job: 0, start: 0, due: 5, completion: 1 })),
    Is(Now { slot: 2 }),
    Is(Out { passes: 0 }),
];

#[test]
fn a_joined_pass_goes_on_after_both(rt: HostRuntime) -> Result<(), Fail> {
    let closed = End::Closed {
        dies: 1,
        entries: 4,
        slot: 2,
    };
    assert_eq!(rt; play_one(&rt, rt.alloc(), JOINED)?, Some(closed));
    Ok(())
}

#[test]
fn a_store_stays_open_while_a_pass_is_out(rt: HostRuntime) -> Result<(), Fail> {
    let kept = End::Kept {
        refusal: Refusal::PassesOut { out: 1 },
        dies: 1,
        passes: 1,
        first: 1,
    };
    assert_eq!(rt; play_one(&rt, rt.alloc(), &[LetGo])?, Some(kept));
    Ok(())
}

// The same, but the first pass is never joined into the second.
#[rattlefmt::skip]
const NOT_JOINED: &[Step] = &[
    PassOn { release: 0, due: 5, op: Op::Write(3, TWOS), job: 0 },
    Submit { release: 1, due: 6, op: Op::Read(3), want: Ok(1) },
    Slot { want: Ok(Some(1)) },
    Is(Entries { count: 4 }),
    Is(Read { job: 1, page: TWOS }),
    Is(Certified(Bounds { job: 0, start: 0, due: 5, completion: 1 })),
    Is(Now { slot: 2 }),
    Is(Out { passes: 1 }),
];

#[test]
fn a_store_stays_open_after_a_pass_that_was_not_joined(rt: HostRuntime) -> Result<(), Fail> {
    let kept = End::Kept {
        refusal: Refusal::PassesOut { out: 1 },
        dies: 1,
        passes: 1,
        first: 1,
    };
    assert_eq!(rt; play_one(&rt, rt.alloc(), NOT_JOINED)?, Some(kept));
    Ok(())
}

// The refusals of the die whose device fails, which has three entries then.
const FAULT: RefusedAt = RefusedAt {
    entries: 3,
    refusal: Refusal::DeviceFault,
};

const STOPPED: RefusedAt = RefusedAt {
    entries: 3,
    refusal: Refusal::DieStopped,
};

// What a die does whose device fails at the second write: it stops, and tells of the first.
#[rattlefmt::skip]
const STOP: &[Step] = &[
    Submit { release: 0, due: 5, op: Op::Write(3, ONES), want: Ok(0) },
    Submit { release: 0, due: 6, op: Op::Write(4, ONES), want: Ok(1) },
    Slot { want: Ok(Some(0)) },
    Slot { want: Err(FAULT) },
    Submit { release: 1, due: 6, op: Op::Read(3), want: Err(Refusal::DieStopped) },
    Slot { want: Err(STOPPED) },
    Is(Done { job: 0, completion: 1, lateness: -4 }),
    Is(Waiting { job: 1 }),
    Is(Worst { job: 0, lateness: -4 }),
];

// What the other die does.
#[rattlefmt::skip]
const GO_ON: &[Step] = &[
    Submit { release: 0, due: 5, op: Op::Write(0, ONES), want: Ok(0) },
    Slot { want: Ok(Some(0)) },
];

// Plays a table on each of two dies, the device of the first of which fails, and tells why there is no third.
fn stop_one<R: Wait + Abort + Env>(rt: &R, alloc: Global) -> Result<Option<Refusal>, Refusal> {
    let (store, mut passes) = faulty_dies(alloc)?;
    play_both(rt, alloc, &store, passes.as_mut_slice(), STOP, GO_ON)?;
    Ok(store.die(2).err())
}

#[test]
fn a_fault_stops_one_die_alone(rt: HostRuntime) -> Result<(), Fail> {
    let stopped = match stop_one(&rt, rt.alloc()) {
        Err(Refusal::NoMemory) if is_scarce(&rt) => stop_one(&rt, rt.alloc()),
        answer => answer,
    };
    assert_eq!(rt;
        stopped,
        Ok(Some(Refusal::UnknownDie)),
        "two dies are played, and there is no third"
    );
    Ok(())
}
