//! Around which slots a run calls its gate, and when: one worker, and a gate that notes each call.

ghost use Rattle.std.specs.Prelude.{◌≡◌, map};

use crate::courses::{Course, WRITES_AND_READS, run_courses};
use crate::feeds::Job;
use crate::made::{ONES, faulty_dies, two_dies};
use crate::noted::Side::{After, Before};
use crate::noted::{Called, NoteGate, split_both};
use die_service::{DiePass, RefusedAt, RefusedEvent, Store};
use flash_die::Nand;
use slot_types::{Op, Refusal};
use std::alloc::Global;
use std::process::Abort;
use std::sync::Wait;
use std::test::Fail;
use std::thread::Threads;

// The first event of a feed reads a page that its die doesn't have.
const NO_PAGE: RefusedEvent = RefusedEvent {
    place: 0,
    refused: RefusedAt {
        entries: 0,
        refusal: Refusal::BadPage { page: 12 },
    },
};

// A read of a page that the die doesn't have, and one that it has.
#[rattlefmt::skip]
const BAD_AND_GOOD: [Job; 2] = [
    Job { release: 0, due: 2, op: Op::Read(12) },
    Job { release: 1, due: 3, op: Op::Read(0) },
];

// Die 0 carries out two slots, each after an event. So does die 1, of which the first event is refused.
#[rattlefmt::skip]
const FIRST: [Course; 2] = [
    WRITES_AND_READS,
    Course { jobs: &BAD_AND_GOOD, slots: 2, refused: &[NO_PAGE], stop: None },
];

#[rattlefmt::skip]
const WITHIN: [Job; 1] = [Job { release: 3, due: 9, op: Op::Read(3) }];

#[rattlefmt::skip]
const AFTER: [Job; 1] = [Job { release: 4, due: 9, op: Op::Read(3) }];

// A second run of the same dies: its clock begins at 0 too, and its first slot is slot 2. The event of die 0 comes once
// the clock is 3, that of die 1 after the last slot.
#[rattlefmt::skip]
const SECOND: [Course; 2] = [
    Course { jobs: &WITHIN, slots: 2, refused: &[], stop: None },
    Course { jobs: &AFTER, slots: 2, refused: &[], stop: None },
];

#[rattlefmt::skip]
const BOTH_RUNS: [Called; 16] = [
    Called { side: Before, die: 0, slot: 0, entries: 1 },
    Called { side: After, die: 0, slot: 0, entries: 2 },
    Called { side: Before, die: 0, slot: 1, entries: 3 },
    Called { side: After, die: 0, slot: 1, entries: 4 },
    Called { side: Before, die: 1, slot: 0, entries: 0 },
    Called { side: After, die: 1, slot: 0, entries: 1 },
    Called { side: Before, die: 1, slot: 1, entries: 2 },
    Called { side: After, die: 1, slot: 1, entries: 3 },
    Called { side: Before, die: 0, slot: 0, entries: 4 },
    Called { side: After, die: 0, slot: 2, entries: 5 },
    Called { side: Before, die: 0, slot: 3, entries: 6 },
    Called { side: After, die: 0, slot: 3, entries: 7 },
    Called { side: Before, die: 1, slot: 0, entries: 3 },
    Called { side: After, die: 1, slot: 2, entries: 4 },
    Called { side: Before, die: 1, slot: 3, entries: 4 },
    Called { side: After, die: 1, slot: 3, entries: 5 },
];

#[rattlefmt::skip]
const WRITES: [Job; 2] = [
    Job { release: 0, due: 5, op: Op::Write(3, ONES) },
    Job { release: 1, due: 6, op: Op::Write(4, ONES) },
];

#[rattlefmt::skip]
const BAD_AND_LATER: [Job; 2] = [
    Job { release: 0, due: 2, op: Op::Read(12) },
    Job { release: 2, due: 3, op: Op::Read(0) },
];

const FAULT: RefusedAt = RefusedAt {
    entries: 3,
    refusal: Refusal::DeviceFault,
};

// The device of die 0 fails at its second write, in the second of three slots. Die 1 refuses an event.
#[rattlefmt::skip]
const FAULTY: [Course; 2] = [
    Course { jobs: &WRITES, slots: 1, refused: &[], stop: Some(FAULT) },
    Course { jobs: &BAD_AND_LATER, slots: 3, refused: &[NO_PAGE], stop: None },
];

const STOPPED: RefusedAt = RefusedAt {
    entries: 3,
    refusal: Refusal::DieStopped,
};

const NO_EVENT: RefusedEvent = RefusedEvent {
    place: 0,
    refused: STOPPED,
};

#[rattlefmt::skip]
const AT_ONCE: [Job; 1] = [Job { release: 0, due: 9, op: Op::Read(3) }];

#[rattlefmt::skip]
const LATER: [Job; 1] = [Job { release: 4, due: 9, op: Op::Read(0) }];

// A second run: die 0 is stopped and refuses its event and its first slot.
#[rattlefmt::skip]
const ONE_STOPPED: [Course; 2] = [
    Course { jobs: &AT_ONCE, slots: 0, refused: &[NO_EVENT], stop: Some(STOPPED) },
    Course { jobs: &LATER, slots: 3, refused: &[], stop: None },
];

#[rattlefmt::skip]
const ROUND_A_FAULT: [Called; 16] = [
    Called { side: Before, die: 0, slot: 0, entries: 1 },
    Called { side: After, die: 0, slot: 0, entries: 2 },
    Called { side: Before, die: 0, slot: 1, entries: 3 },
    Called { side: Before, die: 1, slot: 0, entries: 0 },
    Called { side: After, die: 1, slot: 0, entries: 1 },
    Called { side: Before, die: 1, slot: 1, entries: 1 },
    Called { side: After, die: 1, slot: 1, entries: 2 },
    Called { side: Before, die: 1, slot: 2, entries: 3 },
    Called { side: After, die: 1, slot: 2, entries: 4 },
    Called { side: Before, die: 0, slot: 0, entries: 3 },
    Called { side: Before, die: 1, slot: 0, entries: 4 },
    Called { side: After, die: 1, slot: 3, entries: 5 },
    Called { side: Before, die: 1, slot: 4, entries: 6 },
    Called { side: After, die: 1, slot: 4, entries: 7 },
    Called { side: Before, die: 1, slot: 5, entries: 7 },
    Called { side: After, die: 1, slot: 5, entries: 8 },
];

// Runs two dies twice by one worker, each time with these courses, and tells the calls of the gate.
fn calls_in<N: Nand + Send, R: Threads + Wait + Sync + Abort>(
    rt: &R,
    alloc: Global,
    store: &Store<N>,
    passes: &mut Vec<DiePass<N>>,
    first: &[Course; 2],
    second: &[Course; 2],
    slots: u32,
) -> Result<Vec<Called>, Refusal>
    requires { map (λ pass. pass.lock) passes.old.items ≡ store.now }
{
    let (zero, one) = split_both(rt, store, passes.as_mut_slice())?;
    let gate = NoteGate::new(store, zero, one, Vec::with_capacity(alloc, 64)?);
    run_courses(rt, alloc, store, passes, first, slots, 1, &gate)?;
    run_courses(rt, alloc, store, passes, second, slots, 1, &gate)?;
    Ok(gate.into_calls())
}

fn calls_of_both<R: Threads + Wait + Sync + Abort>(
    rt: &R,
    alloc: Global,
) -> Result<Vec<Called>, Refusal> {
    let (store, mut passes) = two_dies(alloc)?;
    calls_in(rt, alloc, &store, &mut passes, &FIRST, &SECOND, 2)
}

#[test]
fn the_gate_is_called_around_each_slot(rt: HostRuntime) -> Result<(), Fail> {
    let calls = calls_of_both(&rt, rt.alloc())?;
    assert_eq!(rt; calls.as_slice(), BOTH_RUNS.as_slice());
    Ok(())
}

fn calls_round_a_fault<R: Threads + Wait + Sync + Abort>(
    rt: &R,
    alloc: Global,
) -> Result<Vec<Called>, Refusal> {
    let (store, mut passes) = faulty_dies(alloc)?;
    calls_in(rt, alloc, &store, &mut passes, &FAULTY, &ONE_STOPPED, 3)
}

#[test]
fn the_gate_is_not_called_after_a_refused_slot(rt: HostRuntime) -> Result<(), Fail> {
    let calls = calls_round_a_fault(&rt, rt.alloc())?;
    assert_eq!(rt; calls.as_slice(), ROUND_A_FAULT.as_slice());
    Ok(())
}
