//! Worked runs: two dies of 8 blocks, and their workers.

ghost use Rattle.std.specs.Prelude.{◌≡◌, ◌≤◌, map, IfOk};
ghost use Rattle.flash_die.specs.Flash.{IsFresh};

use crate::courses::{Course, WRITES_AND_READS, run, run_courses, run_part};
use crate::feeds::{Job, five_empty};
use crate::held::{EnterGate, HeldNand, HoldGate, ListGate, Mark, Read};
use crate::made::{ONES, faulty_dies, five_dies, memory, store_of, two_dies};
use die_service::{DiePass, FreeGate, RefusedAt, RefusedEvent, RunDie, Store, close};
use flash_die::{MemoryNand, Nand};
use slot_core::{DieCore, Outcome};
use slot_types::{JobNo, Op, Refusal};
use std::alloc::Global;
use std::process::Abort;
use std::sync::{Arc, Wait};
use std::test::Fail;
use std::thread::Threads;

const NO_PAGE: RefusedEvent = RefusedEvent {
    place: 0,
    refused: RefusedAt {
        entries: 0,
        refusal: Refusal::BadPage { page: 12 },
    },
};

#[rattlefmt::skip]
const BAD_AND_LATER: [Job; 2] = [
    Job { release: 0, due: 2, op: Op::Read(12) },
    Job { release: 2, due: 3, op: Op::Read(0) },
];

// Each die with a feed of its own. The second reads a page that it doesn't have, and two slots later one that it has.
#[rattlefmt::skip]
const OWN: [Course; 2] = [
    WRITES_AND_READS,
    Course { jobs: &BAD_AND_LATER, slots: 2, refused: &[NO_PAGE], stop: None },
];

// From which slot on job 0 may run.
fn release_of_first<N: Nand>(core: &DieCore<N>) -> Option<u32> {
    match core.job(JobNo(0)) {
        Ok(head) => Some(head.release),
        Err(_) => None,
    }
}

// What a closed die has: its entries, its present slot, and from which slot on job 0 may run, and whether it waits.
#[derive(PartialEq, Debug, Drop)]
struct Closed {
    entries: u64,
    slot: u32,
    release: Option<u32>,
    waits: bool,
}

// Of three entries two are slots, and job 0 waits from slot 2 on.
const WAITS_FROM_TWO: Closed = Closed {
    entries: 3,
    slot: 2,
    release: Some(2),
    waits: true,
};

// Of four entries two are slots, and job 0 was done in slot 0.
const READS_FROM_ONE: Closed = Closed {
    entries: 4,
    slot: 2,
    release: Some(0),
    waits: false,
};

fn state_of<N: Nand>(alloc: Global, core: &DieCore<N>) -> Closed {
    Closed {
        entries: core.len(),
        slot: core.now(),
        release: release_of_first(core),
        waits: core.outcome(alloc, JobNo(0)) == Ok(Outcome::Waiting),
    }
}

// Closes a store, and tells what its second die has.
fn close_second<N: Nand, R: Wait>(
    rt: &R,
    alloc: Global,
    store: Store<N>,
    passes: Vec<DiePass<N>>,
) -> Option<Closed>
    requires { map (λ pass. pass.lock) passes.items ≡ store }
{
    match close(rt, store, passes) {
        Ok(dies) => match dies.get(1) {
            Some(core) => Some(state_of(alloc, core)),
            None => None,
        },
        Err(_) => None,
    }
}

// Runs two dies with feeds of their own, and tells what the second has when the store is closed then.
fn run_own<R: Threads + Wait + Sync + Abort>(
    rt: &R,
    alloc: Global,
    workers: u32,
) -> Result<Option<Closed>, Refusal>
    requires { (1 ≤ workers) × (workers ≤ 16) }
{
    let (store, mut passes) = two_dies(alloc)?;
    let ended = run_courses(rt, alloc, &store, &mut passes, &OWN, 2, workers, &FreeGate);
    let second = close_second(rt, alloc, store, passes);
    ended?;
    Ok(second)
}

#[test]
fn each_die_runs_its_feed(rt: HostRuntime) -> Result<(), Fail> {
    assert_eq!(rt; run_own(&rt, rt.alloc(), 1)?, Some(WAITS_FROM_TWO));
    assert_eq!(rt; run_own(&rt, rt.alloc(), 2)?, Some(WAITS_FROM_TWO));
    Ok(())
}

// The second die reads a page that it doesn't have in each part: the place is that in the batch, and a slot stood
// before the second one.
const NO_PAGE_LATER: RefusedEvent = RefusedEvent {
    place: 0,
    refused: RefusedAt {
        entries: 1,
        refusal: Refusal::BadPage { page: 12 },
    },
};

#[rattlefmt::skip]
const WRITE: [Job; 1] = [Job { release: 0, due: 2, op: Op::Write(3, ONES) }];

#[rattlefmt::skip]
const READ: [Job; 1] = [Job { release: 1, due: 3, op: Op::Read(3) }];

#[rattlefmt::skip]
const BAD: [Job; 1] = [Job { release: 0, due: 2, op: Op::Read(12) }];

#[rattlefmt::skip]
const FIRST_PARTS: [Course; 2] = [
    Course { jobs: &WRITE, slots: 1, refused: &[], stop: None },
    Course { jobs: &BAD, slots: 1, refused: &[NO_PAGE], stop: None },
];

#[rattlefmt::skip]
const SECOND_PARTS: [Course; 2] = [
    Course { jobs: &READ, slots: 1, refused: &[], stop: None },
    Course { jobs: &BAD_AND_LATER, slots: 1, refused: &[NO_PAGE_LATER], stop: None },
];

// Runs a die of its own in two parts of a slot each, and tells what it has then.
fn run_in_parts<N: Nand>(
    rt: &impl Abort,
    alloc: Global,
    die: DieCore<N>,
    first: &Course,
    second: &Course,
) -> Result<Closed, Refusal> {
    let Ok(die) = Box::new(alloc, die) else {
        return Err(Refusal::NoMemory);
    };
    let mut die = RunDie::new(alloc, die);
    run_part(rt, &mut die, first, 1)?;
    run_part(rt, &mut die, second, 2)?;
    Ok(state_of(alloc, &*die.into_die()))
}

// Runs each of two dies, out of the locks of their store, in two parts, and tells what each has then.
fn run_each_in_parts<R: Wait + Abort>(
    rt: &R,
    alloc: Global,
) -> Result<Option<(Closed, Closed)>, Refusal> {
    let (store, passes) = two_dies(alloc)?;
    let mut dies = match close(rt, store, passes) {
        Ok(dies) => dies,
        Err(kept) => return Err(kept.refusal),
    };
    match (dies.pop(), dies.pop()) {
        (Some(second), Some(first)) => {
            let one = run_in_parts(rt, alloc, first, &FIRST_PARTS[0], &SECOND_PARTS[0])?;
            let other = run_in_parts(rt, alloc, second, &FIRST_PARTS[1], &SECOND_PARTS[1])?;
            Ok(Some((one, other)))
        }
        _ => Ok(None),
    }
}

#[test]
fn a_run_in_two_parts_ends_as_one(rt: HostRuntime) -> Result<(), Fail> {
    let ran = run_each_in_parts(&rt, rt.alloc())?;
    assert_eq!(rt; ran, Some((READS_FROM_ONE, WAITS_FROM_TWO)));
    Ok(())
}

// Each die with the same feed.
const SAME: [Course; 2] = [WRITES_AND_READS, WRITES_AND_READS];

// Runs two dies by two workers, one die held at its gate until the other has carried out a slot. Tells whether it had.
fn run_held<R: Threads + Wait + Sync + Abort>(
    rt: &R,
    alloc: Global,
    held: u32,
) -> Result<bool, Refusal> {
    let gate = HoldGate {
        held,
        mark: Mark::new(),
    };
    let (store, mut passes) = two_dies(alloc)?;
    run_courses(rt, alloc, &store, &mut passes, &SAME, 2, 2, &gate)?;
    Ok(gate.mark.was_met())
}

#[test]
fn dies_run_at_once(rt: HostRuntime) -> Result<(), Fail> {
    assert!(rt;
        run_held(&rt, rt.alloc(), 0)?,
        "die 1 goes on while die 0 is held"
    );
    assert!(rt;
        run_held(&rt, rt.alloc(), 1)?,
        "die 0 goes on while die 1 is held"
    );
    Ok(())
}

// A device that waits within its reads for the other one, or says that it has answered.
fn held(
    alloc: Global,
    waits: bool,
    read: &Arc<Read, Global>,
) -> Result<HeldNand<MemoryNand>, Refusal>
    ensures { IfOk result (λ nand. IsFresh (⟦<HeldNand<MemoryNand> as Nand>⟧.shape_of nand)
        (⟦<HeldNand<MemoryNand> as Nand>⟧.blocks nand)
        (⟦<HeldNand<MemoryNand> as Nand>⟧.failures nand)) }
{
    Ok(HeldNand::new(memory(alloc)?, waits, Arc::try_clone(read)?))
}

// Runs two dies by two workers. The device of one waits within its first read, so in its die's turn, until that of the
// other die has answered a read; and the other die's slots begin only after that. Tells whether both came to pass.
fn run_apart<R: Threads + Wait + Sync + Abort>(
    rt: &R,
    alloc: Global,
    read: &Arc<Read, Global>,
    first_waits: bool,
) -> Result<bool, Refusal> {
    let gate = EnterGate {
        held: if first_waits { 1 } else { 0 },
        read: Arc::try_clone(read)?,
    };
    let first = held(alloc, first_waits, read)?;
    let (store, mut passes) = store_of(alloc, first, held(alloc, !first_waits, read)?)?;
    run_courses(rt, alloc, &store, &mut passes, &SAME, 2, 2, &gate)?;
    Ok(read.was_met())
}

#[test]
fn turns_are_apart(rt: HostRuntime) -> Result<(), Fail> {
    let first = Arc::new(rt.alloc(), Read::new())?;
    assert!(rt;
        run_apart(&rt, rt.alloc(), &first, true)?,
        "die 1 reads within a turn of die 0"
    );
    let second = Arc::new(rt.alloc(), Read::new())?;
    assert!(rt;
        run_apart(&rt, rt.alloc(), &second, false)?,
        "die 0 reads within a turn of die 1"
    );
    Ok(())
}

// Five dies without events, run for a slot each by two workers, one die held until another has carried out its slot.
// Tells whether their slots were carried out in this order.
fn five_go_as<R: Threads + Wait + Sync + Abort>(
    rt: &R,
    alloc: Global,
    held: u32,
    until: u32,
    order: &[u32],
) -> Result<bool, Refusal> {
    let gate = ListGate::new(held, until, Vec::with_capacity(alloc, 5)?);
    let (store, mut passes) = five_dies(alloc)?;
    run(rt, &store, &mut passes, five_empty(alloc)?, 1, 2, &gate)?;
    match gate.into_dies() {
        Some(dies) => Ok(dies.as_slice() == order),
        None => Ok(false),
    }
}

// Five dies by two workers, three and two, each worker one die after the other: while die 0 is held, the other worker
// carries out dies 3 and 4 and no more; while die 3 is held, dies 0, 1 and 2.
#[test]
fn dies_are_dealt_in_runs(rt: HostRuntime) -> Result<(), Fail> {
    assert!(rt;
        five_go_as(&rt, rt.alloc(), 0, 4, &[3, 4, 0, 1, 2])?,
        "die 0 is held"
    );
    assert!(rt;
        five_go_as(&rt, rt.alloc(), 3, 2, &[0, 1, 2, 3, 4])?,
        "die 3 is held"
    );
    Ok(())
}

#[rattlefmt::skip]
const TWO_WRITES: [Job; 2] = [
    Job { release: 0, due: 5, op: Op::Write(3, ONES) },
    Job { release: 0, due: 6, op: Op::Write(4, ONES) },
];

#[rattlefmt::skip]
const ONE_WRITE: [Job; 1] = [Job { release: 0, due: 5, op: Op::Write(0, ONES) }];

const FAULT: RefusedAt = RefusedAt {
    entries: 3,
    refusal: Refusal::DeviceFault,
};

// Two writes at once, of which a die whose device fails at the second carries out the first, and a write on the other
// die.
#[rattlefmt::skip]
const FAULTY: [Course; 2] = [
    Course { jobs: &TWO_WRITES, slots: 1, refused: &[], stop: Some(FAULT) },
    Course { jobs: &ONE_WRITE, slots: 3, refused: &[], stop: None },
];

// Runs two dies, the device of the first of which fails from its second call on.
fn run_faulty<R: Threads + Wait + Sync + Abort>(
    rt: &R,
    alloc: Global,
    workers: u32,
) -> Result<(), Refusal>
    requires { (1 ≤ workers) × (workers ≤ 16) }
{
    let (store, mut passes) = faulty_dies(alloc)?;
    run_courses(
        rt,
        alloc,
        &store,
        &mut passes,
        &FAULTY,
        3,
        workers,
        &FreeGate,
    )
}

#[test]
fn a_fault_ends_one_die_alone(rt: HostRuntime) -> Result<(), Fail> {
    run_faulty(&rt, rt.alloc(), 1)?;
    run_faulty(&rt, rt.alloc(), 2)?;
    Ok(())
}
