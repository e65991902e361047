//! Which die has which device: three dies of one shape, the devices of which fail after 0, 1 and 2 calls.

use crate::courses::{Course, run_three};
use crate::feeds::Job;
use crate::made::{ONES, fused_dies};
use die_service::RefusedAt;
use slot_types::{Op, Refusal};
use std::alloc::Global;
use std::process::Abort;
use std::sync::Wait;
use std::test::Fail;
use std::thread::Threads;

// Two writes, each of which takes a slot and a call of the device.
#[rattlefmt::skip]
const WRITES: [Job; 2] = [
    Job { release: 0, due: 5, op: Op::Write(3, ONES) },
    Job { release: 0, due: 6, op: Op::Write(4, ONES) },
];

// The faults that stop the first two dies, after their events and the slots that were carried out.
const AT_ONCE: RefusedAt = RefusedAt {
    entries: 2,
    refusal: Refusal::DeviceFault,
};

const LATER: RefusedAt = RefusedAt {
    entries: 3,
    refusal: Refusal::DeviceFault,
};

// Die 0 carries out no slot, die 1 one, and die 2 all three.
#[rattlefmt::skip]
const BY_DEVICE: [Course; 3] = [
    Course { jobs: &WRITES, slots: 0, refused: &[], stop: Some(AT_ONCE) },
    Course { jobs: &WRITES, slots: 1, refused: &[], stop: Some(LATER) },
    Course { jobs: &WRITES, slots: 3, refused: &[], stop: None },
];

fn run_fused<R: Threads + Wait + Sync + Abort>(rt: &R, alloc: Global) -> Result<(), Refusal> {
    let (store, mut passes) = fused_dies(alloc, [0, 1, 2])?;
    run_three(rt, alloc, &store, &mut passes, &BY_DEVICE, 3)
}

#[test]
fn each_die_has_the_device_in_its_place(rt: HostRuntime) -> Result<(), Fail> {
    Ok(run_fused(&rt, rt.alloc())?)
}
