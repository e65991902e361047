//! A device that fails.

use crate::dies::plays_fused;
use crate::plans::PLAN;
use crate::steps::Fact::{Done, Now};
use crate::steps::Step;
use crate::steps::Step::{Asks, Carries, Is, NoSlot, Renews};
use planned_die::AskRefusal::DieStopped;
use planned_die::LifeRefusal;
use slot_types::{Op, PageData, Refusal};

const WRITE: Op = Op::Write(1, PageData([1; 16]));

/// The device passes two calls: the write of slot 0 and the read of slot 1. A read of a page that was never written is
/// none.
#[rattlefmt::skip]
const STOPPED: &[Step] = &[
    Asks { task: 0, ops: &[WRITE, Op::Read(1)], want: Ok(0) },
    Asks { task: 1, ops: &[Op::Read(0), Op::Read(1)], want: Ok(1) },
    Carries { jobs: &[Some(0), Some(0), Some(1)] },
    NoSlot { want: Refusal::DeviceFault },
    // the first cause of all, also where the task isn't there
    Asks { task: 2, ops: &[], want: Err(DieStopped) },
    Asks { task: 0, ops: &[WRITE], want: Err(DieStopped) },
    NoSlot { want: Refusal::DieStopped },
    Renews { want: Err(LifeRefusal::DieStopped) },
    Is(Now { slot: 3, first: 0 }),
    Is(Done { job: 0, completion: 2, lateness: -4 }),
];

#[test]
fn a_fault_stops_the_die(rt: HostRuntime) {
    assert_eq!(rt; plays_fused(&rt, rt.alloc(), PLAN, 2, STOPPED), Ok(()));
}
