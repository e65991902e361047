//! What the recorder's dies are planned for, and a new one.

ghost use Rattle.std.specs.Prelude.{◌≡◌, IfOk};
ghost use Rattle.flash_die.specs.Flash.{IsFresh};

use crate::nand::WearNand;
use crate::stops::{Stop, boxed, or_stop};
use demand_rules::{TaskTerms, Terms, TermsList};
use flash_die::{MemoryNand, Nand};
use ongoing_die::OngoingDie;
use planned_ports::PageRange;
use slot_types::{Caps, DiePlan, Refusal, Shape};
use std::alloc::Global;
use task_outcomes::OutcomeDie;

/// The device of each die.
pub(crate) type Device = WearNand<MemoryNand>;

const SHAPE: Shape = Shape {
    blocks: 11,
    pages: 4,
    erase_slots: 3,
};

/// After how many erases a block of each die is worn out. The first die's blocks don't last.
pub(crate) const ENDURANCES: [u32; 2] = [2, 1_000_000];

/// In 8 slots a job that reads a page and writes one, due 8 slots later.
pub(crate) const CONTROL: TaskTerms = TaskTerms {
    period: 8,
    deadline: 8,
    held: 8,
    work: 2,
    writes: 1,
    collect_period: 16,
    collect_deadline: 16,
};

/// In 32 slots such a job, due 32 slots later.
pub(crate) const LOGGER: TaskTerms = TaskTerms {
    period: 32,
    deadline: 32,
    held: 32,
    work: 2,
    writes: 1,
    collect_period: 64,
    collect_deadline: 64,
};

/// In 32 slots a read.
const BABBLER: TaskTerms = TaskTerms {
    period: 32,
    deadline: 32,
    held: 32,
    work: 1,
    writes: 0,
    collect_period: 64,
    collect_deadline: 64,
};

/// How many slots a life has at most: few, so that a hundred lives are soon over. Without a limit a life has as many as
/// there are numbers for (`MAX_SLOT` in its place); with this plan 149,760.
const LONGEST: u32 = 64;

/// The control has page 0, the logger pages 1 to 5, and the babbler may read them all.
pub(crate) const OWN_PAGES: [Option<PageRange>; 3] = [
    Some(PageRange { first: 0, count: 1 }),
    Some(PageRange { first: 1, count: 5 }),
    None,
];

fn terms(alloc: Global) -> Result<Terms, Refusal> {
    Ok(Terms {
        tasks: TermsList::from_vec(Vec::from_slice(alloc, &[CONTROL, LOGGER, BABBLER])?),
    })
}

fn die_plan(alloc: Global) -> Result<DiePlan, Refusal> {
    Ok(DiePlan {
        shape: SHAPE,
        logical: 6,
        alpha: 2,
        caps: Caps::from_vec(Vec::from_slice(alloc, &[6, 6, 4])?),
        times: None,
    })
}

/// A die with this device. Refused where the plan doesn't pass its test.
fn die_on<N: Nand>(alloc: Global, device: N) -> Result<OutcomeDie<N>, Stop>
    requires { IsFresh (N.shape_of device) (N.blocks device) (N.failures device) }
{
    let plan = die_plan(alloc)?;
    let terms = terms(alloc)?;
    match OngoingDie::new(alloc, plan, terms, LONGEST, device) {
        Ok(die) => or_stop(
            OutcomeDie::new(alloc, die),
            Stop::Refused(Refusal::NoMemory),
        ),
        Err(refusal) => Err(Stop::NoDie(refusal)),
    }
}

fn device(alloc: Global, endurance: u32) -> Result<Device, Refusal>
    ensures { IfOk result (λ nand. IsFresh (⟦<Device as Nand>⟧.shape_of nand)
        (⟦<Device as Nand>⟧.blocks nand)
        (⟦<Device as Nand>⟧.failures nand)) }
{
    let chip = MemoryNand::new(alloc, SHAPE)?;
    Ok(WearNand::new(alloc, chip, endurance)?)
}

/// A new die, whose blocks last for `endurance` erases.
pub(crate) fn new_die(alloc: Global, endurance: u32) -> Result<Box<OutcomeDie<Device>>, Stop> {
    let device = device(alloc, endurance)?;
    boxed(alloc, die_on(alloc, device)?)
}
