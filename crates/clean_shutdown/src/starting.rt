//! The start of a die on a part: from what a clean shutdown saved there, or by a mount.

ghost use Rattle.std.specs.Prelude.{◌≡◌, ◌↔◌, ◌-◌, ◌<◌, Some, None, IsTrue, IfErr, IfOk, OnErr};
ghost use Rattle.slot_types.specs.Refusal.{FailsForMemory};
ghost use Rattle.labelled_nand.specs.PoweredUp.{IsPoweredUp};
ghost use Rattle.saving_nand.specs.Saving.{IsLeftFor, closed_labels, numbered};
ghost use Rattle.saving_nand.specs.declared.saved.Saved.{Saved as Stood};
ghost use Rattle.device_mount.specs.Mounted.{HasBegun};
ghost use Rattle.device_mount.specs.Refusals.{RefusesMount};
ghost use Rattle.labelled_die.specs.Beside.{beside_of};
ghost use Rattle.clean_shutdown.specs.Starting.{BeginsByMount, FitsPart, GoesOn, GoesOnFrom, IsForMemory, RefusesStart, shown_of};

use crate::refusals::{NotStarted, StartRefusal};
use device_mount::mount;
use die_checkpoint::CheckpointFault;
use flash_die::Nand;
use labelled_die::BesideNand;
use saving_nand::{Saved, SavingNand};
use slot_core::{DieCore, ResumeRefusal};
use slot_types::{DiePlan, Refusal, Shape};
use std::alloc::Global;

/// Whether what was saved is of this plan, where the part has this shape beside a block. The only refusal is NoMemory.
#[tactic(auto, using(crate::proofs::Starts::no_fit))]
fn fits(alloc: Global, plan: &DiePlan, shape: Shape, saved: &Saved) -> Result<bool, Refusal>
    ensures fits { IfOk result (λ fits. IsTrue fits ↔ FitsPart plan.now shape saved.now) }
    ensures shape { OnErr result (shape ≡ plan.now.shape) }
    ensures refused { FailsForMemory result }
{
    if shape != plan.shape {
        return Ok(false);
    }
    match saved.checkpoint.check(alloc, plan) {
        Ok(()) => Ok(true),
        Err(fault) => match fault {
            CheckpointFault::NoMemory => Err(Refusal::NoMemory),
            _ => Ok(false),
        },
    }
}

/// A part that isn't started since there is no memory. It counts as powered up, so that a mount may be tried.
fn no_memory<N: SavingNand>(part: N) -> NotStarted<N>
    requires well { N.failures part ≡ 0 }
    requires void { N.saved part ≡ None }
    ensures why { result.refusal ≡ StartRefusal.NoMemory }
    ensures ready { IsPoweredUp (N.shape_of result.part) (N.blocks result.part)
        (N.labels result.part) (N.failures result.part) }
    ensures void { N.saved result.part ≡ None }
{
    let mut part = part;
    part.count_as_closed();
    NotStarted {
        part,
        refusal: StartRefusal::NoMemory,
    }
}

/// Mounts a part that was powered up, and on which nothing is saved.
fn mounted<N: SavingNand>(
    alloc: Global,
    plan: DiePlan,
    part: N,
) -> Result<DieCore<BesideNand<N>>, NotStarted<N>>
    requires powered { IsPoweredUp (N.shape_of part) (N.blocks part) (N.labels part)
        (N.failures part) }
    requires void { N.saved part ≡ None }
    ensures begun { IfOk result (HasBegun plan) }
    ensures mounted { IfOk result (BeginsByMount N.saved N.labels plan (N.labels part).blocks) }
    ensures refused { IfErr result (λ no. RefusesStart plan (N.shape_of part) None
        (N.labels part).blocks 0 (N.failures no.part) no.refusal) }
    ensures known { IfErr result (λ no. ¬ (no.refusal ≡ StartRefusal.NoMemory)) }
    ensures again { IfErr result (λ no. IsForMemory no.refusal
        → IsPoweredUp (N.shape_of no.part) (N.blocks no.part) (N.labels no.part)
        (N.failures no.part)) }
    ensures still { IfErr result (λ no. N.saved no.part ≡ None) }
{
    match mount(alloc, plan, part) {
        Ok(core) => Ok(core),
        Err(no) => Err(NotStarted {
            part: no.part,
            refusal: StartRefusal::NotMounted { why: no.refusal },
        }),
    }
}

/// Mounts a part on which nothing is saved any more, and each block of which counts as closed from now on.
#[tactic(auto, using(crate::proofs::Starts::closed_so))]
fn mounted_closed<N: SavingNand>(
    alloc: Global,
    plan: DiePlan,
    part: N,
) -> Result<DieCore<BesideNand<N>>, NotStarted<N>>
    requires well { N.failures part ≡ 0 }
    requires void { N.saved part ≡ None }
    ensures begun { IfOk result (HasBegun plan) }
    ensures mounted { IfOk result (BeginsByMount N.saved N.labels plan
        (closed_labels (N.shape_of part).pages (N.labels part).blocks)) }
    ensures refused { IfErr result (λ no. RefusesStart plan (N.shape_of part) None
        (closed_labels (N.shape_of part).pages (N.labels part).blocks) 0 (N.failures no.part)
        no.refusal) }
    ensures known { IfErr result (λ no. ¬ (no.refusal ≡ StartRefusal.NoMemory)) }
    ensures again { IfErr result (λ no. IsForMemory no.refusal
        → IsPoweredUp (N.shape_of no.part) (N.blocks no.part) (N.labels no.part)
        (N.failures no.part)) }
    ensures still { IfErr result (λ no. N.saved no.part ≡ None) }
{
    let mut closed = part;
    closed.count_as_closed();
    mounted(alloc, plan, closed)
}

/// The die that goes on from what was saved.
fn resumed<N: SavingNand>(
    alloc: Global,
    plan: DiePlan,
    part: N,
    saved: &Saved,
) -> Result<DieCore<BesideNand<N>>, NotStarted<N>>
    requires left { IsLeftFor (N.shape_of part) (N.blocks part) (N.labels part)
        (N.failures part) saved.now }
    requires void { N.saved part ≡ None }
    requires fits { FitsPart plan (record (N.shape_of part) { blocks = (N.shape_of part).blocks - 1 }) saved.now }
    ensures begun { IfOk result (HasBegun plan) }
    ensures goes_on { IfOk result (GoesOn N.saved N.labels plan (N.blocks part) (N.labels part)
        saved.now) }
    ensures why { IfErr result (λ no. no.refusal ≡ StartRefusal.NoMemory) }
    ensures ready { IfErr result (λ no. IsPoweredUp (N.shape_of no.part) (N.blocks no.part)
        (N.labels no.part) (N.failures no.part)) }
    ensures still { IfErr result (λ no. N.saved no.part ≡ None) }
{
    match DieCore::resume(
        alloc,
        plan,
        BesideNand::new(part, saved.aside),
        &saved.checkpoint,
    ) {
        Ok(core) => Ok(core),
        Err(no) => match no.refusal {
            // The part has the plan's shape beside a block.
            ResumeRefusal::OtherDevice => unreachable!(),
            ResumeRefusal::Unfit { fault } => match fault {
                CheckpointFault::NoMemory => Err(no_memory(no.device.into_part())),
                // The checkpoint fits.
                _ => unreachable!(),
            },
        },
    }
}

/// The die that goes on from what was saved, or begins by a mount where that doesn't fit the plan.
fn started<N: SavingNand>(
    alloc: Global,
    plan: DiePlan,
    part: N,
    saved: &Saved,
) -> Result<DieCore<BesideNand<N>>, NotStarted<N>>
    requires left { IsLeftFor (N.shape_of part) (N.blocks part) (N.labels part)
        (N.failures part) saved.now }
    requires void { N.saved part ≡ None }
    ensures begun { IfOk result (HasBegun plan) }
    ensures goes_on { IfOk result (λ core. GoesOnFrom plan (N.shape_of part) (Some saved.now)
        → GoesOn N.saved N.labels plan (N.blocks part) (N.labels part) saved.now core) }
    ensures mounted { IfOk result (λ core. ¬ GoesOnFrom plan (N.shape_of part) (Some saved.now)
        → BeginsByMount N.saved N.labels plan
        (closed_labels (N.shape_of part).pages (N.labels part).blocks) core) }
    ensures refused { IfErr result (λ no. RefusesStart plan (N.shape_of part) (Some saved.now)
        (closed_labels (N.shape_of part).pages (N.labels part).blocks) 0 (N.failures no.part)
        no.refusal) }
    ensures again { IfErr result (λ no. IsForMemory no.refusal
        → IsPoweredUp (N.shape_of no.part) (N.blocks no.part) (N.labels no.part)
        (N.failures no.part)) }
    ensures still { IfErr result (λ no. N.saved no.part ≡ None) }
{
    let shape = part.shape();
    let beside = Shape {
        blocks: shape.blocks - 1,
        pages: shape.pages,
        erase_slots: shape.erase_slots,
    };
    match fits(alloc, &plan, beside, saved) {
        Ok(true) => resumed(alloc, plan, part, saved),
        Ok(false) => mounted_closed(alloc, plan, part),
        Err(_) => Err(no_memory(part)),
    }
}

/// Starts a die on a part whose power has come. What a clean shutdown saved is taken, and so it is void before anything
/// else is done. Where it fits the plan the die goes on from it, and no cell is looked at; else the part is mounted
/// (`device_mount::mount`). However the die begins, nothing is saved on its part then.
///
/// That the part was powered up where nothing is saved is the caller's to know, as at a mount; where something is, the
/// device says that its cells are as they were left.
///
/// Refused as [`StartRefusal`] lists; the part is handed back then, nothing is saved on it any more, and the plan is given
/// up. Where only memory was lacking, also for a mount, no cell has changed, and the part may be started again at once.
pub fn start_up<N: SavingNand>(
    alloc: Global,
    plan: DiePlan,
    part: N,
) -> Result<DieCore<BesideNand<N>>, NotStarted<N>>
    requires ready { N.saved part ≡ None → IsPoweredUp (N.shape_of part) (N.blocks part)
        (N.labels part) (N.failures part) }
    requires few_failures { N.failures part < 4294967295 }
    ensures begun { IfOk result (HasBegun plan) }
    ensures goes_on { IfOk result (λ core. (saved : Stood) → N.saved part ≡ Some saved
        → GoesOnFrom plan (N.shape_of part) (N.saved part)
        → GoesOn N.saved N.labels plan (N.blocks part) (numbered (N.saved part) (N.labels part))
        saved core) }
    ensures mounted { IfOk result (λ core. ¬ GoesOnFrom plan (N.shape_of part) (N.saved part)
        → BeginsByMount N.saved N.labels plan (shown_of (N.shape_of part).pages (N.saved part)
        (N.labels part).blocks) core) }
    ensures refused { IfErr result (λ no. RefusesStart plan (N.shape_of part) (N.saved part)
        (shown_of (N.shape_of part).pages (N.saved part) (N.labels part).blocks)
        (N.failures part) (N.failures no.part) no.refusal) }
    ensures again { IfErr result (λ no. IsForMemory no.refusal
        → IsPoweredUp (N.shape_of no.part) (N.blocks no.part) (N.labels no.part)
        (N.failures no.part)) }
    ensures still { IfErr result (λ no. N.saved no.part ≡ None) }
{
    let mut part = part;
    match part.take_saved() {
        Ok(Some(saved)) => started(alloc, plan, part, &saved),
        Ok(None) => mounted(alloc, plan, part),
        Err(_) => Err(NotStarted {
            part,
            refusal: StartRefusal::NotTaken,
        }),
    }
}
