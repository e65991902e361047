//! The step of a slot's head: a collection begins, and then the head does its act.

ghost use Rattle.std.specs.Prelude.{◌≡◌, ◌+◌, ◌<◌, true, false, None, Some, length, is_ok, IfOk, OnErr};
ghost use Rattle.flash_die.specs.Flash.{block_at};
ghost use Rattle.flash_volume.specs.declared.collection.Collection.{Collection};
ghost use Rattle.flash_volume.specs.Running.{running_of};
ghost use Rattle.flash_volume.specs.Faults.{FailsWithDevice};
ghost use Rattle.flash_volume.specs.Steps.{EndsStep};
ghost use Rattle.slot_core.specs.NextHeadSteps.{HeadStepMakes};
ghost use Rattle.slot_core.specs.HeadSteps.{is_fresh, BeginsAs, RunFits, HeadFits, head_step_by, DidCollect, DidHeadStep};

use crate::head_step::HeadStep;
use crate::operations::operate;
use flash_die::Nand;
use flash_volume::{Began, Collected, Volume};
use job_table::Job;
use slot_types::{Act, Refusal, TaskNo};

/// Begins a collection that has not begun: while enough pages are spare it is waived, and this is how many its task is
/// given; else it takes its victim.
pub(crate) fn begin<N: Nand>(volume: &mut Volume<N>, job: &Job) -> Option<u32>
    requires alive { volume.old.failed ≡ false }
    requires task { job.now.task < length volume.old.accounts.plan.caps }
    requires idle { is_fresh job.now ≡ true → running_of volume.old.running job.now.task ≡ None }
    ensures { BeginsAs N.blocks volume.old job.now result volume.new }
{
    if !job.collects() || job.work() > 0 {
        return None;
    }
    match volume.begin(job.task()) {
        Ok(Began::Waived { given }) => Some(given),
        _ => None,
    }
}

/// Does the next act of the head, which finds what it needs.
pub(crate) fn take_step<N: Nand>(volume: &mut Volume<N>, job: &Job) -> Result<HeadStep, Refusal>
    requires alive { volume.old.failed ≡ false }
    requires fits { HeadFits N.blocks volume.old job.now }
    ensures did { IfOk result (λ turn. DidHeadStep N.blocks volume.old job.now turn volume.new) }
    ensures plan { volume.new.accounts.plan ≡ volume.old.accounts.plan }
    ensures fails { FailsWithDevice N.failures N.never_fails result volume.old volume.new }
    ensures stays { OnErr result (volume.new.places ≡ volume.old.places) }
    ensures makes { HeadStepMakes N.ends N.blocks volume.old job.now (is_ok result) volume.new }
{
    if job.collects() {
        collect(volume, job.task())
    } else {
        operate_next(volume, job)
    }
}

/// Does the next operation of a job.
fn operate_next<N: Nand>(volume: &mut Volume<N>, job: &Job) -> Result<HeadStep, Refusal>
    requires alive { volume.old.failed ≡ false }
    requires plain { job.now.collects ≡ false }
    requires fits { HeadFits N.blocks volume.old job.now }
    ensures did { IfOk result (λ turn. DidHeadStep N.blocks volume.old job.now turn volume.new) }
    ensures plan { volume.new.accounts.plan ≡ volume.old.accounts.plan }
    ensures fails { FailsWithDevice N.failures N.never_fails result volume.old volume.new }
    ensures stays { OnErr result (volume.new.places ≡ volume.old.places) }
    ensures makes { HeadStepMakes N.ends N.blocks volume.old job.now (is_ok result) volume.new }
{
    let Some(op) = job.next_op() else {
        unreachable!()
    };
    match operate(volume, job.task(), op) {
        Err(refusal) => Err(refusal),
        Ok(act) => Ok(HeadStep {
            act,
            last: job.work() as usize + 1 == job.op_count(),
            given: 0,
        }),
    }
}

/// Does a slot of the collection that the task runs.
fn collect<N: Nand>(volume: &mut Volume<N>, task: TaskNo) -> Result<HeadStep, Refusal>
    requires alive { volume.old.failed ≡ false }
    requires task { task < length volume.old.accounts.plan.caps }
    requires fits { (c : Collection) × (running_of volume.old.running task ≡ Some c)
        × ((block_at (N.blocks volume.old.device) c.victim).erases < 4294967295) }
    ensures did { IfOk result (λ turn. DidCollect N.blocks volume.old task turn volume.new) }
    ensures plan { volume.new.accounts.plan ≡ volume.old.accounts.plan }
    ensures fails { FailsWithDevice N.failures N.never_fails result volume.old volume.new }
    ensures stays { OnErr result (volume.new.places ≡ volume.old.places) }
    ensures makes { (c : Collection) → running_of volume.old.running task ≡ Some c
        → EndsStep N.ends N.blocks volume.old c (is_ok result) volume.new }
{
    match volume.collect_slot(task) {
        Err(refusal) => Err(refusal),
        Ok(did) => Ok(head_step_by(did)),
    }
}

/// The step of a collection that did this.
fn head_step_by(did: Collected) -> HeadStep
    ensures { result ≡ head_step_by did }
{
    match did {
        Collected::CopyRead { page } => HeadStep {
            act: Act::CopyRead { page },
            last: false,
            given: 0,
        },
        Collected::CopyProgram { page } => HeadStep {
            act: Act::CopyProgram { page },
            last: false,
            given: 0,
        },
        Collected::EraseSlot { block } => HeadStep {
            act: Act::Erase { block },
            last: false,
            given: 0,
        },
        Collected::Finished { block, given } => HeadStep {
            act: Act::Erase { block },
            last: true,
            given,
        },
    }
}
