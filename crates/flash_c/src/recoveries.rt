//! How far a mount is that a program in C makes: told what the part shows, and then call by call.

ghost use Rattle.std.specs.Prelude.{◌≡◌, ◌∷◌, ◌++◌, ℕ, [], List, Option, Ok, Err, true, false, take, OnOk, OnErr, IfOk, IfErr};
ghost use Rattle.slot_types.specs.declared.plans.DiePlan.{DiePlan};
ghost use Rattle.power_loss.specs.Aside.{part_of};
ghost use Rattle.power_loss.specs.Labels.{Label as Stands, Shown, FitPlan, labels_in};
ghost use Rattle.power_loss.specs.Mounted.{all_count};
ghost use Rattle.power_loss.specs.Recovery.{MayErase, without_block};
ghost use Rattle.die_mount.specs.Scanned.{IsScanOf};
ghost use Rattle.die_mount.specs.Told.{told_cells};
ghost use Rattle.flash_c.specs.Mounts.{HasCalled, HasCounts, HasSeen, HasTold, IsFirstScan, TellsAgain, calling, erases_in, step_at, telling, told_after};

use crate::counts::flag;
use crate::shapes::FlashStep;
use die_mount::{BeginFault, FirstErase, Label, Mount, MountCall, MountFault, Scan, ScanFault};
use slot_types::DiePlan;
use std::alloc::Global;

/// How far a mount is.
#[derive(Drop)]
pub enum Recovery {
    /// The blocks are reported, one after the other.
    Scan {
        plan: DiePlan,
        scan: Scan,
    },
    /// No block is idle. The blocks are reported again, and what is reported of the one that is undone isn't looked at.
    Again {
        plan: DiePlan,
        before: Scan,
        again: Scan,
        block: u32,
    },
    /// The part is called, until a die may start.
    Calls {
        mount: Mount,
    },
    /// Nothing comes any more: a die has started, or there was no memory for the calls.
    Over,
}

impl Recovery {
    /// What comes next, if anything does.
    pub(crate) fn step(&self) -> Option<FlashStep>
        ensures { result ≡ step_at self.now }
    {
        match self {
            Recovery::Scan { scan, .. } => Some(telling(scan.told())),
            Recovery::Again { again, .. } => Some(telling(again.told())),
            Recovery::Calls { mount } => {
                let next = mount.next();
                let erases = erases_in(mount, next);
                Some(calling(next, mount.ends_erase(), erases))
            }
            Recovery::Over => None,
        }
    }
}

/// A block is to be told.
fn telling(block: u32) -> FlashStep
    ensures { result ≡ telling block }
{
    FlashStep {
        serial: 0,
        kind: 4,
        block,
        page: 0,
        logical: 0,
        last: 0,
        erases: 0,
    }
}

/// How often the block was erased that a call of a mount programs; else 0.
fn erases_in(mount: &Mount, call: Option<MountCall>) -> u32
    ensures { result ≡ erases_in mount.now call }
{
    match call {
        Some(MountCall::Program { place, .. }) => mount.erases(place.block),
        _ => 0,
    }
}

/// A call of the part is to be made, or none any more.
fn calling(call: Option<MountCall>, last: bool, erases: u32) -> FlashStep
    ensures { result ≡ calling call last erases }
{
    match call {
        None => FlashStep {
            serial: 0,
            kind: 0,
            block: 0,
            page: 0,
            logical: 0,
            last: 0,
            erases: 0,
        },
        Some(MountCall::Read { place }) => FlashStep {
            serial: 0,
            kind: 1,
            block: place.block,
            page: place.page,
            logical: 0,
            last: 0,
            erases: 0,
        },
        Some(MountCall::Program { place, label }) => FlashStep {
            serial: label.serial,
            kind: 2,
            block: place.block,
            page: place.page,
            logical: label.page,
            last: 0,
            erases,
        },
        Some(MountCall::EraseSlot { block }) => FlashStep {
            serial: 0,
            kind: 3,
            block,
            page: 0,
            logical: 0,
            last: flag(last),
            erases: 0,
        },
    }
}

/// The mount once the next block is reported, and how often it was erased; or as it was, and why. Where blocks are reported
/// again their erases aren't looked at.
fn told(
    recovery: Recovery,
    labels: &[Option<Label>],
    erases: Option<u32>,
) -> (Recovery, Result<(), ScanFault>)
    ensures first { OnOk result.1 ((plan : DiePlan) (seen : Shown) (shown : List (Option Stands))
        → HasSeen plan seen recovery → IsFirstScan recovery → labels.now ≡ told_cells shown
        → HasSeen plan (seen ++ shown ∷ []) result.0) }
    ensures again { OnOk result.1 ((plan : DiePlan) (seen : Shown) (block : ℕ)
        → HasSeen plan seen recovery → TellsAgain recovery block
        → labels.now ≡ told_cells (labels_in seen block) → HasSeen plan seen result.0) }
    ensures counts { OnOk result.1 ((told : List (Option ℕ)) → HasCounts told recovery
        → HasCounts (told_after recovery erases told) result.0) }
    ensures stays { OnErr result.1 (result.0 ≡ recovery) }
{
    match recovery {
        Recovery::Scan { plan, scan } => {
            let mut scan = scan;
            let said = scan.tell(labels, erases);
            (Recovery::Scan { plan, scan }, said)
        }
        Recovery::Again {
            plan,
            before,
            again,
            block,
        } => {
            let mut again = again;
            let said = if again.told() == block {
                again.tell(&[], None)
            } else {
                again.tell(labels, None)
            };
            let next = Recovery::Again {
                plan,
                before,
                again,
                block,
            };
            (next, said)
        }
        other => (other, Err(ScanFault::NoMoreBlocks)),
    }
}

/// The mount with its calls, where all blocks were reported, or reported again where that has to be; else as it was. It takes
/// all the memory of the calls.
fn begun(alloc: Global, recovery: Recovery) -> Result<Recovery, BeginFault>
    ensures seen { IfOk result (λ after. (plan : DiePlan) (seen : Shown) → HasSeen plan seen recovery
        → FitPlan (part_of plan) seen → HasSeen plan seen after) }
    ensures counts { IfOk result (λ after. (told : List (Option ℕ)) → HasCounts told recovery
        → HasCounts told after) }
{
    match recovery {
        Recovery::Scan { plan, scan } => {
            if scan.is_whole() {
                begun_of(alloc, plan, scan)
            } else {
                Ok(Recovery::Scan { plan, scan })
            }
        }
        Recovery::Again {
            plan,
            before,
            again,
            block,
        } => {
            if before.is_whole() {
                if again.is_whole() {
                    return undone_of(alloc, plan, before, again, block);
                }
            }
            Ok(Recovery::Again {
                plan,
                before,
                again,
                block,
            })
        }
        other => Ok(other),
    }
}

/// The mount by a whole scan: with its calls, or with a second scan where no block is idle.
fn begun_of(alloc: Global, plan: DiePlan, scan: Scan) -> Result<Recovery, BeginFault>
    requires whole { scan.told ≡ scan.shape.blocks }
    ensures seen { IfOk result (λ after. (seen : Shown) → IsScanOf (part_of plan) scan seen
        → FitPlan (part_of plan) seen → HasSeen plan seen after) }
    ensures counts { IfOk result (HasCounts scan.erases) }
{
    match scan.first_erase() {
        FirstErase::Idle { .. } => calls_of(Mount::new(alloc, plan, scan)),
        FirstErase::Undo { block } => match Scan::new(alloc, &plan) {
            Ok(again) => Ok(Recovery::Again {
                plan,
                before: scan,
                again,
                block,
            }),
            Err(MountFault::BadPlan) => Err(BeginFault::BadPlan),
            Err(MountFault::NoMemory) => Err(BeginFault::NoMemory),
        },
    }
}

/// The mount with its calls, by both whole scans.
fn undone_of(
    alloc: Global,
    plan: DiePlan,
    before: Scan,
    again: Scan,
    block: u32,
) -> Result<Recovery, BeginFault>
    requires before { before.told ≡ before.shape.blocks }
    requires again { again.told ≡ again.shape.blocks }
    ensures seen { IfOk result (λ after. (seen : Shown) → IsScanOf (part_of plan) before seen
        → IsScanOf (part_of plan) again (take again.told (without_block block seen))
        → MayErase (part_of plan) all_count seen block → HasSeen plan seen after) }
    ensures counts { IfOk result (HasCounts before.erases) }
{
    calls_of(Mount::undo(alloc, plan, &before, again, block))
}

fn calls_of(made: Result<Mount, BeginFault>) -> Result<Recovery, BeginFault>
    ensures calls { IfOk made (λ mount. result ≡ Ok (Recovery.Calls mount)) }
    ensures fault { IfErr made (λ fault. result ≡ Err fault) }
{
    match made {
        Ok(mount) => Ok(Recovery::Calls { mount }),
        Err(fault) => Err(fault),
    }
}

/// Why a block isn't taken.
#[derive(Clone, Copy, Drop)]
pub(crate) enum TellFault {
    /// The mount stays as it was.
    Scan(ScanFault),
    /// It was the last block, and the calls can't begin: the mount is over.
    Begin(BeginFault),
}

/// The mount once the next block is reported, with its calls where that was the last one; or why not.
pub(crate) fn taken(
    alloc: Global,
    recovery: Recovery,
    labels: &[Option<Label>],
    erases: Option<u32>,
) -> (Recovery, Result<(), TellFault>)
    ensures told { OnOk result.1 (HasTold labels.now recovery result.0) }
    ensures counts { OnOk result.1 ((told : List (Option ℕ)) → HasCounts told recovery
        → HasCounts (told_after recovery erases told) result.0) }
{
    let (after, said) = told(recovery, labels, erases);
    match said {
        Err(fault) => (after, Err(TellFault::Scan(fault))),
        Ok(()) => match begun(alloc, after) {
            Ok(after) => (after, Ok(())),
            Err(fault) => (Recovery::Over, Err(TellFault::Begin(fault))),
        },
    }
}

/// The mount once its next call was made; or as it was, where it needs none.
pub(crate) fn called(recovery: Recovery) -> (Recovery, bool)
    ensures called { result.1 ≡ true → HasCalled recovery result.0 }
    ensures counts { (told : List (Option ℕ)) → HasCounts told recovery → HasCounts told result.0 }
    ensures stays { result.1 ≡ false → result.0 ≡ recovery }
{
    match recovery {
        Recovery::Calls { mount } => {
            if mount.next().is_none() {
                return (Recovery::Calls { mount }, false);
            }
            let mut mount = mount;
            mount.done();
            (Recovery::Calls { mount }, true)
        }
        other => (other, false),
    }
}
