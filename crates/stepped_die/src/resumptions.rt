//! A die is written down at a quiet moment with the names of its pages, and goes on from there.

ghost use Rattle.std.specs.Prelude.{◌≡◌, ◌↔◌, true, false, IsSome, IfOk, IfErr, OnOk};
ghost use Rattle.slot_types.specs.Refusal.{FailsForMemory};
ghost use Rattle.die_checkpoint.specs.Fits.{Fits};
ghost use Rattle.die_checkpoint.specs.Faults.{HasCheckpointFault};
ghost use Rattle.flash_volume.specs.Cells as volume;
ghost use Rattle.die_log.specs.Model.Flash.{contents};
ghost use Rattle.die_log.specs.Model.Opening.{renewed_start};
ghost use Rattle.slot_core.specs.Renewals.{MayBeRenewed};
ghost use Rattle.slot_core.specs.Resumptions.{checkpoint_of, start_with};
ghost use Rattle.stepped_die.specs.Names.{GoesOn, RefusesNames, pages_named};

use crate::die::SteppedDie;
use crate::mirror::MirrorNand;
use crate::part::Part;
use crate::refusals::StepCheckpointRefusal;
use die_checkpoint::{Checkpoint, CheckpointFault};
use die_mount::Mounted;
use slot_core::{CheckpointRefusal, DieCore, RenewalRefusal, ResumeRefusal};
use slot_types::{DiePlan, Items, PageData, Place, Refusal};
use std::alloc::Global;

/// What stands on a die at a quiet moment, with the names of its pages.
#[derive(Drop)]
pub struct NamedCheckpoint {
    pub checkpoint: Checkpoint,
    /// By logical page its name, which is blank where the page lies nowhere.
    pub names: Items<PageData>,
    /// What was known of the part: the block that stands aside, and the serial of the next program.
    pub part: Part,
}

/// By logical page the name of what its cell was programmed with; blank where it lies nowhere. Refused with `NoMemory` alone.
pub fn names_of(
    alloc: Global,
    device: &MirrorNand,
    places: &[Option<Place>],
) -> Result<Items<PageData>, Refusal>
    ensures names { IfOk result (λ names.
        names ≡ volume.contents device.now.memory.blocks places.now) }
    ensures refused { FailsForMemory result }
{
    let mut names = Items::new(alloc);
    for place in places {
        names.push(match *place {
            None => PageData::BLANK,
            Some(place) => device.cell(place),
        })?;
    }
    Ok(names)
}

impl SteppedDie {
    /// What stands at a quiet moment, as [`DieCore::checkpoint`], by logical page its name, which is what was written to it
    /// last, and what is known of the part. The die stays as it is. [`resume`](SteppedDie::resume) goes on from there as
    /// [`renew`](SteppedDie::renew) would have.
    ///
    /// Refused with `DieStopped` where a fault has stopped the die; else `Begun` where a slot has begun; else as the die refuses
    /// it, or with `NoMemory`.
    pub fn checkpoint(&mut self, alloc: Global) -> Result<NamedCheckpoint, StepCheckpointRefusal>
        ensures begun { self.old.core.stopped ≡ false
            → ((result ≡ Err StepCheckpointRefusal.Begun) ↔ IsSome self.old.begun) }
        ensures ok { IfOk result (λ taken.
            taken.checkpoint
            ≡ checkpoint_of (renewed_start self.old.core.start self.old.core.log)) }
        ensures names { IfOk result (λ taken.
            taken.names ≡ contents self.old.core.start self.old.core.log) }
        ensures goes_on { IfOk result (λ taken. start_with self.old.core.start.plan taken.checkpoint
            (pages_named taken.checkpoint.places taken.names)
            ≡ renewed_start self.old.core.start self.old.core.log) }
        ensures fits { IfOk result (λ taken. Fits self.old.core.start.plan taken.checkpoint) }
        ensures part { IfOk result (λ taken. taken.part ≡ self.old.part) }
        ensures may { OnOk result (MayBeRenewed self.old.core) }
        ensures cause { IfErr result (RefusesNames self.old) }
        ensures unchanged { self.new ≡ self.old }
    {
        if self.core.is_stopped() {
            return Err(StepCheckpointRefusal::Die(CheckpointRefusal::NotRenewable {
                why: RenewalRefusal::DieStopped,
            }));
        }
        if self.begun.is_some() {
            return Err(StepCheckpointRefusal::Begun);
        }
        let checkpoint = match self.core.checkpoint(alloc) {
            Ok(checkpoint) => checkpoint,
            Err(refusal) => return Err(StepCheckpointRefusal::Die(refusal)),
        };
        match names_of(alloc, self.core.device(), checkpoint.places.as_slice()) {
            Ok(names) => Ok(NamedCheckpoint {
                checkpoint,
                names,
                part: self.part,
            }),
            Err(_) => Err(StepCheckpointRefusal::Die(CheckpointRefusal::NoMemory)),
        }
    }

    /// A die that goes on from a checkpoint, over a device as it was left: at slot 0, with an empty log. `names` has by logical
    /// page the name of what lies there; a page that lies nowhere, or that has no name, is blank. `part` has the block aside
    /// and the serial of the next program, as the checkpoint had them; a part without labels has those of a fresh die
    /// ([`Part::fresh`]).
    ///
    /// The checkpoint stands from then on: no slot begins that would spend it, until its owner has said that it is void
    /// ([`checkpoint_void`](SteppedDie::checkpoint_void)).
    ///
    /// Refused with the first cause that stands, as [`CheckpointFault`] lists them.
    pub fn resume(
        alloc: Global,
        plan: DiePlan,
        checkpoint: &Checkpoint,
        names: &[PageData],
        part: Part,
    ) -> Result<SteppedDie, CheckpointFault>
        ensures ok { IfOk result (GoesOn plan checkpoint.now names.now) }
        ensures part { IfOk result (λ die. die.part ≡ record part { stands = true }) }
        ensures fits { OnOk result (Fits plan checkpoint.now) }
        ensures refused { IfErr result (HasCheckpointFault plan checkpoint.now) }
    {
        match checkpoint.check(alloc, &plan) {
            Ok(()) => {}
            Err(fault) => return Err(fault),
        }
        let mirror = match MirrorNand::left(alloc, &plan, checkpoint, names) {
            Ok(mirror) => mirror,
            Err(_) => return Err(CheckpointFault::NoMemory),
        };
        match DieCore::resume(alloc, plan, mirror, checkpoint) {
            Ok(core) => Ok(SteppedDie {
                core,
                begun: None,
                part: Part {
                    aside: part.aside,
                    serial: part.serial,
                    stands: true,
                },
            }),
            Err(no) => match no.refusal {
                ResumeRefusal::Unfit { fault } => Err(fault),
                // The mirror is of the plan's shape.
                ResumeRefusal::OtherDevice => unreachable!(),
            },
        }
    }

    /// A die that begins where a mount ended, on the part's blocks but the one aside: at slot 0, with an empty log and
    /// full accounts. `names` has by logical page the name of what lies there; a page that lies nowhere, or that has no
    /// name, is blank. Its programs go on with the mount's serials. There is no checkpoint that stands.
    ///
    /// Refused with the first cause that stands, as [`CheckpointFault`] lists them: with the plan of the mount that is
    /// `NoMemory` alone.
    pub fn mounted(
        alloc: Global,
        plan: DiePlan,
        end: &Mounted,
        names: &[PageData],
    ) -> Result<SteppedDie, CheckpointFault>
        ensures ok { IfOk result (GoesOn plan end.now.checkpoint names.now) }
        ensures part { IfOk result (λ die.
            die.part ≡ record { aside = end.now.aside; serial = end.now.next; stands = false }) }
        ensures fits { OnOk result (Fits plan end.now.checkpoint) }
        ensures refused { IfErr result (HasCheckpointFault plan end.now.checkpoint) }
    {
        let part = Part {
            aside: end.aside,
            serial: end.next,
            stands: false,
        };
        match SteppedDie::resume(alloc, plan, &end.checkpoint, names, part) {
            Ok(die) => Ok(SteppedDie {
                core: die.core,
                begun: die.begun,
                part,
            }),
            Err(fault) => Err(fault),
        }
    }
}
