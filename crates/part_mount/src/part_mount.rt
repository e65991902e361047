//! A mount of a part on its way.

ghost use Rattle.std.specs.Prelude.{◌≡◌, true, false, IfErr, IsOk, List, Ok, OnOk};
ghost use Rattle.slot_types.specs.Places.{place_of};
ghost use Rattle.slot_types.specs.declared.pages.PageData.{PageData as Bytes};
ghost use Rattle.die_mount.specs.Mounting.{BeginsWith, IsStep, calls_left};
ghost use Rattle.die_mount.specs.Nexts.{BeginsFirst};
ghost use Rattle.power_loss.specs.Aside.{StandsOnPart, part_of};
ghost use Rattle.power_loss.specs.Labels.{Shown};
ghost use Rattle.power_loss.specs.Mounted.{all_count};
ghost use Rattle.part_mount.specs.Going.{GoesBySeen};
ghost use Rattle.part_mount.specs.OnPart.{BeginsToCount, IsSoundOnPart, on_part};
ghost use Rattle.labelled_nand.specs.PoweredUp.{IsPoweredUp};

use crate::carrying::carry_out;
use die_mount::{Mount, MountCall, Stage};
use labelled_nand::LabelledNand;
use slot_types::{PageData, Place, Refusal};
use std::marker::Model;

/// A mount of a part on its way: its calls are carried out on the part, one by one, until a die may begin there.
#[derive(Drop)]
pub struct PartMount<N: LabelledNand> {
    part: N,
    mount: Mount,
    /// The block that it erases first.
    erased: u32,
    /// What was read last.
    held: PageData,
    /// Whether a call of the part has failed.
    failed: bool,
}

/// The parts of a mount on its way, as [`into_parts`](PartMount::into_parts) gives them.
#[derive(Drop)]
pub struct MountParts<N> {
    pub part: N,
    pub mount: Mount,
    /// The block that it erases first.
    pub erased: u32,
    /// What was read last.
    pub held: PageData,
    /// Whether a call of the part has failed.
    pub failed: bool,
}

impl<N: LabelledNand> Model for PartMount<N> {
    ghost use Rattle.part_mount.specs.OnPart.{OnPart, IsSoundOnPart};

    ghost Value = { OnPart N };

    ghost view = { λ m. record {
      part = m.part;
      mount = m.mount;
      erased = m.erased;
      held = m.held;
      failed = m.failed;
    } };

    ghost invariant = { λ m. IsSoundOnPart N.never_fails N.shape_of N.blocks N.labels N.failures (record {
      part = m.part;
      mount = m.mount;
      erased = m.erased;
      held = m.held;
      failed = m.failed;
    }) };
}

impl<N: LabelledNand> PartMount<N> {
    /// A mount that begins on a part which was powered up, and for which it was made (`Mount::new`, `Mount::undo`):
    /// nothing was done of it yet.
    ///
    /// That the part is as a device that was powered up is the caller's to know: each block counts as closed, and a
    /// cell with a label holds the label's bytes. The device counts erases from power-up on, so none were reported to the
    /// mount before.
    pub fn new(part: N, mount: Mount) -> PartMount<N>
        requires powered { IsPoweredUp (N.shape_of part) (N.blocks part) (N.labels part)
            (N.failures part) }
        requires shape { N.shape_of part ≡ (part_of mount.plan).shape }
        requires first { BeginsFirst mount.plan mount }
        requires counts { BeginsToCount mount }
        ensures part { result.part ≡ part }
        ensures mount { result.mount ≡ mount }
        ensures well { result.failed ≡ false }
        ensures goes { (pages : List Bytes)
            → StandsOnPart mount.plan pages all_count (N.labels part).blocks
            → BeginsWith mount.plan (N.labels part).blocks mount
            → GoesBySeen N.labels pages (N.labels part).blocks result }
    {
        let erased = match mount.next() {
            Some(MountCall::EraseSlot { block }) => block,
            _ => unreachable!(),
        };
        PartMount {
            part,
            mount,
            erased,
            held: PageData::BLANK,
            failed: false,
        }
    }

    /// Carries out the call that comes next, and answers whether one came: none does once the mount has ended. A call
    /// is the read or the program of a copy, or one slot of an erase.
    ///
    /// Refused with `DeviceFault` where the part failed, in this call or in one before: then the mount is given up, and
    /// the part, powered up anew, may be mounted from the start.
    pub fn step(&mut self) -> Result<bool, Refusal>
        ensures step { result ≡ Ok true → IsStep self.old.mount self.new.mount }
        ensures goes_on { result ≡ Ok true → (pages : List Bytes) (seen : Shown)
            → GoesBySeen N.labels pages seen self.old → GoesBySeen N.labels pages seen self.new }
        ensures end { result ≡ Ok false → self.new ≡ self.old }
        ensures done { result ≡ Ok false → self.old.mount.stage ≡ Stage.Done }
        ensures well { self.old.failed ≡ false → IsOk result → self.new.failed ≡ false }
        ensures lasts { N.lasts self.old.part → N.lasts self.new.part }
        ensures fault { IfErr result (λ refusal. refusal ≡ Refusal.DeviceFault) }
        ensures failed { IfErr result (λ _. self.new.failed ≡ true) }
        ensures never { N.never_fails ≡ true → IsOk result }
    {
        if self.failed {
            return Err(Refusal::DeviceFault);
        }
        let Some(call) = self.mount.next() else {
            return Ok(false);
        };
        match carry_out(&mut self.part, &mut self.held, call) {
            Ok(()) => {
                self.mount.done();
                Ok(true)
            }
            Err(refusal) => {
                self.failed = true;
                Err(refusal)
            }
        }
    }

    /// How many calls may come yet.
    pub fn calls_left(&self) -> u64
        ensures { result ≡ calls_left self.now.mount }
    {
        self.mount.calls_left()
    }

    /// Carries out all calls that come yet. Refused with `DeviceFault` where the part failed, as
    /// [`step`](PartMount::step) is.
    pub fn carry_all(&mut self) -> Result<(), Refusal>
        ensures done { OnOk result (self.new.mount.stage ≡ Stage.Done) }
        ensures plan { OnOk result (self.new.mount.plan ≡ self.old.mount.plan) }
        ensures well { self.old.failed ≡ false → IsOk result → self.new.failed ≡ false }
        ensures goes_on { OnOk result ((pages : List Bytes) (seen : Shown)
            → GoesBySeen N.labels pages seen self.old → GoesBySeen N.labels pages seen self.new) }
        ensures lasts { N.lasts self.old.part → N.lasts self.new.part }
        ensures fault { IfErr result (λ refusal. refusal ≡ Refusal.DeviceFault) }
        ensures failed { IfErr result (λ _. self.new.failed ≡ true) }
        ensures never { N.never_fails ≡ true → IsOk result }
    {
        while self.step()? {}
        Ok(())
    }

    /// The cell in which a page lies now, from which it may be read. A page that the plan doesn't have lies nowhere.
    pub fn place(&self, page: u32) -> Option<Place>
        ensures { result ≡ place_of self.now.mount.cells.places page }
    {
        self.mount.place(page)
    }

    /// Its parts, and what is true of them.
    pub fn into_parts(self) -> MountParts<N>
        ensures whole { self
            ≡ on_part result.part result.mount result.erased result.held result.failed }
        ensures sound { IsSoundOnPart N.never_fails N.shape_of N.blocks N.labels N.failures self }
    {
        MountParts {
            part: self.part,
            mount: self.mount,
            erased: self.erased,
            held: self.held,
            failed: self.failed,
        }
    }
}
