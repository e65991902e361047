//! The labels of a device with spare blocks.

ghost use Rattle.std.specs.Prelude.{◌≡◌, ◌<◌, false, slice_get, IfOk, OnOk};
ghost use Rattle.flash_die.specs.Calls.{FailsByFault};
ghost use Rattle.spare_blocks.specs.Spares.{numbered, spared_blocks};

use crate::blocks::{Health, SpareBlocks};
use crate::cells::Cell;
use crate::labelled::LabelledWearing;
use slot_types::{Place, Refusal};

impl<D: LabelledWearing> SpareBlocks<D> {
    /// From now on programs are numbered from this serial on.
    pub fn count_from(&mut self, serial: u64)
        ensures next { D.next self.new.part ≡ serial }
        ensures blocks { D.blocks self.new.part ≡ D.blocks self.old.part }
        ensures rest { self.new ≡ record self.old { part = self.new.part } }
    {
        self.part.number_from(serial);
    }

    /// What a cell of the plan's block of this number holds, with its label; none where it isn't programmed. The block
    /// isn't in erase. Refused with `DeviceFault` where the part has a fault.
    pub fn cell(&mut self, place: Place) -> Result<Option<Cell>, Refusal>
        requires in_range { place.block < self.old.shape.blocks }
        requires quiet { (numbered D.blocks self.old place.block).erasing ≡ 0 }
        requires few_failures { self.old.failures < 4294967295 }
        ensures cell { IfOk result (λ cell. cell
            ≡ slice_get (numbered D.blocks self.old place.block).cells place.page) }
        ensures blocks { OnOk result (D.blocks self.new.part ≡ D.blocks self.old.part) }
        ensures next { OnOk result (D.next self.new.part ≡ D.next self.old.part) }
        ensures rest { OnOk result (self.new ≡ record self.old { part = self.new.part }) }
        ensures fails { FailsByFault false result self.old.failures self.new.failures }
        ensures shape { self.new.shape ≡ self.old.shape }
    {
        if self.health == Health::Faulted {
            self.failures += 1;
            return Err(Refusal::DeviceFault);
        }
        let on = Place {
            block: self.table.on_part(place.block),
            page: place.page,
        };
        match self.part.look(on) {
            Ok(cell) => Ok(cell),
            Err(_) => {
                self.health = Health::Faulted;
                self.failures += 1;
                Err(Refusal::DeviceFault)
            }
        }
    }
}
