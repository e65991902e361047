//! The device of a die, and what the die's log says of it.

ghost use Rattle.std.specs.Prelude.{◌≡◌, false, map};
ghost use Rattle.flash_volume.specs.Cells as volume;
ghost use Rattle.die_log.specs.Model.Flash.{cells, contents};
ghost use Rattle.slot_core.specs.Device.{counts_of};

use crate::die_core::DieCore;
use flash_die::Nand;

impl<N: Nand> DieCore<N> {
    /// The device. Until a fault stops the die it has the plan's shape, the programmed pages, the erase progress and the erases of each block
    /// are those that the log gives it, and where a page is placed the cell holds what the log last wrote there.
    pub fn device(&self) -> &N
        ensures device { result.now ≡ self.now.device }
        ensures blocks { self.now.stopped ≡ false
            → map counts_of (N.blocks self.now.device)
            ≡ (cells self.now.start self.now.log).blocks }
        ensures pages { self.now.stopped ≡ false
            → volume.contents (N.blocks self.now.device) (cells self.now.start self.now.log).places
            ≡ contents self.now.start self.now.log }
        ensures well { self.now.stopped ≡ false → N.failures self.now.device ≡ 0 }
        ensures shape { self.now.stopped ≡ false
            → N.shape_of self.now.device ≡ self.now.start.plan.shape }
    {
        self.volume.device()
    }
}
