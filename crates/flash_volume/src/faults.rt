//! A volume that counts as failed.

ghost use Rattle.std.specs.Prelude.{◌≡◌, true};

use crate::array::PageArray;
use crate::volume::Volume;
use flash_die::Nand;

impl<N: Nand> PageArray<N> {
    /// Counts the device as failed.
    pub(crate) fn fail(&mut self)
        ensures { self.new ≡ record self.old { failed = true } }
    {
        self.failed = true;
    }
}

impl<N: Nand> Volume<N> {
    /// Counts the device as failed, as a call of it that fails does. Nothing else changes.
    pub fn fail(&mut self)
        ensures { self.new ≡ record self.old { failed = true } }
    {
        self.array.fail();
    }
}
