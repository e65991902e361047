//! A die that stops.

ghost use Rattle.std.specs.Prelude.{◌≡◌, true};

use crate::die_core::DieCore;
use flash_die::Nand;

impl<N: Nand> DieCore<N> {
    /// Stops the die for good, as a fault of its device does: for an owner who knows that the device can't go on. Start,
    /// device and log stay, and what is reserved. A die that is stopped stays so.
    pub fn stop(&mut self)
        ensures { self.new ≡ record self.old { stopped = true } }
    {
        if self.volume.failed() {
            return;
        }
        self.volume.fail();
        self.table.stop(&[]);
    }
}
