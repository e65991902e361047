//! Where the pages of a die lie.

ghost use Rattle.std.specs.Prelude.{◌≡◌};
ghost use Rattle.slot_types.specs.Places.{place_of};
ghost use Rattle.die_log.specs.Model.Flash.{cells};

use crate::die_core::DieCore;
use flash_die::Nand;
use slot_types::Place;

impl<N: Nand> DieCore<N> {
    /// The cell in which a logical page lies; none where it was never written, or was trimmed since, or where the die
    /// doesn't have it. A die that a fault has stopped answers, too: so what its device still reads isn't out of reach.
    pub fn place(&self, page: u32) -> Option<Place>
        ensures { result ≡ place_of (cells self.now.start self.now.log).places page }
    {
        let _device = self.volume.device();
        if page >= self.volume.pages() {
            return None;
        }
        self.volume.place(page)
    }
}
