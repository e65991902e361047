//! A device on all blocks of a part but one, which stands aside.

ghost use Rattle.std.specs.Prelude.{◌≡◌, ◌+◌, ◌<◌, true};
ghost use Rattle.power_loss.specs.Aside.{on_part, renumbered};
ghost use Rattle.labelled_die.specs.Beside.{beside_of, IsPartBeside};

use flash_die::Nand;
use labelled_nand::{LabelledNand, Look};
use slot_types::{PageData, Place, Refusal, Shape};
use std::marker::Model;

/// A device on all blocks of a part but one, which stands aside: the part's last block has the number of that one here.
/// Labels are the part's, and so is what lasts.
///
/// A call that fails on the part fails here, and so does each one after it, without a call of the part.
#[derive(Drop)]
pub struct BesideNand<N: LabelledNand> {
    part: N,
    /// The shape without the block aside.
    shape: Shape,
    aside: u32,
    failed: bool,
    /// How many calls were refused here after that.
    refused: u32,
}

impl<N: LabelledNand> Model for BesideNand<N> {
    ghost use Rattle.labelled_die.specs.Beside.{Beside, IsSoundBeside};

    ghost Value = { Beside N };

    ghost view = { λ d. record {
      part = d.part;
      shape = d.shape;
      aside = d.aside;
      failed = d.failed;
      refused = d.refused;
    } };

    ghost invariant = { λ d. IsSoundBeside N.never_fails N.shape_of N.blocks N.labels N.failures (record {
      part = d.part;
      shape = d.shape;
      aside = d.aside;
      failed = d.failed;
      refused = d.refused;
    }) };
}

impl<N: LabelledNand> BesideNand<N> {
    /// The blocks of a part that are left beside this one.
    pub fn new(part: N, aside: u32) -> Self
        requires part { IsPartBeside (N.shape_of part) (N.blocks part) (N.labels part) aside }
        ensures { result ≡ beside_of (N.shape_of part) part aside }
    {
        let shape = part.shape();
        BesideNand {
            part,
            shape: Shape {
                blocks: shape.blocks - 1,
                pages: shape.pages,
                erase_slots: shape.erase_slots,
            },
            aside,
            failed: false,
            refused: 0,
        }
    }

    /// The number that the part gives the block aside.
    pub fn aside(&self) -> u32
        ensures { result ≡ self.now.aside }
    {
        self.aside
    }

    /// Where no call has failed, the part is one of which this block stands aside. The body does nothing.
    pub fn stands_beside(&self)
        ensures part { N.failures self.now.part ≡ 0
            → IsPartBeside (N.shape_of self.now.part) (N.blocks self.now.part)
            (N.labels self.now.part) self.now.aside }
        ensures shape { N.shape_of self.now.part
            ≡ record self.now.shape { blocks = self.now.shape.blocks + 1 } }
    {
        let _ = &self.part;
    }

    /// The part, given up with the rest.
    pub fn into_part(self) -> N
        ensures { result ≡ self.part }
    {
        self.part
    }

    /// The number that the part gives a block.
    fn on_part(&self, block: u32) -> u32
        ensures { result ≡ on_part self.now.shape.blocks self.now.aside block }
    {
        if block == self.aside {
            self.shape.blocks
        } else {
            block
        }
    }

    /// The cell on the part.
    fn cell_on_part(&self, place: Place) -> Place
        ensures { result ≡ renumbered (on_part self.now.shape.blocks self.now.aside) place }
    {
        Place {
            block: self.on_part(place.block),
            page: place.page,
        }
    }

    /// A call that comes after one that failed.
    fn refuse(&mut self) -> Refusal
        requires failed { self.old.failed ≡ true }
        requires few { self.old.refused < 4294967295 }
        ensures refusal { result ≡ Refusal.DeviceFault }
        ensures counted { self.new ≡ record self.old { refused = self.old.refused + 1 } }
    {
        self.refused += 1;
        Refusal::DeviceFault
    }
}

impl<N: LabelledNand> Nand for BesideNand<N> {
    ghost use Rattle.std.specs.Prelude.{◌+◌};
    ghost use Rattle.labelled_die.specs.Beside.{blocks_beside, EndsBeside};

    ghost shape_of = { λ d. d.shape };

    ghost blocks = { blocks_beside N.blocks };

    ghost failures = { λ d. N.failures d.part + d.refused };

    ghost ends = { EndsBeside N.ends N.blocks N.labels };

    ghost never_fails = { N.never_fails };

    fn shape(&self) -> Shape {
        self.shape
    }

    fn read(&mut self, place: Place) -> Result<PageData, Refusal> {
        if self.failed {
            return Err(self.refuse());
        }
        let place = self.cell_on_part(place);
        let result = self.part.read(place);
        self.failed = result.is_err();
        result
    }

    fn program(&mut self, place: Place, bytes: PageData) -> Result<(), Refusal> {
        if self.failed {
            return Err(self.refuse());
        }
        let place = self.cell_on_part(place);
        let result = self.part.program(place, bytes);
        self.failed = result.is_err();
        result
    }

    fn program_page(&mut self, place: Place, page: u32, bytes: PageData) -> Result<(), Refusal> {
        if self.failed {
            return Err(self.refuse());
        }
        let place = self.cell_on_part(place);
        let result = self.part.program_page(place, page, bytes);
        self.failed = result.is_err();
        result
    }

    fn erase_slot(&mut self, block: u32) -> Result<bool, Refusal> {
        if self.failed {
            return Err(self.refuse());
        }
        let block = self.on_part(block);
        let result = self.part.erase_slot(block);
        self.failed = result.is_err();
        result
    }
}

impl<N: LabelledNand> LabelledNand for BesideNand<N> {
    ghost use Rattle.std.specs.Prelude.{refl};
    ghost use Rattle.labelled_die.specs.Beside.{keeps_beside, labels_beside};

    ghost labels = { labels_beside N.labels };

    ghost lasts = { λ d. N.lasts d.part };

    ghost follows = { λ before after call ended. ended.labelled refl };

    ghost keeps = { keeps_beside N.ends N.blocks N.labels N.lasts N.keeps };

    fn number_from(&mut self, serial: u64) {
        self.part.number_from(serial);
    }

    fn look(&mut self, place: Place) -> Result<Look, Refusal> {
        if self.failed {
            return Err(self.refuse());
        }
        let place = self.cell_on_part(place);
        let result = self.part.look(place);
        self.failed = result.is_err();
        result
    }
}
