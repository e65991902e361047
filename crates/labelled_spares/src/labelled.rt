//! A device with spare blocks keeps labels where its part does.

ghost use Rattle.std.specs.Prelude.{◌≡◌, false, IfOk, IfErr};
ghost use Rattle.labelled_nand.specs.PoweredUp.{IsPoweredUp};
ghost use Rattle.spare_blocks.specs.Powering.{IsPoweredPart, IsPoweredSpared};
ghost use Rattle.spare_blocks.specs.Preparing.{IsNewRefusal};
ghost use Rattle.spare_blocks.specs.Spares.{plan_shape, spared_blocks};
ghost use Rattle.labelled_spares.specs.Labels.{look_of, spared_labels};

use die_mount::Label;
use flash_die::Nand;
use labelled_nand::{LabelledNand, Look};
use slot_types::{PageData, Place, Refusal, Shape};
use spare_blocks::{Cell, LabelledWearing, NotPowered, SpareBlocks};
use std::alloc::Global;
use std::marker::Model;

/// What a cell shows that holds this.
fn look_of(cell: Option<Cell>) -> Look
    ensures { result ≡ look_of cell }
{
    match cell {
        None => Look::Blank,
        Some(cell) => match cell.mark {
            None => Look::Torn,
            Some(mark) => Look::Good {
                label: Label {
                    page: mark.page,
                    serial: mark.serial,
                },
                bytes: cell.bytes,
            },
        },
    }
}

/// A device with spare blocks, on a part that keeps labels. It is the device as it is ([`spares`](LabelledSpares::spares));
/// and its labels are those of the blocks that have its numbers.
#[derive(Drop)]
pub struct LabelledSpares<D: LabelledWearing> {
    spares: SpareBlocks<D>,
}

impl<D: LabelledWearing> Model for LabelledSpares<D> {
    ghost use Rattle.spare_blocks.specs.Spares.{Spared};

    ghost Value = { Spared D };

    ghost view = { λ d. d.spares };
}

impl<D: LabelledWearing> LabelledSpares<D> {
    /// The device, with its labels.
    pub fn new(spares: SpareBlocks<D>) -> Self
        ensures { result ≡ spares }
    {
        LabelledSpares { spares }
    }

    /// A device on a part whose power has come, as [`SpareBlocks::power_up`] makes it: it may be mounted.
    pub fn power_up(alloc: Global, part: D, blocks: u32, bad: &[u32]) -> Result<Self, NotPowered<D>>
        requires well { D.faulted part ≡ false }
        requires powered { IsPoweredPart (D.shape_of part) (D.blocks part) }
        ensures powered { IfOk result (IsPoweredSpared D.blocks
            (plan_shape blocks (D.shape_of part)) (D.shape_of part) (D.blocks part) bad.now) }
        ensures mountable { IfOk result (λ d. IsPoweredUp d.shape (spared_blocks D.blocks d)
            (spared_labels D.blocks D.next d) d.failures) }
        ensures refused { IfErr result (λ no. IsNewRefusal no.refusal) }
    {
        match SpareBlocks::power_up(alloc, part, blocks, bad) {
            Ok(spares) => Ok(LabelledSpares { spares }),
            Err(no) => Err(no),
        }
    }

    /// The device, to be asked how the part is, and what became of its blocks.
    pub fn spares(&self) -> &SpareBlocks<D>
        ensures { result.now ≡ self.now }
    {
        &self.spares
    }

    /// The device, given up with its labels.
    pub fn into_spares(self) -> SpareBlocks<D>
        ensures { result ≡ self }
    {
        self.spares
    }
}

impl<D: LabelledWearing> Nand for LabelledSpares<D> {
    ghost use Rattle.std.specs.Prelude.{false};
    ghost use Rattle.spare_blocks.specs.Spares.{spared_blocks};
    ghost use Rattle.labelled_spares.specs.Labels.{EndsLabelled};

    ghost shape_of = { λ d. d.shape };

    ghost blocks = { spared_blocks D.blocks };

    ghost failures = { λ d. d.failures };

    ghost ends = { EndsLabelled D.blocks D.next D.spent D.keeps_labels };

    ghost never_fails = { false };

    fn shape(&self) -> Shape {
        self.spares.shape()
    }

    fn read(&mut self, place: Place) -> Result<PageData, Refusal> {
        self.spares.read(place)
    }

    fn program(&mut self, place: Place, bytes: PageData) -> Result<(), Refusal> {
        self.spares.program(place, bytes)
    }

    fn program_page(&mut self, place: Place, page: u32, bytes: PageData) -> Result<(), Refusal> {
        self.spares.program_page(place, page, bytes)
    }

    fn erase_slot(&mut self, block: u32) -> Result<bool, Refusal> {
        self.spares.erase_slot(block)
    }
}

impl<D: LabelledWearing> LabelledNand for LabelledSpares<D> {
    ghost use Rattle.std.specs.Prelude.{refl, ⊤};
    ghost use Rattle.labelled_spares.specs.Labels.{spared_labels};

    ghost labels = { spared_labels D.blocks D.next };

    ghost lasts = { λ _. ⊤ };

    ghost follows = { λ before after call ended. ended.labels refl };

    ghost keeps = { λ before after call well ended lasts. lasts };

    fn number_from(&mut self, serial: u64) {
        self.spares.count_from(serial);
    }

    fn look(&mut self, place: Place) -> Result<Look, Refusal> {
        match self.spares.cell(place) {
            Ok(cell) => Ok(look_of(cell)),
            Err(refusal) => Err(refusal),
        }
    }
}
