//! Devices on parts whose blocks fail.

ghost use Rattle.std.specs.Prelude.{◌≡◌, true, IfOk};
ghost use Rattle.flash_die.specs.Flash.{IsFresh, IsProgrammed};
ghost use Rattle.spare_blocks.specs.Spares.{spared_blocks};

use flash_die::Nand;
use slot_types::{PageData, Place, Refusal, Shape};
use spare_blocks::{Failures, SpareBlocks, WearingMemory};
use std::alloc::Global;

/// A device on a part in memory whose blocks fail.
pub(crate) type Device = SpareBlocks<WearingMemory>;

pub(crate) const PAGES: u32 = 4;

pub(crate) const ERASE_SLOTS: u32 = 3;

/// A device of `blocks` blocks on a part that has `spares` more, of which these fail.
pub(crate) fn device(
    alloc: Global,
    blocks: u32,
    spares: u32,
    failures: Failures,
) -> Result<Device, Refusal>
    ensures { IfOk result (λ d. IsFresh d.shape (spared_blocks (λ p. p.blocks) d) d.failures) }
{
    let shape = Shape {
        blocks: blocks.saturating_add(spares),
        pages: PAGES,
        erase_slots: ERASE_SLOTS,
    };
    let part = WearingMemory::new(alloc, shape, 0, failures)?;
    SpareBlocks::new(alloc, part, blocks, &[])
}

/// Whether a cell is programmed, in a block that isn't in erase: so it may be read.
fn may_read(device: &Device, place: Place) -> bool
    ensures { result ≡ true → IsProgrammed (spared_blocks (λ p. p.blocks) device.now) place }
{
    match device.on_part(place.block) {
        None => false,
        Some(on) => {
            let cell = Place {
                block: on,
                page: place.page,
            };
            match device.part().held(cell) {
                None => false,
                Some(_) => device.part().slots_done(on) == 0,
            }
        }
    }
}

/// The bytes of a cell, read from the device, whatever became of it; none where it isn't programmed.
pub(crate) fn read_cell(device: &mut Device, place: Place) -> Option<PageData> {
    if !may_read(device, place) || device.failures() == u32::MAX {
        return None;
    }
    match device.read(place) {
        Ok(bytes) => Some(bytes),
        Err(_) => None,
    }
}
