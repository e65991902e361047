//! The recorder's own device: it counts what is done to each block, and wears out.

ghost use Rattle.std.specs.Prelude.{◌≡◌, IfOk};

use flash_die::Nand;
use slot_types::{PageData, Place, Refusal, Shape};
use std::alloc::{AllocError, Global};

/// What was done to a block so far.
#[derive(Clone, Copy, Drop)]
pub(crate) struct Counts {
    pub(crate) reads: u32,
    pub(crate) programs: u32,
    pub(crate) erases: u32,
}

const UNUSED: Counts = Counts {
    reads: 0,
    programs: 0,
    erases: 0,
};

const READ: Counts = Counts { reads: 1, ..UNUSED };

const PROGRAM: Counts = Counts {
    programs: 1,
    ..UNUSED
};

const ERASE: Counts = Counts {
    erases: 1,
    ..UNUSED
};

/// The counts of a device, by block.
#[derive(Drop)]
pub(crate) struct Tally {
    blocks: Vec<Counts>,
}

/// A device that passes each call on to `chip`, counts it under its block, and fails the next erase of a block that
/// had `endurance` of them. In a driver, the commands of a real chip stand where `chip` is called.
#[derive(Drop)]
pub(crate) struct WearNand<N: Nand> {
    chip: N,
    endurance: u32,
    tally: Tally,
    failed: u32,
}

impl Tally {
    fn new(alloc: Global, blocks: u32) -> Result<Tally, AllocError> {
        Ok(Tally {
            blocks: vec![in alloc; UNUSED; blocks as usize]?,
        })
    }

    /// The counts of each block, from block 0.
    pub(crate) fn blocks(&self) -> &[Counts] {
        self.blocks.as_slice()
    }

    fn erases(&self, block: u32) -> u32 {
        match self.blocks.get(block as usize) {
            Some(counts) => counts.erases,
            None => 0,
        }
    }

    fn add(&mut self, block: u32, more: Counts) {
        if let Some(counts) = self.blocks.get_mut(block as usize) {
            counts.reads = counts.reads.saturating_add(more.reads);
            counts.programs = counts.programs.saturating_add(more.programs);
            counts.erases = counts.erases.saturating_add(more.erases);
        }
    }
}

impl<N: Nand> WearNand<N> {
    /// Wears `chip` out after `endurance` erases of a block. The device is fresh where `chip` is.
    pub(crate) fn new(alloc: Global, chip: N, endurance: u32) -> Result<Self, AllocError>
        ensures chip { IfOk result (λ device. device.chip ≡ chip) }
        ensures well { IfOk result (λ device. device.failed ≡ 0) }
    {
        let tally = Tally::new(alloc, chip.shape().blocks)?;
        Ok(WearNand {
            chip,
            endurance,
            tally,
            failed: 0,
        })
    }

    pub(crate) fn tally(&self) -> &Tally {
        &self.tally
    }
}

impl<N: Nand> Nand for WearNand<N> {
    ghost use Rattle.std.specs.Prelude.{◌+◌, ⊤, false};

    ghost shape_of = { λ d. N.shape_of d.chip };

    ghost blocks = { λ d. N.blocks d.chip };

    ghost failures = { λ d. N.failures d.chip + d.failed };

    ghost ends = { λ _ _ _ _. ⊤ };

    ghost never_fails = { false };

    fn shape(&self) -> Shape {
        self.chip.shape()
    }

    fn read(&mut self, place: Place) -> Result<PageData, Refusal> {
        self.tally.add(place.block, READ);
        self.chip.read(place)
    }

    fn program(&mut self, place: Place, bytes: PageData) -> Result<(), Refusal> {
        self.tally.add(place.block, PROGRAM);
        self.chip.program(place, bytes)
    }

    fn program_page(&mut self, place: Place, page: u32, bytes: PageData) -> Result<(), Refusal> {
        self.tally.add(place.block, PROGRAM);
        self.chip.program_page(place, page, bytes)
    }

    fn erase_slot(&mut self, block: u32) -> Result<bool, Refusal> {
        if self.tally.erases(block) >= self.endurance {
            self.failed += 1;
            return Err(Refusal::DeviceFault);
        }
        let last = self.chip.erase_slot(block)?;
        if last {
            self.tally.add(block, ERASE);
        }
        Ok(last)
    }
}
