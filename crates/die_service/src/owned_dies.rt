//! A die without a lock, as the run that owns it calls it.

ghost use Rattle.std.specs.Prelude.{◌≡◌};
ghost use Rattle.std.specs.Box.{box_value};

use crate::refused::RefusedAt;
use crate::work::Work;
use flash_die::Nand;
use slot_core::{DieCore, EventHead, ReplyNote, SlotNote};
use slot_types::LentOps;
use std::alloc::Global;
use std::marker::Model;

/// A die that its run has for itself: nobody else calls it, so no call takes a turn. Contracts see the die.
#[derive(Drop)]
pub(crate) struct OwnedDie<N: Nand> {
    core: Box<DieCore<N>>,
    alloc: Global,
}

impl<N: Nand> Model for OwnedDie<N> {
    ghost use Rattle.std.specs.Box.{box_value};
    ghost use Rattle.slot_core.specs.Core.{Core};

    ghost Value = { Core N };

    ghost view = { λ d. box_value d.core };
}

impl<N: Nand> OwnedDie<N> {
    pub(crate) fn new(alloc: Global, core: Box<DieCore<N>>) -> OwnedDie<N>
        ensures { result ≡ box_value core }
    {
        OwnedDie { core, alloc }
    }

    /// The die.
    pub(crate) fn into_core(self) -> Box<DieCore<N>>
        ensures { box_value result ≡ self }
    {
        self.core
    }
}

impl<N: Nand> Work for OwnedDie<N> {
    ghost use Rattle.die_service.specs.OwnRuns.{MayCallOwn};

    ghost does = { MayCallOwn N.ends N.failures N.never_fails };

    #[inline(always)]
    fn before(&mut self, _die: u32, _slot: u32) {}

    // Apart from the worker's loop, which mostly asks for slots.
    #[inline(never)]
    fn event(&mut self, head: EventHead, ops: &LentOps) -> Result<ReplyNote, RefusedAt> {
        let entries = self.core.len();
        match self.core.note(self.alloc, 0, head, ops) {
            Ok(note) => Ok(note),
            Err(refusal) => Err(RefusedAt { entries, refusal }),
        }
    }

    #[inline(always)]
    fn slot(&mut self) -> Result<SlotNote, RefusedAt> {
        let entries = self.core.len();
        match self.core.note_slot(self.alloc, 0) {
            Ok(note) => Ok(note),
            Err(refusal) => Err(RefusedAt { entries, refusal }),
        }
    }

    #[inline(always)]
    fn after(&mut self, _die: u32, _slot: u32) {}
}
