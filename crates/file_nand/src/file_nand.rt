//! A device that keeps labels, and whose cells lie in a file.

ghost use Rattle.std.specs.Prelude.{◌≡◌, ◌+◌, ◌<◌, false, None};
ghost use Rattle.flash_die.specs.Calls.{FailsByFault};

use crate::cells::CellStore;
use crate::records::{ERASED, Record, record_of};
use crate::saves::{TEXT, VOID, seal_of, text_of};
use flash_die::Nand;
use labelled_nand::{LabelledMemory, LabelledNand, Look};
use saving_nand::{NotSaved, Saved, SavingNand};
use slot_types::{PageData, Place, Refusal, Shape};
use std::alloc::Global;
use std::io;
use std::marker::Model;

/// A device that keeps labels, and writes each cell to a store, as to a file, before the call that changes it ends. It
/// goes by a device in memory that has the same cells: contracts see that one, how many calls have failed, and what is
/// saved. A call fails where the store can't be written.
///
/// What the store has when the program is started again no contract says: that is the store's to keep (`CellStore`).
#[derive(Drop)]
pub struct FileNand<S: CellStore> {
    pub(crate) mirror: LabelledMemory,
    pub(crate) store: S,
    pub(crate) failed: u32,
    /// The serial of the next program.
    pub(crate) next: u64,
    pub(crate) saved: Option<Saved>,
    /// Whether the store may have something that is saved and not void.
    pub(crate) may_have: bool,
}

impl<S: CellStore> Model for FileNand<S> {
    ghost use Rattle.file_nand.specs.Filed.{Filed, IsSoundFiled};

    ghost Value = { Filed };

    ghost view = { λ d. record { marked = d.mirror; failed = d.failed; saved = d.saved } };

    ghost invariant = { λ d. IsSoundFiled d.next (record {
      marked = d.mirror;
      failed = d.failed;
      saved = d.saved;
    }) };
}

/// The first of a block's `pages` cells that a slot of an erase wipes, after `done` of its `slots` slots.
fn first_wiped(pages: u32, done: u32, slots: u32) -> u32 {
    let before = u64::from(pages) * u64::from(done);
    let share = before.checked_div(u64::from(slots)).unwrap_or(0);
    u32::try_from(share).unwrap_or(pages)
}

impl<S: CellStore> FileNand<S> {
    /// The store, given up with the rest.
    pub fn into_store(self) -> S {
        self.store
    }

    /// Saves a text in the store: first the text, and once it is there its seal.
    fn write_sealed(&mut self, text: &[u8]) -> io::Result<()>
        ensures { self.new ≡ self.old }
    {
        self.store.write_saved(TEXT, text)?;
        self.store.write_saved(0, &seal_of(text))
    }

    /// A write of the store has failed, while nothing is saved.
    fn fault(&mut self) -> Refusal
        requires few { self.old.failed < 4294967295 }
        requires void { self.old.saved ≡ None }
        ensures counted { self.new ≡ record self.old { failed = self.old.failed + 1 } }
        ensures refusal { result ≡ Refusal.DeviceFault }
    {
        self.failed += 1;
        Refusal::DeviceFault
    }

    /// Voids what is saved, before a call touches a cell.
    fn void(&mut self) -> Result<(), Refusal>
        requires few { self.old.failed < 4294967295 }
        ensures marked { self.new.marked ≡ self.old.marked }
        ensures void { self.new.saved ≡ None }
        ensures fails { FailsByFault false result self.old.failed self.new.failed }
    {
        self.saved = None;
        if !self.may_have {
            return Ok(());
        }
        if self.store.write_saved(0, &VOID).is_err() {
            return Err(self.fault());
        }
        self.may_have = false;
        Ok(())
    }

    /// Writes a cell to the store.
    fn write(&mut self, place: Place, kept: &Record) -> Result<(), Refusal>
        requires few { self.old.failed < 4294967295 }
        requires void { self.old.saved ≡ None }
        ensures void { self.new.saved ≡ None }
        ensures marked { self.new.marked ≡ self.old.marked }
        ensures fails { FailsByFault false result self.old.failed self.new.failed }
    {
        match self.store.write_cell(place, kept) {
            Ok(()) => Ok(()),
            Err(_) => Err(self.fault()),
        }
    }

    /// Writes to the store what a cell has now.
    fn keep(&mut self, place: Place) -> Result<(), Refusal>
        requires few { self.old.failed < 4294967295 }
        requires void { self.old.saved ≡ None }
        ensures void { self.new.saved ≡ None }
        ensures marked { self.new.marked ≡ self.old.marked }
        ensures fails { FailsByFault false result self.old.failed self.new.failed }
    {
        let kept = match self.mirror.cell(place) {
            Some(cell) => record_of(place, &cell),
            None => ERASED,
        };
        self.write(place, &kept)
    }

    /// Wipes cells of a block in the store: from this one on, up to that one.
    fn wipe(&mut self, block: u32, from: u32, to: u32) -> Result<(), Refusal>
        requires few { self.old.failed < 4294967295 }
        requires void { self.old.saved ≡ None }
        ensures void { self.new.saved ≡ None }
        ensures marked { self.new.marked ≡ self.old.marked }
        ensures fails { FailsByFault false result self.old.failed self.new.failed }
    {
        for page in from..to {
            self.write(Place { block, page }, &ERASED)?;
        }
        Ok(())
    }
}

impl<S: CellStore> Nand for FileNand<S> {
    ghost use Rattle.std.specs.Prelude.{false};
    ghost use Rattle.file_nand.specs.Filed.{filed_blocks, EndsFiled};

    ghost shape_of = { λ d. d.marked.shape };

    ghost blocks = { filed_blocks };

    ghost failures = { λ d. d.failed };

    ghost ends = { EndsFiled };

    ghost never_fails = { false };

    fn shape(&self) -> Shape {
        self.mirror.shape()
    }

    fn read(&mut self, place: Place) -> Result<PageData, Refusal> {
        match self.mirror.read(place) {
            Ok(bytes) => Ok(bytes),
            // A device in memory never fails.
            Err(_) => unreachable!(),
        }
    }

    fn program(&mut self, place: Place, bytes: PageData) -> Result<(), Refusal> {
        self.void()?;
        match self.mirror.program(place, bytes) {
            Ok(()) => self.keep(place),
            Err(_) => unreachable!(),
        }
    }

    fn program_page(&mut self, place: Place, page: u32, bytes: PageData) -> Result<(), Refusal> {
        self.void()?;
        match self.mirror.program_page(place, page, bytes) {
            Ok(()) => {
                self.next = self.next.saturating_add(1);
                self.keep(place)
            }
            Err(_) => unreachable!(),
        }
    }

    /// Each slot wipes its share of the block's cells, the last one those that are left.
    fn erase_slot(&mut self, block: u32) -> Result<bool, Refusal> {
        self.void()?;
        let Shape {
            pages,
            erase_slots,
            ..
        } = self.mirror.shape();
        let done = self.mirror.erasing(block);
        let from = first_wiped(pages, done, erase_slots);
        let to = first_wiped(pages, done.saturating_add(1), erase_slots);
        match self.mirror.erase_slot(block) {
            Ok(last) => {
                self.wipe(block, from, to)?;
                Ok(last)
            }
            Err(_) => unreachable!(),
        }
    }
}

impl<S: CellStore> LabelledNand for FileNand<S> {
    ghost use Rattle.std.specs.Prelude.{◌≡◌, None, refl};
    ghost use Rattle.file_nand.specs.Filed.{filed_labels};
    ghost use Rattle.saving_nand.specs.Saving.{void_stays};

    ghost labels = { filed_labels };

    ghost lasts = { λ d. d.saved ≡ None };

    ghost follows = { λ before after call ended. (ended.marked refl).labels };

    ghost keeps = { λ before after call well ended. void_stays call before.saved after.saved ended.saved };

    fn number_from(&mut self, serial: u64) {
        self.mirror.number_from(serial);
        self.next = serial;
    }

    fn look(&mut self, place: Place) -> Result<Look, Refusal> {
        match self.mirror.look(place) {
            Ok(look) => Ok(look),
            Err(_) => unreachable!(),
        }
    }
}

impl<S: CellStore> SavingNand for FileNand<S> {
    ghost saved = { λ d. d.saved };

    ghost voids = { λ before after call well ended. ended.saved };

    ghost stays_void = { λ device. (λ void. void, λ void. void) };

    fn next_serial(&self) -> u64 {
        self.next
    }

    fn save(&mut self, alloc: Global, saved: Saved) -> Result<(), NotSaved> {
        let Ok(text) = text_of(alloc, &saved) else {
            let refusal = Refusal::NoMemory;
            return Err(NotSaved { saved, refusal });
        };
        if let Err(refusal) = self.void() {
            return Err(NotSaved { saved, refusal });
        }
        self.may_have = true;
        if self.write_sealed(text.as_slice()).is_err() {
            let refusal = self.fault();
            return Err(NotSaved { saved, refusal });
        }
        self.saved = Some(saved);
        Ok(())
    }

    fn take_saved(&mut self) -> Result<Option<Saved>, Refusal> {
        let taken = self.saved.take();
        self.void()?;
        if let Some(saved) = &taken {
            self.mirror.number_from(saved.next);
            self.next = saved.next;
        }
        Ok(taken)
    }

    fn count_as_closed(&mut self) {
        self.mirror.power_comes();
        self.next = 0;
    }
}
