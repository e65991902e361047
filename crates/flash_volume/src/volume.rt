//! A volume: an array of pages on a flash device, and the accounts of its free pages.

ghost use Rattle.std.specs.Prelude.{◌≡◌, ◌-◌, ◌<◌, ◌≤◌, ◌↔◌, ℕ, true, false, Some, None, length, slice_index};
ghost use Rattle.std.specs.Prelude.{is_ok, IsOk, IsSome, IfOk, IfErr, OnOk, OnErr};
ghost use Rattle.slot_types.specs.Refusal.{FailsForMemory};
ghost use Rattle.slot_types.specs.declared.pages.Place.{Place};
ghost use Rattle.slot_types.specs.Places.{place_of};
ghost use Rattle.plan_rules.specs.Bound.{MeetsBound};
ghost use Rattle.plan_rules.specs.Accounts.{total_of, accounts_after_admit};
ghost use Rattle.flash_die.specs.Flash.{IsFresh, IsProgrammed, blank, blocks_after_program};
ghost use Rattle.flash_volume.specs.Cells.{first_worn, open_in, contents, free_cells};
ghost use Rattle.flash_volume.specs.Running.{running_of};
ghost use Rattle.flash_volume.specs.State.{fresh_volume, trimmed_volume};
ghost use Rattle.flash_volume.specs.Faults.{StopsWithDevice};
ghost use Rattle.flash_volume.specs.Pages.{HasRead, HasWritten, KeepsBooks, next_in};

use crate::array::PageArray;
use crate::collection::Collection;
use crate::memory::VolumeMemory;
use flash_die::{Nand, NandCall};
use page_ledger::Ledger;
use slot_types::{DiePlan, PageData, Refusal, TaskNo};
use std::alloc::Global;
use std::marker::Model;

/// An array of pages on a flash device, and the accounts of its free pages.
///
/// Contracts see whether it has failed, what each page holds, the accounts with their plan, the
/// device, where each page lies, and by task the collection that runs. What the pages hold is
/// read off the device and the places.
///
/// Once a call of the device has failed the volume has failed: the calls that may change it answer
/// `DieStopped`, and nothing is known of its pages, its accounts and its cells but the plan.
#[derive(Drop)]
pub struct Volume<N: Nand> {
    pub(crate) ledger: Ledger,
    pub(crate) array: PageArray<N>,
    /// By task the collection that runs.
    pub(crate) running: Vec<Option<Collection>>,
}

impl<N: Nand> Model for Volume<N> {
    ghost use Rattle.std.specs.Prelude.{◌≡◌, false};
    ghost use Rattle.flash_volume.specs.State.{State};
    ghost use Rattle.flash_volume.specs.Cells.{contents};
    ghost use Rattle.flash_volume.specs.SoundVolume.{IsSoundVolume};

    ghost Value = { State N };

    ghost view = { λ v. record {
      failed = v.array.failed;
      pages = contents (N.blocks v.array.device) v.array.placing.places;
      accounts = v.ledger;
      device = v.array.device;
      places = v.array.placing.places;
      running = v.running.items;
    } };

    ghost invariant = { λ v. v.array.failed ≡ false
        → IsSoundVolume v.ledger (N.shape_of v.array.device) (N.failures v.array.device) (N.blocks v.array.device) v.array.placing
        v.array.candidates v.running.items };
}

impl<N: Nand> Volume<N> {
    /// A volume on which nothing was written.
    ///
    /// The plan meets its bound, and the device is fresh and of the plan's shape. `NoMemory`
    /// where memory is refused; plan and device are given up then. No other call needs memory.
    pub fn new(alloc: Global, plan: DiePlan, device: N) -> Result<Self, Refusal>
        requires bound { MeetsBound plan }
        requires shape { N.shape_of device ≡ plan.shape }
        requires fresh { IsFresh (N.shape_of device) (N.blocks device) (N.failures device) }
        ensures ok { IfOk result (λ volume. volume ≡ fresh_volume plan device) }
        ensures err { FailsForMemory result }
    {
        Ok(VolumeMemory::take(alloc, plan)?.begin(device))
    }

    /// The plan of the die.
    pub fn plan(&self) -> &DiePlan
        ensures { result.now ≡ self.now.accounts.plan }
    {
        self.ledger.plan()
    }

    /// The device. Each page that was written holds what its cell holds; until the volume fails
    /// these cells are programmed, and the device has the plan's shape.
    pub fn device(&self) -> &N
        ensures device { result.now ≡ self.now.device }
        ensures pages { self.now.pages ≡ contents (N.blocks self.now.device) self.now.places }
        ensures placed { self.now.failed ≡ false → (page : ℕ) (place : Place)
            → place_of self.now.places page ≡ Some place
            → IsProgrammed (N.blocks self.now.device) place }
        ensures shape { self.now.failed ≡ false
            → N.shape_of self.now.device ≡ self.now.accounts.plan.shape }
        ensures well { self.now.failed ≡ false → N.failures self.now.device ≡ 0 }
    {
        self.array.device()
    }

    /// Whether a call of the device has failed.
    pub fn failed(&self) -> bool
        ensures { result ≡ self.now.failed }
    {
        self.array.failed()
    }

    /// The first block that was erased more than `most` times, if there is one. It looks at no page.
    pub fn first_worn(&self, most: u32) -> Option<u32>
        requires alive { self.now.failed ≡ false }
        ensures { result ≡ first_worn most (N.blocks self.now.device) }
    {
        self.array.first_worn(most)
    }

    /// How many pages there are: each below this may be read, written and trimmed. Until the volume fails these are the
    /// plan's logical pages, and no call changes their number.
    pub fn pages(&self) -> u32
        ensures pages { result ≡ length self.now.pages }
        ensures logical { self.now.failed ≡ false → result ≡ self.now.accounts.plan.logical }
    {
        self.array.pages()
    }

    /// How many pages the task's accepted jobs are still to write.
    pub fn hold(&self, task: TaskNo) -> u32
        requires { task < length self.now.accounts.plan.caps }
        ensures { result ≡ slice_index self.now.accounts.holds task }
    {
        self.ledger.hold(task)
    }

    /// How many pages the task's collector may still program.
    pub fn reserve(&self, task: TaskNo) -> u32
        requires { task < length self.now.accounts.plan.caps }
        ensures { result ≡ slice_index self.now.accounts.reserves task }
    {
        self.ledger.reserve(task)
    }

    /// Whether the task runs a collection.
    pub fn is_collecting(&self, task: TaskNo) -> bool
        ensures runs { result ≡ true ↔ IsSome (running_of self.now.running task) }
        ensures idle { result ≡ false ↔ running_of self.now.running task ≡ None }
    {
        matches!(self.running.get(task.0 as usize), Some(Some(_)))
    }

    /// How many pages the task's next jobs may write.
    pub fn balance(&self, task: TaskNo) -> u32
        requires { task < length self.now.accounts.plan.caps }
        ensures { result ≡ slice_index self.now.accounts.balances task }
    {
        self.ledger.balance(task)
    }

    /// How many pages are in all accounts. Until the volume fails these are its free cells, those
    /// of a block in erase not counted.
    pub fn free(&self) -> u32
        ensures total { result ≡ total_of self.now.accounts }
        ensures cells { self.now.failed ≡ false
            → result ≡ free_cells self.now.accounts.plan.shape.pages (N.blocks self.now.device) }
    {
        self.ledger.total()
    }

    /// Moves the pages that a job of the task is to write from its balance to its hold.
    ///
    /// `DieStopped` exactly where the volume has failed, or else `NoTokens`, with the balance and
    /// `writes`, exactly where the balance is below `writes`. A refusal changes nothing.
    pub fn admit(&mut self, task: TaskNo, writes: u32) -> Result<(), Refusal>
        requires { task < length self.old.accounts.plan.caps }
        ensures stopped { (result ≡ Err Refusal.DieStopped) ↔ (self.old.failed ≡ true) }
        ensures accepted { self.old.failed ≡ false
            → (IsOk result ↔ writes ≤ slice_index self.old.accounts.balances task) }
        ensures refused { self.old.failed ≡ false → IfErr result (λ refusal. refusal
            ≡ Refusal.NoTokens (slice_index self.old.accounts.balances task) writes) }
        ensures ok { OnOk result (self.new
            ≡ record self.old { accounts = accounts_after_admit self.old.accounts task writes }) }
        ensures err { OnErr result (self.new ≡ self.old) }
    {
        if self.array.failed() {
            return Err(Refusal::DieStopped);
        }
        self.ledger.admit(task, writes)
    }

    /// What a page holds. A page that was never written is blank, and calls no device; any other is read by one call of
    /// it.
    ///
    /// `DieStopped` exactly where the volume has failed already, which changes nothing, or else
    /// `DeviceFault` exactly where the device's call failed: the volume has failed then.
    pub fn read(&mut self, page: u32) -> Result<PageData, Refusal>
        requires { page < length self.old.pages }
        ensures once { self.old.failed ≡ false → (place : Place)
            → place_of self.old.places page ≡ Some place
            → N.ends self.old.device (NandCall.Read place) (is_ok result) self.new.device }
        ensures unwritten { place_of self.old.places page ≡ None → self.new ≡ self.old }
        ensures read { IfOk result (λ bytes. HasRead N.blocks page bytes self.old self.new) }
        ensures books { KeepsBooks self.old self.new }
        ensures stops { StopsWithDevice N.failures N.never_fails result self.old self.new }
    {
        if self.array.failed() {
            return Err(Refusal::DieStopped);
        }
        self.array.read(page)
    }

    /// Writes a page by one call of the device, with one of the pages that the task holds. A free cell is always found.
    ///
    /// `DieStopped` exactly where the volume has failed already, which changes nothing, or else
    /// `DeviceFault` exactly where the device's call failed: the volume has failed then.
    pub fn write(&mut self, task: TaskNo, page: u32, bytes: PageData) -> Result<(), Refusal>
        requires task { task < length self.old.accounts.plan.caps }
        requires page { page < length self.old.pages }
        requires held { 0 < slice_index self.old.accounts.holds task }
        ensures once { self.old.failed ≡ false
            → N.ends self.old.device
            (NandCall.Program (next_in N.blocks self.old) (Some page) bytes)
            (is_ok result) self.new.device }
        ensures finds { self.old.failed ≡ false
            → IsSome (open_in self.old.accounts.plan.shape.pages (N.blocks self.old.device)) }
        ensures written { OnOk result (HasWritten N.blocks task page bytes self.old self.new) }
        ensures stays { OnErr result (KeepsBooks self.old self.new) }
        ensures stops { StopsWithDevice N.failures N.never_fails result self.old self.new }
    {
        if self.array.failed() {
            return Err(Refusal::DieStopped);
        }
        match self.array.write(page, bytes) {
            Err(refusal) => Err(refusal),
            Ok(()) => {
                self.ledger.spend_hold(task);
                Ok(())
            }
        }
    }

    /// Makes a page blank: it lies nowhere until it is written again. It takes no token and no memory and calls no
    /// device, and leaves the accounts and the running collections; a copy of the page that a collection has read is
    /// dropped in that one's next slot. A page that was never written stays as it is.
    ///
    /// `DieStopped` exactly where the volume has failed, which changes nothing.
    pub fn trim(&mut self, page: u32) -> Result<(), Refusal>
        requires { page < length self.old.pages }
        ensures trimmed { OnOk result (self.new ≡ trimmed_volume self.old page) }
        ensures stopped { self.old.failed ≡ true → result ≡ Err Refusal.DieStopped }
        ensures alive { self.old.failed ≡ false → IsOk result }
        ensures unchanged { OnErr result (self.new ≡ self.old) }
    {
        if self.array.failed() {
            return Err(Refusal::DieStopped);
        }
        self.array.trim(page);
        Ok(())
    }
}
