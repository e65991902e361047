//! Collections: a block is chosen, its pages are copied elsewhere, and it is erased.

ghost use Rattle.std.specs.Prelude.{◌≡◌, ◌<◌, ℕ, true, false, Some, None, length, is_ok, IsOk, IsSome, IfOk};
ghost use Rattle.std.specs.Prelude.{IfSome, IfNone, OnOk, OnErr};
ghost use Rattle.slot_types.specs.Places.{place_of, owner_of};
ghost use Rattle.flash_die.specs.Flash.{block_at};
ghost use Rattle.flash_volume.specs.declared.collection.Collection.{Collection};
ghost use Rattle.flash_volume.specs.declared.collection.Copied.{Copied};
ghost use Rattle.flash_volume.specs.Running.{running_of};
ghost use Rattle.flash_volume.specs.Faults.{StopsWithDevice, FailsWithDevice};
ghost use Rattle.flash_volume.specs.Pages.{KeepsBooks, next_in};
ghost use Rattle.flash_volume.specs.Cells.{open_in};
ghost use Rattle.flash_volume.specs.Steps.{EndsStep};
ghost use Rattle.flash_volume.specs.Acts.{IsFirstInBlock, HasLeft, DoesBegin, Reads, Programs, Does};

use crate::collection::{Began, Collected, Collection, Copied};
use crate::volume::Volume;
use flash_die::{Nand, NandCall};
use slot_types::{Place, Refusal, TaskNo};

impl<N: Nand> Volume<N> {
    /// Begins a collection for a task that runs none.
    ///
    /// While at least `alpha` pages are spare it is waived: the task is given what a collection
    /// would give it, out of the spare pages. Else it takes its victim: of the closed blocks that
    /// no collection works on the one in which the fewest pages lie, of equal ones the one with the
    /// fewest finished erases, and of these the first. There always is one, and no more pages lie
    /// in it than the reserve can hold.
    ///
    /// `DieStopped` exactly where the volume has failed, which changes nothing.
    pub fn begin(&mut self, task: TaskNo) -> Result<Began, Refusal>
        requires task { task < length self.old.accounts.plan.caps }
        requires idle { running_of self.old.running task ≡ None }
        ensures began { IfOk result (λ began. DoesBegin N.blocks self.old task began self.new) }
        ensures stopped { self.old.failed ≡ true → result ≡ Err Refusal.DieStopped }
        ensures alive { self.old.failed ≡ false → IsOk result }
        ensures unchanged { OnErr result (self.new ≡ self.old) }
    {
        if self.array.failed() {
            return Err(Refusal::DieStopped);
        }
        match self.ledger.waive(task) {
            Some(given) => Ok(Began::Waived { given }),
            None => {
                let victim = self.array.take_victim();
                self.running[task.0 as usize] = Some(Collection {
                    victim,
                    buffer: None,
                });
                Ok(Began::Begun { victim })
            }
        }
    }

    /// Does one slot of the collection that the task runs, by one call of the device.
    ///
    /// It programs the page in its buffer, if that still lies where it was read; or else reads the
    /// first page that lies in its victim; or else does one slot of the victim's erase. After the
    /// last one the collection is done: the block's pages go into the accounts.
    ///
    /// `DieStopped` exactly where the volume has failed already, which changes nothing, or else
    /// `DeviceFault` exactly where the device's call failed: the volume has failed then.
    pub fn collect_slot(&mut self, task: TaskNo) -> Result<Collected, Refusal>
        requires task { task < length self.old.accounts.plan.caps }
        requires runs { IsSome (running_of self.old.running task) }
        requires few_erases { (c : Collection) → running_of self.old.running task ≡ Some c
            → (block_at (N.blocks self.old.device) c.victim).erases < 4294967295 }
        ensures once { self.old.failed ≡ false → (c : Collection)
            → running_of self.old.running task ≡ Some c
            → EndsStep N.ends N.blocks self.old c (is_ok result) self.new }
        ensures did { (c : Collection) → running_of self.old.running task ≡ Some c
            → IfOk result (λ did. Does N.blocks self.old task c did self.new) }
        ensures stays { OnErr result (KeepsBooks self.old self.new) }
        ensures stops { StopsWithDevice N.failures N.never_fails result self.old self.new }
    {
        if self.array.failed() {
            return Err(Refusal::DieStopped);
        }
        let collection = self.running[task.0 as usize].unwrap();
        match self.live_copy(collection) {
            Some(copied) => match self.program_copy(task, collection, copied) {
                Ok(()) => Ok(Collected::CopyProgram { page: copied.page }),
                Err(refusal) => Err(refusal),
            },
            None => match self.array.first_page(collection.victim) {
                Some((page, source)) => match self.read_copy(task, collection, page, source) {
                    Ok(()) => Ok(Collected::CopyRead { page }),
                    Err(refusal) => Err(refusal),
                },
                None => self.erase(task, collection),
            },
        }
    }

    /// The page in a collection's buffer, if it still lies where it was read.
    pub(crate) fn live_copy(&self, collection: Collection) -> Option<Copied>
        ensures some { IfSome result (λ copied. (collection.buffer ≡ Some copied)
            × (place_of self.now.places copied.page ≡ Some copied.source)) }
        ensures none { IfNone result (HasLeft self.now.places collection) }
    {
        match collection.buffer {
            Some(copied) if self.array.lies(copied.page, copied.source) => Some(copied),
            _ => None,
        }
    }

    /// Programs the page that a collection holds, which still lies where it was read.
    fn program_copy(
        &mut self,
        task: TaskNo,
        collection: Collection,
        copied: Copied,
    ) -> Result<(), Refusal>
        requires alive { self.old.failed ≡ false }
        requires task { task < length self.old.accounts.plan.caps }
        requires runs { running_of self.old.running task ≡ Some collection }
        requires holds { collection.buffer ≡ Some copied }
        requires lies { place_of self.old.places copied.page ≡ Some copied.source }
        ensures once { N.ends self.old.device
            (NandCall.Program (next_in N.blocks self.old) (Some copied.page) copied.bytes)
            (is_ok result) self.new.device }
        ensures finds { IsSome
            (open_in self.old.accounts.plan.shape.pages (N.blocks self.old.device)) }
        ensures did { OnOk result
            (Programs N.blocks self.old task collection copied.page self.new) }
        ensures stays { OnErr result (KeepsBooks self.old self.new) }
        ensures fails { FailsWithDevice N.failures N.never_fails result self.old self.new }
    {
        match self.array.write(copied.page, copied.bytes) {
            Err(refusal) => Err(refusal),
            Ok(()) => {
                self.ledger.spend_reserve(task);
                self.running[task.0 as usize] = Some(Collection {
                    victim: collection.victim,
                    buffer: None,
                });
                Ok(())
            }
        }
    }

    /// Reads the first page of a collection's victim into its buffer.
    fn read_copy(
        &mut self,
        task: TaskNo,
        collection: Collection,
        page: u32,
        source: Place,
    ) -> Result<(), Refusal>
        requires alive { self.old.failed ≡ false }
        requires task { task < length self.old.accounts.plan.caps }
        requires runs { running_of self.old.running task ≡ Some collection }
        requires left { HasLeft self.old.places collection }
        requires first { IsFirstInBlock self.old.places collection.victim page source }
        ensures once { N.ends self.old.device (NandCall.Read source) (is_ok result)
            self.new.device }
        ensures did { OnOk result (Reads N.blocks self.old task collection page self.new) }
        ensures stays { OnErr result (KeepsBooks self.old self.new) }
        ensures fails { FailsWithDevice N.failures N.never_fails result self.old self.new }
    {
        match self.array.read(page) {
            Err(refusal) => Err(refusal),
            Ok(bytes) => {
                self.array.pass(source);
                self.running[task.0 as usize] = Some(Collection {
                    victim: collection.victim,
                    buffer: Some(Copied {
                        page,
                        source,
                        bytes,
                    }),
                });
                Ok(())
            }
        }
    }

    /// Does one slot of the erase of a victim in which no page lies, and settles after the last.
    fn erase(&mut self, task: TaskNo, collection: Collection) -> Result<Collected, Refusal>
        requires alive { self.old.failed ≡ false }
        requires task { task < length self.old.accounts.plan.caps }
        requires runs { running_of self.old.running task ≡ Some collection }
        requires left { HasLeft self.old.places collection }
        requires unplaced { (page : ℕ) → page < self.old.accounts.plan.shape.pages
            → owner_of self.old.places (record { block = collection.victim; page = page }) ≡ None }
        requires few_erases { (block_at (N.blocks self.old.device) collection.victim).erases
            < 4294967295 }
        ensures once { N.ends self.old.device (NandCall.EraseSlot collection.victim) (is_ok result)
            self.new.device }
        ensures did { IfOk result (λ did. Does N.blocks self.old task collection did self.new) }
        ensures stays { OnErr result (KeepsBooks self.old self.new) }
        ensures fails { FailsWithDevice N.failures N.never_fails result self.old self.new }
    {
        let block = collection.victim;
        let reserve = self.ledger.reserve(task);
        let copied = self.ledger.plan().shape.pages - self.ledger.plan().alpha - reserve;
        match self.array.erase_slot(block) {
            Err(refusal) => Err(refusal),
            Ok(false) => {
                self.running[task.0 as usize] = Some(Collection {
                    victim: block,
                    buffer: None,
                });
                Ok(Collected::EraseSlot { block })
            }
            Ok(true) => {
                self.running[task.0 as usize] = None;
                let given = self.ledger.settle(task, copied);
                Ok(Collected::Finished { block, given })
            }
        }
    }
}
