//! What comes next on a volume, and changes nothing: which call of the device it will make.

ghost use Rattle.std.specs.Prelude.{◌≡◌, ◌<◌, ℕ, false, None, Some, length, slice_index, IsSome, IfSome, IfNone};
ghost use Rattle.slot_types.specs.Places.{place_of};
ghost use Rattle.plan_rules.specs.Accounts.{given_of};
ghost use Rattle.flash_volume.specs.declared.collection.Collection.{Collection};
ghost use Rattle.flash_die.specs.Flash.{block_at};
ghost use Rattle.flash_volume.specs.Acts.{HasDropped, HasLeft};
ghost use Rattle.flash_volume.specs.Cells.{filled_of, open_in};
ghost use Rattle.flash_volume.specs.Pages.{next_in};
ghost use Rattle.flash_volume.specs.Picks.{IsCandidate};
ghost use Rattle.flash_volume.specs.Running.{running_of};
ghost use Rattle.flash_volume.specs.Steps.{IsCollectStep, IsFirstStep};

use crate::collection::{CollectStep, Collection, Copied};
use crate::volume::Volume;
use flash_die::Nand;
use slot_types::{Place, TaskNo};

impl<N: Nand> Volume<N> {
    /// How many pages nobody has a claim on.
    pub fn spare(&self) -> u32
        ensures { result ≡ self.now.accounts.spare }
    {
        self.ledger.spare()
    }

    /// How many pages a collection of the task would give it now, done or waived.
    pub fn given(&self, task: TaskNo) -> u32
        requires { task < length self.now.accounts.plan.caps }
        ensures { result ≡ given_of self.now.accounts task }
    {
        self.ledger.given(task)
    }

    /// The cell in which a page lies, if it lies in one: a read of the page reads this cell.
    pub fn place(&self, page: u32) -> Option<Place>
        requires { page < length self.now.pages }
        ensures { result ≡ place_of self.now.places page }
    {
        self.array.place(page)
    }

    /// The cell that a write of the task programs next. The task holds a page, so there is one.
    pub fn next_place(&self, task: TaskNo) -> Place
        requires alive { self.now.failed ≡ false }
        requires task { task < length self.now.accounts.plan.caps }
        requires held { 0 < slice_index self.now.accounts.holds task }
        ensures place { result ≡ next_in N.blocks self.now }
        ensures finds { IsSome
            (open_in self.now.accounts.plan.shape.pages (N.blocks self.now.device)) }
    {
        let _task = task;
        self.array.next_cell()
    }

    /// What the collection that the task runs does in its next slot, by one call of the device.
    pub fn next_step(&self, task: TaskNo) -> CollectStep
        requires alive { self.now.failed ≡ false }
        requires task { task < length self.now.accounts.plan.caps }
        requires runs { IsSome (running_of self.now.running task) }
        ensures { (c : Collection) → running_of self.now.running task ≡ Some c
            → IsCollectStep N.blocks self.now c result }
    {
        let collection = self.running[task.0 as usize].unwrap();
        match self.live_copy(collection) {
            Some(copied) => self.program_step(task, collection, copied),
            None => self.read_or_erase(collection),
        }
    }

    /// What a collection that begins now does in its first slot, by one call of the device: on the block that it takes,
    /// of the closed ones that no collection works on. There is none where no block is such a one.
    pub fn first_step(&self) -> Option<CollectStep>
        requires alive { self.now.failed ≡ false }
        ensures step { IfSome result (IsFirstStep N.blocks self.now) }
        ensures none { IfNone result ((block : ℕ) →
            ¬ IsCandidate self.now.accounts.plan.shape.pages (N.blocks self.now.device)
            self.now.running block) }
    {
        match self.array.victim() {
            None => None,
            Some(victim) => Some(self.read_or_erase(Collection {
                victim,
                buffer: None,
            })),
        }
    }

    /// The program of the page that a collection holds, which still lies where it was read.
    fn program_step(&self, task: TaskNo, collection: Collection, copied: Copied) -> CollectStep
        requires alive { self.now.failed ≡ false }
        requires task { task < length self.now.accounts.plan.caps }
        requires runs { running_of self.now.running task ≡ Some collection }
        requires holds { collection.buffer ≡ Some copied }
        requires lies { place_of self.now.places copied.page ≡ Some copied.source }
        ensures { IsCollectStep N.blocks self.now collection result }
    {
        let _task = task;
        CollectStep::Program {
            page: copied.page,
            place: self.array.next_cell(),
            bytes: copied.bytes,
        }
    }

    /// The read of the first page of a collection's victim, or else a slot of its erase, of one that holds no page that
    /// still lies in it.
    fn read_or_erase(&self, collection: Collection) -> CollectStep
        requires alive { self.now.failed ≡ false }
        requires in_range { collection.victim < length (N.blocks self.now.device) }
        requires closed { filled_of (block_at (N.blocks self.now.device) collection.victim)
            ≡ self.now.accounts.plan.shape.pages }
        requires dropped { HasDropped self.now.places collection }
        requires left { HasLeft self.now.places collection }
        ensures { IsCollectStep N.blocks self.now collection result }
    {
        match self.array.first_page(collection.victim) {
            Some((page, source)) => CollectStep::Read { page, source },
            None => CollectStep::Erase {
                block: collection.victim,
            },
        }
    }
}
