//! A call of the driver's that failed, and what the table is asked.

ghost use Rattle.std.specs.Prelude.{◌≡◌, ◌<◌, ◌≤◌, ◌+◌, ◌*◌, length, IfSome, IsNone};
ghost use Rattle.spare_blocks.specs.Tables.{IsTable, on_part, use_of, spares_in};
ghost use Rattle.spare_blocks.specs.declared.cells.BlockUse.TheVariants as use_as;
ghost use Rattle.stepped_spares.specs.Stepping.{IsNextFill, IsReplacedOr, calls_left};

use crate::moves::Stage;
use crate::table::{SpareTable, next_fill};
use slot_types::Place;
use spare_blocks::BlockUse;

impl SpareTable {
    /// A program of the cell with this number and page failed. A spare block is to be filled with the cells before it,
    /// and with that program, before it takes the number: [`next`](SpareTable::next) says how. Where no spare block is
    /// left, the table stays as it is and worn out.
    ///
    /// Each spare block that is tried costs two calls of the part for each cell before the one that failed, and one.
    pub fn program_failed(&mut self, place: Place)
        requires working { self.old.stage ≡ Stage.Working }
        requires number { place.block < length self.old.table.blocks }
        requires page { place.page < self.old.pages }
        ensures table { self.new.table ≡ self.old.table }
        ensures pages { self.new.pages ≡ self.old.pages }
        ensures next { IsNextFill self.old.table place.block place.page self.new.stage }
        ensures calls { calls_left self.new ≤ (2 * place.page + 1) * spares_in self.old.table }
        ensures sound { IsTable self.old.table }
    {
        let _ = self.table.count();
        self.stage = next_fill(&self.table, place.block, place.page);
    }

    /// The last slot of the erase of the block of this number failed. A spare block has the number now; where none is
    /// left, the table stays as it is and worn out.
    pub fn erase_failed(&mut self, number: u32)
        requires working { self.old.stage ≡ Stage.Working }
        requires number { number < length self.old.table.blocks }
        ensures replaced { IsReplacedOr number (λ t s. s ≡ Stage.Working) self.old self.new }
        ensures pages { self.new.pages ≡ self.old.pages }
    {
        match self.table.first_spare() {
            Some(spare) => self.table.replace(number, spare),
            None => self.stage = Stage::WornOut,
        }
    }

    /// How far the table is.
    pub fn stage(&self) -> Stage
        ensures { result ≡ self.now.stage }
    {
        self.stage
    }

    /// How many pages a block has.
    pub fn pages(&self) -> u32
        ensures { result ≡ self.now.pages }
    {
        self.pages
    }

    /// How many blocks have a number.
    pub fn blocks(&self) -> u32
        ensures { result ≡ length self.now.table.blocks }
    {
        self.table.count() as u32
    }

    /// The part's block that has this number; none where there is no such number.
    pub fn on_part(&self, number: u32) -> Option<u32>
        ensures number { IfSome result (λ x. x ≡ on_part self.now.table number) }
        ensures block { IfSome result (λ x. use_of self.now.table x ≡ use_as.InPlan number) }
        ensures within { IfSome result (λ _. number < length self.now.table.blocks) }
        ensures none { IsNone result → length self.now.table.blocks ≤ number }
    {
        if (number as usize) < self.table.count() {
            Some(self.table.on_part(number))
        } else {
            None
        }
    }

    /// What a block of the part is for; one that it doesn't have is bad.
    pub fn use_of(&self, block: u32) -> BlockUse
        ensures { result ≡ use_of self.now.table block }
    {
        self.table.use_of(block)
    }

    /// How many spare blocks are left.
    pub fn spares(&self) -> u32
        ensures { result ≡ spares_in self.now.table }
    {
        self.table.spares()
    }
}
