//! The table, and the calls that it asks for.

ghost use Rattle.std.specs.Prelude.{◌≡◌, ◌<◌, ◌≤◌, true, false, length, IfOk, IsSome, IsTrue};
ghost use Rattle.slot_types.specs.Shapes.{IsShape};
ghost use Rattle.spare_blocks.specs.Tables.{IsTable, on_part, use_of, spares_in, IsSpare};
ghost use Rattle.stepped_spares.specs.Stepping.{HasFailed, IsDone, IsLost, IsMoved, IsNextErase, IsNextFill, IsReplacedOr, IsSoundStepping, calls_left, must_erase, next_move};

use crate::moves::{Move, Outcome, Stage};
use slot_types::{Place, Shape};
use spare_blocks::{BlockTable, BlockUse};
use std::marker::Model;

/// Which block of a part has which number, and which call of the part comes next where one failed.
///
/// A table never calls the part: [`next`](SpareTable::next) says which call comes next, and [`done`](SpareTable::done)
/// takes how the part carried it out. The table changes only with the last of these calls.
#[derive(Drop)]
pub struct SpareTable {
    pub(crate) table: BlockTable,
    /// In a block.
    pub(crate) pages: u32,
    pub(crate) stage: Stage,
}

impl Model for SpareTable {
    ghost use Rattle.stepped_spares.specs.Stepping.{Stepping, IsSoundStepping};

    ghost Value = { Stepping };

    ghost view = { λ s. record { table = s.table; pages = s.pages; stage = s.stage } };

    ghost invariant = { λ s. IsSoundStepping (record { table = s.table; pages = s.pages; stage = s.stage }) };
}

impl SpareTable {
    /// The call of the part that comes next; none where none has to come, or none helps.
    pub fn next(&self) -> Option<Move>
        ensures call { result ≡ next_move self.now }
        ensures sound { IsSoundStepping self.now }
        ensures table { IsTable self.now.table }
    {
        let _ = self.table.count();
        match self.stage {
            Stage::Erasing { block, .. } => Some(Move::Erase { block }),
            Stage::Filling {
                number,
                spare,
                cells,
                cell,
            } => {
                let to = Place {
                    block: spare,
                    page: cell,
                };
                if cell < cells {
                    let from = Place {
                        block: self.table.on_part(number),
                        page: cell,
                    };
                    Some(Move::Copy { from, to })
                } else {
                    Some(Move::Program { place: to })
                }
            }
            _ => None,
        }
    }

    /// How the part carried out the call that came next.
    pub fn done(&mut self, outcome: Outcome)
        requires next { IsSome (next_move self.old) }
        ensures moved { IsMoved outcome self.old self.new }
        ensures fewer { calls_left self.new < calls_left self.old }
    {
        match outcome {
            Outcome::Done => self.was_done(),
            Outcome::Failed => self.has_failed(),
            Outcome::Fault => self.stage = Stage::Faulted,
        }
    }
}

impl SpareTable {
    fn was_done(&mut self)
        requires next { IsSome (next_move self.old) }
        ensures pages { self.new.pages ≡ self.old.pages }
        ensures done { IsDone self.old.stage self.old self.new }
        ensures fewer { calls_left self.new < calls_left self.old }
    {
        let _ = self.table.count();
        match self.stage {
            Stage::Erasing { block, all } => self.stage = next_erase(&self.table, all, block + 1),
            Stage::Filling {
                number,
                spare,
                cells,
                cell,
            } => {
                if cell < cells {
                    self.stage = Stage::Filling {
                        number,
                        spare,
                        cells,
                        cell: cell + 1,
                    };
                } else {
                    self.table.replace(number, spare);
                    self.stage = Stage::Working;
                }
            }
            _ => unreachable!(),
        }
    }

    fn has_failed(&mut self)
        requires next { IsSome (next_move self.old) }
        ensures pages { self.new.pages ≡ self.old.pages }
        ensures failed { HasFailed self.old.stage self.old self.new }
        ensures fewer { calls_left self.new < calls_left self.old }
    {
        match self.stage {
            Stage::Erasing { block, all } => self.is_lost(block, all),
            Stage::Filling {
                number,
                spare,
                cells,
                ..
            } => {
                self.table.give_up(spare);
                self.stage = next_fill(&self.table, number, cells);
            }
            _ => unreachable!(),
        }
    }

    /// The erase of a block failed that was erased before it is used.
    fn is_lost(&mut self, block: u32, all: bool)
        requires stage { self.old.stage ≡ Stage.Erasing block all }
        ensures pages { self.new.pages ≡ self.old.pages }
        ensures lost { IsLost all block (use_of self.old.table block) self.old self.new }
        ensures fewer { calls_left self.new < calls_left self.old }
    {
        let _ = self.table.count();
        match self.table.use_of(block) {
            BlockUse::Spare => {
                self.table.give_up(block);
                self.stage = next_erase(&self.table, all, block + 1);
            }
            BlockUse::InPlan(number) => match self.table.first_spare() {
                Some(spare) => {
                    self.table.replace(number, spare);
                    self.stage = next_erase(&self.table, all, block + 1);
                }
                None => self.stage = Stage::WornOut,
            },
            BlockUse::Bad => unreachable!(),
        }
    }
}

fn must_erase(all: bool, becomes: BlockUse) -> bool
    ensures { result ≡ must_erase all becomes }
{
    match becomes {
        BlockUse::InPlan(_) => all,
        BlockUse::Spare => true,
        BlockUse::Bad => false,
    }
}

/// The stage in which the first block from this one on is erased that has to be.
pub(crate) fn next_erase(table: &BlockTable, all: bool, from: u32) -> Stage
    ensures { IsNextErase all table.now from result }
{
    let _ = table.count();
    for block in from..table.uses() as u32 {
        if must_erase(all, table.use_of(block)) {
            return Stage::Erasing { block, all };
        }
    }
    Stage::Working
}

/// The stage in which a spare block is filled for this number, from its first cell on.
pub(crate) fn next_fill(table: &BlockTable, number: u32, cells: u32) -> Stage
    ensures { IsNextFill table.now number cells result }
{
    match table.first_spare() {
        Some(spare) => Stage::Filling {
            number,
            spare,
            cells,
            cell: 0,
        },
        None => Stage::WornOut,
    }
}
