//! How far a table of spare blocks is that a driver in C has, and what it does where it is asked.

ghost use Rattle.std.specs.Prelude.{◌≡◌, ◌≢◌, ◌⊎◌, ◌↔◌};
ghost use Rattle.flash_c.specs.Spares.{HasToldBlock, IsFailedErase, IsFailedProgram, IsMovedAs, IsNow, MayFail, move_as, move_of, outcome_of, stage_code, stop_code};

use crate::codes::{BAD_KIND, NO_BLOCK, NO_SPARE, OK, TOO_MANY_CELLS, WRONG_STEP, of_refusal};
use crate::shapes::FlashMove;
use slot_types::{Place, Refusal};
use spare_blocks::Mark;
use std::alloc::Global;
use stepped_spares::{LabelScan, Move, Outcome, SpareTable, Stage, TellFault};

/// How far a table is.
#[derive(Drop)]
pub enum Spares {
    /// The blocks of a part whose power has come are reported, one after the other.
    Scan(LabelScan),
    /// Which block has which number.
    Table(SpareTable),
    /// The blocks that were reported make no table.
    Over,
}

/// A call of the part, or none.
fn move_as(call: Option<Move>) -> FlashMove
    ensures { result ≡ move_as call }
{
    match call {
        None => FlashMove {
            kind: 0,
            block: 0,
            page: 0,
            from: 0,
        },
        Some(Move::Erase { block }) => FlashMove {
            kind: 2,
            block,
            page: 0,
            from: 0,
        },
        Some(Move::Copy { from, to }) => FlashMove {
            kind: 3,
            block: to.block,
            page: to.page,
            from: from.block,
        },
        Some(Move::Program { place }) => FlashMove {
            kind: 4,
            block: place.block,
            page: place.page,
            from: 0,
        },
    }
}

/// The number of why no call helps at this stage; 0 where none has to come, or one comes.
fn stop_of(stage: Stage) -> u32
    ensures { result ≡ stage_code stage }
{
    match stage {
        Stage::WornOut => NO_SPARE,
        Stage::Faulted => of_refusal(Refusal::DeviceFault),
        _ => OK,
    }
}

impl Spares {
    /// Why nothing comes, or 0.
    pub(crate) fn stop(&self) -> u32
        ensures { result ≡ stop_code self.now }
    {
        match self {
            Spares::Scan(_) => OK,
            Spares::Table(table) => stop_of(table.stage()),
            Spares::Over => WRONG_STEP,
        }
    }

    /// What comes next.
    pub(crate) fn next_move(&self) -> FlashMove
        ensures { result ≡ move_of self.now }
    {
        match self {
            Spares::Scan(scan) => FlashMove {
                kind: 1,
                block: scan.told(),
                page: 0,
                from: 0,
            },
            Spares::Table(table) => move_as(table.next()),
            Spares::Over => move_as(None),
        }
    }
}

/// What a number says of how a call was carried out.
fn outcome_of(how: u32) -> Option<Outcome>
    ensures { result ≡ outcome_of how }
{
    match how {
        0 => Some(Outcome::Done),
        1 => Some(Outcome::Failed),
        2 => Some(Outcome::Fault),
        _ => None,
    }
}

/// The table once its next call was carried out so; or as it was, and why not.
pub(crate) fn moved(spares: Spares, how: u32) -> (Spares, u32)
    ensures moved { result.1 ≡ 0 → IsMovedAs how spares result.0 }
    ensures refused { result.1 ≢ 0 → result.0 ≡ spares }
{
    let Some(outcome) = outcome_of(how) else {
        return (spares, BAD_KIND);
    };
    match spares {
        Spares::Table(table) => {
            if table.next().is_none() {
                return (Spares::Table(table), WRONG_STEP);
            }
            let mut table = table;
            table.done(outcome);
            (Spares::Table(table), OK)
        }
        other => (other, WRONG_STEP),
    }
}

/// The scan, or its table where all blocks were reported.
fn whole(alloc: Global, scan: LabelScan) -> (Spares, u32)
    ensures now { result.1 ≡ 0 → IsNow scan result.0 }
    ensures over { result.1 ≢ 0 → result.0 ≡ Spares.Over }
{
    if !scan.is_whole() {
        return (Spares::Scan(scan), OK);
    }
    match scan.finish(alloc) {
        Ok(table) => (Spares::Table(table), OK),
        Err(refusal) => (Spares::Over, of_refusal(refusal)),
    }
}

/// The table once the labels of the next block were reported; or why not. Where that was the last block, and what was
/// reported makes no table, it is over.
pub(crate) fn told(alloc: Global, spares: Spares, labels: &[Option<Mark>]) -> (Spares, u32)
    ensures told { result.1 ≡ 0 → HasToldBlock labels.now spares result.0 }
    ensures refused { result.1 ≢ 0 → (result.0 ≡ spares) ⊎ (result.0 ≡ Spares.Over) }
{
    match spares {
        Spares::Scan(scan) => {
            let mut scan = scan;
            match scan.tell(labels) {
                Err(TellFault::NoMoreBlocks) => (Spares::Scan(scan), WRONG_STEP),
                Err(TellFault::TooManyCells) => (Spares::Scan(scan), TOO_MANY_CELLS),
                Ok(()) => whole(alloc, scan),
            }
        }
        other => (other, WRONG_STEP),
    }
}

/// The number of why no call that failed can be reported; 0 where one can.
fn busy_of(stage: Stage) -> u32
    ensures { (result ≡ 0) ↔ (stage ≡ Stage.Working) }
{
    match stage {
        Stage::Working => OK,
        Stage::WornOut => NO_SPARE,
        Stage::Faulted => of_refusal(Refusal::DeviceFault),
        _ => WRONG_STEP,
    }
}

/// The table once a program that failed was reported; or as it was, and why not.
pub(crate) fn program_failed(spares: Spares, place: Place) -> (Spares, u32)
    ensures failed { MayFail place.block place.page spares
        → IsFailedProgram place.block place.page spares result.0 result.1 }
    ensures refused { ¬ (MayFail place.block place.page spares) → (result.0 ≡ spares) × (result.1 ≢ 0) }
{
    match spares {
        Spares::Table(table) => {
            let busy = busy_of(table.stage());
            if busy != OK {
                return (Spares::Table(table), busy);
            }
            if place.block >= table.blocks() || place.page >= table.pages() {
                return (Spares::Table(table), NO_BLOCK);
            }
            let mut table = table;
            table.program_failed(place);
            let code = stop_of(table.stage());
            (Spares::Table(table), code)
        }
        other => (other, WRONG_STEP),
    }
}

/// The table once an erase that failed was reported; or as it was, and why not.
pub(crate) fn erase_failed(spares: Spares, number: u32) -> (Spares, u32)
    ensures failed { MayFail number 0 spares → IsFailedErase number spares result.0 result.1 }
    ensures refused { ¬ (MayFail number 0 spares) → (result.0 ≡ spares) × (result.1 ≢ 0) }
{
    match spares {
        Spares::Table(table) => {
            let busy = busy_of(table.stage());
            if busy != OK {
                return (Spares::Table(table), busy);
            }
            if number >= table.blocks() || table.pages() == 0 {
                return (Spares::Table(table), NO_BLOCK);
            }
            let mut table = table;
            table.erase_failed(number);
            let code = stop_of(table.stage());
            (Spares::Table(table), code)
        }
        other => (other, WRONG_STEP),
    }
}
