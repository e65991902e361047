//! The calls of a part that a table asks for, and how far it is.

use slot_types::Place;

/// A call of the part.
#[derive(Clone, Copy, PartialEq, Eq, Debug, Drop)]
pub enum Move {
    /// The whole erase of this block.
    Erase { block: u32 },
    /// What one cell holds is programmed in the other one: payload, page and serial unchanged.
    Copy { from: Place, to: Place },
    /// The program that failed is made in this cell.
    Program { place: Place },
}

/// How the part carried a call out.
#[derive(Clone, Copy, PartialEq, Eq, Debug, Drop)]
pub enum Outcome {
    Done,
    /// The block that was erased or programmed failed. The part itself is well.
    Failed,
    /// The part itself made the call fail: nothing is known of its cells.
    Fault,
}

/// How far a table is.
#[derive(Clone, Copy, PartialEq, Eq, Debug, Drop)]
pub enum Stage {
    /// This block is erased next, and then those with greater numbers: all that aren't bad, or the spare ones alone.
    Erasing {
        block: u32,
        all: bool,
    },
    /// No call has to come: each number's block is whole, as far as is known, and each spare one is free.
    Working,
    /// The block of this number failed. A spare one is filled with its first cells, of which it has so many, and with
    /// the program that failed.
    Filling {
        number: u32,
        spare: u32,
        cells: u32,
        cell: u32,
    },
    /// The block of a number failed, and no spare one was left.
    WornOut,
    /// The part had a fault.
    Faulted,
}
