//! Where the cells of a device are kept, and what a clean shutdown saves.

use crate::records::Record;
use slot_types::Place;
use std::alloc::Global;
use std::io;

/// Where the cells of a device are kept, each by its block and its number in that; and beside them the bytes of what a
/// clean shutdown saves.
///
/// What a device of it owes is the store's to keep: a cell that was written is there as soon as `write_cell` has ended,
/// whatever becomes of the program; of a write that didn't end the cell has what was there, what was to be written, or
/// bytes of both, and no other cell is touched; and what is kept doesn't change by itself. All this holds of the bytes
/// that are saved, too, and of `write_saved`.
pub trait CellStore: Drop {
    /// What is kept of a cell: `ERASED` of one that was never written.
    fn read_cell(&mut self, place: Place) -> io::Result<Record>;

    /// Keeps this of a cell, in the place of what was there.
    fn write_cell(&mut self, place: Place, record: &Record) -> io::Result<()>;

    /// All bytes that are saved, from the first one on; none where none were written.
    fn read_saved(&mut self, alloc: Global) -> io::Result<Vec<u8>>;

    /// Saves these bytes, the first of them at this place, in the place of what was there. Bytes before them that were
    /// never written are 0.
    fn write_saved(&mut self, at: u64, bytes: &[u8]) -> io::Result<()>;
}
