//! The operations of a job, as a script has them.

use crate::chances::Chance;
use std::io;
use std::io::Write;

/// Of a task that writes, one in eight of the other operations is a trim.
const TRIM_IN: u32 = 8;

/// Adds a write. Its bytes tell where they come from: slot, task, page, and the place among what is asked for then.
pub fn put_write(
    text: &mut Vec<u8>,
    task: u32,
    page: u32,
    slot: u32,
    place: u32,
) -> io::Result<()> {
    write!(text, "W{page}={slot:08x}{task:08x}{page:08x}{place:08x}")
}

/// Adds a read, or of a task that trims one time in eight a trim.
pub fn put_other(
    text: &mut Vec<u8>,
    chance: &mut Chance,
    page: u32,
    trims: bool,
) -> io::Result<()> {
    if trims && chance.below(TRIM_IN) == 0 {
        write!(text, "T{page}")
    } else {
        write!(text, "R{page}")
    }
}
