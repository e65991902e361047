//! What the recorder prints of its lives.

use crate::dice::{End, Fate};
use crate::lives::{Begun, Tally};
use crate::power::{CELL, Leaves, SEAL, TEXT};
use std::io;
use std::io::Write;

/// Prints what is left of the write at which the power went, which has `count` bytes.
fn print_left<W: Write>(out: &mut W, leaves: Leaves, count: u32) -> io::Result<()> {
    match leaves {
        Leaves::Nothing => writeln!(out, "nothing of it is left"),
        Leaves::Part { .. } => writeln!(out, "{} of its {count} bytes are left", leaves.of(count)),
        Leaves::All => writeln!(out, "all of it is left"),
    }
}

/// Prints a life that ended in its start.
fn print_start<W: Write>(out: &mut W, begun: Begun, writes: u32, leaves: Leaves) -> io::Result<()> {
    match begun {
        Begun::Saved => {
            write!(out, "the voiding of what was saved is cut: ")?;
            print_left(out, leaves, SEAL)
        }
        Begun::Mounted => {
            write!(out, "the mount is cut after {writes} writes: ")?;
            print_left(out, leaves, CELL)
        }
    }
}

/// Prints a life that worked up to this slot.
fn print_work<W: Write>(out: &mut W, begun: Begun, slot: u32) -> io::Result<()> {
    if begun == Begun::Saved {
        write!(out, "from what was saved, ")?;
    }
    write!(
        out,
        "no page has lost a write; work up to slot {slot}, and "
    )
}

/// Prints how a life began and ended.
pub(crate) fn print_life<W: Write>(
    out: &mut W,
    life: u64,
    begun: Begun,
    fate: &Fate,
) -> io::Result<()> {
    write!(out, "life {life}: ")?;
    match fate.end {
        End::Start(writes) => print_start(out, begun, writes, fate.leaves),
        End::Program(slot) => {
            print_work(out, begun, slot)?;
            write!(out, "a program is cut: ")?;
            print_left(out, fate.leaves, CELL)
        }
        End::Erase(slot) => {
            print_work(out, begun, slot)?;
            write!(out, "an erase is cut: ")?;
            print_left(out, fate.leaves, CELL)
        }
        End::Text(slot) => {
            print_work(out, begun, slot)?;
            write!(out, "what is saved is cut: ")?;
            print_left(out, fate.leaves, TEXT)
        }
        End::Seal(slot) => {
            print_work(out, begun, slot)?;
            write!(out, "the seal of what is saved is cut: ")?;
            print_left(out, fate.leaves, SEAL)
        }
        End::Shutdown(slot) => {
            print_work(out, begun, slot)?;
            writeln!(out, "it is shut down")
        }
    }
}

/// Prints what came of all lives.
pub(crate) fn print_all<W: Write>(out: &mut W, tally: &Tally) -> io::Result<()> {
    let Tally {
        lives,
        starts_cut,
        from_saved,
        pages,
        due,
        late,
    } = tally;
    writeln!(
        out,
        "{lives} lives, of which {starts_cut} ended in their starts"
    )?;
    writeln!(
        out,
        "{from_saved} began from what was saved, without a mount"
    )?;
    writeln!(out, "{pages} looks at pages, and none had lost a write")?;
    writeln!(out, "{due} writes were due, and {late} of them late")
}
