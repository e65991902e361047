//! What the recorder prints of its dies, once they are closed. It prints nothing that depends on which thread was first.

use crate::answers::Answers;
use crate::dies::Reported;
use crate::in_time::late;
use crate::nand::Tally;
use crate::tasks::{Diary, job_in};
use crate::timer::Ticked;
use ongoing_die::AskStop;
use planned_ports::{AskRefused, SlotRefused};
use slot_types::{PageData, Refusal};
use std::io;
use std::io::Write;

/// How many lives a die has at least, of which the recorder says that it had more.
const LIVES: u64 = 100;

/// Prints why a slot wasn't carried out.
fn print_slot_cause<W: Write>(out: &mut W, refused: SlotRefused) -> io::Result<()> {
    match refused {
        SlotRefused::Die(stop) => write!(out, "{stop:?}"),
        SlotRefused::LockFull => write!(out, "LockFull"),
    }
}

/// Prints why a task asks no more.
fn print_ask_cause<W: Write>(out: &mut W, refused: AskRefused) -> io::Result<()> {
    match refused {
        AskRefused::Die(AskStop::Ended(stop)) => write!(out, "{stop:?}"),
        other => write!(out, "{other:?}"),
    }
}

/// The most erases of a block.
fn most_erases(tally: &Tally) -> u32 {
    let mut most = 0;
    for counts in tally.blocks() {
        if counts.erases > most {
            most = counts.erases;
        }
    }
    most
}

/// Prints how long a die lived.
fn print_lives<W: Write>(out: &mut W, ticked: &Ticked, tally: &Tally) -> io::Result<()> {
    let life = ticked.life;
    if let Some(stop) = ticked.stop {
        write!(out, "stopped by ")?;
        print_slot_cause(out, stop)?;
        return writeln!(out, ": a block was erased {} times", most_erases(tally));
    }
    let lives = ticked.lives_before(ticked.slots);
    if lives > LIVES {
        writeln!(out, "more than {LIVES} lives of {life} slots")
    } else {
        writeln!(out, "{lives} lives of {life} slots")
    }
}

/// Prints what a task was answered: how often, unless the die stopped meanwhile.
fn print_answers<W: Write>(out: &mut W, answers: &Answers) -> io::Result<()> {
    match answers.end {
        Some(refused) => {
            write!(out, "asked until ")?;
            print_ask_cause(out, refused)
        }
        None => write!(
            out,
            "{} jobs accepted, {} refused",
            answers.accepted,
            answers.refused()
        ),
    }
}

/// Prints what a task was answered, and how many of its jobs were late.
fn print_diary<W: Write>(out: &mut W, name: &str, diary: &Diary, late: u32) -> io::Result<()> {
    write!(out, "  {name}: ")?;
    print_answers(out, &diary.answers)?;
    writeln!(out, ", {late} late")
}

/// Prints what the babbler was answered. How often it was depends on which thread was first.
fn print_babbler<W: Write>(out: &mut W, answers: &Answers) -> io::Result<()> {
    write!(out, "  babbler: ")?;
    match answers.end {
        Some(_) => {
            print_answers(out, answers)?;
            writeln!(out)
        }
        None if answers.accepted > 0 && answers.too_soon > 0 => {
            writeln!(out, "some jobs accepted, others refused TooSoon")
        }
        None => writeln!(out, "not heard"),
    }
}

/// Prints what the threads of a die were answered.
fn print_reported<W: Write>(
    out: &mut W,
    number: usize,
    said: &Reported,
    tally: &Tally,
) -> io::Result<()> {
    let control_late = late(&said.control, &said.ticked);
    let logger_late = late(&said.logger, &said.ticked);
    write!(out, "die {number}: ")?;
    print_lives(out, &said.ticked, tally)?;
    print_diary(out, "control", &said.control, control_late)?;
    print_diary(out, "logger", &said.logger, logger_late)?;
    print_babbler(out, &said.babbler)
}

/// A fault of the writer as a refusal.
fn written(done: io::Result<()>) -> Result<(), Refusal> {
    done.map_err(|_| Refusal::WriteFault)
}

/// Prints what a die did.
pub(crate) fn print_die<W: Write>(
    out: &mut W,
    number: usize,
    said: &Reported,
    tally: &Tally,
) -> Result<(), Refusal> {
    written(print_reported(out, number, said, tally))
}

/// Prints which job wrote each page last.
pub(crate) fn print_pages<W: Write>(
    out: &mut W,
    pages: &[[PageData; 2]; 3],
) -> Result<(), Refusal> {
    for (pair, two) in pages.iter().enumerate() {
        for (place, content) in two.iter().enumerate() {
            let page = 2 * pair + place;
            written(writeln!(out, "  page {page}: job {}", job_in(*content)))?;
        }
    }
    Ok(())
}
