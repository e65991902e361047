//! Histories: paragraphs of lines, each of which begins with a new die.

use crate::lines::is_answered;
use crate::said::Reported;
use crate::stage::Stage;
use std::alloc::Global;
use std::io;
use std::io::Write;

/// What was played.
#[derive(Clone, Copy, Drop)]
pub(crate) struct Tally {
    pub(crate) calls: u64,
    /// How many calls were answered otherwise.
    pub(crate) wrong: u64,
}

impl Tally {
    fn count(&mut self, is_right: bool) {
        self.calls = self.calls.saturating_add(1);
        if !is_right {
            self.wrong = self.wrong.saturating_add(1);
        }
    }
}

/// Prints a line that is answered otherwise, and what is answered. The first line of a file has number 1.
fn report_otherwise<W: Write>(
    out: &mut W,
    file: &str,
    place: usize,
    line: &str,
    said: &Reported,
) -> io::Result<()> {
    let number = place.saturating_add(1);
    write!(out, "{file}:{number}: {line} is answered ")?;
    out.write_all(said.text())?;
    writeln!(out)
}

/// The file that is played, and what came of it so far.
#[derive(Drop)]
struct Player<'a> {
    file: &'a str,
    stage: Stage,
    tally: Tally,
}

impl<'a> Player<'a> {
    /// Plays a line. Comments are passed over, and so are the names of paragraphs.
    fn line<W: Write>(
        &mut self,
        alloc: Global,
        place: usize,
        line: &str,
        said: &mut Reported,
        out: &mut W,
    ) -> io::Result<()> {
        if line.is_empty() || line.starts_with('#') || line.starts_with("named,") {
            return Ok(());
        }
        let is_right = is_answered(&mut self.stage, alloc, line, said);
        self.tally.count(is_right);
        if is_right {
            return Ok(());
        }
        report_otherwise(out, self.file, place, line, said)
    }

    /// Plays the paragraph of this name, up to its empty line.
    fn named<W: Write>(
        &mut self,
        alloc: Global,
        text: &str,
        name: &str,
        said: &mut Reported,
        out: &mut W,
    ) -> io::Result<()> {
        let mut is_in_it = false;
        for (place, line) in text.lines().enumerate() {
            if line.is_empty() {
                is_in_it = false;
            }
            if is_in_it {
                self.line(alloc, place, line, said, out)?;
            }
            if line.strip_prefix("named,") == Some(name) {
                is_in_it = true;
            }
        }
        Ok(())
    }
}

/// Plays the histories of a text. A line `beyond,NAME` first plays the paragraph of that name.
pub(crate) fn play<W: Write>(
    alloc: Global,
    file: &str,
    text: &str,
    said: &mut Reported,
    out: &mut W,
) -> io::Result<Tally> {
    let mut player = Player {
        file,
        stage: Stage::new(alloc),
        tally: Tally { calls: 0, wrong: 0 },
    };
    for (place, line) in text.lines().enumerate() {
        match line.strip_prefix("after,") {
            Some(name) => player.named(alloc, text, name, said, out)?,
            None => player.line(alloc, place, line, said, out)?,
        }
    }
    Ok(player.tally)
}
