//! How long a life of a die lasts.

use crate::design_plans::Design;
use crate::facts::{put, put_heading};
use crate::numbers::{Count, Span};
use flashplan_terms_arrivals::{comes_in, life_of};
use std::io;
use std::io::Write;

const RENEWED: &str =
    "Before it ends the die is renewed, at a moment in which nothing waits: its slots and its numbers \
begin anew, and its pages, tokens and erases stay. ";

/// Adds how long a life is, and what comes in it where tasks ask for all that they may, in as few jobs as may be.
pub(crate) fn put_life(text: &mut Vec<u8>, design: &Design<'_>) -> io::Result<()> {
    let life = life_of(design.tasks);
    let comes = comes_in(design.tasks, life);
    let span = Span {
        slots: u64::from(life),
        slot_us: design.slot_us,
    };
    let (jobs, collections) = (Count(comes.jobs), Count(comes.collections));
    put_heading(text, "A life")?;
    write!(text, "<p>A life has {span}, ")?;
    write!(text, "in which at most {jobs} jobs, as few as may be, and ")?;
    write!(text, "{collections} collections come. ")?;
    put(text, RENEWED)?;
    put(text, "</p>\n")
}
