//! What each page gives after a loss of power, beside what the run wrote.

ghost use Rattle.std.specs.Prelude.{◌≡◌, ◌↔◌, false, true, All, IfOk, IsTrue};
ghost use Rattle.slot_types.specs.Refusal.{FailsForMemory};
ghost use Rattle.flashplan_power_cuts.specs.Said.{IsBlank, IsEarlier, IsGiven, IsLast, IsRight, IsWriting, SaysAll, SaysOf, held_by, write_by, writing_by};
ghost use Rattle.flashplan_power_cuts.specs.Writes.{HasWrite};

use crate::page_writes::PageWrite;
use slot_core::NextAct;
use slot_types::{JobNo, PageData, Refusal};
use std::alloc::Global;
use stepped_die::{Call, SteppedDie};

/// What a page gives after a loss of power.
#[derive(Clone, Copy, PartialEq, Eq, Drop)]
pub enum Gives {
    /// Its last finished write.
    Last,
    /// The write that was in progress.
    InProgress,
    /// It is blank: it was never written, or trimmed since.
    Blank,
    /// It was trimmed since its last write, and gives what some write of it had.
    Earlier,
    /// None of these.
    Wrong,
}

/// What is said of a logical page.
#[derive(Clone, Copy, PartialEq, Eq, Drop)]
pub struct PageSaid {
    pub page: u32,
    pub bytes: PageData,
    pub gives: Gives,
}

/// A run up to a loss of power: its die, and what was written in the lives before and in this one.
#[derive(Clone, Copy, Drop)]
pub struct Lost<'a> {
    pub die: &'a SteppedDie,
    pub earlier: &'a [PageWrite],
    pub writes: &'a [PageWrite],
}

/// What a page of a die holds.
#[tactic(auto, using(crate::proofs::Holding::held_at))]
pub fn content_of(die: &SteppedDie, page: u32) -> PageData
    requires { die.now.core.stopped ≡ false }
    ensures { result ≡ held_by die.now page }
{
    let device = die.core().device();
    match die.core().place(page) {
        None => PageData::BLANK,
        Some(place) => device.cell(place),
    }
}

/// The write that a slot makes, by its call and by what it does.
fn write_by(call: Option<Call>, runs: Option<(JobNo, NextAct)>) -> Option<PageWrite>
    ensures { result ≡ write_by call runs }
{
    let Some(Call::Program { bytes, .. }) = call else {
        return None;
    };
    match runs {
        Some((_, NextAct::Write { page })) => Some(PageWrite { page, bytes }),
        _ => None,
    }
}

/// The write of the slot that has begun, if it is one.
pub fn writing_of(die: &SteppedDie) -> Option<PageWrite>
    ensures { result ≡ writing_by die.now.begun }
{
    match die.begun() {
        Some(begun) => write_by(begun.call, begun.runs),
        None => None,
    }
}

/// Whether these bytes are the page's last finished write.
fn is_last(die: &SteppedDie, page: u32, bytes: PageData) -> bool
    requires { die.now.core.stopped ≡ false }
    ensures { (result ≡ true) ↔ IsLast die.now page bytes }
{
    if die.core().place(page).is_none() {
        return false;
    }
    bytes == content_of(die, page)
}

/// Whether they are the write in progress.
fn is_writing(die: &SteppedDie, page: u32, bytes: PageData) -> bool
    ensures { (result ≡ true) ↔ IsWriting die.now page bytes }
{
    writing_of(die) == Some(PageWrite { page, bytes })
}

/// Whether the page lies nowhere, and they are blank.
fn is_blank(die: &SteppedDie, page: u32, bytes: PageData) -> bool
    ensures { (result ≡ true) ↔ IsBlank die.now page bytes }
{
    if die.core().place(page).is_some() {
        return false;
    }
    bytes == PageData::BLANK
}

/// Whether one of these writes is of these bytes on the page.
fn has_write(writes: &[PageWrite], page: u32, bytes: PageData) -> bool
    ensures { (result ≡ true) ↔ HasWrite writes.now page bytes }
{
    writes.contains(&PageWrite { page, bytes })
}

/// Whether the page lies nowhere, and they were written on it before.
fn is_earlier(lost: Lost<'_>, page: u32, bytes: PageData) -> bool
    ensures { (result ≡ true)
        ↔ IsEarlier lost.entry.die.now lost.entry.earlier.now lost.entry.writes.now page bytes }
{
    if lost.die.core().place(page).is_some() {
        return false;
    }
    if has_write(lost.earlier, page, bytes) {
        return true;
    }
    has_write(lost.writes, page, bytes)
}

/// What these bytes of a page are to the run.
pub fn gives_of(lost: Lost<'_>, page: u32, bytes: PageData) -> Gives
    requires { lost.die.now.core.stopped ≡ false }
    ensures { IsGiven lost.entry.die.now lost.entry.earlier.now lost.entry.writes.now page bytes result }
{
    if is_last(lost.die, page, bytes) {
        return Gives::Last;
    }
    if is_writing(lost.die, page, bytes) {
        return Gives::InProgress;
    }
    if is_blank(lost.die, page, bytes) {
        return Gives::Blank;
    }
    if is_earlier(lost, page, bytes) {
        return Gives::Earlier;
    }
    Gives::Wrong
}

/// What a die that was mounted gives of a page, beside the run before.
fn say(lost: Lost<'_>, mounted: &SteppedDie, page: u32) -> PageSaid
    requires ran { lost.die.now.core.stopped ≡ false }
    requires runs { mounted.now.core.stopped ≡ false }
    ensures said { SaysOf lost.entry.die.now lost.entry.earlier.now lost.entry.writes.now mounted.now result }
    ensures page { result.page ≡ page }
{
    let bytes = content_of(mounted, page);
    PageSaid {
        page,
        bytes,
        gives: gives_of(lost, page, bytes),
    }
}

/// What a die that was mounted gives of each page, beside the run before. The only refusal is NoMemory.
pub fn say_all(
    alloc: Global,
    lost: Lost<'_>,
    mounted: &SteppedDie,
) -> Result<Vec<PageSaid>, Refusal>
    requires ran { lost.die.now.core.stopped ≡ false }
    requires runs { mounted.now.core.stopped ≡ false }
    ensures said { IfOk result (λ said.
        SaysAll lost.entry.die.now lost.entry.earlier.now lost.entry.writes.now mounted.now said.items) }
    ensures refused { FailsForMemory result }
{
    let mut said = Vec::new(alloc);
    for page in 0..mounted.core().plan().logical {
        said.push(say(lost, mounted, page))?;
    }
    Ok(said)
}

/// Whether none of these pages is wrong.
pub fn is_right(said: &[PageSaid]) -> bool
    ensures { IsTrue result ↔ All IsRight said.now }
{
    said.iter().all(|page| page.gives != Gives::Wrong)
}
