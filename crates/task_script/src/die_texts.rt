//! The lines of the reports of dies, each die's made by itself.

ghost use Rattle.std.specs.Prelude.{◌≡◌, ◌∷◌, ◌<◌, ◌≤◌, [], IfOk, Some, length, map};
ghost use Rattle.slot_types.specs.Refusal.{FailsForMemory};
ghost use Rattle.report_texts.specs.TextSoFar.{text_so_far};
ghost use Rattle.task_script.specs.DieTexts.{AreMade, IsMade, die_part, report_parts};

use crate::die_reports::add_die;
use flash_die::MemoryNand;
use report_texts::ReportText;
use slot_core::DieCore;
use slot_types::Refusal;
use std::alloc::Global;
use std::thread;
use std::thread::Threads;

/// A die, and then the lines of its report: the die is given up once they are made, or memory ran out.
#[derive(Drop)]
pub struct DieText {
    die: Option<DieCore<MemoryNand>>,
    /// None before they are made, and where memory ran out.
    text: Option<ReportText>,
}

/// The lines of the report of a die, which is given up. The only refusal is NoMemory.
fn text_of(alloc: Global, number: u32, die: DieCore<MemoryNand>) -> Result<ReportText, Refusal>
    ensures ok { IfOk result (λ text. text ≡ die_part number die) }
    ensures refused { FailsForMemory result }
{
    let mut text = ReportText::part(alloc);
    add_die(alloc, &mut text, number, &die)?;
    Ok(text)
}

impl DieText {
    /// Makes the lines of the die, which has this number.
    fn make(&mut self, alloc: Global, number: u32)
        ensures { IsMade number self.old self.new }
    {
        if let Some(die) = self.die.take() {
            self.text = text_of(alloc, number, die).ok();
        }
    }
}

/// Dies whose lines are to be made. The only refusal is NoMemory.
fn unmade(alloc: Global, dies: Vec<DieCore<MemoryNand>>) -> Result<Vec<DieText>, Refusal>
    ensures ok { IfOk result (λ texts. map (λ text. text.die) texts.items ≡ map Some dies.items) }
    ensures refused { FailsForMemory result }
{
    let mut texts = Vec::with_capacity(alloc, dies.len())?;
    for die in dies {
        texts.push_reserved(DieText {
            die: Some(die),
            text: None,
        });
    }
    Ok(texts)
}

/// Makes the lines of dies, whose numbers are from 0, by at most `threads` threads.
fn make_all<R: Threads + Sync>(rt: &R, alloc: Global, texts: &mut [DieText], threads: u32)
    requires few { length texts.old ≤ 8 }
    requires threads { 1 ≤ threads }
    ensures { AreMade 0 texts.old texts.new }
{
    let make = |number: usize, text: &mut DieText|
        requires { number < 4294967296 }
        ensures { IsMade number text.entry.now text.exit.now }
    { text.make(alloc, number as u32) };
    thread::for_each_mut(rt, texts, threads as usize, &make);
}

/// The parts that were made, which are taken out, after the header. The only refusal is NoMemory.
fn parts_in(alloc: Global, texts: &mut [DieText]) -> Result<Vec<ReportText>, Refusal>
    ensures ok { IfOk result (λ parts. map Some parts.items
        ≡ Some (text_so_far []) ∷ map (λ text. text.text) texts.old) }
    ensures refused { FailsForMemory result }
{
    let header = ReportText::new(alloc)?;
    let mut parts = Vec::new(alloc);
    parts.push(header)?;
    for made in texts.iter_mut() {
        let Some(part) = made.text.take() else {
            // Memory ran out as the lines were made.
            return Err(Refusal::NoMemory);
        };
        parts.push(part)?;
    }
    Ok(parts)
}

/// The parts of the report of dies, whose numbers are from 0: the header, and the lines of each. They are made by at
/// most `threads` threads, the lines of one die after those of another where there are more dies than threads, and each
/// die is given up once its lines are made. A thread that can't be started is done without. The only refusal is
/// NoMemory.
pub fn parts_of<R: Threads + Sync>(
    rt: &R,
    alloc: Global,
    dies: Vec<DieCore<MemoryNand>>,
    threads: u32,
) -> Result<Vec<ReportText>, Refusal>
    requires few { length dies.items ≤ 8 }
    requires threads { 1 ≤ threads }
    ensures ok { IfOk result (λ parts. parts.items ≡ report_parts dies.items) }
    ensures refused { FailsForMemory result }
{
    let mut texts = unmade(alloc, dies)?;
    make_all(rt, alloc, texts.as_mut_slice(), threads);
    parts_in(alloc, texts.as_mut_slice())
}
