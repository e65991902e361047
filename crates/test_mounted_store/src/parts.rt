//! Parts in memory, and the dies that are mounted from them.

ghost use Rattle.std.specs.Prelude.{All, IfOk, OnOk};
ghost use Rattle.device_mount.specs.Mounted.{HasBegun};

use device_mount::mount;
use labelled_die::BesideNand;
use labelled_nand::LabelledMemory;
use slot_core::DieCore;
use slot_types::{Caps, DiePlan, Place, Refusal, Shape};
use std::alloc::Global;
use std::process::Abort;

/// A part: the die's blocks, and one that stands aside.
const PART: Shape = Shape {
    blocks: 9,
    pages: 4,
    erase_slots: 3,
};

const SHAPE: Shape = Shape { blocks: 8, ..PART };

/// A die on a part in memory.
pub(crate) type Die = DieCore<BesideNand<LabelledMemory>>;

/// The plan of each die: one task of four tokens, and 12 logical pages.
fn plan(alloc: Global) -> Result<DiePlan, Refusal> {
    let mut caps = Caps::new(alloc);
    caps.push(4)?;
    Ok(DiePlan {
        shape: SHAPE,
        logical: 12,
        alpha: 2,
        caps,
        times: None,
    })
}

/// A part on which nothing was ever written.
pub(crate) fn blank(alloc: Global) -> Result<LabelledMemory, Refusal> {
    LabelledMemory::new(alloc, PART, 0)
}

/// The die that begins on a part once its power has come.
fn mounted<R: Abort>(rt: &R, alloc: Global, part: LabelledMemory) -> Result<Die, Refusal>
    ensures { IfOk result (λ die. HasBegun die.start.plan die) }
{
    let mut part = part;
    part.power_comes();
    match mount(alloc, plan(alloc)?, part) {
        Ok(die) => Ok(die),
        Err(no) => panic!(rt; "a part isn't mounted: {:?}", no.refusal),
    }
}

/// Adds to dies that have begun the die that begins on a part.
pub(crate) fn push_mounted<R: Abort>(
    rt: &R,
    alloc: Global,
    dies: &mut Vec<Die>,
    part: LabelledMemory,
) -> Result<(), Refusal>
    requires { All (λ die. HasBegun die.start.plan die) dies.old.items }
    ensures { OnOk result (All (λ die. HasBegun die.start.plan die) dies.new.items) }
{
    dies.push(mounted(rt, alloc, part)?)?;
    Ok(())
}

/// The cell of the program that was the last, if any was.
fn last_program(part: &LabelledMemory) -> Option<Place> {
    let mut last = None;
    let mut serial = 0;
    for block in 0..PART.blocks {
        for page in 0..PART.pages {
            let place = Place { block, page };
            if let Some(label) = part.cell(place).and_then(|cell| cell.label) {
                if label.serial >= serial {
                    serial = label.serial;
                    last = Some(place);
                }
            }
        }
    }
    last
}

/// The power goes in the last program of a part: its cell is torn.
pub(crate) fn cut(part: &mut LabelledMemory) {
    if let Some(place) = last_program(part) {
        part.tear(place);
    }
}
