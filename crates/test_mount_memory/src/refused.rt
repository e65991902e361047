//! Mounts to which memory is refused, and that are made again.

ghost use Rattle.labelled_nand.specs.Memory.{device_blocks, device_labels};
ghost use Rattle.labelled_nand.specs.PoweredUp.{IsPoweredUp};

use crate::cells::{cells_of, has_cells};
use crate::dies::{blank_pages, reads_all, writes};
use crate::parts::{blank, plan};
use crate::wrongs::Wrong;
use device_mount::{MountRefusal, begin, mount};
use labelled_die::BesideNand;
use labelled_nand::{LabelledMemory, MarkedCell};
use slot_core::DieCore;
use slot_types::PageData;
use std::alloc::Global;
use std::env::Env;
use std::test::Fail;

const WRITES: u32 = 60;

/// After as many calls a mount is cut: those of its first erase, and of two copies.
const CUT: u32 = 7;

/// Whether memory is scarce, so that a call that finds none is made again: where `.ci/memory/refused-growths` plays the
/// test, which it says by the variable `REFUSE`. Else a refusal out of memory is a fault.
fn is_scarce<R: Env>(rt: &R) -> bool {
    let mut number = [0u8; 20];
    rt.var("REFUSE", &mut number).is_ok()
}

/// The die that begins on a part whose power has come. Where the mount is refused for memory, the part has these cells
/// still, and the mount is made again.
#[tactic(auto, using(device_mount::proofs::Again::powered_still))]
fn mounted<R: Env>(
    rt: &R,
    alloc: Global,
    part: LabelledMemory,
    cells: &[Option<MarkedCell>],
) -> Result<DieCore<BesideNand<LabelledMemory>>, Wrong>
    requires { IsPoweredUp part.shape (device_blocks part) (device_labels part) 0 }
{
    let no = match mount(alloc, plan(alloc)?, part) {
        Ok(die) => return Ok(die),
        Err(no) => no,
    };
    if no.refusal != MountRefusal::NoMemory || !is_scarce(rt) {
        return Err(Wrong::Mount(no.refusal));
    }
    if !has_cells(&no.part, cells) {
        return Err(Wrong::Changed);
    }
    match mount(alloc, plan(alloc)?, no.part) {
        Ok(die) => Ok(die),
        Err(no) => Err(Wrong::Mount(no.refusal)),
    }
}

/// A part on which a die has written; and by page its last finished write.
fn used(alloc: Global, pages: &mut [PageData]) -> Result<LabelledMemory, Wrong> {
    let mut part = blank(alloc)?;
    part.power_comes();
    match mount(alloc, plan(alloc)?, part) {
        Ok(die) => {
            let mut die = die;
            writes(&mut die, alloc, pages, WRITES)?;
            Ok(die.into_device().into_part())
        }
        Err(no) => Err(of_mount(no.refusal)),
    }
}

/// A part whose power went after so many calls of its mount, each of which came.
fn cut(alloc: Global, part: LabelledMemory, calls: u32) -> Result<LabelledMemory, Wrong> {
    let mut part = part;
    part.power_comes();
    let mut mount = match begin(alloc, plan(alloc)?, part) {
        Ok(begun) => begun.mount,
        Err(no) => return Err(of_mount(no.refusal)),
    };
    for _ in 0..calls {
        if !mount.step()? {
            return Err(Wrong::Rare);
        }
    }
    Ok(mount.into_parts().part)
}

/// What is wrong with a mount that isn't the one to be shown.
fn of_mount(refusal: MountRefusal) -> Wrong {
    match refusal {
        MountRefusal::NoMemory => Wrong::Memory,
        refusal => Wrong::Mount(refusal),
    }
}

/// A part is written, its power goes after so many calls of its mount, and it is mounted.
fn play<R: Env>(rt: &R, alloc: Global, calls: u32) -> Result<(), Wrong> {
    let mut pages = blank_pages(alloc)?;
    let mut part = cut(alloc, used(alloc, &mut pages)?, calls)?;
    part.power_comes();
    let cells = cells_of(alloc, &part)?;
    let mut die = mounted(rt, alloc, part, &cells)?;
    reads_all(&mut die, alloc, &mut pages)
}

/// The same; from the beginning once more where other memory than that of the mount was refused.
fn play_again<R: Env>(rt: &R, alloc: Global, calls: u32) -> Result<(), Wrong> {
    match play(rt, alloc, calls) {
        Err(Wrong::Memory) if is_scarce(rt) => play(rt, alloc, calls),
        played => played,
    }
}

#[test]
fn a_part_is_as_it_was_where_its_mount_finds_no_memory(rt: HostRuntime) -> Result<(), Fail> {
    Ok(play_again(&rt, rt.alloc(), 0)?)
}

#[test]
fn a_part_whose_mount_was_cut_is_as_it_was(rt: HostRuntime) -> Result<(), Fail> {
    Ok(play_again(&rt, rt.alloc(), CUT)?)
}
