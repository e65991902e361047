//! Whole mounts of a part: its scan, its calls one by one, and what has to be so when it ends.

use crate::chips::{Cell, Chip, Leftover};
use crate::parts::Held;
use crate::sizes::Sizes;
use crate::wrongs::Wrong;
use die_mount::{FirstErase, Label, Mount, Scan};
use rand_pcg::Pcg32;
use slot_types::{DiePlan, Place};
use std::alloc::Global;

/// More calls than any mount here has.
const MANY: u32 = 100_000;

/// What is reported of a block.
fn labels_of(
    alloc: Global,
    sizes: Sizes,
    chip: &Chip,
    block: u32,
) -> Result<Vec<Option<Label>>, Wrong> {
    let mut labels: Vec<Option<Label>> = Vec::new(alloc);
    for page in 0..sizes.pages {
        labels.push(match chip.cell(Place { block, page }) {
            Some(Cell::Good { label, .. }) => Some(label),
            _ => None,
        })?;
    }
    Ok(labels)
}

/// What a scan has of a part, without the labels of a block, if one is named.
pub fn scan(alloc: Global, sizes: Sizes, chip: &Chip, without: Option<u32>) -> Result<Scan, Wrong> {
    let plan = plan_of(alloc, sizes)?;
    let mut scan = match Scan::new(alloc, &plan) {
        Ok(scan) => scan,
        Err(fault) => return Err(Wrong::Plan(fault)),
    };
    for block in 0..sizes.part_blocks() {
        let labels = if without == Some(block) {
            Vec::new(alloc)
        } else {
            labels_of(alloc, sizes, chip, block)?
        };
        if let Err(fault) = scan.tell(labels.as_slice(), None) {
            return Err(Wrong::Scan(fault));
        }
    }
    Ok(scan)
}

pub fn plan_of(alloc: Global, sizes: Sizes) -> Result<DiePlan, Wrong> {
    match sizes.plan(alloc) {
        Ok(plan) => Ok(plan),
        Err(_) => Err(Wrong::Memory),
    }
}

/// The mount of a part, and whether it undoes a block.
pub fn begin(alloc: Global, sizes: Sizes, chip: &Chip) -> Result<(Mount, bool), Wrong> {
    let before = scan(alloc, sizes, chip, None)?;
    if !before.is_whole() {
        return Err(Wrong::NotWhole);
    }
    match before.first_erase() {
        FirstErase::Idle { .. } => Ok((begin_idle(alloc, sizes, before)?, false)),
        FirstErase::Undo { block } => {
            let again = scan(alloc, sizes, chip, Some(block))?;
            Ok((undo(alloc, sizes, &before, again, block)?, true))
        }
    }
}

fn begin_idle(alloc: Global, sizes: Sizes, scan: Scan) -> Result<Mount, Wrong> {
    if !scan.is_whole() {
        return Err(Wrong::NotWhole);
    }
    match Mount::new(alloc, plan_of(alloc, sizes)?, scan) {
        Ok(mount) => Ok(mount),
        Err(fault) => Err(Wrong::Begin(fault)),
    }
}

fn undo(
    alloc: Global,
    sizes: Sizes,
    before: &Scan,
    again: Scan,
    block: u32,
) -> Result<Mount, Wrong> {
    if !before.is_whole() {
        return Err(Wrong::NotWhole);
    }
    if !again.is_whole() {
        return Err(Wrong::NotWhole);
    }
    if let Some(page) = again.first_lost(before) {
        return Err(Wrong::Lost { page });
    }
    match Mount::undo(alloc, plan_of(alloc, sizes)?, before, again, block) {
        Ok(mount) => Ok(mount),
        Err(fault) => Err(Wrong::Begin(fault)),
    }
}

/// Carries out the call that comes next. Answers whether one came.
pub fn step(mount: &mut Mount, chip: &mut Chip) -> Result<bool, Wrong> {
    let left = mount.calls_left();
    match mount.next() {
        None => Ok(false),
        Some(call) => {
            chip.carry_out(call)?;
            mount.done();
            if mount.calls_left() < left {
                Ok(true)
            } else {
                Err(Wrong::Calls)
            }
        }
    }
}

/// Where a part shows a page's label with the greatest serial, which no other label has.
fn newest(sizes: Sizes, chip: &Chip, page: u32) -> Option<Place> {
    let mut found: Option<(u64, Place)> = None;
    for block in 0..sizes.part_blocks() {
        for cell in 0..sizes.pages {
            let place = Place { block, page: cell };
            if let Some(Cell::Good { label, .. }) = chip.cell(place) {
                if label.page == page && is_newer(found, label.serial) {
                    found = Some((label.serial, place));
                }
            }
        }
    }
    match found {
        Some((_, place)) => Some(place),
        None => None,
    }
}

fn is_newer(found: Option<(u64, Place)>, serial: u64) -> bool {
    match found {
        Some((before, _)) => before < serial,
        None => true,
    }
}

/// Whether a page may be read where the mount says, with the bytes that it had; or it had none.
fn is_kept(mount: &Mount, chip: &Chip, held: &Held, page: u32) -> bool {
    match (mount.place(page), held.bytes(page)) {
        (Some(place), Some(bytes)) => chip.bytes(place) == Ok(bytes),
        (None, None) => true,
        _ => false,
    }
}

/// Each page may be read where the mount says, with the bytes that it had.
pub fn check_kept(sizes: Sizes, mount: &Mount, chip: &Chip, held: &Held) -> Result<(), Wrong> {
    for page in 0..sizes.logical {
        if !is_kept(mount, chip, held, page) {
            return Err(Wrong::Page { page });
        }
    }
    if mount.place(sizes.logical).is_some() {
        return Err(Wrong::Page {
            page: sizes.logical,
        });
    }
    Ok(())
}

/// Each page is where its newest label says, and enough cells are erased for full accounts and a block, which is whole.
fn check_end(sizes: Sizes, mount: &Mount, chip: &Chip) -> Result<(), Wrong> {
    for page in 0..sizes.logical {
        if mount.place(page) != newest(sizes, chip, page) {
            return Err(Wrong::Page { page });
        }
    }
    let (whole, cells) = chip.erased(sizes.part_blocks());
    if whole == 0 || cells < sizes.accounts().saturating_add(sizes.pages) {
        return Err(Wrong::NotFree);
    }
    Ok(())
}

/// Carries out all calls that come, with each page in its place before and after each of them. Answers how many came.
fn finish(sizes: Sizes, mount: &mut Mount, chip: &mut Chip, held: &Held) -> Result<u32, Wrong> {
    for calls in 0..MANY {
        check_kept(sizes, mount, chip, held)?;
        if !step(mount, chip)? {
            check_end(sizes, mount, chip)?;
            return Ok(calls);
        }
    }
    Err(Wrong::Calls)
}

/// A whole mount. Answers how many calls came, and whether it undid a block.
pub fn mounts(
    alloc: Global,
    sizes: Sizes,
    chip: &mut Chip,
    held: &Held,
) -> Result<(u32, bool), Wrong> {
    let (mut mount, undoes) = begin(alloc, sizes, chip)?;
    if mount.calls_left() != sizes.most_calls() {
        return Err(Wrong::Calls);
    }
    let calls = finish(sizes, &mut mount, chip, held)?;
    Ok((calls, undoes))
}

/// A mount whose power goes during the call after `calls` others, of which this is left. Answers whether that call
/// came.
pub fn mounts_until(
    alloc: Global,
    sizes: Sizes,
    chip: &mut Chip,
    calls: u32,
    leftover: Leftover,
    words: &mut Pcg32,
) -> Result<bool, Wrong> {
    let (mut mount, _) = begin(alloc, sizes, chip)?;
    for _ in 0..calls {
        if !step(&mut mount, chip)? {
            return Ok(false);
        }
    }
    match mount.next() {
        Some(call) => {
            chip.cut(call, leftover, words)?;
            Ok(true)
        }
        None => Ok(false),
    }
}
