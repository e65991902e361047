//! Parts by chance, against the plainest look at all labels.

use crate::samples::{Cell, plan, tell};
use die_mount::{FirstErase, Scan};
use rand_core::utils::NextWord;
use rand_pcg::Pcg32;
use slot_types::Place;
use std::alloc::Global;
use std::test::Fail;

const PARTS: u32 = 2_000;

/// A label of a part: block, cell, page and serial.
#[derive(Clone, Copy, Drop)]
struct Seen {
    block: u32,
    cell: u32,
    page: u32,
    serial: u64,
}

/// Whether another label of the page is newer.
fn is_outdated(labels: &[Seen], label: Seen) -> bool {
    for other in labels {
        if other.page == label.page && other.serial > label.serial {
            return true;
        }
    }
    false
}

/// Where a page lies: at its label that no other one outdates.
fn place_of(labels: &[Seen], page: u32) -> Option<Place> {
    for label in labels {
        if label.page == page && !is_outdated(labels, *label) {
            return Some(Place {
                block: label.block,
                page: label.cell,
            });
        }
    }
    None
}

/// Whether a page lies in a block.
fn has_page(labels: &[Seen], block: u32) -> bool {
    for label in labels {
        if label.block == block && !is_outdated(labels, *label) {
            return true;
        }
    }
    false
}

/// The first block without a page; else the one with the label that no other one has a greater serial than.
fn first_erase(labels: &[Seen]) -> Option<FirstErase> {
    for block in 0..5 {
        if !has_page(labels, block) {
            return Some(FirstErase::Idle { block });
        }
    }
    for label in labels {
        let mut is_greatest = true;
        for other in labels {
            if other.serial > label.serial {
                is_greatest = false;
            }
        }
        if is_greatest {
            return Some(FirstErase::Undo { block: label.block });
        }
    }
    None
}

/// A part by chance, of whose cells one in `holes` has no label on average: what a scan says of it, and what a plain
/// look does. Answers whether they agree, and whether no block was idle.
fn agrees(alloc: Global, words: &mut Pcg32, holes: u32) -> Result<(bool, bool), Fail> {
    let plan = plan(alloc)?;
    let Ok(mut scan) = Scan::new(alloc, &plan) else {
        return Err("refused".into());
    };
    // No two labels have one serial: twenty serials in an order by chance.
    let mut serials = vec![in alloc; 0u64; 20]?;
    for k in 0..20usize {
        serials[k] = k as u64;
    }
    for k in 0..20usize {
        let other = words.next_word() as usize % 20;
        let (one, two) = (serials[k], serials[other]);
        serials[k] = two;
        serials[other] = one;
    }
    let mut labels: Vec<Seen> = Vec::new(alloc);
    for block in 0..5u32 {
        let mut cells: Vec<Cell> = Vec::new(alloc);
        for cell in 0..4u32 {
            let (page, serial) = (words.next_word() % 5, serials[(4 * block + cell) as usize]);
            if words.next_word() % holes.max(1) == 0 {
                cells.push(None)?;
            } else {
                cells.push(Some((page, serial)))?;
                labels.push(Seen {
                    block,
                    cell,
                    page,
                    serial,
                })?;
            }
        }
        if tell(alloc, &mut scan, cells.as_slice()).is_err() {
            return Err("refused".into());
        }
    }
    if !scan.is_whole() {
        return Ok((false, false));
    }
    for page in 0..5u32 {
        if scan.place(page) != place_of(labels.as_slice(), page) {
            return Ok((false, false));
        }
    }
    let erased = scan.first_erase();
    let undoes = match erased {
        FirstErase::Undo { .. } => true,
        FirstErase::Idle { .. } => false,
    };
    Ok((Some(erased) == first_erase(labels.as_slice()), undoes))
}

#[test]
fn two_thousand_parts_are_read_as_by_a_plain_look(rt: HostRuntime) -> Result<(), Fail> {
    let mut words = Pcg32::new(11, 5);
    let mut undone = 0u32;
    for part in 0..PARTS {
        let (agrees, undoes) = agrees(rt.alloc(), &mut words, 2 + part % 9)?;
        assert!(rt; agrees);
        if undoes {
            undone = undone.saturating_add(1);
        }
    }
    // Five pages lie in five blocks now and then.
    assert!(rt; undone > 20);
    Ok(())
}
