//! Mounts by hand, call by call, with the calls and how many may come yet worked out from the rules.

use crate::chips::{Cell, Chip};
use crate::mounts::{begin, step};
use crate::sizes::Sizes;
use crate::wrongs::Wrong;
use die_mount::MountCall::{EraseSlot, Program, Read};
use die_mount::{Label, Mount, MountCall};
use slot_types::Place;
use std::alloc::Global;

/// What a cell shows: page and serial of a label, or none.
pub type Shows = Option<(u32, u64)>;

/// A part whose blocks show these labels; the bytes of each page are its number.
pub fn part_of(alloc: Global, sizes: Sizes, blocks: &[&[Shows]]) -> Result<Chip, Wrong> {
    let mut chip = Chip::new(alloc, sizes.part_blocks(), sizes.pages, sizes.slots)?;
    let mut block = 0u32;
    for labels in blocks {
        put_block(&mut chip, block, labels);
        block = block.saturating_add(1);
    }
    Ok(chip)
}

fn put_block(chip: &mut Chip, block: u32, labels: &[Shows]) {
    let mut cell = 0u32;
    for label in labels {
        if let Some((page, serial)) = *label {
            let good = Cell::Good {
                label: Label { page, serial },
                bytes: page as u64,
            };
            chip.put(Place { block, page: cell }, good);
        }
        cell = cell.saturating_add(1);
    }
}

/// A call that comes next, and how many may come then.
type Want = (MountCall, u64);

/// Whether this call comes next.
fn comes(mount: &Mount, want: Want) -> bool {
    match mount.next() {
        Some(call) => (call, mount.calls_left()) == want,
        None => false,
    }
}

/// Whether just these calls come.
fn goes(mount: &mut Mount, chip: &mut Chip, wants: &[Want]) -> Result<bool, Wrong> {
    for want in wants {
        if !comes(mount, *want) {
            return Ok(false);
        }
        let _ = step(mount, chip)?;
    }
    Ok(mount.next() == None && mount.calls_left() == 0)
}

/// How the mount of a part goes: whether it undoes a block, and whether just these calls come.
fn mounted(
    alloc: Global,
    sizes: Sizes,
    blocks: &[&[Shows]],
    wants: &[Want],
) -> Result<(bool, bool), Wrong> {
    let mut chip = part_of(alloc, sizes, blocks)?;
    let (mut mount, undoes) = begin(alloc, sizes, &chip)?;
    let goes = goes(&mut mount, &mut chip, wants)?;
    Ok((undoes, goes))
}

/// Full accounts have 3 + (4 - 1) = 6 free pages, and with a block it is 10. So at most 6 blocks are emptied: with the
/// first erase 3 + 6 * (2 * 3 + 3) = 57 calls.
pub const FEW: Sizes = Sizes {
    blocks: 4,
    pages: 4,
    slots: 3,
    logical: 7,
    alpha: 1,
    tasks: 1,
    cap: 3,
};

const E0: MountCall = EraseSlot { block: 0 };

const E1: MountCall = EraseSlot { block: 1 };

const E3: MountCall = EraseSlot { block: 3 };

const E4: MountCall = EraseSlot { block: 4 };

/// Blocks 0 and 4 have no page; 0 is erased first. Four pages are free then, and block 4 has the fewest pages; with eight
/// free ones it is block 1, with one page, which goes to block 0 with the next serial. Then eleven are free.
#[test]
fn an_empty_block_goes_first_and_then_the_one_with_one_page(rt: HostRuntime) {
    let old = [Some((0, 0)), None, Some((3, 1)), None];
    let one = [None, Some((5, 2)), Some((0, 8)), Some((6, 3))];
    let two = [Some((1, 9)), Some((2, 10)), None, None];
    let four = [Some((3, 11)), Some((4, 12)), Some((5, 20)), Some((6, 14))];
    let moved = Program {
        place: Place { block: 0, page: 0 },
        label: Label {
            page: 0,
            serial: 21,
        },
    };
    let from = Read {
        place: Place { block: 1, page: 2 },
    };
    let wants = [
        (E0, 57),
        (E0, 56),
        (E0, 55),
        // an erase, and five more blocks
        (E4, 48),
        (E4, 47),
        (E4, 46),
        // a page and an erase, and four more
        (from, 41),
        (moved, 40),
        (E1, 39),
        (E1, 38),
        (E1, 37),
    ];
    let got = mounted(rt.alloc(), FEW, &[&old, &one, &two, &four, &[]], &wants);
    assert_eq!(rt; got, Ok((false, true)));
}

/// Full accounts have 1 + (4 - 2) = 3 free pages, and with a block it is 7. So at most 2 blocks are emptied: with the first
/// erase 3 + 2 * (2 * 2 + 3) = 17 calls.
pub const CUT: Sizes = Sizes {
    blocks: 6,
    pages: 4,
    slots: 3,
    logical: 11,
    alpha: 2,
    tasks: 1,
    cap: 1,
};

/// A page lies in each block, and block 3 shows the greatest serial: a mount was cut as it copied page 4 there from block
/// 0. Without it block 1 has one page, and each other one two.
pub const CUT_PART: [[Shows; 4]; 7] = [
    [Some((0, 10)), Some((4, 11)), None, None],
    [None, Some((7, 1)), Some((1, 12)), Some((0, 3))],
    [Some((2, 13)), Some((1, 2)), Some((5, 14)), None],
    [Some((4, 30)), None, None, None],
    [Some((3, 15)), Some((6, 16)), Some((4, 4)), Some((4, 5))],
    [Some((7, 17)), Some((8, 18)), None, None],
    [None, None, Some((10, 19)), Some((9, 20))],
];

/// Block 3 is erased first, and block 1 has the fewest pages then. Its page goes to block 3, with a serial above the one
/// that was undone, and seven pages are free.
#[test]
fn a_block_is_undone_and_takes_programs_then(rt: HostRuntime) {
    let from = Read {
        place: Place { block: 1, page: 2 },
    };
    let moved = Program {
        place: Place { block: 3, page: 0 },
        label: Label {
            page: 1,
            serial: 31,
        },
    };
    let wants = [
        (E3, 17),
        (E3, 16),
        (E3, 15),
        // a page and an erase, and one more block
        (from, 12),
        (moved, 11),
        (E1, 10),
        (E1, 9),
        (E1, 8),
    ];
    let [a, b, c, d, e, f, g] = &CUT_PART;
    let got = mounted(rt.alloc(), CUT, &[a, b, c, d, e, f, g], &wants);
    assert_eq!(rt; got, Ok((true, true)));
}
