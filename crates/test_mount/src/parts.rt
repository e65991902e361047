//! Parts by chance, with what each page holds.

use crate::chips::{Cell, Chip};
use crate::sizes::Sizes;
use crate::wrongs::Wrong;
use die_mount::Label;
use rand_core::utils::NextWord;
use rand_pcg::Pcg32;
use slot_types::Place;
use std::alloc::Global;

/// By page the newest serial and its bytes, as they were put there.
#[derive(Drop)]
pub struct Held {
    pages: Vec<Option<(u64, u64)>>,
}

impl Held {
    /// Of each page its number is the bytes.
    pub fn numbers(alloc: Global, pages: u32) -> Result<Held, Wrong> {
        let mut numbers: Vec<Option<(u64, u64)>> = Vec::new(alloc);
        for page in 0..pages {
            numbers.push(Some((0, page as u64)))?;
        }
        Ok(Held { pages: numbers })
    }

    /// The bytes of a page, if it has any.
    pub fn bytes(&self, page: u32) -> Option<u64> {
        match self.pages.get(page as usize) {
            Some(Some((_, bytes))) => Some(*bytes),
            _ => None,
        }
    }

    fn take(&mut self, label: Label, bytes: u64) {
        if let Some(newest) = self.pages.get_mut(label.page as usize) {
            match *newest {
                Some((serial, _)) if serial > label.serial => {}
                _ => *newest = Some((label.serial, bytes)),
            }
        }
    }
}

/// A part with what its pages hold.
#[derive(Drop)]
pub struct Part {
    pub chip: Chip,
    pub held: Held,
}

impl Part {
    fn put(&mut self, place: Place, label: Label) {
        let bytes = label.serial.saturating_add(1_000_000);
        self.held.take(label, bytes);
        self.chip.put(place, Cell::Good { label, bytes });
    }
}

/// The numbers below a bound, in an order by chance.
fn shuffled(alloc: Global, words: &mut Pcg32, count: u32) -> Result<Vec<u32>, Wrong> {
    let mut numbers: Vec<u32> = Vec::new(alloc);
    for number in 0..count {
        numbers.push(number)?;
    }
    for k in 0..count {
        let other = words.next_word() % count.max(1);
        swap(&mut numbers, k as usize, other as usize);
    }
    Ok(numbers)
}

fn swap(numbers: &mut Vec<u32>, one: usize, two: usize) {
    if let (Some(a), Some(b)) = (numbers.get(one).copied(), numbers.get(two).copied()) {
        if let Some(number) = numbers.get_mut(one) {
            *number = b;
        }
        if let Some(number) = numbers.get_mut(two) {
            *number = a;
        }
    }
}

/// A cell without a label.
fn no_label(words: &mut Pcg32) -> Cell {
    if words.next_word() % 2 == 0 {
        Cell::Torn
    } else {
        Cell::Blank
    }
}

/// Any labels in all blocks but one, with holes: of each page none, one or more.
fn loose(
    alloc: Global,
    sizes: Sizes,
    words: &mut Pcg32,
    idle: u32,
    part: &mut Part,
) -> Result<(), Wrong> {
    let cells = sizes.part_blocks().saturating_mul(sizes.pages);
    let serials = shuffled(alloc, words, cells)?;
    let holes = (words.next_word() % 8).saturating_add(2);
    let mut k = 0usize;
    for block in 0..sizes.part_blocks() {
        for page in 0..sizes.pages {
            let place = Place { block, page };
            if block == idle || words.next_word() % holes.max(1) == 0 {
                part.chip.put(place, no_label(words));
            } else if let Some(serial) = serials.get(k).copied() {
                let page = words.next_word() % sizes.logical.max(1);
                let label = Label {
                    page,
                    serial: serial as u64,
                };
                part.put(place, label);
            }
            k = k.saturating_add(1);
        }
    }
    Ok(())
}

/// How many pages lie in the first `blocks` blocks: they are spread evenly.
fn spread(sizes: Sizes, blocks: u32) -> u32 {
    sizes.logical.saturating_mul(blocks) / sizes.blocks.max(1)
}

/// What is put into the cells of a tight part, in order.
#[derive(Drop)]
struct Course {
    /// The order in which pages lie there.
    pages: Vec<u32>,
    /// The order in which they were written.
    order: Vec<u32>,
    /// How many pages lie there already.
    live: u32,
    /// How many older labels were put there.
    old: u32,
}

impl Course {
    /// The newest label of the next page. All of these are newer than the older labels.
    fn next_live(&mut self) -> Label {
        let k = self.live as usize;
        self.live = self.live.saturating_add(1);
        Label {
            page: self.pages.get(k).copied().unwrap_or(0),
            serial: (self.order.get(k).copied().unwrap_or(0) as u64).saturating_add(1_000),
        }
    }

    /// An older label of some page.
    fn next_old(&mut self, sizes: Sizes, words: &mut Pcg32) -> Label {
        let serial = self.old as u64;
        self.old = self.old.saturating_add(1);
        Label {
            page: words.next_word() % sizes.logical.max(1),
            serial,
        }
    }
}

/// Each page lies somewhere, spread evenly over all blocks but one; all else is older labels, or none.
fn tight(
    alloc: Global,
    sizes: Sizes,
    words: &mut Pcg32,
    idle: u32,
    part: &mut Part,
) -> Result<(), Wrong> {
    let mut course = Course {
        pages: shuffled(alloc, words, sizes.logical)?,
        order: shuffled(alloc, words, sizes.logical)?,
        live: 0,
        old: 0,
    };
    let mut full = 0u32;
    for block in 0..sizes.part_blocks() {
        if block != idle {
            full = full.saturating_add(1);
        }
        let live = spread(sizes, full);
        tight_block(sizes, words, block, live, &mut course, part);
    }
    Ok(())
}

/// A block of a tight part, up to whose end `live` pages lie.
fn tight_block(
    sizes: Sizes,
    words: &mut Pcg32,
    block: u32,
    live: u32,
    course: &mut Course,
    part: &mut Part,
) {
    for page in 0..sizes.pages {
        let place = Place { block, page };
        let due = live.saturating_sub(course.live);
        let word = words.next_word();
        if due > 0 && (due >= sizes.pages.saturating_sub(page) || word % 2 == 0) {
            let label = course.next_live();
            part.put(place, label);
        } else if word % 8 < 2 {
            part.chip.put(place, no_label(words));
        } else {
            let label = course.next_old(sizes, words);
            part.put(place, label);
        }
    }
}

/// A part in which a block is idle: in two of three cases all pages lie somewhere.
pub fn by_chance(alloc: Global, sizes: Sizes, words: &mut Pcg32) -> Result<Part, Wrong> {
    let mut part = Part {
        chip: Chip::new(alloc, sizes.part_blocks(), sizes.pages, sizes.slots)?,
        held: Held {
            pages: vec![in alloc; None; sizes.logical as usize]?,
        },
    };
    let idle = words.next_word() % sizes.part_blocks().max(1);
    if words.next_word() % 3 == 0 {
        loose(alloc, sizes, words, idle, &mut part)?;
    } else {
        tight(alloc, sizes, words, idle, &mut part)?;
    }
    Ok(part)
}
