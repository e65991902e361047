//! Mounts of parts by chance, to their end and cut at each of their calls.

use crate::chips::{Chip, LEFTOVERS, Leftover};
use crate::mounts::{mounts, mounts_until};
use crate::parts::{Held, by_chance};
use crate::sizes::Sizes;
use crate::wrongs::Wrong;
use rand_core::utils::NextWord;
use rand_pcg::Pcg32;
use std::alloc::Global;

/// What came up in mounts.
#[derive(Clone, Copy, PartialEq, Eq, Debug, Drop)]
struct Met {
    /// How many whole mounts had a call after those of the first erase.
    rounds: u32,
    /// How many undid a block.
    undone: u32,
    /// How many had as many calls as the plan allows.
    longest: u32,
}

const NONE: Met = Met {
    rounds: 0,
    undone: 0,
    longest: 0,
};

impl Met {
    /// Whether `mounts` mounts were whole, and had a round each: after the first erase a block is free, and full
    /// accounts need a page more at least. And whether it came up often enough that a block was undone, and that all
    /// calls came.
    fn is_enough(self, mounts: u32, undone: u32, longest: u32) -> bool {
        self.rounds >= mounts && self.undone >= undone && self.longest >= longest
    }

    fn note(&mut self, sizes: Sizes, calls: u32, undoes: bool) {
        if calls > sizes.slots {
            self.rounds = self.rounds.saturating_add(1);
        }
        if undoes {
            self.undone = self.undone.saturating_add(1);
        }
        if calls as u64 == sizes.most_calls() {
            self.longest = self.longest.saturating_add(1);
        }
    }
}

/// Nothing was wrong, and enough came up.
fn enough(met: Result<Met, Wrong>, mounts: u32, undone: u32, longest: u32) -> Result<(), Wrong> {
    if met?.is_enough(mounts, undone, longest) {
        Ok(())
    } else {
        Err(Wrong::Rare)
    }
}

/// Mounts a part, and then once more as the first mount left it.
fn mounts_twice(
    alloc: Global,
    sizes: Sizes,
    chip: &mut Chip,
    held: &Held,
    words: &mut Pcg32,
    met: &mut Met,
) -> Result<(), Wrong> {
    let (calls, undoes) = mounts(alloc, sizes, chip, held)?;
    met.note(sizes, calls, undoes);
    chip.power_comes(words);
    let (calls, undoes) = mounts(alloc, sizes, chip, held)?;
    met.note(sizes, calls, undoes);
    Ok(())
}

/// Mounts `parts` parts by chance. Answers what came up.
fn mount_parts(alloc: Global, parts: u32, words: &mut Pcg32) -> Result<Met, Wrong> {
    let mut met = NONE;
    for _ in 0..parts {
        let sizes = Sizes::by_chance(words);
        let mut part = by_chance(alloc, sizes, words)?;
        mounts_twice(alloc, sizes, &mut part.chip, &part.held, words, &mut met)?;
    }
    Ok(met)
}

#[test]
fn each_mount_keeps_all_pages(rt: HostRuntime) {
    let mut words = Pcg32::new(3, 14);
    let met = mount_parts(rt.alloc(), 1_000, &mut words);
    assert_eq!(rt; enough(met, 2_000, 0, 200), Ok(()));
}

/// Cuts the mount of a part at a call, with each leftover, and mounts what is left. Answers whether that call came.
fn cut_at(
    alloc: Global,
    sizes: Sizes,
    chip: &Chip,
    held: &Held,
    calls: u32,
    words: &mut Pcg32,
    met: &mut Met,
) -> Result<bool, Wrong> {
    let mut came = true;
    for leftover in &LEFTOVERS {
        let mut cut = chip.twin()?;
        came = mounts_until(alloc, sizes, &mut cut, calls, *leftover, words)?;
        let (calls, undoes) = mounts(alloc, sizes, &mut cut, held)?;
        met.note(sizes, calls, undoes);
    }
    Ok(came)
}

/// Cuts the mount of a part at each of its calls.
fn cut_at_each(
    alloc: Global,
    sizes: Sizes,
    chip: &Chip,
    held: &Held,
    words: &mut Pcg32,
    met: &mut Met,
) -> Result<(), Wrong> {
    for calls in 0..10_000 {
        if !cut_at(alloc, sizes, chip, held, calls, words, met)? {
            return Ok(());
        }
    }
    Err(Wrong::Calls)
}

fn cut_parts(alloc: Global, parts: u32, words: &mut Pcg32) -> Result<Met, Wrong> {
    let mut met = NONE;
    for _ in 0..parts {
        let sizes = Sizes::by_chance(words);
        let part = by_chance(alloc, sizes, words)?;
        cut_at_each(alloc, sizes, &part.chip, &part.held, words, &mut met)?;
    }
    Ok(met)
}

#[test]
fn a_mount_may_be_cut_at_each_call(rt: HostRuntime) {
    let mut words = Pcg32::new(15, 92);
    let met = cut_parts(rt.alloc(), 400, &mut words);
    assert_eq!(rt; enough(met, 4_000, 100, 200), Ok(()));
}

/// A leftover by chance.
fn leftover(words: &mut Pcg32) -> Leftover {
    match words.next_word() % 3 {
        0 => Leftover::Nothing,
        1 => Leftover::Half,
        _ => Leftover::Whole,
    }
}

/// Cuts five mounts in a row, each at some call. What each leaves is mounted to its end, too.
fn cut_five_times(
    alloc: Global,
    sizes: Sizes,
    chip: &mut Chip,
    held: &Held,
    words: &mut Pcg32,
    met: &mut Met,
) -> Result<(), Wrong> {
    for _ in 0..5 {
        let mut whole = chip.twin()?;
        let (calls, undoes) = mounts(alloc, sizes, &mut whole, held)?;
        met.note(sizes, calls, undoes);
        let at = words.next_word() % calls.max(1);
        if !mounts_until(alloc, sizes, chip, at, leftover(words), words)? {
            return Err(Wrong::Calls);
        }
    }
    let (calls, undoes) = mounts(alloc, sizes, chip, held)?;
    met.note(sizes, calls, undoes);
    Ok(())
}

fn cut_in_chains(alloc: Global, parts: u32, words: &mut Pcg32) -> Result<Met, Wrong> {
    let mut met = NONE;
    for _ in 0..parts {
        let sizes = Sizes::by_chance(words);
        let mut part = by_chance(alloc, sizes, words)?;
        cut_five_times(alloc, sizes, &mut part.chip, &part.held, words, &mut met)?;
    }
    Ok(met)
}

#[test]
fn five_mounts_may_be_cut_in_a_row(rt: HostRuntime) {
    let mut words = Pcg32::new(65, 35);
    let met = cut_in_chains(rt.alloc(), 1_000, &mut words);
    assert_eq!(rt; enough(met, 6_000, 20, 200), Ok(()));
}
