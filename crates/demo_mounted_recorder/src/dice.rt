//! Numbers by chance, and what becomes of a life by them.

use crate::power::{Cut, Leaves, Power};

/// Numbers by chance, each from the one before.
#[derive(Clone, Copy, Drop)]
pub(crate) struct Dice {
    state: u64,
}

impl Dice {
    pub(crate) fn new(seed: u64) -> Dice {
        Dice { state: seed }
    }

    /// A number below `count`.
    fn below(&mut self, count: u32) -> u32 {
        self.state = self
            .state
            .wrapping_mul(6_364_136_223_846_793_005)
            .wrapping_add(1_442_695_040_888_963_407);
        let high = (self.state / 0x1_0000_0000) % u64::from(count.max(1));
        u32::try_from(high).unwrap_or(0)
    }
}

/// How a life ends.
#[derive(Clone, Copy, PartialEq, Eq, Drop)]
pub(crate) enum End {
    /// Its start is cut: where what was saved is voided, or else in its mount, after this number of writes. A mount has
    /// more.
    Start(u32),
    /// It works up to this slot, and then the next program is cut.
    Program(u32),
    /// Or the next slot of an erase.
    Erase(u32),
    /// It works up to this slot, and is shut down; the write of the text that is saved is cut.
    Text(u32),
    /// Or the write of its seal.
    Seal(u32),
    /// Or none.
    Shutdown(u32),
}

/// How a life ends, and what is left of the write at which its power goes.
#[derive(Clone, Copy, Drop)]
pub(crate) struct Fate {
    pub(crate) end: End,
    pub(crate) leaves: Leaves,
}

/// No mount has fewer writes: without power all blocks count as closed, so at least six are erased.
const MOUNT: u32 = 24;

/// In how many slots at work the power goes.
const WORK: u32 = 512;

/// A shutdown after work up to this slot, by what falls of three.
fn shutdown(save: u32, slot: u32) -> End {
    match save {
        0 => End::Text(slot),
        1 => End::Seal(slot),
        _ => End::Shutdown(slot),
    }
}

impl Fate {
    /// The next one: one life in three is cut in its start, and of the others one in three is shut down. Of a third of
    /// the writes that are cut nothing is left, of a third all.
    pub(crate) fn draw(dice: &mut Dice) -> Fate {
        let (is_start, writes, slot) = (dice.below(3) == 0, dice.below(MOUNT), dice.below(WORK));
        let (is_erase, leaves, share) = (dice.below(2) == 0, dice.below(3), dice.below(35));
        let (is_shut, save) = (dice.below(3) == 0, dice.below(3));
        let end = if is_start {
            End::Start(writes)
        } else if is_shut {
            shutdown(save, slot)
        } else if is_erase {
            End::Erase(slot)
        } else {
            End::Program(slot)
        };
        let leaves = match leaves {
            0 => Leaves::Nothing,
            1 => Leaves::Part { share },
            _ => Leaves::All,
        };
        Fate { end, leaves }
    }

    /// The power, as it goes in the start, after the work's last slot, or as the die is shut down.
    pub(crate) fn power(&self) -> Power {
        let cut = match self.end {
            End::Start(writes) => Cut::Start(writes),
            End::Program(_) => Cut::Program,
            End::Erase(_) => Cut::Erase,
            End::Text(_) => Cut::Text,
            End::Seal(_) => Cut::Seal,
            End::Shutdown(_) => Cut::Never,
        };
        Power::cut_at(cut, self.leaves)
    }
}
