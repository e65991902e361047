//! The power that goes during a call of a part, and comes again.

use crate::cells::Cell;
use crate::part_calls::{Misuse, PartCall};
use crate::parts::Part;
use crate::unmounted::Unmounted;
use rand_core::utils::NextWord;
use rand_pcg::Pcg32;
use slot_types::Place;

/// What is left of the call during which the power goes.
#[derive(Clone, Copy, PartialEq, Eq, Drop)]
pub enum Leaves {
    /// Nothing of it was begun: a cell looks blank.
    Blank,
    /// It was cut: the cell of a program is torn; a block is in erase, from its first slot on.
    Torn,
    /// All of it was done.
    Whole,
}

impl Leaves {
    /// All of them.
    pub const ALL: [Leaves; 3] = [Leaves::Blank, Leaves::Torn, Leaves::Whole];
}

/// How the cells of blocks look that are in erase where the power goes: by a seed and the number of the call. Each of
/// these cells, in the order of the part, looks by the next word of a generator, which is divided by 3: where 0 is
/// left, as it was; where 1 is left, torn; and where 2 is left, blank.
#[derive(Drop)]
pub struct Looks {
    words: Pcg32,
}

impl Looks {
    /// The looks of a cut in the call of this number, the first being 1.
    pub fn new(seed: u32, call: u64) -> Looks {
        Looks {
            words: Pcg32::new(u64::from(seed), call),
        }
    }

    fn of(&mut self, cell: Cell) -> Cell {
        match self.words.next_word() % 3 {
            0 => cell,
            1 => Cell::Torn,
            _ => Cell::Blank,
        }
    }
}

impl Part {
    /// The power goes during a call, of which this is left, and comes again.
    pub fn cut(&mut self, call: PartCall, leaves: Leaves, looks: &mut Looks) -> Result<(), Misuse> {
        match (leaves, call) {
            (Leaves::Whole, _) => {
                let _ = self.carry_out(call)?;
            }
            (Leaves::Torn, PartCall::Program { place, .. }) => self.put(place, Cell::Torn),
            (Leaves::Torn, PartCall::EraseSlot { block }) => {
                let slots = self.erasing(block).saturating_add(1);
                self.set_erasing(block, slots);
            }
            (Leaves::Torn, PartCall::Read { .. }) => {}
            (Leaves::Blank, _) => {}
        }
        self.power_comes(looks);
        Ok(())
    }

    /// The power goes between two calls, and comes again: an erase that was under way is none, and of no cell it is
    /// known that it was erased.
    pub fn power_comes(&mut self, looks: &mut Looks) {
        for block in 0..self.blocks() {
            if self.erasing(block) > 0 {
                self.look(block, looks);
                self.set_erasing(block, 0);
            }
        }
        self.forget_erases();
    }

    /// The cells of a block that was in erase look anyhow.
    fn look(&mut self, block: u32, looks: &mut Looks) {
        for page in 0..self.pages() {
            let place = Place { block, page };
            if let Some(cell) = self.cell(place) {
                self.put(place, looks.of(cell));
            }
        }
    }
}

/// How the power goes: what is left of the call, and the seed of how blocks in erase look.
#[derive(Clone, Copy, Drop)]
pub struct Loss {
    pub leaves: Leaves,
    pub looks: u32,
}

/// Lets the power of a part go in the call of this number, and come again. Answers the looks, which go on.
pub fn cut_part(
    part: &mut Part,
    call: PartCall,
    number: u64,
    loss: Loss,
) -> Result<Looks, Unmounted> {
    let mut looks = Looks::new(loss.looks, number);
    match part.cut(call, loss.leaves, &mut looks) {
        Ok(()) => Ok(looks),
        Err(misuse) => Err(Unmounted::Misused(misuse)),
    }
}
