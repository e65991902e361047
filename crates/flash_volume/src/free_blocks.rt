//! A set of blocks whose least is found at once.

ghost use Rattle.std.specs.Prelude.{◌≡◌, ◌<◌, ◌≤◌, ◌*◌, ℕ, length, replicate, IfOk, IfSome, IfNone};
ghost use Rattle.slot_types.specs.Refusal.{FailsForMemory};
ghost use Rattle.flash_volume.specs.FreeBlocks.{bit_of, words_for, HasSet, IsLeastIn};

use slot_types::Refusal;
use std::alloc::Global;
use std::marker::Model;

/// How many blocks a word has.
const WORD: u32 = 64;

/// A set of blocks, of at most 4,096. Contracts see its words: bit `block % 64` of word `block / 64` is 1 where the
/// block is in the set.
///
/// Each call but `new` takes constant time: one word more says which words have a bit that is 1.
#[derive(Drop)]
pub(crate) struct FreeBlocks {
    words: Vec<u64>,
    /// Bit `w` says that word `w` isn't 0.
    summary: u64,
}

impl Model for FreeBlocks {
    ghost use Rattle.std.specs.Prelude.{ℕ, List};
    ghost use Rattle.flash_volume.specs.FreeBlocks.{Summarizes};

    ghost Value = { List ℕ };

    ghost view = { λ s. s.words.items };

    ghost invariant = { λ s. Summarizes s.words.items s.summary };
}

impl FreeBlocks {
    /// None of `blocks` blocks. Refused with `NoMemory` alone.
    pub(crate) fn new(alloc: Global, blocks: usize) -> Result<Self, Refusal>
        requires few { blocks ≤ 4096 }
        ensures ok { IfOk result (λ set. set ≡ replicate (words_for blocks) 0) }
        ensures err { FailsForMemory result }
    {
        Ok(FreeBlocks {
            words: vec![in alloc; 0; blocks.div_ceil(WORD as usize)]?,
            summary: 0,
        })
    }

    /// Puts a block into the set.
    pub(crate) fn insert(&mut self, block: u32)
        requires { block < 64 * length self.old }
        ensures { HasSet block 1 self.old self.new }
    {
        let word = block / WORD;
        self.words[word as usize] |= 1 << (block % WORD);
        self.summary |= 1 << word;
    }

    /// Takes a block out of the set.
    pub(crate) fn remove(&mut self, block: u32)
        requires { block < 64 * length self.old }
        ensures { HasSet block 0 self.old self.new }
    {
        let word = block / WORD;
        let left = self.words[word as usize] & !(1 << (block % WORD));
        self.words[word as usize] = left;
        if left == 0 {
            self.summary &= !(1 << word);
        }
    }

    /// The least block of the set.
    pub(crate) fn least(&self) -> Option<u32>
        ensures some { IfSome result (IsLeastIn self.now) }
        ensures none { IfNone result ((block : ℕ) → bit_of self.now block ≡ 0) }
    {
        if self.summary == 0 {
            return None;
        }
        let word = self.summary.trailing_zeros();
        let bits = self.words[word as usize];
        Some(WORD * word + bits.trailing_zeros())
    }
}
