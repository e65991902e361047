//! What is left to chance.

use rand_core::utils::NextWord;
use rand_pcg::Pcg32;

/// The stream of words that seeds choose from.
const STREAM: u64 = 1;

/// Draws numbers, the same ones for the same seed.
#[derive(Drop)]
pub struct Chance {
    words: Pcg32,
}

impl Chance {
    /// The draws of a seed.
    pub fn new(seed: u32) -> Chance {
        Chance {
            words: Pcg32::new(u64::from(seed), STREAM),
        }
    }

    /// A number below a bound; 0 where none is.
    pub fn below(&mut self, bound: u32) -> u32 {
        self.words.next_word() % bound.max(1)
    }
}
