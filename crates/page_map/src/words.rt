//! A number or none, in one word.

ghost use Rattle.std.specs.Prelude.{◌≡◌, ◌<◌, ◌+◌, ◌^◌, Some, None, is_some, position};

use std::marker::Model;
use std::mem::size_of;

/// A number or none, in four bytes: 0 is none, and a number has the word after it. Contracts see which.
#[derive(Clone, Copy, Debug, Drop)]
pub(crate) struct Word(u32);

const _: () = prove!(size_of::<Word>() == 4);

impl Model for Word {
    ghost use Rattle.std.specs.Prelude.{ℕ, Option};
    ghost use Rattle.std.proofs.Common.{ap};

    ghost Value = { Option ℕ };

    ghost use Rattle.page_map.specs.Words.{number_in, word_of, is_word_of};

    ghost view = { λ w. number_in w.0 };

    ghost inverse = { λ number. record { 0 = word_of number } };

    ghost inverse_ok = { λ w _. ap (λ n. record { 0 = n }) (is_word_of w.0) };
}

impl Word {
    /// No number.
    pub(crate) fn none() -> Word
        ensures { result ≡ None }
    {
        Word(0)
    }

    /// A number; the greatest of 32 bits has no word.
    pub(crate) fn some(number: u32) -> Word
        requires { number + 1 < 2 ^ 32 }
        ensures { result ≡ Some number }
    {
        Word(number + 1)
    }

    /// The number, if it is one.
    pub(crate) fn number(self) -> Option<u32>
        ensures { result ≡ self }
    {
        if self.0 == 0 { None } else { Some(self.0 - 1) }
    }

    fn is_number(self) -> bool
        ensures { result ≡ is_some self }
    {
        self.0 != 0
    }
}

/// The place of the first of these words that is a number.
pub(crate) fn first_number(words: &[Word]) -> Option<usize>
    ensures { result ≡ position is_some words.now }
{
    words.iter().position(|word| word.is_number())
}
