//! Whether allocations are refused while the tests are played.

use std::env::Env;

/// What a test does with a call that finds no memory.
#[derive(Clone, Copy, PartialEq, Eq, Debug, Drop)]
pub enum Memory {
    /// It fails: there is memory.
    Ample,
    /// It makes the call again, once: an allocation is refused from outside.
    Scarce,
}

impl Memory {
    /// `Scarce` where `.ci/memory/refused-growths` plays the test, which it says by the variable `REFUSE`.
    pub fn of<R: Env>(rt: &R) -> Memory {
        let mut number = [0u8; 20];
        match rt.var("REFUSE", &mut number) {
            Ok(_) => Memory::Scarce,
            Err(_) => Memory::Ample,
        }
    }

    /// Whether a call that finds no memory is made again.
    pub fn asks_again(self) -> bool {
        self == Memory::Scarce
    }
}

/// Whether memory is scarce, so that a call that finds none is made again. Else a refusal out of memory is a fault.
pub fn is_scarce<R: Env>(rt: &R) -> bool {
    Memory::of(rt).asks_again()
}
