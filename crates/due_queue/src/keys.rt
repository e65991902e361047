//! The keys by which jobs wait.

ghost use Rattle.std.specs.Prelude.{◌≡◌};
ghost use Rattle.due_queue.specs.Pairs.{is_pair_before};

/// What a queue orders jobs by: a slot, and of equal slots the smaller number goes first.
pub trait JobKey: Copy + Drop {
    ghost use Rattle.std.specs.Prelude.{ℕ, Bool};

    // the key of a slot and a number
    ghost made: { ℕ × ℕ → Self };

    ghost is_before: { Self → Self → Bool };

    /// The key of a slot and a number.
    fn of(slot: u32, number: u32) -> Self
        ensures { result ≡ made (slot, number) };

    /// Its slot and its number.
    fn pair(self) -> (u32, u32)
        ensures { made result ≡ self };

    // keys are in the order of their pairs
    ghost in_order: { (p q : ℕ × ℕ) → is_before (made p) (made q) ≡ is_pair_before p q };
}

/// The key of a released job: the earlier deadline goes first, and of equal ones the smaller number.
#[derive(Clone, Copy, PartialEq, Eq, PartialOrd, Ord, Debug)]
pub struct Key {
    pub due: u32,
    pub number: u32,
}

impl JobKey for Key {
    ghost use Rattle.std.specs.Prelude.{refl};
    ghost use Rattle.due_queue.specs.Keys.{key_of, is_due_before};

    ghost made = { key_of };

    ghost is_before = { is_due_before };

    fn of(slot: u32, number: u32) -> Key {
        Key { due: slot, number }
    }

    fn pair(self) -> (u32, u32) {
        (self.due, self.number)
    }

    ghost in_order = { λ p q. refl };
}

/// The key of a job that waits for its release: the earlier release goes first, and of equal ones the smaller number.
#[derive(Clone, Copy, PartialEq, Eq, PartialOrd, Ord, Debug)]
pub struct WaitKey {
    pub release: u32,
    pub number: u32,
}

impl JobKey for WaitKey {
    ghost use Rattle.std.specs.Prelude.{refl};
    ghost use Rattle.due_queue.specs.Keys.{wait_key_of, is_released_before};

    ghost made = { wait_key_of };

    ghost is_before = { is_released_before };

    fn of(slot: u32, number: u32) -> WaitKey {
        WaitKey {
            release: slot,
            number,
        }
    }

    fn pair(self) -> (u32, u32) {
        (self.release, self.number)
    }

    ghost in_order = { λ p q. refl };
}
