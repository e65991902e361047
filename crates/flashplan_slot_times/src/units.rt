//! In which units numbers of slots and of pages are said.

ghost use Rattle.std.specs.Prelude.{◌≡◌};

use crate::times::Slots;

/// What is known of a slot and of a page beside a plan.
#[derive(Clone, Copy, PartialEq, Eq, Debug, Drop)]
pub struct Units {
    /// How many us a slot takes.
    pub slot_us: Option<u32>,
    /// How many bytes of a page are a job's.
    pub page_bytes: Option<u32>,
}

impl Units {
    /// Nothing is known: slots and pages are only counted.
    pub const NONE: Units = Units {
        slot_us: None,
        page_bytes: None,
    };

    /// A number of slots, with their time where the length of one is known.
    pub fn slots(self, count: u64) -> Slots
        ensures { result ≡ record { count = count; slot_us = self.slot_us } }
    {
        Slots {
            count,
            slot_us: self.slot_us,
        }
    }
}
