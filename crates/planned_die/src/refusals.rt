//! Why no die is made of a plan, and why no other life begins.

use demand_rules::TermsFault;
use slot_types::Refusal;

/// Why no die is made of a plan that it is to keep.
#[derive(Clone, Copy, PartialEq, Eq, Debug, Drop)]
pub enum PlanRefusal {
    /// As a die of this plan isn't made.
    Die(Refusal),
    /// The terms aren't the plan's, or are out of their limits, or they don't pass a test.
    Terms(TermsFault),
    /// No number of slots, of those that were allowed, is a life: a collection would be due after its end, or there
    /// aren't numbers for all that may come in it.
    NoLife,
}

/// Why a die's next life doesn't begin, in the order in which the causes are looked at.
#[derive(Clone, Copy, PartialEq, Eq, Debug, Drop)]
pub enum LifeRefusal {
    /// A fault of the device has stopped the die.
    DieStopped,
    /// The present slot isn't the end of the life, which comes in `left` slots.
    NotEnded { left: u32 },
    /// The clock of all lives would go beyond slot 2 to the power of 61.
    ClockEnd,
    /// A block was erased so often that its count might not suffice for a life more: the first such.
    WornOut { block: u32 },
}
