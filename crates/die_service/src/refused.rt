//! A refusal, and when it came.

use slot_types::Refusal;

/// Why an event of a die was refused, and how many entries the die's log had then.
#[derive(Clone, Copy, PartialEq, Eq, Debug, Drop)]
pub struct RefusedAt {
    pub entries: u64,
    pub refusal: Refusal,
}
