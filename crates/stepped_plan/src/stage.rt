//! Where a die stands: between two slots, or within one.

use ongoing_die::{BegunDie, OngoingDie};
use stepped_die::{Begun, MirrorNand};

/// Where a die stands.
#[derive(Drop)]
pub enum Stage {
    /// Between two slots.
    Between {
        die: OngoingDie<MirrorNand>,
    },
    /// In a slot that has begun, with what its driver was asked to do.
    Within {
        die: BegunDie<MirrorNand>,
        begun: Begun,
    },
}
