//! Why no script is made.

use slot_types::Refusal;
use std::alloc::AllocError;
use thiserror::Error;

/// Why no script is made.
#[derive(Clone, Copy, PartialEq, Eq, Debug, Drop, Error)]
pub enum Fault {
    /// Out of memory; or BadPlan, where a die's plan has no times, or doesn't pass their test.
    #[error("{0}")]
    Refused(Refusal),
    /// A die accepts no more than 65,536 jobs and collections.
    #[error("die {die} would get more than 65536 jobs and collections: the most slots that serve are {most}")]
    TooMany {
        die: u32,
        /// The greatest number of slots for which no die gets more.
        most: u32,
    },
    /// A script is read up to 67,108,864 bytes.
    #[error("the script would have more than 67108864 bytes: take fewer slots")]
    TooLong,
    /// What was made doesn't keep the plan: a fault of this crate.
    #[error("the script that was made doesn't keep the plan, which is a fault of flashplan")]
    Astray,
}

impl From<Refusal> for Fault {
    ghost use Rattle.std.specs.Prelude.{◌≡◌};
    ghost use Rattle.flashplan_arrivals.specs.declared.faults.Fault.TheVariants.{Refused};

    ghost from_gives = { λ refusal fault. fault ≡ Refused refusal };

    fn from(refusal: Refusal) -> Fault {
        Fault::Refused(refusal)
    }
}

impl From<AllocError> for Fault {
    ghost use Rattle.std.specs.Prelude.{◌≡◌};
    ghost use Rattle.slot_types.specs.declared.refusals.Refusal.TheVariants.{NoMemory};
    ghost use Rattle.flashplan_arrivals.specs.declared.faults.Fault.TheVariants.{Refused};

    ghost from_gives = { λ _ fault. fault ≡ Refused NoMemory };

    fn from(_: AllocError) -> Fault {
        Fault::Refused(Refusal::NoMemory)
    }
}
