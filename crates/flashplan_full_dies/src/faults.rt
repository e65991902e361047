//! Why dies aren't filled.

use flashplan_arrivals::Fault;
use flashplan_checkpoint_runs::{RunFault, Unsaved};
use slot_types::Refusal;

/// Why dies aren't filled.
#[derive(Clone, Copy, Drop)]
pub enum FillFault {
    /// More than [`MOST_LIVES`](crate::MOST_LIVES) lives are asked for.
    TooManyLives,
    /// The plan has no arrivals.
    Unplanned(Fault),
    /// None of the tasks of a die writes, so it is never full: the first such die.
    NeverFull { die: u32 },
    /// A life of them isn't run.
    Unrun(RunFault),
    /// The dies aren't saved at the end of one.
    Unsaved(Unsaved),
    /// The dies aren't full after [`MOST_LIVES`](crate::MOST_LIVES) lives.
    TooSlow,
}

impl From<Refusal> for FillFault {
    ghost use Rattle.std.specs.Prelude.{◌≡◌};
    ghost use Rattle.flashplan_checkpoint_runs.specs.declared.faults.RunFault.TheVariants.{Refused};
    ghost use Rattle.flashplan_full_dies.specs.declared.faults.FillFault.TheVariants.{Unrun};

    ghost from_gives = { λ refusal fault. fault ≡ Unrun (Refused refusal) };

    fn from(refusal: Refusal) -> FillFault {
        FillFault::Unrun(RunFault::Refused(refusal))
    }
}

impl From<RunFault> for FillFault {
    ghost use Rattle.std.specs.Prelude.{◌≡◌};
    ghost use Rattle.flashplan_full_dies.specs.declared.faults.FillFault.TheVariants.{Unrun};

    ghost from_gives = { λ run fault. fault ≡ Unrun run };

    fn from(fault: RunFault) -> FillFault {
        FillFault::Unrun(fault)
    }
}

impl From<Unsaved> for FillFault {
    ghost use Rattle.std.specs.Prelude.{◌≡◌};
    ghost use Rattle.flashplan_full_dies.specs.declared.faults.FillFault.TheVariants as faults;

    ghost from_gives = { λ unsaved fault. fault ≡ faults.Unsaved unsaved };

    fn from(unsaved: Unsaved) -> FillFault {
        FillFault::Unsaved(unsaved)
    }
}
