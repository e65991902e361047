//! Why a row is refused, and why there is no run.

ghost use Rattle.std.specs.Prelude.{Some};
ghost use Rattle.flashplan_kept_runs.specs.Refusals.{ask_text, fault_text, row_text};

use flashplan_slot_times::Slots;
use planned_log::AskRefusal;
use slot_types::Refusal;
use std::fmt;
use std::fmt::{Display, Formatter};

/// Why a die that keeps its plan refuses the row of a job.
#[derive(Clone, Copy, PartialEq, Eq, Debug, Drop)]
pub enum RowRefusal {
    /// The row's release isn't the slot in which it comes, or its deadline isn't as many slots later as the task's jobs
    /// have. Its task is asked for nothing.
    OtherTimes,
    /// The plan refuses the task's ask.
    Ask(AskRefusal),
}

impl RowRefusal {
    /// What the refusal is called.
    pub fn name(self) -> &'static str {
        match self {
            RowRefusal::OtherTimes => "OtherTimes",
            RowRefusal::Ask(AskRefusal::DieStopped) => "DieStopped",
            RowRefusal::Ask(AskRefusal::UnknownTask) => "UnknownTask",
            RowRefusal::Ask(AskRefusal::EmptyJob) => "EmptyJob",
            RowRefusal::Ask(AskRefusal::TooManyOps { .. }) => "TooManyOps",
            RowRefusal::Ask(AskRefusal::BadPage { .. }) => "BadPage",
            RowRefusal::Ask(AskRefusal::TooManyWrites { .. }) => "TooManyWrites",
            RowRefusal::Ask(AskRefusal::TooSoon { .. }) => "TooSoon",
            RowRefusal::Ask(AskRefusal::LifeEnd) => "LifeEnd",
        }
    }
}

/// Why a plan refuses a task's ask, and how many us a slot takes, where that is known.
#[derive(Clone, Copy, Drop)]
struct AskReason {
    refusal: AskRefusal,
    slot_us: Option<u32>,
}

impl Display for AskReason {
    ghost output = { λ reason. Some (ask_text reason.slot_us reason.refusal) };

    fn fmt<W: fmt::Write>(&self, f: &mut Formatter<W>) -> fmt::Result {
        match self.refusal {
            AskRefusal::DieStopped => f.write_str("the device of its die failed before"),
            AskRefusal::UnknownTask => f.write_str("its task isn't on its die"),
            AskRefusal::EmptyJob => f.write_str("it has no operation"),
            AskRefusal::TooManyOps { most } => write!(
                f,
                "it has more operations than its task may ask for at once, which is {most}"
            ),
            AskRefusal::BadPage { page } => write!(f, "page {page} isn't below `logical`"),
            AskRefusal::TooManyWrites { most } => write!(
                f,
                "it has more writes than its task may ask for at once, which is {most}"
            ),
            AskRefusal::TooSoon { next } => {
                let at = Slots {
                    count: next,
                    slot_us: self.slot_us,
                };
                write!(
                    f,
                    "with what its task asked for in the last period it is too much; it would be taken in slot {at}"
                )
            }
            AskRefusal::LifeEnd => {
                f.write_str("it would be due after the last slot of its die's life")
            }
        }
    }
}

/// Why a row is refused: what it had, and what would do. A slot is followed by its time, where it is known how many us one
/// takes.
#[derive(Clone, Copy, PartialEq, Eq, Debug, Drop)]
pub struct RowReason {
    pub refusal: RowRefusal,
    pub slot_us: Option<u32>,
}

impl Display for RowReason {
    ghost output = { λ reason. Some (row_text reason.slot_us reason.refusal) };

    fn fmt<W: fmt::Write>(&self, f: &mut Formatter<W>) -> fmt::Result {
        match self.refusal {
            RowRefusal::OtherTimes => f.write_str(
                "its release isn't its slot, or its deadline isn't as many slots later as the plan gives its task",
            ),
            RowRefusal::Ask(refusal) => {
                let reason = AskReason {
                    refusal,
                    slot_us: self.slot_us,
                };
                write!(f, "{reason}")
            }
        }
    }
}

/// Why dies don't run a script and keep their plans.
#[derive(Clone, Copy, PartialEq, Eq, Debug, Drop)]
pub enum KeptFault {
    /// The plan, the script or memory is refused.
    Refused(Refusal),
    /// No number of slots is a life of this die.
    NoLife { die: u32 },
    /// A life of this die has at most `life` slots, and more are to be run.
    LongerThanLife { die: u32, life: u32 },
}

impl From<Refusal> for KeptFault {
    fn from(refusal: Refusal) -> KeptFault {
        KeptFault::Refused(refusal)
    }
}

/// Why there is no run. A number of slots is followed by its time, where it is known how many us a slot takes.
#[derive(Clone, Copy, PartialEq, Eq, Debug, Drop)]
pub struct KeptReason {
    pub fault: KeptFault,
    pub slot_us: Option<u32>,
}

impl Display for KeptReason {
    ghost output = { λ reason. Some (fault_text reason.slot_us reason.fault) };

    fn fmt<W: fmt::Write>(&self, f: &mut Formatter<W>) -> fmt::Result {
        match self.fault {
            KeptFault::Refused(refusal) => write!(f, "{refusal}"),
            KeptFault::NoLife { die } => write!(
                f,
                "the plan of die {die} has no life: no number of slots is one"
            ),
            KeptFault::LongerThanLife { die, life } => {
                let longest = Slots {
                    count: u64::from(life),
                    slot_us: self.slot_us,
                };
                write!(
                    f,
                    "a life of die {die} has {longest} slots: --slots may be that at most"
                )
            }
        }
    }
}
