//! Why a call is refused.

ghost use Rattle.std.specs.Prelude.{◌≡◌, Some};
ghost use Rattle.slot_types.specs.Refusal.{number_of};
ghost use Rattle.slot_types.specs.Texts.{cause_text, refusal_text};

use std::alloc::{AllocError, AllocFailed};
use std::fmt;
use std::fmt::{Display, Formatter, Write};

/// Why a plan text or a row of a script is refused: what is wrong with it first.
#[derive(Clone, Copy, PartialEq, Eq, Debug, Drop)]
pub enum Cause {
    /// A plan text above 1,048,576 bytes.
    TooLong,
    /// Not a TOML document, or not UTF-8.
    NotToml,
    /// A key that no plan has.
    ExtraKey,
    MissingKey,
    /// A value that is no whole number from 0 to 4,294,967,295, or tasks that are no array of tables.
    WrongKind,
    /// A version that isn't read.
    BadVersion,
    /// A record numbered above 1,000,001.
    TooManyRows,
    /// Another first record than the header, or none.
    Header,
    /// Another number of fields.
    Fields,
    /// A field that is no number.
    Number,
    /// Neither `job` nor `collect`.
    Kind,
    /// No such die.
    Die,
    /// A slot below that of the die's row before, or above the slots that are run.
    At,
    /// Operations that can't be read.
    Ops,
}

/// Why a call is refused. In the order of their numbers, from 1.
#[derive(Clone, Copy, PartialEq, Eq, Debug, Drop)]
pub enum Refusal {
    /// Memory was asked for and not had.
    NoMemory,
    /// Blocks, pages, erase slots or dies out of their limits, or a device of another shape.
    BadShape,
    /// Any other number of a plan out of its limits, the plan's bound not met, the test of its times not passed, or
    /// another number of devices than dies.
    BadPlan,
    UnknownDie,
    UnknownTask,
    /// A job without an operation.
    EmptyJob,
    /// A job of more than 64 operations.
    TooManyOps,
    /// An operation on a page that the die doesn't have: the first such.
    BadPage { page: u32 },
    /// A release below the present slot.
    ReleasePast { now: u32 },
    /// A deadline that isn't above its release, or is above 1,048,576.
    BadDue,
    /// 65,536 jobs and collections were accepted.
    JobsFull,
    /// A job of more writes than its task has tokens.
    NoTokens { have: u32, need: u32 },
    /// The task has a collection that is neither done nor waived.
    CollectorBusy,
    /// The present slot is the last one.
    ClockEnd,
    /// The device failed in this very call.
    DeviceFault,
    /// The device failed before.
    DieStopped,
    UnknownJob,
    PlanText { cause: Cause },
    /// A record of a script, the header being 1.
    ScriptRow { line: u32, cause: Cause },
    /// The first record that no report goes on with, the header being 1.
    ReportText { line: u32 },
    /// A reader failed, or went past its bound.
    ReadFault,
    /// A writer failed.
    WriteFault,
    /// 65,536 passes were made.
    PassesFull,
    /// `out` passes are neither this one nor joined into it.
    PassesOut { out: u32 },
}

impl Refusal {
    /// The refusal's number, from 1 to 24.
    pub fn number(self) -> u8
        ensures { result ≡ number_of self }
    {
        match self {
            Refusal::NoMemory => 1,
            Refusal::BadShape => 2,
            Refusal::BadPlan => 3,
            Refusal::UnknownDie => 4,
            Refusal::UnknownTask => 5,
            Refusal::EmptyJob => 6,
            Refusal::TooManyOps => 7,
            Refusal::BadPage { .. } => 8,
            Refusal::ReleasePast { .. } => 9,
            Refusal::BadDue => 10,
            Refusal::JobsFull => 11,
            Refusal::NoTokens { .. } => 12,
            Refusal::CollectorBusy => 13,
            Refusal::ClockEnd => 14,
            Refusal::DeviceFault => 15,
            Refusal::DieStopped => 16,
            Refusal::UnknownJob => 17,
            Refusal::PlanText { .. } => 18,
            Refusal::ScriptRow { .. } => 19,
            Refusal::ReportText { .. } => 20,
            Refusal::ReadFault => 21,
            Refusal::WriteFault => 22,
            Refusal::PassesFull => 23,
            Refusal::PassesOut { .. } => 24,
        }
    }
}

impl From<AllocError> for Refusal {
    ghost use Rattle.std.specs.Prelude.{◌≡◌};
    ghost use Rattle.slot_types.specs.declared.refusals.Refusal.TheVariants.{NoMemory};

    ghost from_gives = { λ _ refusal. refusal ≡ NoMemory };

    fn from(_: AllocError) -> Self {
        Refusal::NoMemory
    }
}

impl Display for Cause {
    ghost output = { λ cause. Some (cause_text cause) };

    fn fmt<W: Write>(&self, f: &mut Formatter<W>) -> fmt::Result {
        f.write_str(match self {
            Cause::TooLong => "TooLong",
            Cause::NotToml => "NotToml",
            Cause::ExtraKey => "ExtraKey",
            Cause::MissingKey => "MissingKey",
            Cause::WrongKind => "WrongKind",
            Cause::BadVersion => "BadVersion",
            Cause::TooManyRows => "TooManyRows",
            Cause::Header => "Header",
            Cause::Fields => "Fields",
            Cause::Number => "Number",
            Cause::Kind => "Kind",
            Cause::Die => "Die",
            Cause::At => "At",
            Cause::Ops => "Ops",
        })
    }
}

/// The refusal's name, its numbers and the name of its cause, each after one space: as `ScriptRow 6 Fields`.
impl Display for Refusal {
    ghost output = { λ refusal. Some (refusal_text refusal) };

    fn fmt<W: Write>(&self, f: &mut Formatter<W>) -> fmt::Result {
        match self {
            Refusal::NoMemory => f.write_str("NoMemory"),
            Refusal::BadShape => f.write_str("BadShape"),
            Refusal::BadPlan => f.write_str("BadPlan"),
            Refusal::UnknownDie => f.write_str("UnknownDie"),
            Refusal::UnknownTask => f.write_str("UnknownTask"),
            Refusal::EmptyJob => f.write_str("EmptyJob"),
            Refusal::TooManyOps => f.write_str("TooManyOps"),
            Refusal::BadPage { page } => write!(f, "BadPage {page}"),
            Refusal::ReleasePast { now } => write!(f, "ReleasePast {now}"),
            Refusal::BadDue => f.write_str("BadDue"),
            Refusal::JobsFull => f.write_str("JobsFull"),
            Refusal::NoTokens { have, need } => write!(f, "NoTokens {have} {need}"),
            Refusal::CollectorBusy => f.write_str("CollectorBusy"),
            Refusal::ClockEnd => f.write_str("ClockEnd"),
            Refusal::DeviceFault => f.write_str("DeviceFault"),
            Refusal::DieStopped => f.write_str("DieStopped"),
            Refusal::UnknownJob => f.write_str("UnknownJob"),
            Refusal::PlanText { cause } => write!(f, "PlanText {cause}"),
            Refusal::ScriptRow { line, cause } => write!(f, "ScriptRow {line} {cause}"),
            Refusal::ReportText { line } => write!(f, "ReportText {line}"),
            Refusal::ReadFault => f.write_str("ReadFault"),
            Refusal::WriteFault => f.write_str("WriteFault"),
            Refusal::PassesFull => f.write_str("PassesFull"),
            Refusal::PassesOut { out } => write!(f, "PassesOut {out}"),
        }
    }
}

impl<T: Drop> From<AllocFailed<T>> for Refusal {
    ghost use Rattle.std.specs.Prelude.{◌≡◌};
    ghost use Rattle.slot_types.specs.declared.refusals.Refusal.TheVariants.{NoMemory};

    ghost from_gives = { λ _ refusal. refusal ≡ NoMemory };

    fn from(_: AllocFailed<T>) -> Self {
        Refusal::NoMemory
    }
}
