//! Why a run isn't made, and why its dies aren't saved.

ghost use Rattle.std.specs.Prelude.{◌≡◌, None};

use checkpoint_texts::{RecordFault, TextFault};
use die_checkpoint::CheckpointFault;
use slot_core::RenewalRefusal;
use slot_types::Refusal;
use std::fmt;
use std::fmt::{Display, Formatter, Write};

/// Why a run isn't made.
#[derive(Clone, Copy, Drop)]
pub enum RunFault {
    /// The script is refused, or a reader fails; or memory runs out.
    Refused(Refusal),
    /// The text of the checkpoint has a fault.
    Text(TextFault),
    /// The checkpoint has another number of dies than the plan.
    OtherStore {
        saved: u32,
        dies: u32,
    },
    /// What was saved of a die doesn't fit its plan. This is the first fault, of the first such die, and its record.
    Unfit {
        die: u32,
        line: u32,
        fault: CheckpointFault,
    },
    /// A page that lies in a cell has no bytes: the first such page of the first such die, and its record.
    NoBytes {
        die: u32,
        line: u32,
        page: u32,
    },
}

/// Why the dies of a run aren't saved: the first die that isn't, and why.
#[derive(Clone, Copy, Drop)]
pub enum Unsaved {
    NoMemory,
    /// No checkpoint may be taken of a die.
    NotRenewable { die: u32, why: RenewalRefusal },
}

impl From<Refusal> for RunFault {
    ghost use Rattle.std.specs.Prelude.{◌≡◌};
    ghost use Rattle.flashplan_checkpoint_runs.specs.declared.faults.RunFault.TheVariants.{Refused};

    ghost from_gives = { λ refusal fault. fault ≡ Refused refusal };

    fn from(refusal: Refusal) -> RunFault {
        RunFault::Refused(refusal)
    }
}

impl From<Refusal> for Unsaved {
    ghost use Rattle.std.specs.Prelude.{◌≡◌};
    ghost use Rattle.flashplan_checkpoint_runs.specs.declared.faults.Unsaved.TheVariants.{NoMemory};

    ghost from_gives = { λ _ unsaved. unsaved ≡ NoMemory };

    fn from(_: Refusal) -> Unsaved {
        Unsaved::NoMemory
    }
}

impl Display for RunFault {
    ghost output = { λ _. None };

    fn fmt<W: Write>(&self, f: &mut Formatter<W>) -> fmt::Result {
        match self {
            RunFault::Refused(refusal) => write!(f, "{refusal}"),
            RunFault::Text(TextFault::NoMemory) => f.write_str("NoMemory"),
            RunFault::Text(TextFault::ReadFault) => f.write_str("ReadFault"),
            RunFault::Text(TextFault::Broken { line, field, fault }) => {
                write!(f, "the checkpoint, record {line} field {field}: ")?;
                f.write_str(reported_record(fault))
            }
            RunFault::OtherStore { saved, dies } => {
                write!(
                    f,
                    "the checkpoint has {saved} dies, and the plan has {dies}"
                )
            }
            RunFault::Unfit { die, line, fault } => {
                write!(f, "the checkpoint, die {die}, record {line}: ")?;
                put_unfit(f, fault)
            }
            RunFault::NoBytes { die, line, page } => {
                write!(
                    f,
                    "the checkpoint, die {die}, record {line}: NoBytes: page {page} lies in a cell, and its bytes aren't kept"
                )
            }
        }
    }
}

/// What is wrong with a record.
fn reported_record(fault: &RecordFault) -> &'static str {
    match fault {
        RecordFault::Header => "Header: it begins with checkpoint,1",
        RecordFault::Version => "Version: 1 alone is read",
        RecordFault::Kind => "Kind: a record begins with page, block, task or die",
        RecordFault::Order => "Order: a die has its pages, then its blocks, its tasks and its end",
        RecordFault::Fields => "Fields: one is missing, or one too many",
        RecordFault::Number => "Number: it has to be 1 to 10 digits, of at most 4294967295",
        RecordFault::Bytes => "Bytes: they have to be the 32 digits of a page that lies in a cell",
        RecordFault::Die => "Die: dies are numbered from 0 on, to 7",
        RecordFault::TooMany => "TooMany: there are at most 2105481",
    }
}

/// Tells why what was saved of a die doesn't fit its plan.
fn put_unfit<W: Write>(f: &mut Formatter<W>, fault: &CheckpointFault) -> fmt::Result {
    match fault {
        CheckpointFault::OtherShape => f.write_str(
            "OtherShape: it has another number of pages, blocks or tasks than its plan",
        ),
        CheckpointFault::BadPlan => f.write_str("BadPlan: its plan isn't accepted"),
        CheckpointFault::Overfull { block } => write!(
            f,
            "Overfull: more pages are programmed in block {block} than it has"
        ),
        CheckpointFault::SecondOpen { block } => {
            write!(f, "SecondOpen: block {block} is the second open one")
        }
        CheckpointFault::WornOut { block } => write!(
            f,
            "WornOut: block {block} was erased more than 4293918718 times"
        ),
        CheckpointFault::Unprogrammed { page } => write!(
            f,
            "Unprogrammed: page {page} lies in a cell that isn't programmed, or isn't there"
        ),
        CheckpointFault::AboveCap { task } => {
            write!(f, "AboveCap: the balance of task {task} is above its cap")
        }
        CheckpointFault::OtherSum { accounts, free } => write!(
            f,
            "OtherSum: its accounts have {accounts} pages, and {free} are free"
        ),
        CheckpointFault::NoMemory => f.write_str("NoMemory"),
        CheckpointFault::SharedCell { page } => write!(
            f,
            "SharedCell: page {page} lies in the cell of a page before it"
        ),
    }
}

impl Display for Unsaved {
    ghost output = { λ _. None };

    fn fmt<W: Write>(&self, f: &mut Formatter<W>) -> fmt::Result {
        match self {
            Unsaved::NoMemory => f.write_str("NoMemory"),
            Unsaved::NotRenewable { die, why } => match why {
                RenewalRefusal::DieStopped => write!(f, "die {die} is stopped"),
                RenewalRefusal::NotQuiet { job } => write!(
                    f,
                    "die {die} isn't quiet: its job {job} is neither done nor waived"
                ),
                RenewalRefusal::WornOut { block } => write!(
                    f,
                    "die {die} is worn out: block {block} was erased more than 4293918718 times"
                ),
            },
        }
    }
}
