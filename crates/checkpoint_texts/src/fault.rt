//! Why a text is no checkpoint.

ghost use Rattle.std.specs.Prelude.{◌≡◌};
ghost use Rattle.slot_types.specs.declared.refusals.Refusal.TheVariants as refusals;
ghost use Rattle.checkpoint_texts.specs.Readings.{IsOutside};
ghost use Rattle.checkpoint_texts.specs.declared.fault.TextFault.TheVariants as faults;

use slot_types::Refusal;
use std::alloc::AllocError;

/// What is wrong with a field of a record.
#[derive(Clone, Copy, PartialEq, Eq, Debug, Drop)]
pub enum RecordFault {
    /// Record 1 isn't of a checkpoint.
    Header,
    /// The checkpoint is of another version than 1.
    Version,
    /// No kind of record begins so.
    Kind,
    /// A record of another kind has to stand here, or the text ends within a die or before the first.
    Order,
    /// A field is missing, or is one too many.
    Fields,
    /// The field is no number of 1 to 10 digits, of at most 4,294,967,295.
    Number,
    /// The field isn't the 32 hexadecimal digits of a page that lies in a cell.
    Bytes,
    /// The die has another number, or is a ninth.
    Die,
    /// The record is one too many.
    TooMany,
}

/// Why a text is no checkpoint. Records and their fields are numbered from 1.
#[derive(Clone, Copy, PartialEq, Eq, Debug, Drop)]
pub enum TextFault {
    /// There is no memory.
    NoMemory,
    /// The reader fails, or goes on beyond its bound.
    ReadFault,
    /// The first record at fault, the first field in it at fault, and what is wrong with that. A record or a field that
    /// is missing has the number that it would have had.
    Broken {
        line: u32,
        field: u32,
        fault: RecordFault,
    },
}

impl From<AllocError> for TextFault {
    ghost use Rattle.std.specs.Prelude.{◌≡◌};
    ghost use Rattle.checkpoint_texts.specs.declared.fault.TextFault.TheVariants.{NoMemory};

    ghost from_gives = { λ _ fault. fault ≡ NoMemory };

    fn from(_: AllocError) -> Self {
        TextFault::NoMemory
    }
}

impl From<Refusal> for TextFault {
    ghost use Rattle.std.specs.Prelude.{◌≡◌};
    ghost use Rattle.slot_types.specs.declared.refusals.Refusal.TheVariants as refusals;
    ghost use Rattle.checkpoint_texts.specs.declared.fault.TextFault.TheVariants as faults;

    ghost from_gives = { λ refusal fault. (refusal ≡ refusals.NoMemory → fault ≡ faults.NoMemory)
        × (refusal ≡ refusals.ReadFault → fault ≡ faults.ReadFault) };

    fn from(refusal: Refusal) -> Self {
        TextFault::outside(refusal)
    }
}

impl TextFault {
    /// What a failing reader is reported as.
    pub(crate) fn outside(refusal: Refusal) -> TextFault
        ensures outside { IsOutside result }
        ensures memory { refusal ≡ refusals.NoMemory → result ≡ faults.NoMemory }
        ensures reader { refusal ≡ refusals.ReadFault → result ≡ faults.ReadFault }
    {
        match refusal {
            Refusal::NoMemory => TextFault::NoMemory,
            _ => TextFault::ReadFault,
        }
    }
}
