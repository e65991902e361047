//! What operations do.

ghost use Rattle.std.specs.Prelude.{◌≡◌};
ghost use Rattle.slot_types.specs.Operations.{is_write, page_of};
ghost use Rattle.slot_types.specs.Packing.{kind_of, reads, writes};

use crate::events::Op;

/// What an operation does with its page.
#[derive(Clone, Copy, PartialEq, Eq, Debug, Drop)]
pub enum OpKind {
    Read,
    Write,
    Trim,
}

impl OpKind {
    pub(crate) fn reads(self) -> bool
        ensures { result ≡ reads self }
    {
        matches!(self, OpKind::Read)
    }

    pub(crate) fn writes(self) -> bool
        ensures { result ≡ writes self }
    {
        matches!(self, OpKind::Write)
    }
}

impl Op {
    /// The page that it is on.
    pub fn page(self) -> u32
        ensures { result ≡ page_of self }
    {
        match self {
            Op::Read(page) => page,
            Op::Write(page, _) => page,
            Op::Trim(page) => page,
        }
    }

    /// Whether it writes.
    pub fn is_write(self) -> bool
        ensures { result ≡ is_write self }
    {
        matches!(self, Op::Write(..))
    }

    /// What it does.
    pub fn kind(self) -> OpKind
        ensures { result ≡ kind_of self }
    {
        match self {
            Op::Read(_) => OpKind::Read,
            Op::Write(..) => OpKind::Write,
            Op::Trim(_) => OpKind::Trim,
        }
    }
}
