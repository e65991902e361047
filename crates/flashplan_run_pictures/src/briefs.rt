//! What an act is, without the bytes: its kind, and the page or the block that it was of.

ghost use Rattle.std.specs.Prelude.{◌≡◌};
ghost use Rattle.flashplan_run_pictures.specs.Briefs.{brief_of};

use slot_types::Act;

/// A kind of act.
#[derive(Clone, Copy, PartialEq, Eq, Drop)]
pub enum Kind {
    Read,
    Write,
    Trim,
    CopyRead,
    CopyProgram,
    Erase,
}

/// An act without its bytes.
#[derive(Clone, Copy, Drop)]
pub struct ActBrief {
    pub kind: Kind,
    /// The logical page, or the block of an erase.
    pub of: u32,
}

/// What an act is.
pub fn brief_of(act: Act) -> ActBrief
    ensures { result ≡ brief_of act }
{
    let (kind, of) = match act {
        Act::Read { page, .. } => (Kind::Read, page),
        Act::Write { page, .. } => (Kind::Write, page),
        Act::Trim { page } => (Kind::Trim, page),
        Act::CopyRead { page } => (Kind::CopyRead, page),
        Act::CopyProgram { page } => (Kind::CopyProgram, page),
        Act::Erase { block } => (Kind::Erase, block),
    };
    ActBrief { kind, of }
}
