//! What the kinds of acts are called in a picture, and which class their cells have.

use crate::briefs::Kind;

/// All kinds, in the order of the legend.
pub const KINDS: [Kind; 6] = [
    Kind::Read,
    Kind::Write,
    Kind::Trim,
    Kind::CopyRead,
    Kind::CopyProgram,
    Kind::Erase,
];

/// The class of its cells.
pub fn class_of(kind: Kind) -> &'static str {
    match kind {
        Kind::Read => "read",
        Kind::Write => "write",
        Kind::Trim => "trim",
        Kind::CopyRead => "out",
        Kind::CopyProgram => "in",
        Kind::Erase => "erase",
    }
}

/// What it is called in the legend.
pub fn name_of(kind: Kind) -> &'static str {
    match kind {
        Kind::Read => "read",
        Kind::Write => "write",
        Kind::Trim => "trim",
        Kind::CopyRead => "copy: read",
        Kind::CopyProgram => "copy: program",
        Kind::Erase => "erase slot",
    }
}

/// What it does, before the number of its page or block.
pub fn words_of(kind: Kind) -> &'static str {
    match kind {
        Kind::Read => "reads page",
        Kind::Write => "writes page",
        Kind::Trim => "trims page",
        Kind::CopyRead => "reads, to copy it, page",
        Kind::CopyProgram => "programs the copy of page",
        Kind::Erase => "erases block",
    }
}
