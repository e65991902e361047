//! A mark without bytes, whose ghost field is where a log starts.

ghost use Rattle.std.specs.Prelude.{◌≡◌};
ghost use Rattle.std.specs.Borrow.{ftrue};
ghost use Rattle.die_log.specs.Model.Start.{Start};

use std::marker::Model;

/// It takes no memory, and is made by no instruction.
#[derive(Drop)]
pub(crate) struct Mark {
    pub(crate) ghost start: { Start },
}

impl Model for Mark {
    ghost also_owns = { λ _. ftrue };
}

// It owns nothing.
unsafe impl Send for Mark {}

impl Mark {
    /// The mark of this start.
    pub(crate) fn at() -> Mark
        ghost start: { Start }
        ensures { result.start ≡ start }
    {
        Mark {}
    }
}
