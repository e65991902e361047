ghost use Rattle.std.specs.Prelude.{◌≡◌, Bool, true, false, [], ◌∷◌, ◌++◌};
ghost use Rattle.turn_lock.specs.Log.{entry};

use crate::book::Book;

/// A book that also takes an event whose parts are lent, as a `P`, and then hands back no more than a note of its reply.
pub trait NotingBook<P>: Book {
    /// What is kept of a reply where the caller needs no more.
    type Note;

    /// An event that isn't given up, without its parts: these lie next to it.
    type Head;

    // The reply that a note is of.
    ghost noted: { Self.Note → Self.Reply };

    // The event of a head and the parts beside it.
    ghost whole: { Self.Head → P → Self.Event };

    /// As `apply`, of an event whose parts are lent, and hands back no more than a note of the reply.
    fn note(&mut self, caller: u32, head: Self::Head, parts: &P) -> Self::Note
        ensures about { Self.about self.new ≡ Self.about self.old }
        ensures gives { Self.gives (Self.about self.old) (Self.log self.old) caller
            (whole head parts.now) (noted result) }
        ensures accepted { Self.accepts (noted result) ≡ true → Self.log self.new
            ≡ Self.log self.old ++ entry caller (whole head parts.now) (noted result) ∷ [] }
        ensures refused { Self.accepts (noted result) ≡ false
            → Self.log self.new ≡ Self.log self.old };
}
