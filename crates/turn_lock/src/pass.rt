ghost use Rattle.std.specs.Prelude.{◌≡◌};
ghost use Rattle.turn_lock.specs.Views.{CountsOwn, IsLive, SeesFitting};

use crate::book::Book;
use crate::rule::SeatOf;
use std::marker::Model;

/// A caller's number, and what it has seen of a book. A clause sees which lock it is of, and its [`View`](crate::View).
#[derive(Drop)]
pub struct Pass<B: Book> {
    pub(crate) number: u32,
    // How many passes were joined into this one.
    pub(crate) joined: u32,
    // The word as this pass last left it: where it looks first for the turn.
    pub(crate) free_word: u64,
    pub(crate) seat: SeatOf<B>,
}

impl<B: Book> Model for Pass<B> {
    ghost use Rattle.std.specs.Prelude.{◌≡◌, ◌%◌, true, false, [], length};
    ghost use Rattle.turn_lock.specs.Views.{PassView, CountsOwn, SeesFitting};

    ghost Value = { PassView B.Event B.Reply B.About };

    ghost view = { λ p. record { lock = p.seat.table_id; view = p.seat.me.0 } };

    // Between two calls a pass has neither the turn nor the slot, and its lock is in use.
    ghost invariant = { λ p.
        (p.seat.me.1 ≡ []) × (p.seat.me.0.live ≡ true) × (p.seat.me.0.turn ≡ false)
        × (p.number ≡ p.seat.me.0.number) × (p.joined ≡ length p.seat.me.0.joined)
        × CountsOwn p.seat.me.0 × (p.free_word % 2 ≡ 0) × SeesFitting B.fits p.seat.me.0
        × (p.seat.me.0.unused ≡ false) };
}

impl<B: Book> Pass<B> {
    /// The number of the pass: the caller, as the book sees it.
    pub fn number(&self) -> u32
        ensures number { result ≡ self.now.view.number }
        // of every pass: the count of passes that it knows is above its own number and each joined one
        ensures counted { CountsOwn self.now.view }
        // no pass that a caller has was joined into another
        ensures live { IsLive self.now.view }
        // and what a pass has seen is a list of a book about what this one is about
        ensures fits { SeesFitting B.fits self.now.view }
    {
        self.number
    }
}
