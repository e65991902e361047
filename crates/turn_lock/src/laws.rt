//! What a book's calls leave open: laws of one answer.
//!
//! Each law is a function that does nothing. Its premises are the clauses of a call, said of one reply that leaves the
//! books `left` and `right`, where there was the book `before`.

ghost use Rattle.std.specs.Prelude.{◌≡◌, ◌++◌, ◌∷◌, [], ℕ, true, false};
ghost use Rattle.turn_lock.specs.Log.{entry};

use crate::book::Book;
use crate::noting::NotingBook;

/// A book enters an event (`apply`) by its reply: with the reply comes one entry, or none, and what the book is about
/// stays. Left open is which reply it gives, of those that `gives` admits.
pub fn an_event_is_entered_in_one_way<B: Book>()
    ensures { (caller : ℕ) (event : B.Event) (reply : B.Reply) (before left right : B) →
        B.about left ≡ B.about before → B.about right ≡ B.about before →
        (B.accepts reply ≡ true → B.log left ≡ B.log before ++ entry caller event reply ∷ []) →
        (B.accepts reply ≡ true → B.log right ≡ B.log before ++ entry caller event reply ∷ []) →
        (B.accepts reply ≡ false → B.log left ≡ B.log before) →
        (B.accepts reply ≡ false → B.log right ≡ B.log before) →
        (B.log left ≡ B.log right) × (B.about left ≡ B.about right) }
{}

/// A book enters an event whose parts are lent (`note`) by the reply that its note is of: with it comes one entry, or
/// none, and what the book is about stays. Left open is which reply it gives, of those that `gives` admits.
pub fn a_lent_event_is_entered_in_one_way<P, B: NotingBook<P>>()
    ensures { (caller : ℕ) (head : B.Head) (parts : P) (note : B.Note) (before left right : B) →
        B.about left ≡ B.about before → B.about right ≡ B.about before →
        (B.accepts (B.noted note) ≡ true → B.log left
        ≡ B.log before ++ entry caller (B.whole head parts) (B.noted note) ∷ []) →
        (B.accepts (B.noted note) ≡ true → B.log right
        ≡ B.log before ++ entry caller (B.whole head parts) (B.noted note) ∷ []) →
        (B.accepts (B.noted note) ≡ false → B.log left ≡ B.log before) →
        (B.accepts (B.noted note) ≡ false → B.log right ≡ B.log before) →
        (B.log left ≡ B.log right) × (B.about left ≡ B.about right) }
{}
