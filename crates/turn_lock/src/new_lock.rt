//! A lock that nobody has used yet.

ghost use Rattle.std.specs.Prelude.{◌≡◌, [], IfOk, IfErr};
ghost use Rattle.turn_lock.specs.Views.{first_view, IsLive};

use crate::book::Book;
use crate::lock::Turned;
use crate::pass::Pass;
use crate::plays::Begin;
use crate::rule::{SeatOf, TableOf};
use crate::view::Kept;
use atomic_table::{Refused, Table};
use std::alloc::{AllocFailed, Global};
use std::marker::Model;
use std::snapshot::Snapshot;

/// A lock that nobody has used yet, so that its book can be taken out again. A clause sees the book.
///
/// Who makes several locks, or none where memory is refused for one, makes all of them so before the first is used.
#[derive(Drop)]
pub struct NewLock<B: Book> {
    table: TableOf<B>,
    seat: SeatOf<B>,
}

impl<B: Book> Model for NewLock<B> {
    ghost use Rattle.std.specs.Prelude.{◌≡◌, []};
    ghost use Rattle.turn_lock.specs.Steps.{IsTurnTable};
    ghost use Rattle.turn_lock.specs.Views.{unused_view};

    ghost Value = { B };

    ghost view = { λ l. l.table.shared.key.value };

    ghost invariant = { λ l.
        (l.seat.table_id ≡ l.table.shared.table_id) × IsTurnTable l.table.shared.table_id
        × (l.seat.me ≡ (unused_view (B.about l.table.shared.key.value), []))
        × B.fits (B.about l.table.shared.key.value) [] };
}

impl<B: Book> NewLock<B> {
    /// Puts a book without entries behind a lock. Where memory is refused, the book is handed back.
    pub fn new(alloc: Global, book: B) -> Result<NewLock<B>, AllocFailed<B>>
        requires empty { B.log book ≡ [] }
        ensures book { IfOk result (λ made. made ≡ book) }
        ensures back { IfErr result (λ failed. failed.value ≡ book) }
    {
        // It says that no entry at all is a list of such a book.
        let _ = book.len();
        let mut slots = Vec::new(alloc);
        if slots.reserve(1).is_err() {
            return Err(AllocFailed { value: book });
        }
        let first = Snapshot::of(&book);
        slots.push_reserved(Some(Kept { book, made: 1 }));
        match Table::new(alloc, &[0], slots, &first) {
            Ok((table, seat)) => Ok(NewLock { table, seat }),
            Err(Refused { mut slots }) => {
                let Some(Some(kept)) = slots.pop() else {
                    unreachable!()
                };
                Err(AllocFailed { value: kept.book })
            }
        }
    }

    /// The book, as it was put in.
    pub fn into_book(self) -> B
        ensures { result ≡ self }
    {
        let NewLock { table, seat } = self;
        let mut closed = table.close_with(seat);
        let Some(kept) = closed.take(0) else {
            unreachable!()
        };
        closed.free();
        kept.book
    }

    /// The lock to be used, and its first pass, whose number is 0. No other pass is left then.
    pub fn start(self) -> (Turned<B>, Pass<B>)
        ensures own { result.1.lock ≡ result.0 }
        ensures first { result.1.view ≡ first_view (B.about self) }
        ensures live { IsLive result.1.view }
    {
        let NewLock { table, mut seat } = self;
        table.shared.load::<Begin>(&mut seat, 0);
        let pass = Pass {
            number: 0,
            joined: 0,
            free_word: 0,
            seat,
        };
        (Turned { table }, pass)
    }
}
