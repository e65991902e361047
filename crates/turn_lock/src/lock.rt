//! The lock and its calls. The condition of each: the pass is of this lock.
ghost use Rattle.std.specs.Prelude.{◌≡◌, [], ◌++◌, ◌∷◌, length, true, if◌then◌else◌, IsOk, IfOk, IfErr};
ghost use Rattle.slot_types.specs.Refusal.{FailsForMemory};
ghost use Rattle.slot_types.specs.declared.refusals.Refusal.TheVariants.{NoMemory, PassesFull};
ghost use Rattle.turn_lock.specs.Log.{entry, calls_by, AllBy};
ghost use Rattle.turn_lock.specs.Views.{first_view, IsLive, IsSamePass};
ghost use Rattle.turn_lock.specs.Passes.{SeesMore, Answers, Replies, Parts, IsFull, IsJoined, IsOut, Closes, StaysOpen};

use crate::book::Book;
use crate::new_lock::NewLock;
use crate::noting::NotingBook;
use crate::pass::Pass;
use crate::plays::{Compare, Cut, Glue, Look};
use crate::rule::TableOf;
use crate::steps::{release, take};
use crate::view::Kept;
use slot_types::{MAX_PASSES, Refusal};
use std::alloc::Global;
use std::marker::Model;
use std::sync::Wait;

/// What a refused `close` hands back: the lock as it was, and the pass, which may have seen more.
#[derive(Drop)]
pub struct Closing<B: Book> {
    pub lock: Turned<B>,
    pub pass: Pass<B>,
    /// `PassesOut`, with what `out` answers in that turn.
    pub refusal: Refusal,
}

/// A book that one pass at a time may use.
#[derive(Drop)]
pub struct Turned<B: Book> {
    pub(crate) table: TableOf<B>,
}

impl<B: Book> Model for Turned<B> {
    ghost use Rattle.atomic_table.specs.Seated.{TableId};
    ghost use Rattle.turn_lock.specs.Steps.{IsTurnTable};

    ghost Value = { TableId };

    ghost view = { λ t. t.table.shared.table_id };

    ghost invariant = { λ t. IsTurnTable t.table.shared.table_id };
}

impl<B: Book> Turned<B> {
    /// Puts a book without entries behind a lock, and makes the first pass, whose number is 0. No other pass is left
    /// then.
    ///
    /// `NoMemory` where memory is refused; the book is then dropped.
    pub fn new(alloc: Global, book: B) -> Result<(Turned<B>, Pass<B>), Refusal>
        requires empty { B.log book ≡ [] }
        ensures own { IfOk result (λ made. made.1.lock ≡ made.0) }
        ensures first { IfOk result (λ made. made.1.view ≡ first_view (B.about book)) }
        ensures live { IfOk result (λ made. IsLive made.1.view) }
        ensures refused { FailsForMemory result }
    {
        match NewLock::new(alloc, book) {
            Ok(lock) => Ok(lock.start()),
            Err(_) => Err(Refusal::NoMemory),
        }
    }

    /// How many entries there are, also while a pass has the turn: this pass has then seen them all.
    pub fn look(&self, pass: &mut Pass<B>) -> u64
        requires { pass.old.lock ≡ self.now }
        ensures same { IsSamePass pass.old pass.new }
        ensures grown { SeesMore B.fits pass.old.view pass.new.view }
        ensures length { result ≡ length pass.new.view.seen }
        // no entry of the pass's own is added
        ensures own { let own = calls_by pass.old.view.number in own pass.new.view.seen
            ≡ own pass.old.view.seen }
    {
        self.table.shared.load::<Look>(&mut pass.seat, 0) / 2
    }

    /// The book's answer, at the entries that the pass has then seen. May wait for the turn.
    pub fn ask<R: Wait>(&self, rt: &R, pass: &mut Pass<B>, query: B::Query) -> B::Answer
        requires { pass.old.lock ≡ self.now }
        ensures same { IsSamePass pass.old pass.new }
        ensures answer { Answers B.fits B.says pass.old.view query result pass.new.view }
    {
        let shared = &self.table.shared;
        let kept = take(rt, shared, &mut pass.seat, pass.free_word);
        let answer = kept.book.ask(query);
        pass.free_word = release(shared, &mut pass.seat, kept);
        answer
    }

    /// The book's reply to an event, with the pass's number as the caller. May wait for the turn.
    ///
    /// An accepted call is the last entry that the pass has then seen; a refused one leaves no entry.
    pub fn apply<R: Wait>(&self, rt: &R, pass: &mut Pass<B>, event: B::Event) -> B::Reply
        requires { pass.old.lock ≡ self.now }
        ensures same { IsSamePass pass.old pass.new }
        ensures reply { Replies B.accepts B.fits B.gives pass.old.view event result pass.new.view }
        // the pass's own entries: those that it had, and this one where it was accepted
        ensures own { let own = calls_by pass.old.view.number in
            let call = entry pass.old.view.number event result in
            own pass.new.view.seen
            ≡ own pass.old.view.seen ++ (if B.accepts result then call ∷ [] else []) }
    {
        let shared = &self.table.shared;
        let mut kept = take(rt, shared, &mut pass.seat, pass.free_word);
        let reply = kept.book.apply(pass.number, event);
        pass.free_word = release(shared, &mut pass.seat, kept);
        reply
    }

    /// The book's note of its reply to an event whose parts are lent, with the pass's number as the caller. May wait for
    /// the turn.
    ///
    /// An accepted call is the last entry that the pass has then seen; a refused one leaves no entry.
    #[inline(always)]
    pub fn note<R: Wait, P>(&self, rt: &R, pass: &mut Pass<B>, head: B::Head, parts: &P) -> B::Note
    where
        B: NotingBook<P>,
        requires { pass.old.lock ≡ self.now }
        ensures same { IsSamePass pass.old pass.new }
        ensures reply { Replies B.accepts B.fits B.gives pass.old.view (B.whole head parts.now)
            (B.noted result) pass.new.view }
        // the pass's own entries: those that it had, and this one where it was accepted
        ensures own { let own = calls_by pass.old.view.number in
            let call = entry pass.old.view.number (B.whole head parts.now) (B.noted result) in
            own pass.new.view.seen
            ≡ own pass.old.view.seen ++ (if B.accepts (B.noted result) then call ∷ [] else []) }
    {
        let shared = &self.table.shared;
        let mut kept = take(rt, shared, &mut pass.seat, pass.free_word);
        let note = kept.book.note(pass.number, head, parts);
        pass.free_word = release(shared, &mut pass.seat, kept);
        note
    }

    /// A pass with a number that no pass had, which has seen what this one then has. May wait for the turn.
    ///
    /// `PassesFull` exactly where 65,536 passes were made already, whether or not they were joined since.
    pub fn split_pass<R: Wait>(&self, rt: &R, pass: &mut Pass<B>) -> Result<Pass<B>, Refusal>
        requires { pass.old.lock ≡ self.now }
        ensures same { IsSamePass pass.old pass.new }
        ensures own { IfOk result (λ made. made.lock ≡ pass.old.lock) }
        ensures parts { IfOk result (λ made. Parts B.fits pass.old.view pass.new.view made.view) }
        ensures live { IfOk result (λ made. IsLive pass.new.view × IsLive made.view) }
        // no entry is by the new number
        ensures unused { IfOk result (λ made. calls_by made.view.number made.view.seen ≡ []) }
        ensures refused { IfErr result (λ refusal. refusal ≡ PassesFull) }
        ensures full { IfErr result (λ _. IsFull B.fits pass.old.view pass.new.view) }
    {
        let shared = &self.table.shared;
        let mut kept = take(rt, shared, &mut pass.seat, pass.free_word);
        let number = kept.made;
        if number >= MAX_PASSES {
            pass.free_word = release(shared, &mut pass.seat, kept);
            return Err(Refusal::PassesFull);
        }
        let seat = shared.split_seat::<Cut>(&mut pass.seat);
        kept.made = number + 1;
        pass.free_word = release(shared, &mut pass.seat, kept);
        Ok(Pass {
            number,
            joined: 0,
            free_word: pass.free_word,
            seat,
        })
    }

    /// Joins another pass into this one, which keeps its number and the longer of what both had seen.
    ///
    /// The calls by each number of either pass are then those that it had seen before.
    pub fn join_pass(&self, pass: &mut Pass<B>, other: Pass<B>)
        requires own { pass.old.lock ≡ self.now }
        requires other { other.lock ≡ self.now }
        ensures same { pass.new.lock ≡ pass.old.lock }
        ensures joined { IsJoined pass.old.view other.view pass.new.view }
    {
        let Pass {
            number: _,
            joined,
            free_word: _,
            seat,
        } = other;
        let shared = &self.table.shared;
        shared.join_seat::<Glue>(&mut pass.seat, seat);
        shared.load::<Compare>(&mut pass.seat, 0);
        pass.joined = pass.joined + joined + 1;
    }

    /// How many of the passes made are neither this one nor joined into it. May wait for the turn.
    ///
    /// Where the answer is 0, the pass had already seen all entries. It is 0 where the pass knew that no other is left.
    pub fn out<R: Wait>(&self, rt: &R, pass: &mut Pass<B>) -> u32
        requires { pass.old.lock ≡ self.now }
        ensures same { IsSamePass pass.old pass.new }
        ensures out { IsOut B.fits pass.old.view result pass.new.view }
    {
        let shared = &self.table.shared;
        let kept = take(rt, shared, &mut pass.seat, pass.free_word);
        let out = kept.made - 1 - pass.joined;
        pass.free_word = release(shared, &mut pass.seat, kept);
        out
    }

    /// Gives the book back, whose entries are just those that the pass has seen. May wait for the turn.
    ///
    /// Each entry is by this pass, or by one that was joined into it.
    ///
    /// `PassesOut` exactly where `out` isn't 0 in that turn, with that number: the lock and the pass are handed back.
    /// Where the pass knows that no other is left, `close` is not refused: so it is from `new`, or from an `out` that
    /// answered 0, to the next split.
    pub fn close<R: Wait>(self, rt: &R, mut pass: Pass<B>) -> Result<B, Closing<B>>
        requires { pass.lock ≡ self }
        ensures closed { IfOk result (λ book. Closes B.log B.about pass.view book) }
        ensures own { IfOk result (λ book.
            AllBy (pass.view.number ∷ pass.view.joined) (B.log book)) }
        ensures out { IfErr result (λ kept.
            StaysOpen B.fits pass.view kept.refusal kept.pass.view) }
        ensures back { IfErr result (λ kept. (kept.lock ≡ self) × IsSamePass pass kept.pass) }
        ensures sole { pass.view.sole ≡ true → IsOk result }
    {
        let shared = &self.table.shared;
        let kept = take(rt, shared, &mut pass.seat, pass.free_word);
        let out = kept.made - 1 - pass.joined;
        if out > 0 {
            pass.free_word = release(shared, &mut pass.seat, kept);
            return Err(Closing {
                lock: self,
                pass,
                refusal: Refusal::PassesOut { out },
            });
        }
        let Kept { book, made: _ } = kept;
        Ok(book)
    }
}
