//! What a reader of scripts answers and leaves is one, by what can be asked of it: laws of one answer.
//!
//! Each law is a function that does nothing. Its premises are the clauses of a call that decide, said of two answers
//! `one` and `other`, which leave the readers `left` and `right`, where there was the reader `before`.

ghost use Rattle.std.specs.Prelude.{◌≡◌, ◌⊎◌, Bool, Option, Some, Result, Err, IsErrAnd};
ghost use Rattle.slot_types.specs.declared.refusals.Refusal.{Refusal};
ghost use Rattle.text_base.specs.Readings.{IsOutside};
ghost use Rattle.script_texts.specs.declared.script_rows.ScriptItem.{ScriptItem};
ghost use Rattle.script_texts.specs.declared.scripts.ScriptReader.{ScriptReader};
ghost use Rattle.script_texts.specs.Script.{EndsFit, Gives, Reading};
ghost use Rattle.script_texts.specs.ScriptLeft.{Recalls, reading_left, script_fits, script_left};

use slot_types::Refusal;
use std::io::Read;

/// Reading the next item (`next`) has one answer, where the text is known, and leaves one script, unless memory or its
/// reader fails. After a refusal it has that one answer.
pub fn reading_the_next_item_has_one_answer<R: Read>()
    ensures item { (all : Reading ScriptItem) (before left right : ScriptReader R)
        (one other : Result (Option ScriptItem) Refusal) →
        reading_left R.remaining before ≡ Some all →
        Gives (reading_left R.remaining before) (reading_left R.remaining left) one →
        Gives (reading_left R.remaining before) (reading_left R.remaining right) other →
        Recalls before left one → Recalls before right other →
        ((one ≡ other) × (reading_left R.remaining left ≡ reading_left R.remaining right)
        × (script_left R.remaining left ≡ script_left R.remaining right))
        ⊎ IsErrAnd one IsOutside ⊎ IsErrAnd other IsOutside }
    ensures fits { (fits : Bool) (before left right : ScriptReader R)
        (answer : Result (Option ScriptItem) Refusal) →
        script_fits R.remaining before ≡ Some fits →
        EndsFit (script_fits R.remaining before) (script_fits R.remaining left) answer →
        EndsFit (script_fits R.remaining before) (script_fits R.remaining right) answer →
        Recalls before left answer → Recalls before right answer →
        script_fits R.remaining left ≡ script_fits R.remaining right }
    ensures again { (refusal : Refusal) (earlier before left : ScriptReader R)
        (past answer : Result (Option ScriptItem) Refusal) →
        past ≡ Err refusal → Recalls earlier before past → Recalls before left answer →
        answer ≡ Err refusal }
{}
