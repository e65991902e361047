//! What holds of the texts themselves.

ghost use Rattle.std.specs.Prelude.{◌≡◌, ◌≤◌, ◌⊎◌, ℕ, List, Ok, Result, Some, length};
ghost use Rattle.slot_types.specs.declared.refusals.Refusal.{Refusal as Refused};
ghost use Rattle.text_base.specs.Writing.{EndsWriting, HaveOneEnd};
ghost use Rattle.checkpoint_texts.specs.CheckpointOf.{checkpoint_of};
ghost use Rattle.checkpoint_texts.specs.CheckpointText.{checkpoint_text};
ghost use Rattle.checkpoint_texts.specs.Readings.{Says};
ghost use Rattle.checkpoint_texts.specs.OutsideFaults.{EndsOutside};
ghost use Rattle.checkpoint_texts.specs.WellFormed.{IsStore};
ghost use Rattle.checkpoint_texts.specs.declared.fault.TextFault.{TextFault};
ghost use Rattle.checkpoint_texts.specs.declared.saved.SavedDie.{SavedDie};

use text_base::Output;

/// The text of a checkpoint reads as the checkpoint: whatever is written of one to eight dies within the limits is read
/// back the same.
pub fn checkpoints_come_back()
    ensures { (store : List SavedDie) → IsStore store
        → checkpoint_of (checkpoint_text store) ≡ Ok store }
{}

/// A reader's bound admits each checkpoint that is written of one to eight dies within the limits: it is at most as
/// long.
pub fn checkpoints_fit()
    ensures { (store : List SavedDie) → IsStore store → length (checkpoint_text store) ≤ 134217728 }
{}

/// Reading a checkpoint (`checkpoint`) has one answer, where its text is known, unless memory or its reader fails.
pub fn reading_a_checkpoint_has_one_answer()
    ensures { (read one other : Result (List SavedDie) TextFault) → Says (Some read) one
        → Says (Some read) other → (one ≡ other) ⊎ EndsOutside one ⊎ EndsOutside other }
{}

/// Writing a checkpoint (`write_checkpoint`) has one answer, where what its writer has is known, and leaves one text
/// there; out of memory it leaves the writer as it was. Left open is whether there is memory for it, whether the writer
/// fails, which its flag then says, and how much of the text it took then. Where the flag is known, and wasn't set, two
/// answers that leave the same flag differ by memory alone: WriteFault comes exactly where it was set.
pub fn writing_a_checkpoint_has_one_answer<W: Output>()
    ensures { (text : List ℕ) (before left right : W) (one other : Result (Unit {0}) Refused) →
        EndsWriting W.contents W.has_failed text before one left →
        EndsWriting W.contents W.has_failed text before other right →
        HaveOneEnd W.contents W.has_failed before one other left right }
{}
