//! What commands leave open, and that it is nothing else: laws of one answer.
//!
//! Each law is a function that does nothing. Its premises are the clauses of a call that decide, said of two answers
//! `one` and `other`. What the writer had is `known`; the calls leave `left` and `right`.

ghost use Rattle.std.specs.Prelude.{◌≡◌, ◌⊎◌, ℕ, List, Option, Some};
ghost use Rattle.flash_commands.specs.Acts.{PrintsAudit, PrintsFigures};

/// A command that audits a report or shows the figures of a plan (`act`, `carry_out`) has one status and prints one
/// text, where what it reads and what the writer has are known, unless one of them ends with 1. Nothing is said here of
/// runs.
pub fn acting_has_one_answer()
    ensures audit { (text known : List ℕ) (left right : Option (List ℕ)) (one other : ℕ) →
        (one ≡ 1) ⊎ PrintsAudit (Some text) (Some known) left one →
        (other ≡ 1) ⊎ PrintsAudit (Some text) (Some known) right other →
        ((one ≡ other) × (left ≡ right)) ⊎ (one ≡ 1) ⊎ (other ≡ 1) }
    ensures plan { (text known : List ℕ) (left right : Option (List ℕ)) (one other : ℕ) →
        (one ≡ 1) ⊎ (PrintsFigures (Some text) (Some known) left × (one ≡ 0)) →
        (other ≡ 1) ⊎ (PrintsFigures (Some text) (Some known) right × (other ≡ 0)) →
        ((one ≡ other) × (left ≡ right)) ⊎ (one ≡ 1) ⊎ (other ≡ 1) }
{}
