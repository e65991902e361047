//! What is read of a plan's text leaves no choice. Each law is a function that does nothing, whose premises are the
//! clauses of a call, said of two answers `one` and `other`.

ghost use Rattle.std.specs.Prelude.{◌≡◌, ◌⊎◌, ◌↔◌, ℕ, Bool, false, true, IfErr, IfOk, IsErrAnd, List, Option, Result, Some};
ghost use Rattle.slot_types.specs.declared.plans.DiePlan.{DiePlan};
ghost use Rattle.slot_types.specs.declared.refusals.Refusal.{Refusal as Refused};
ghost use Rattle.text_base.specs.Readings.{IsOutside};
ghost use Rattle.plan_texts.specs.PlanReading.{IsStoreOf, RefusesPlanOf, FlagsReadFault};

use slot_types::Refusal;

/// Reading a plan from a reader (`read_plan_from`) has one answer, where its text is known, unless memory or its reader
/// fails. Where the reader's flag is known, and wasn't set, two answers that leave the same flag are the same, except
/// for memory: ReadFault comes exactly where it was set.
pub fn reading_a_plan_from_a_reader_has_one_answer()
    ensures plan { (known : List ℕ) (one other : Result (List DiePlan) Refused) →
        IfOk one (IsStoreOf (Some known)) → IfOk other (IsStoreOf (Some known)) →
        IfErr one (RefusesPlanOf (Some known)) → IfErr other (RefusesPlanOf (Some known)) →
        (one ≡ other) ⊎ IsErrAnd one IsOutside ⊎ IsErrAnd other IsOutside }
    ensures flagged { (known : List ℕ) (left right : Option Bool)
        (one other : Result (List DiePlan) Refused) →
        IfOk one (IsStoreOf (Some known)) → IfOk other (IsStoreOf (Some known)) →
        FlagsReadFault one (Some false) left → FlagsReadFault other (Some false) right →
        IfErr one (RefusesPlanOf (Some known)) → IfErr other (RefusesPlanOf (Some known)) →
        (left ≡ right →
        (one ≡ other) ⊎ (one ≡ Err Refusal.NoMemory) ⊎ (other ≡ Err Refusal.NoMemory))
        × ((one ≡ Err Refusal.ReadFault) ↔ (left ≡ Some true)) }
{}
