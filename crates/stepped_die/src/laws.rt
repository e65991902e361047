//! Why jobs and collections may arrive while a slot has begun, and that what a die answers leaves no choice.
//!
//! Each law is a function that does nothing. The premises of a law of one answer are the clauses of a call that decide,
//! said of two answers `one` and `other`, which leave the dies `left` and `right`, where there was the die `before`.

ghost use Rattle.std.specs.Prelude.{◌≡◌, ◌⊎◌, ◌↔◌, ◌<◌, ◌≤◌, ℕ, Bool, true, false, None, Result, IfOk, IfErr, IsSome, OnErr, OnOk};
ghost use Rattle.slot_types.specs.Arrivals.{IsArrival};
ghost use Rattle.slot_types.specs.declared.events.Event.{Event};
ghost use Rattle.slot_types.specs.declared.limits.TheConstants.{MAX_SLOT};
ghost use Rattle.slot_types.specs.declared.pages.PageData.{PageData};
ghost use Rattle.slot_types.specs.declared.refusals.Refusal.{Refusal};
ghost use Rattle.slot_types.specs.declared.replies.Reply.{Reply};
ghost use Rattle.slot_types.specs.declared.replies.SlotReply.{SlotReply};
ghost use Rattle.slot_core.specs.Calls.{HasEntered};
ghost use Rattle.slot_core.specs.Core.{with_entry};
ghost use Rattle.die_log.specs.Model.Log.{Log, now};
ghost use Rattle.die_log.specs.Model.Answers.{answer, IsExact};
ghost use Rattle.die_log.specs.Model.NeededCalls.{needed_call};
ghost use Rattle.die_log.specs.Model.Opening.{IsOpening};
ghost use Rattle.die_log.specs.Model.Start.{Start};
ghost use Rattle.stepped_die.specs.declared.calls.Begun.{Begun};
ghost use Rattle.stepped_die.specs.declared.refusals.StepRefusal.{StepRefusal};
ghost use Rattle.stepped_die.specs.Arrivals.{WaitsAfter};
ghost use Rattle.stepped_die.specs.Stepped.{Stepped};
ghost use Rattle.stepped_die.specs.Steps.{HasBegun, HasEnded, HasFailed, HoldsBack, RefusesArrival, RefusesBeginning, WouldSpend};

/// A job or collection that is accepted with a release above the present slot leaves what that slot is answered, and
/// the call of the device that it needs.
pub fn arrivals_leave_the_slot()
    ensures answer { (start : Start) (past : Log) (caller : ℕ) (event : Event) (number : ℕ)
        → IsOpening start → IsExact start past →
        answer start past event ≡ Reply.Taken number → WaitsAfter (now past) event →
        answer start (with_entry caller event (Reply.Taken number) past) Event.Slot
        ≡ answer start past Event.Slot }
    ensures call { (start : Start) (past : Log) (caller : ℕ) (event : Event) (number : ℕ)
        → IsOpening start → IsExact start past →
        answer start past event ≡ Reply.Taken number → WaitsAfter (now past) event →
        needed_call start (with_entry caller event (Reply.Taken number) past)
        ≡ needed_call start past }
{}

/// Accepting a job or collection (`submit`, `collect`) has one answer, and leaves one die. Left open is whether there
/// is memory for it.
pub fn an_arrival_has_one_answer()
    ensures { (caller release : ℕ) (event : Event) (one other : Result ℕ StepRefusal)
        (before left right : Stepped) → IsArrival event →
        ((one ≡ Err (StepRefusal.Die Refusal.DieStopped)) ↔ (before.core.stopped ≡ true)) →
        ((other ≡ Err (StepRefusal.Die Refusal.DieStopped)) ↔ (before.core.stopped ≡ true)) →
        (before.core.stopped ≡ false
        → ((one ≡ Err StepRefusal.Begun) ↔ HoldsBack release before.begun)) →
        (before.core.stopped ≡ false
        → ((other ≡ Err StepRefusal.Begun) ↔ HoldsBack release before.begun)) →
        IfOk one (λ number. HasEntered caller event number before.core left.core) →
        IfOk other (λ number. HasEntered caller event number before.core right.core) →
        left.begun ≡ before.begun → right.begun ≡ before.begun →
        left.part ≡ before.part → right.part ≡ before.part →
        IfErr one (RefusesArrival release event before left) →
        IfErr other (RefusesArrival release event before right) →
        OnErr one (left ≡ before) → OnErr other (right ≡ before) →
        ((one ≡ other) × (left ≡ right))
        ⊎ (one ≡ Err (StepRefusal.Die Refusal.NoMemory))
        ⊎ (other ≡ Err (StepRefusal.Die Refusal.NoMemory)) }
{}

/// Beginning a slot (`begin`) has one answer, and leaves one die. Left open is whether there is memory for it.
/// Where a slot is reserved, nothing is left open.
pub fn beginning_a_slot_has_one_answer()
    ensures { (caller : ℕ) (one other : Result Begun StepRefusal) (before left right : Stepped) →
        ((one ≡ Err (StepRefusal.Die Refusal.DieStopped)) ↔ (before.core.stopped ≡ true)) →
        ((other ≡ Err (StepRefusal.Die Refusal.DieStopped)) ↔ (before.core.stopped ≡ true)) →
        (before.core.stopped ≡ false
        → ((one ≡ Err StepRefusal.Begun) ↔ IsSome before.begun)) →
        (before.core.stopped ≡ false
        → ((other ≡ Err StepRefusal.Begun) ↔ IsSome before.begun)) →
        (before.core.stopped ≡ false → before.begun ≡ None
        → ((one ≡ Err (StepRefusal.Die Refusal.ClockEnd)) ↔ (MAX_SLOT ≤ now before.core.log))) →
        (before.core.stopped ≡ false → before.begun ≡ None
        → ((other ≡ Err (StepRefusal.Die Refusal.ClockEnd)) ↔ (MAX_SLOT ≤ now before.core.log)))
        →
        (before.core.stopped ≡ false → before.begun ≡ None → now before.core.log < MAX_SLOT
        → ((one ≡ Err StepRefusal.CheckpointStands) ↔ WouldSpend before)) →
        (before.core.stopped ≡ false → before.begun ≡ None → now before.core.log < MAX_SLOT
        → ((other ≡ Err StepRefusal.CheckpointStands) ↔ WouldSpend before)) →
        IfOk one (λ begun. HasBegun caller begun before left) →
        IfOk other (λ begun. HasBegun caller begun before right) →
        OnErr one (left ≡ before) → OnErr other (right ≡ before) →
        IfErr one (RefusesBeginning before) → IfErr other (RefusesBeginning before) →
        ((one ≡ other) × (left ≡ right))
        ⊎ ((before.core.reserved.slots ≡ 0)
        × ((one ≡ Err (StepRefusal.Die Refusal.NoMemory))
        ⊎ (other ≡ Err (StepRefusal.Die Refusal.NoMemory)))) }
{}

/// Ending a slot (`end`) has one answer, by what the device answered, and leaves one die; where the slot is carried
/// out, it has one reply. Left open is what a reply holds after a refusal.
pub fn ending_a_slot_has_one_answer()
    ensures { (ok : Bool) (bytes : PageData) (one other : Result (Unit {0}) StepRefusal)
        (here there : SlotReply) (before left right : Stepped) →
        ((one ≡ Err (StepRefusal.Die Refusal.DieStopped)) ↔ (before.core.stopped ≡ true)) →
        ((other ≡ Err (StepRefusal.Die Refusal.DieStopped)) ↔ (before.core.stopped ≡ true)) →
        (before.core.stopped ≡ false
        → ((one ≡ Err StepRefusal.NotBegun) ↔ (before.begun ≡ None))) →
        (before.core.stopped ≡ false
        → ((other ≡ Err StepRefusal.NotBegun) ↔ (before.begun ≡ None))) →
        OnOk one (HasEnded ok bytes here before left) →
        OnOk other (HasEnded ok bytes there before right) →
        (one ≡ Err (StepRefusal.Die Refusal.DeviceFault) → HasFailed ok bytes before left) →
        (other ≡ Err (StepRefusal.Die Refusal.DeviceFault) → HasFailed ok bytes before right) →
        IfErr one (λ refusal. (refusal ≡ StepRefusal.Die Refusal.DeviceFault)
        ⊎ (((refusal ≡ StepRefusal.Die Refusal.DieStopped) ⊎ (refusal ≡ StepRefusal.NotBegun))
        × (left ≡ before))) →
        IfErr other (λ refusal. (refusal ≡ StepRefusal.Die Refusal.DeviceFault)
        ⊎ (((refusal ≡ StepRefusal.Die Refusal.DieStopped) ⊎ (refusal ≡ StepRefusal.NotBegun))
        × (right ≡ before))) →
        (one ≡ other) × (left ≡ right) × OnOk one (here ≡ there) }
{}
