//! What certificates say of every schedule, what makes them, and laws of one answer. Each law is a function that does
//! nothing.
//!
//! Least lateness under least keys first is Horn's (W. A. Horn, Some simple scheduling algorithms, 1974).
//!
//! The premises of a law of one answer are the clauses of a call that decide, said of two answers `one` and `other`,
//! which leave the slots `left` and `right`, where there were the slots `before`.

ghost use Rattle.std.specs.Prelude.{◌≡◌, ℕ, ◌+◌, ◌<◌, ◌≤◌, List, [], ◌∷◌, ◌++◌, length, Option, Some, IsSome, true};
ghost use Rattle.late_cert.specs.declared.rows.JobRow.{JobRow};
ghost use Rattle.late_cert.specs.Schedule.{Slots, slot_at, IsLeastLate};
ghost use Rattle.late_cert.specs.Rows.{is_done, release_of, due_of, completion_of};
ghost use Rattle.late_cert.specs.Bound.{IsCertificate, BindsEverySchedule};
ghost use Rattle.late_cert.specs.BusyInterval.{IsBusyInterval, CarriesLeastKeys};
ghost use Rattle.late_cert.specs.Build.{certificate_of};
ghost use Rattle.late_cert.specs.Moments.{AcceptsJob, WaivesJob, CarriesSlot};
ghost use Rattle.late_cert.specs.JoinedRows.{AreOver, joined_rows, joined_slots};

/// A certificate binds every schedule that serves its jobs, whoever made it.
pub fn certificates_bind_every_schedule()
    ensures { (rows : List JobRow) (start due completion : ℕ) (jobs : List ℕ) →
        IsCertificate rows start due completion jobs → BindsEverySchedule rows due completion jobs }
{}

/// Where each slot carried a least key, the busy interval of a done job is a certificate.
pub fn busy_intervals_are_certificates()
    ensures { (rows : List JobRow) (carried : Slots) → CarriesLeastKeys rows carried →
        (j : ℕ) → is_done rows j ≡ true → (start : ℕ) (jobs : List ℕ) →
        IsBusyInterval rows carried j start (completion_of rows j) jobs →
        IsCertificate rows start (due_of rows j) (completion_of rows j) jobs }
{}

/// Where each slot carried a least key, every done job has a certificate, which [`build`](crate::build) then answers.
pub fn done_jobs_have_certificates()
    ensures { (rows : List JobRow) (carried : Slots) → CarriesLeastKeys rows carried →
        (j : ℕ) → is_done rows j ≡ true → IsSome (certificate_of rows carried j) }
{}

/// Where each slot carried a least key, no schedule that serves the done jobs has a smaller greatest lateness.
pub fn least_keys_are_least_late()
    ensures { (rows : List JobRow) (carried : Slots) →
        CarriesLeastKeys rows carried → IsLeastLate rows carried }
{}

/// What a busy interval carries was released in it and is due by its deadline, wherever the busy interval ends.
pub fn busy_intervals_carry_what_was_released_in_them()
    ensures { (rows : List JobRow) (carried : Slots) → CarriesLeastKeys rows carried →
        (j start end : ℕ) (jobs : List ℕ) → IsBusyInterval rows carried j start end jobs →
        (t k : ℕ) → start ≤ t → t < end → slot_at carried t ≡ Some k →
        (start ≤ release_of rows k) × (due_of rows k ≤ due_of rows j) }
{}

/// Least keys stay least as jobs are accepted and waived and slots are carried.
pub fn least_keys_are_kept()
    ensures none { CarriesLeastKeys [] [] }
    ensures accept { (rows later : List JobRow) (carried : Slots) (j : ℕ) →
        CarriesLeastKeys rows carried → AcceptsJob rows later carried j →
        CarriesLeastKeys later carried }
    ensures waive { (rows later : List JobRow) (carried : Slots) (j : ℕ) →
        CarriesLeastKeys rows carried → WaivesJob rows later j →
        CarriesLeastKeys later carried }
    ensures slot { (rows later : List JobRow) (carried : Slots) (slot : Option ℕ) →
        CarriesLeastKeys rows carried → CarriesSlot rows later carried slot →
        CarriesLeastKeys later (carried ++ slot ∷ []) }
{}

/// Least keys stay least over logs that follow each other. Where each slot of two logs carried a least key, and all
/// jobs of the first are done, each slot of both carried one, where the jobs of the later log come that many slots
/// later and have higher numbers. So no schedule of the jobs of both has a smaller greatest lateness, and each
/// certificate of a done job holds over both.
pub fn least_keys_are_joined()
    ensures keys { (rows later : List JobRow) (carried slots : Slots) (numbers : ℕ) →
        CarriesLeastKeys rows carried → AreOver rows numbers → CarriesLeastKeys later slots →
        CarriesLeastKeys (joined_rows numbers (length carried) rows later)
        (joined_slots numbers carried slots) }
    ensures least_late { (rows later : List JobRow) (carried slots : Slots) (numbers : ℕ) →
        CarriesLeastKeys rows carried → AreOver rows numbers → CarriesLeastKeys later slots →
        IsLeastLate (joined_rows numbers (length carried) rows later)
        (joined_slots numbers carried slots) }
    ensures over { (rows later : List JobRow) (numbers slots further : ℕ) →
        AreOver rows numbers → AreOver later further
        → AreOver (joined_rows numbers slots rows later) (numbers + further) }
{}
