//! What holds of every log of events and the jobs that it speaks of, and laws of one answer. Each law is a function
//! that does nothing.
//!
//! The premises of a law of one answer are the clauses of a call that decide, said of two answers `one` and `other`,
//! which leave the logs `left` and `right`, where there was the log `before`.

ghost use Rattle.std.specs.Prelude.{◌≡◌, List};
ghost use Rattle.job_table.specs.Jobs.{JobRecord};
ghost use Rattle.event_log.specs.Notes.{Note};
ghost use Rattle.event_log.specs.NoteRecords.{records};
ghost use Rattle.event_log.specs.Entries.{entries_of};
ghost use Rattle.event_log.specs.GrownTable.{AllFit, Grew};
ghost use Rattle.event_log.specs.RecordCounts.{record_count};

/// As the jobs of a die grow, the entries of the events that were before stay the same.
pub fn entries_stay()
    ensures { (jobs later : List JobRecord) (notes : List Note) → Grew jobs later
        → AllFit jobs notes
        → entries_of later notes ≡ entries_of jobs notes }
{}

/// What an event names goes on standing, as the jobs grow.
pub fn events_go_on_fitting()
    ensures { (jobs later : List JobRecord) (notes : List Note) → Grew jobs later
        → AllFit jobs notes → AllFit later notes }
{}

/// A log takes as many records as its events have runs of like events, whatever the jobs.
pub fn records_are_counted()
    ensures { (jobs : List JobRecord) (notes : List Note)
        → record_count (entries_of jobs notes) ≡ records notes }
{}
