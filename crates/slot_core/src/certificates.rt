//! The rows of a die's jobs and collections, and the certificate of its worst one.

ghost use Rattle.std.specs.Prelude.{◌≡◌, ◌↔◌, ℕ, ◌==◌, ◌||◌, [], Some, None, true, false, length, IsOk, IfOk, IfSome, OnOk, IsTrue};
ghost use Rattle.std.specs.List.Sorted.{IsStrictlyIncreasing};
ghost use Rattle.slot_types.specs.Refusal.{FailsForMemory};
ghost use Rattle.late_cert.specs.Rows.{RowsRise, row_of, due_of, completion_of};
ghost use Rattle.late_cert.specs.Bound.{is_listed};
ghost use Rattle.late_cert.specs.BusyInterval.{is_within, start_of, is_carried};
ghost use Rattle.late_cert.specs.Build.{busy_interval_if_done};
ghost use Rattle.die_log.specs.Model.Rows.{rows, certificate};
ghost use Rattle.die_log.specs.Results.Certificates.{NothingDone, IsOfWorst, HoldsOver, BindsAll};
ghost use Rattle.die_log.specs.Results.Promises.{KeepsPromises};
ghost use Rattle.slot_core.specs.TableRows.{row_in, rows_in};

use crate::die_core::DieCore;
use event_log::SlotsBack;
use flash_die::Nand;
use job_table::{Job, JobTable, Stage};
use late_cert::{Certificate, JobList, JobRow, JobRows};
use slot_types::{JobNo, Refusal};
use std::alloc::{AllocError, Global};

/// The row of a job; a waived one has none.
fn row_in(number: u32, job: &Job) -> Option<JobRow>
    ensures { result ≡ row_in number job.now }
{
    let completion = match job.stage() {
        Stage::Pending => None,
        Stage::Done { completion, .. } => Some(completion),
        Stage::Waived { .. } => return None,
    };
    Some(JobRow {
        number: JobNo(number),
        release: job.release(),
        due: job.due(),
        work: job.work(),
        completion,
    })
}

/// The rows of a table's jobs, by number.
fn rows_in(alloc: Global, table: &JobTable) -> Result<JobRows, Refusal>
    ensures ok { IfOk result (λ made. made ≡ rows_in 0 table.now.jobs) }
    ensures nothing { rows_in 0 table.now.jobs ≡ [] → IsOk result }
    ensures refused { FailsForMemory result }
{
    let mut rows = JobRows::new(alloc);
    for number in 0..table.len() {
        if let Some(job) = table.job(JobNo(number)) {
            if let Some(row) = row_in(number, &job) {
                rows.push(row)?;
            }
        }
    }
    Ok(rows)
}

/// The row of a number, if there is one.
fn row_of(table: &JobTable, number: JobNo) -> Option<JobRow>
    ensures { result ≡ row_of (rows_in 0 table.now.jobs) number }
{
    match table.job(number) {
        Some(job) => row_in(number.0, &job),
        None => None,
    }
}

/// What a slot carried, where it has a row and a key that isn't above this one's.
fn within(table: &JobTable, last: &JobRow, slot: Option<JobNo>) -> Option<JobNo>
    requires due { last.now.due ≡ due_of (rows_in 0 table.now.jobs) last.now.number }
    ensures within { IfSome result (λ number.
        (slot ≡ Some number)
        × (is_within (rows_in 0 table.now.jobs) last.now.number slot ≡ true)) }
    ensures outside { result ≡ None
        → is_within (rows_in 0 table.now.jobs) last.now.number slot ≡ false }
{
    let number = slot?;
    let row = row_of(table, number)?;
    if row.due < last.due || (row.due == last.due && number <= last.number) {
        Some(number)
    } else {
        None
    }
}

/// Where a busy interval starts, and who was carried in it, a number maybe more than once.
#[derive(Drop)]
struct Walk {
    start: u32,
    numbers: Vec<JobNo>,
}

/// Whether this number stands last.
fn is_last(numbers: &[JobNo], number: JobNo) -> bool
    ensures { IsTrue result → (k : ℕ) →
        is_listed numbers.now k ≡ ((number == k) || is_listed numbers.now k) }
{
    let count = numbers.len();
    count > 0 && numbers[count - 1] == number
}

/// Adds a number, unless it was added last.
fn note(numbers: &mut Vec<JobNo>, number: JobNo) -> Result<(), AllocError>
    ensures noted { OnOk result ((k : ℕ) →
        is_listed numbers.new.items k ≡ ((number == k) || is_listed numbers.old.items k)) }
{
    if is_last(numbers.as_slice(), number) {
        return Ok(());
    }
    numbers.push(number)?;
    Ok(())
}

/// Walks back over the slots up to a completion for as long as they carried keys that aren't above that of the row.
fn walk_back(
    alloc: Global,
    table: &JobTable,
    mut slots: SlotsBack<'_>,
    last: &JobRow,
    completion: u32,
) -> Result<Walk, AllocError>
    requires len { length slots ≡ completion }
    requires due { last.now.due ≡ due_of (rows_in 0 table.now.jobs) last.now.number }
    ensures start { IfOk result (λ walk. walk.start
        ≡ start_of (rows_in 0 table.now.jobs) slots.entry last.now.number completion) }
    ensures carried { IfOk result (λ walk. (k : ℕ) →
        is_listed walk.numbers.items k ≡ is_carried slots.entry walk.start completion k) }
{
    let mut start = completion;
    let mut numbers = Vec::new(alloc);
    while let Some(run) = slots.pop() {
        let Some(number) = within(table, last, run.number) else {
            return Ok(Walk { start, numbers });
        };
        note(&mut numbers, number)?;
        start -= run.count;
    }
    Ok(Walk { start, numbers })
}

/// These numbers, rising, each once.
fn rising(mut numbers: Vec<JobNo>) -> JobList
    ensures rising { IsStrictlyIncreasing result }
    ensures same { (k : ℕ) → is_listed result k ≡ is_listed numbers.items k }
{
    numbers.sort_unstable();
    numbers.dedup();
    JobList::from_vec(numbers)
}

/// The busy interval of a job that is done, where these are the slots up to its completion. Its cost is that of the
/// busy interval, however many slots and jobs there were before it.
fn busy_interval(
    alloc: Global,
    table: &JobTable,
    slots: SlotsBack<'_>,
    job: JobNo,
) -> Result<Option<Certificate>, Refusal>
    requires rise { RowsRise (rows_in 0 table.now.jobs) }
    requires len { length slots ≡ completion_of (rows_in 0 table.now.jobs) job }
    ensures ok { IfOk result (λ made. made
        ≡ busy_interval_if_done (rows_in 0 table.now.jobs) slots.entry job) }
    ensures refused { FailsForMemory result }
{
    let Some(row) = row_of(table, job) else {
        return Ok(None);
    };
    let Some(completion) = row.completion else {
        return Ok(None);
    };
    let Walk { start, numbers } = walk_back(alloc, table, slots, &row, completion)?;
    Ok(Some(Certificate {
        job,
        start,
        due: row.due,
        completion,
        jobs: rising(numbers),
    }))
}

impl<N: Nand> DieCore<N> {
    /// The rows of all jobs and collections by number, without those that were waived: what [`late_cert::check`] reads.
    /// The only refusal is out of memory; where there is no row, none is taken.
    pub fn rows(&self, alloc: Global) -> Result<JobRows, Refusal>
        ensures ok { IfOk result (λ made. made ≡ rows self.now.start.plan self.now.log) }
        ensures rise { IfOk result (λ made. RowsRise made) }
        ensures nothing { rows self.now.start.plan self.now.log ≡ [] → IsOk result }
        ensures refused { FailsForMemory result }
    {
        rows_in(alloc, &self.table)
    }

    /// The certificate of the worst job or collection, or none where nothing is done. [`late_cert::check`] says of it,
    /// over the die's rows, that it holds: every schedule that gives its jobs the slots that they took, none before its
    /// release, completes one of them at least as late. It walks over the slots of the worst one's busy interval alone.
    /// The only refusal is out of memory; where nothing is done, no memory is taken.
    pub fn certificate(&self, alloc: Global) -> Result<Option<Certificate>, Refusal>
        ensures ok { IfOk result (λ built. built ≡ certificate self.now.start.plan self.now.log) }
        ensures none { IfOk result (λ built.
            (built ≡ None) ↔ NothingDone self.now.start.plan self.now.log) }
        ensures worst { IfOk result (λ built.
            IfSome built (IsOfWorst self.now.start.plan self.now.log)) }
        ensures holds { IfOk result (λ built.
            IfSome built (HoldsOver self.now.start.plan self.now.log)) }
        ensures binds { IfOk result (λ built.
            IfSome built (BindsAll self.now.start.plan self.now.log)) }
        ensures nothing { NothingDone self.now.start.plan self.now.log → IsOk result }
        ensures refused { FailsForMemory result }
    {
        match self.worst() {
            None => Ok(None),
            Some(worst) => busy_interval(alloc, &self.table, self.events.before_mark(), worst.job),
        }
    }

    /// All that is promised of a die's log, whatever was done with the die; the call does nothing. The plan meets its
    /// bound, and the log is the exact answer to the accepted calls, hence legal. At every moment each slot so far
    /// carried the least key of those that waited, and the greatest lateness so far is least: no schedule that respects
    /// releases, and gives what is done as many slots as it took, has a smaller one. Collections keep to their slots,
    /// and the worst job has its certificate.
    pub fn promises(&self)
        ensures { KeepsPromises self.now.start self.now.log }
    {
        // What a die keeps is known where one of its fields is used.
        let _ = &self.volume;
    }
}
