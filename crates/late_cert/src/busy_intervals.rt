//! The certificate of a done job, by the busy interval before its completion.

ghost use Rattle.std.specs.Prelude.{◌≡◌, ◌<◌, length, true, false, IsOk, IfOk, IfSome, IfNone};
ghost use Rattle.slot_types.specs.Refusal.{FailsForMemory};
ghost use Rattle.late_cert.specs.declared.certificates.Certificate.{Certificate};
ghost use Rattle.late_cert.specs.Rows.{RowsRise, IsNamedAt, is_done, due_of};
ghost use Rattle.late_cert.specs.BusyInterval.{is_within, start_of, jobs_of};
ghost use Rattle.late_cert.specs.Build.{busy_interval_if_done, certificate_of, IsOwn, AreMarks};

use crate::carried::Carried;
use crate::certificates::{Certificate, JobList};
use crate::checks::check;
use crate::lookups::{find, place};
use crate::rows::{JobRow, JobRows};
use crate::verdicts::Verdict;
use slot_types::{JobNo, Refusal};
use std::alloc::{AllocError, Global};

/// The certificate of a done job. Its slots are the longest busy interval up to the job's completion in which each
/// carries a job with a row and a key (deadline, number) that isn't above the job's own; its jobs are those carried.
///
/// There is none where the job has no row or isn't done, and where [`check`](crate::check) finds a fault in what
/// the busy interval makes: as with rows and slots that no run had, or slots that passed over a lesser key. Where each
/// slot carried the least key, every done job has one (see [`crate::laws`]).
///
/// The rows rise by number, which [`rows_rise`](crate::rows_rise) tells. The only refusal is out of memory, and a job that
/// isn't done, or has no row, takes none.
pub fn build(
    alloc: Global,
    rows: &JobRows,
    carried: &Carried,
    job: JobNo,
) -> Result<Option<Certificate>, Refusal>
    requires { RowsRise rows.now }
    ensures built { IfOk result (λ built. built ≡ certificate_of rows.now carried.now job) }
    ensures own { IfOk result (λ built. IfSome built (IsOwn rows.now carried.now job)) }
    ensures none { IfOk result (λ built.
        IfNone built ((c : Certificate) → IsOwn rows.now carried.now job c → ⊥)) }
    ensures not_done { is_done rows.now job ≡ false → IsOk result }
    ensures refused { FailsForMemory result }
{
    let Some(certificate) = busy_interval(alloc, rows.as_slice(), carried, job)? else {
        return Ok(None);
    };
    if check(rows, &certificate) == Verdict::Holds {
        Ok(Some(certificate))
    } else {
        Ok(None)
    }
}

// The busy interval of a job, where it is done.
fn busy_interval(
    alloc: Global,
    rows: &[JobRow],
    carried: &Carried,
    job: JobNo,
) -> Result<Option<Certificate>, Refusal>
    requires { RowsRise rows.now }
    ensures ok { IfOk result (λ busy_interval.
        busy_interval ≡ busy_interval_if_done rows.now carried.now job) }
    ensures not_done { is_done rows.now job ≡ false → IsOk result }
    ensures refused { FailsForMemory result }
{
    let Some(row) = find(rows, job) else {
        return Ok(None);
    };
    let Some(completion) = row.completion else {
        return Ok(None);
    };
    let walk = walk_back(alloc, rows, carried, job, row.due, completion)?;
    let jobs = marked(
        alloc,
        rows,
        walk.marks.as_slice(),
        carried,
        walk.start,
        completion,
    )?;
    Ok(Some(Certificate {
        job,
        start: walk.start,
        due: row.due,
        completion,
        jobs,
    }))
}

// Where a busy interval starts, and for each row whether one of its slots carries it. The rows rise, so the marked
// numbers do, with no sort.
#[derive(Drop)]
struct Walk {
    start: u32,
    marks: Vec<bool>,
}

// Walks back over the runs of slots before the completion for as long as they carry keys that aren't above that of the
// job, and looks once at a row for each of them.
fn walk_back(
    alloc: Global,
    rows: &[JobRow],
    carried: &Carried,
    job: JobNo,
    due: u32,
    completion: u32,
) -> Result<Walk, AllocError>
    requires rise { RowsRise rows.now }
    requires due { due ≡ due_of rows.now job }
    ensures start { IfOk result (λ walk.
        walk.start ≡ start_of rows.now carried.now job completion) }
    ensures marks { IfOk result (λ walk.
        AreMarks rows.now carried.now walk.start completion walk.marks.items) }
{
    let mut marks = vec![in alloc; false; rows.len()]?;
    let mut start = completion;
    let mut end = carried.len();
    // No slot is known to have carried what was done later.
    if end < completion as usize {
        return Ok(Walk { start, marks });
    }
    let runs = carried.runs();
    let mut i = runs.len();
    while i > 0 {
        let run = runs[i - 1];
        let begin = end - run.length as usize;
        if begin < start as usize {
            let Some(place) = place_within(rows, job, due, run.number) else {
                return Ok(Walk { start, marks });
            };
            marks[place] = true;
            start = begin as u32;
        }
        end = begin;
        i -= 1;
    }
    Ok(Walk { start, marks })
}

// The place of the row of what a slot carries, where its key is not above that of the job.
fn place_within(rows: &[JobRow], job: JobNo, due: u32, slot: Option<JobNo>) -> Option<usize>
    requires rise { RowsRise rows.now }
    requires due { due ≡ due_of rows.now job }
    ensures inside { IfSome result (λ i. i < length rows.now) }
    ensures within { IfSome result (λ i. is_within rows.now job slot ≡ true) }
    ensures named { IfSome result (λ i. IfSome slot (λ number. IsNamedAt rows.now i number)) }
    ensures outside { IfNone result (is_within rows.now job slot ≡ false) }
{
    let number = slot?;
    let place = place(rows, number)?;
    let row = rows[place];
    if row.due < due || (row.due == due && number <= job) {
        Some(place)
    } else {
        None
    }
}

// The numbers of the marked rows.
fn marked(
    alloc: Global,
    rows: &[JobRow],
    marks: &[bool],
    carried: &Carried,
    start: u32,
    completion: u32,
) -> Result<JobList, Refusal>
    requires { AreMarks rows.now carried.now start completion marks.now }
    ensures ok { IfOk result (λ jobs. jobs ≡ jobs_of rows.now carried.now start completion) }
    ensures refused { FailsForMemory result }
{
    let mut jobs = JobList::new(alloc);
    for i in 0..rows.len() {
        if marks[i] {
            jobs.push(rows[i].number)?;
        }
    }
    Ok(jobs)
}
