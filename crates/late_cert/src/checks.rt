//! Whether a certificate holds.

ghost use Rattle.std.specs.Prelude.{◌≡◌, ◌↔◌, ◌^◌, ◌-◌, min, IfOk, IfErr, sum_by, None, Some};
ghost use Rattle.late_cert.specs.Rows.{RowsRise, work_of};
ghost use Rattle.late_cert.specs.Bound.{IsCertificate, BindsEverySchedule};
ghost use Rattle.late_cert.specs.Check.{is_rising, fault_of, first_fault, verdict_of};

use crate::certificates::Certificate;
use crate::lookups::find;
use crate::rows::{JobRow, JobRows};
use crate::verdicts::Verdict;
use slot_types::JobNo;

/// The verdict on a certificate: that it holds, or its first fault. [`Verdict`] has them in their order; those that
/// speak of a listed job are looked for job by job.
///
/// A certificate that holds binds every schedule of its jobs: one that gives each of them the slots that its row
/// says, none before its release, completes one of them at least `completion - due` slots late. This speaks of the
/// deadline and the completion alone: whether they are those of the certificate's `job` is for the caller to see.
///
/// The rows rise by number, as [`rows_rise`](crate::rows_rise) says.
pub fn check(rows: &JobRows, certificate: &Certificate) -> Verdict
    requires { RowsRise rows.now }
    ensures verdict { let c = certificate.now in
        result ≡ verdict_of rows.now c.start c.due c.completion c.jobs }
    ensures holds { let c = certificate.now in
        (result ≡ Verdict.Holds) ↔ IsCertificate rows.now c.start c.due c.completion c.jobs }
    ensures binds { let c = certificate.now in
        result ≡ Verdict.Holds → BindsEverySchedule rows.now c.due c.completion c.jobs }
{
    judge(rows.as_slice(), certificate)
}

// The verdict, by the definition.
fn judge(rows: &[JobRow], certificate: &Certificate) -> Verdict
    requires { RowsRise rows.now }
    ensures { let c = certificate.now in
        result ≡ verdict_of rows.now c.start c.due c.completion c.jobs }
{
    let jobs = certificate.jobs.as_slice();
    if jobs.is_empty() {
        return Verdict::Empty;
    }
    if !rises(jobs) {
        return Verdict::NotRising;
    }
    match sum_or_fault(rows, jobs, certificate.start, certificate.due) {
        Err(verdict) => verdict,
        Ok(sum) => {
            if certificate.completion >= certificate.start
                && sum == u64::from(certificate.completion - certificate.start)
            {
                Verdict::Holds
            } else {
                Verdict::WrongSum
            }
        }
    }
}

// Whether each number is below the next one.
fn rises(jobs: &[JobNo]) -> bool
    ensures { result ≡ is_rising jobs.now }
{
    for i in 1..jobs.len() {
        if jobs[i] <= jobs[i - 1] {
            return false;
        }
    }
    true
}

// The work of the listed jobs, or their first fault. A sum beyond 64 bits stays at the greatest number of 64 bits:
// no busy interval has as many.
fn sum_or_fault(rows: &[JobRow], jobs: &[JobNo], start: u32, due: u32) -> Result<u64, Verdict>
    requires { RowsRise rows.now }
    ensures fault { IfErr result (λ verdict.
        first_fault rows.now start due jobs.now ≡ Some verdict) }
    ensures faultless { IfOk result (λ sum. first_fault rows.now start due jobs.now ≡ None) }
    ensures sum { IfOk result (λ sum. sum ≡ min (sum_by (work_of rows.now) jobs.now) (2 ^ 64 - 1)) }
{
    let mut sum: u64 = 0;
    for job in jobs {
        let Some(row) = find(rows, *job) else {
            return Err(Verdict::UnknownJob);
        };
        if let Some(verdict) = fault(&row, start, due) {
            return Err(verdict);
        }
        sum = sum.saturating_add(u64::from(row.work));
    }
    Ok(sum)
}

// What is wrong with the row of a listed job.
fn fault(row: &JobRow, start: u32, due: u32) -> Option<Verdict>
    ensures { result ≡ fault_of start due (Some row.now) }
{
    if row.completion.is_none() || row.work == 0 {
        Some(Verdict::Unfinished)
    } else if row.release < start {
        Some(Verdict::EarlyRelease)
    } else if row.due > due {
        Some(Verdict::LateDue)
    } else {
        None
    }
}
