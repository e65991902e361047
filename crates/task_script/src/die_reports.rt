//! What a report says of a die, straight from the die's table of jobs.

ghost use Rattle.std.specs.Prelude.{◌≡◌, OnOk};
ghost use Rattle.slot_types.specs.Refusal.{FailsForMemory};
ghost use Rattle.slot_core.specs.Summaries.{summary_in};
ghost use Rattle.report_texts.specs.RowNumbers.{numbers_of};
ghost use Rattle.report_texts.specs.TextSoFar.{die_added, row_added, rows_added};
ghost use Rattle.report_texts.specs.WellFormed.{on_die};
ghost use Rattle.task_script.specs.DieReports.{die_report_of, report_rows_of, row_as, kind_of, given_by};

use die_log::exact_keeps_limits;
use flash_die::Nand;
use late_cert::lateness;
use report_texts::{ReportText, RowKind, RowNumbers};
use slot_core::{DieCore, Job, Stage};
use slot_types::{JobNo, MAX_JOBS, Refusal};
use std::alloc::Global;

/// What a row is about that wasn't waived.
fn kind_of(collects: bool) -> RowKind
    ensures { result ≡ kind_of collects }
{
    if collects {
        RowKind::Collect
    } else {
        RowKind::Job
    }
}

/// The pages that a done collection gave; a job gives none.
fn given_by(collects: bool, given: u32) -> Option<u32>
    ensures { result ≡ given_by collects given }
{
    if collects { Some(given) } else { None }
}

/// What the row of a job says, without what its reads gave.
fn numbers_of(die: u32, number: JobNo, job: &Job) -> RowNumbers
    ensures { result ≡ numbers_of (on_die die (row_as number (summary_in job.now))) }
{
    let kind = kind_of(job.collects());
    let (row, work, completion, lateness, given) = match job.stage() {
        Stage::Pending => (kind, job.work(), None, None, None),
        Stage::Done { completion, given } => (
            kind,
            job.work(),
            Some(completion),
            Some(lateness(completion, job.due())),
            given_by(job.collects(), given),
        ),
        Stage::Waived { given } => (RowKind::Waived, 0, None, None, Some(given)),
    };
    RowNumbers {
        die,
        row,
        job: number,
        task: job.task(),
        release: job.release(),
        due: job.due(),
        work,
        completion,
        lateness,
        given,
    }
}

/// Adds the row of a job, which has what its reads gave once it is done.
fn add_job(text: &mut ReportText, die: u32, number: JobNo, job: &Job) -> Result<(), Refusal>
    ensures ok { OnOk result (text.new
        ≡ row_added die (row_as number (summary_in job.now)) text.old) }
    ensures refused { FailsForMemory result }
{
    let row = numbers_of(die, number, job);
    match job.stage() {
        Stage::Done { .. } => text.add_row(&row, job.reads()),
        Stage::Pending | Stage::Waived { .. } => text.add_row(&row, &[]),
    }
}

/// Adds the rows of all jobs and collections of a die, by number.
fn add_rows<N: Nand>(text: &mut ReportText, die: u32, core: &DieCore<N>) -> Result<(), Refusal>
    ensures ok { OnOk result (text.new
        ≡ rows_added die (report_rows_of core.now.start core.now.log) text.old) }
    ensures refused { FailsForMemory result }
{
    core.promises();
    exact_keeps_limits();
    for number in 0..MAX_JOBS {
        let job = JobNo(number);
        match core.job_record(job) {
            Some(kept) => add_job(text, die, job, &kept)?,
            None => return Ok(()),
        }
    }
    Ok(())
}

/// Adds what a report says of a die, under a number: a row for each job or collection that it accepted, by number, and
/// the certificate of the worst where something is done. Its worst is the done one with the greatest lateness, of equal
/// ones the one completed first.
///
/// It is read off the die's log alone. The only refusal is NoMemory.
pub fn add_die<N: Nand>(
    alloc: Global,
    text: &mut ReportText,
    die: u32,
    core: &DieCore<N>,
) -> Result<(), Refusal>
    ensures ok { OnOk result (text.new
        ≡ die_added (die_report_of core.now.start core.now.log die) text.old) }
    ensures refused { FailsForMemory result }
{
    add_rows(text, die, core)?;
    match core.certificate(alloc)? {
        Some(cert) => text.add_cert(die, &cert),
        None => Ok(()),
    }
}
