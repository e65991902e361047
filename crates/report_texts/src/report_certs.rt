//! The worst of a die's done rows, and its certificate.

ghost use Rattle.std.specs.Prelude.{◌≡◌, IfOk};
ghost use Rattle.csv.specs.Records.{fields_of};
ghost use Rattle.slot_types.specs.Refusal.{FailsForMemory};
ghost use Rattle.text_base.specs.Fields.{field_or};
ghost use Rattle.text_base.specs.Number.{number_of};
ghost use Rattle.report_texts.specs.ReportRows.{is_late, lateness_in};
ghost use Rattle.text_base.specs.Words.{list_of};
ghost use Rattle.report_texts.specs.Worst.{cert_of, finish_of, is_cert, is_empty, is_of, is_worse, lateness_of_finish, says, worse_finish, worst_of};

use crate::reports::ReportRow;
use crate::row_numbers::{number_in, read_lateness};
use csv::ByteRecord;
use late_cert::{Certificate, JobList, lateness};
use slot_types::{JobNo, Refusal};
use std::alloc::Global;
use text_base::{field_in, is_named, list};

/// How a job or a collection ended.
#[derive(Clone, Copy, PartialEq, Eq, Debug, Drop)]
pub struct Finish {
    pub job: JobNo,
    pub due: u32,
    pub completion: u32,
}

impl Finish {
    /// How late it was.
    fn late(&self) -> i64
        ensures { result ≡ lateness_of_finish self.now }
    {
        lateness(self.completion, self.due)
    }

    /// Whether it was later than the other, or as late and completed first.
    fn is_worse(&self, other: &Finish) -> bool
        ensures { result ≡ is_worse self.now other.now }
    {
        let (one, two) = (self.late(), other.late());
        two < one || (!(one < two) && self.completion < other.completion)
    }
}

/// How a row ended, if it is done.
pub fn finish_in(row: &ReportRow) -> Option<Finish>
    ensures { result ≡ finish_of row.now }
{
    match row.completion {
        Some(completion) => Some(Finish {
            job: row.job,
            due: row.due,
            completion,
        }),
        None => None,
    }
}

/// The worse of two, the first where neither is.
pub fn worse_of(best: Option<Finish>, next: Option<Finish>) -> Option<Finish>
    ensures { result ≡ worse_finish best next }
{
    let Some(next) = next else {
        return best;
    };
    let Some(best) = best else {
        return Some(next);
    };
    if next.is_worse(&best) {
        Some(next)
    } else {
        Some(best)
    }
}

/// The done row with the greatest lateness, of equal ones the one completed first.
pub fn worst(rows: &[ReportRow]) -> Option<Finish>
    ensures { result ≡ worst_of rows.now }
{
    let mut best = None;
    for row in rows {
        best = worse_of(best, finish_in(row));
    }
    best
}

/// Whether a record begins a certificate.
pub fn begins_cert(fields: &ByteRecord) -> bool
    ensures { result ≡ is_cert (fields_of fields.now) }
{
    is_named(fields, 0, "cert")
}

/// Whether a field says just this number.
fn says_number(fields: &ByteRecord, place: usize, number: u32) -> bool
    ensures { result ≡ says (fields_of fields.now) place number }
{
    match number_in(fields, place) {
        Some(said) => said == number,
        None => false,
    }
}

/// Whether a field is empty.
fn is_blank(fields: &ByteRecord, place: usize) -> bool
    ensures { result ≡ is_empty (fields_of fields.now) place }
{
    field_in(fields, place).is_empty()
}

/// Whether a record is a certificate of this job, except for its start and its jobs.
fn certifies(fields: &ByteRecord, die: u32, worst: &Finish) -> bool
    ensures { result ≡ is_of die worst.now (fields_of fields.now) }
{
    begins_cert(fields)
        && says_number(fields, 1, die)
        && says_number(fields, 2, worst.job.0)
        && is_blank(fields, 3)
        && says_number(fields, 5, worst.due)
        && is_blank(fields, 6)
        && says_number(fields, 7, worst.completion)
        && says_lateness(fields, worst)
        && is_blank(fields, 9)
}

/// Whether a certificate says the lateness of this job.
fn says_lateness(fields: &ByteRecord, worst: &Finish) -> bool
    ensures { result
        ≡ is_late (lateness_in (field_or (fields_of fields.now) 8)) (lateness_of_finish worst.now) }
{
    read_lateness(field_in(fields, 8)) == Some(worst.late())
}

/// The jobs that a certificate lists.
fn jobs(alloc: Global, fields: &ByteRecord) -> Result<Option<JobList>, Refusal>
    ensures ok { IfOk result (λ jobs.
        jobs ≡ list_of number_of (field_or (fields_of fields.now) 10)) }
    ensures refused { FailsForMemory result }
{
    list(alloc, field_in(fields, 10))
}

/// The certificate that a record says, if it is one for the worst job of this die.
#[tactic(auto, unfolding(crate::specs::Worst::cert_of))]
pub fn cert(
    alloc: Global,
    fields: &ByteRecord,
    die: u32,
    worst: &Finish,
) -> Result<Option<Certificate>, Refusal>
    ensures ok { IfOk result (λ found. found ≡ cert_of die worst.now (fields_of fields.now)) }
    ensures refused { FailsForMemory result }
{
    if fields.len() != 11 || !certifies(fields, die, worst) {
        return Ok(None);
    }
    let Some(start) = number_in(fields, 4) else {
        return Ok(None);
    };
    let Some(jobs) = jobs(alloc, fields)? else {
        return Ok(None);
    };
    Ok(Some(Certificate {
        job: worst.job,
        start,
        due: worst.due,
        completion: worst.completion,
        jobs,
    }))
}
