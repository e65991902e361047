//! One row of a report.

ghost use Rattle.std.specs.Prelude.{◌≡◌, IfOk};
ghost use Rattle.csv.specs.Records.{fields_of};
ghost use Rattle.text_base.specs.Fields.{field_or};
ghost use Rattle.slot_types.specs.Refusal.{FailsForMemory};
ghost use Rattle.report_texts.specs.ReportRows.{sound_row};
ghost use Rattle.report_texts.specs.RowNumbers.{die_row};
ghost use Rattle.text_base.specs.Words.{list_of};
ghost use Rattle.text_base.specs.Pages.{page_of};

use crate::reports::ReportRow;
use crate::row_numbers::{RowNumbers, row_numbers, stands};
use csv::ByteRecord;
use slot_types::{Reads, Refusal};
use std::alloc::Global;
use text_base::{field_in, list};

/// A row, and the die that it is of.
#[derive(Clone, PartialEq, Eq, Debug, Drop)]
pub struct DieRow {
    pub die: u32,
    pub row: ReportRow,
}

/// What the reads of a row gave.
fn reads(alloc: Global, fields: &ByteRecord) -> Result<Option<Reads>, Refusal>
    ensures ok { IfOk result (λ reads.
        reads ≡ list_of page_of (field_or (fields_of fields.now) 10)) }
    ensures refused { FailsForMemory result }
{
    list(alloc, field_in(fields, 10))
}

/// The row of these numbers and reads, with its die.
pub fn die_row(numbers: &RowNumbers, reads: Reads) -> DieRow
    ensures { result ≡ die_row numbers.now reads }
{
    DieRow {
        die: numbers.die,
        row: ReportRow {
            row: numbers.row,
            job: numbers.job,
            task: numbers.task,
            release: numbers.release,
            due: numbers.due,
            work: numbers.work,
            completion: numbers.completion,
            lateness: numbers.lateness,
            given: numbers.given,
            reads,
        },
    }
}

/// The row that a record says, if it is of the right shape.
pub fn read_row(alloc: Global, fields: &ByteRecord) -> Result<Option<DieRow>, Refusal>
    ensures ok { IfOk result (λ found. found ≡ sound_row (fields_of fields.now)) }
    ensures refused { FailsForMemory result }
{
    if fields.len() != 11 {
        return Ok(None);
    }
    let Some(numbers) = row_numbers(fields) else {
        return Ok(None);
    };
    let Some(reads) = reads(alloc, fields)? else {
        return Ok(None);
    };
    if !stands(&numbers, reads.len()) {
        return Ok(None);
    }
    Ok(Some(die_row(&numbers, reads)))
}
