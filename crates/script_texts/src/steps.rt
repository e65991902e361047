//! The steps of a reader of scripts.

ghost use Rattle.std.specs.Prelude.{◌≡◌, ◌<◌, ◌+◌, ◌≤◌, length, max, IfOk, IfSome};
ghost use Rattle.csv.specs.Reading.{has_failed};
ghost use Rattle.csv.specs.Records.{fields_of};
ghost use Rattle.text_base.specs.CsvRecordsLeft.{fits_left, rows_left};
ghost use Rattle.text_base.specs.Fields.{field_or};
ghost use Rattle.text_base.specs.Plain.{IsPlain};
ghost use Rattle.script_texts.specs.Arrivals.{IsHeadFor};
ghost use Rattle.script_texts.specs.RowTexts.{row_with_text};
ghost use Rattle.script_texts.specs.Script.{StepFits, StepOf, after_row, rows_from, script_at, script_from};
ghost use Rattle.script_texts.specs.ScriptHeader.{is_script_header};
ghost use Rattle.text_base.specs.Readings.{FailsAtReadFault};

use crate::script_rows::{RowHead, head_in};
use csv::{ByteRecord, Reader};
use slot_types::{Cause, Refusal};
use std::io::Read;
use text_base::{Bounded, is_named, take_row};

/// The greatest number of a record.
const MAX_LINE: u32 = 1_000_001;

/// Whether a record is the header of a script.
fn heads_script(row: &ByteRecord) -> bool
    ensures { result ≡ is_script_header (fields_of row.now) }
{
    row.len() == 7
        && is_named(row, 0, "at")
        && is_named(row, 1, "die")
        && is_named(row, 2, "task")
        && is_named(row, 3, "kind")
        && is_named(row, 4, "release")
        && is_named(row, 5, "due")
        && is_named(row, 6, "ops")
}

/// The row of the next record, which has this number: its head, while its fields stay where they are.
#[tactic(auto, unfolding(crate::specs::Script::rows_from))]
fn read_head<R: Read>(
    rows: &mut Reader<Bounded<R>>,
    row: &mut ByteRecord,
    slots: u32,
    lasts: &[u32],
    line: u32,
) -> Result<Option<RowHead>, Refusal>
    requires { IsPlain rows.old }
    ensures step { StepOf (rows_from slots lasts.now line) (λ row.
        rows_from slots (after_row lasts.now row) (line + 1))
        (rows_left R.remaining rows.old) (rows_left R.remaining rows.new)
        (row_with_text result (field_or (fields_of row.new) 6)) }
    ensures fits { StepFits (fits_left R.remaining rows.old) (fits_left R.remaining rows.new)
        result }
    ensures plain { IfOk result (λ _. IsPlain rows.new) }
    ensures failed { FailsAtReadFault (has_failed rows.old) (has_failed rows.new) result }
    ensures few { IfOk result (λ o. IfSome o (λ _. line ≤ 1000001)) }
    ensures row { IfOk result (λ o. IfSome o (IsHeadFor (length lasts.now) slots)) }
    ensures line { IfOk result (λ o. IfSome o (λ head. head.line ≡ line)) }
{
    if !take_row(rows, row)? {
        return Ok(None);
    }
    if line > MAX_LINE {
        return Err(Refusal::ScriptRow {
            line,
            cause: Cause::TooManyRows,
        });
    }
    let head = head_in(row, slots, lasts, line)?;
    Ok(Some(head))
}

/// The row of the second record, where the first is the header.
fn read_first<R: Read>(
    rows: &mut Reader<Bounded<R>>,
    row: &mut ByteRecord,
    slots: u32,
    lasts: &[u32],
) -> Result<Option<RowHead>, Refusal>
    requires { IsPlain rows.old }
    ensures step { StepOf (script_from slots lasts.now) (λ row.
        rows_from slots (after_row lasts.now row) 3) (rows_left R.remaining rows.old)
        (rows_left R.remaining rows.new) (row_with_text result (field_or (fields_of row.new) 6)) }
    ensures fits { StepFits (fits_left R.remaining rows.old) (fits_left R.remaining rows.new)
        result }
    ensures plain { IfOk result (λ _. IsPlain rows.new) }
    ensures failed { FailsAtReadFault (has_failed rows.old) (has_failed rows.new) result }
    ensures row { IfOk result (λ o. IfSome o (IsHeadFor (length lasts.now) slots)) }
    ensures line { IfOk result (λ o. IfSome o (λ head. head.line ≡ 2)) }
{
    if !take_row(rows, row)? || !heads_script(row) {
        return Err(Refusal::ScriptRow {
            line: 1,
            cause: Cause::Header,
        });
    }
    read_head(rows, row, slots, lasts, 2)
}

/// The next row, where the next record has this number.
pub fn read_step<R: Read>(
    rows: &mut Reader<Bounded<R>>,
    row: &mut ByteRecord,
    slots: u32,
    lasts: &[u32],
    line: u32,
) -> Result<Option<RowHead>, Refusal>
    requires plain { IsPlain rows.old }
    requires counted { 0 < line }
    ensures step { StepOf (script_at slots lasts.now line) (λ row.
        rows_from slots (after_row lasts.now row) (max line 2 + 1))
        (rows_left R.remaining rows.old) (rows_left R.remaining rows.new)
        (row_with_text result (field_or (fields_of row.new) 6)) }
    ensures fits { StepFits (fits_left R.remaining rows.old) (fits_left R.remaining rows.new)
        result }
    ensures plain { IfOk result (λ _. IsPlain rows.new) }
    ensures failed { FailsAtReadFault (has_failed rows.old) (has_failed rows.new) result }
    ensures few { IfOk result (λ o. IfSome o (λ _. line ≤ 1000001)) }
    ensures row { IfOk result (λ o. IfSome o (IsHeadFor (length lasts.now) slots)) }
    ensures line { IfOk result (λ o. IfSome o (λ head. head.line ≡ max line 2)) }
{
    if line == 1 {
        read_first(rows, row, slots, lasts)
    } else {
        read_head(rows, row, slots, lasts, line)
    }
}
