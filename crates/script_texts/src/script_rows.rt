//! One row of a script.

ghost use Rattle.std.specs.Prelude.{◌≡◌, [], length, IfOk, OnErr, OnOk};
ghost use Rattle.csv.specs.Records.{fields_of};
ghost use Rattle.script_texts.specs.Arrivals.{IsHeadFor};
ghost use Rattle.script_texts.specs.AskedPages.{RowHasPages};
ghost use Rattle.script_texts.specs.Heads.{HasOwnOps, row_of};
ghost use Rattle.script_texts.specs.RowTexts.{item_in, row_text};
ghost use Rattle.script_texts.specs.ScriptRows.{collects_at, head_of, number_at};
ghost use Rattle.text_base.specs.Ops.{ops_of, ops_or};
ghost use Rattle.text_base.specs.Readings.{Shows};

use csv::ByteRecord;
use slot_types::{Cause, Event, JobHead, Op, OpList, Refusal, TaskNo};
use text_base::{WordSink, number, put_list};

/// What a row of a script asks.
#[derive(Clone, PartialEq, Eq, Debug, Drop)]
pub struct ScriptItem {
    /// The number of its record, the header being 1.
    pub line: u32,
    /// The event comes before this slot.
    pub at: u32,
    pub die: u32,
    pub event: Event,
}

/// What a row of a script asks, without its operations.
#[derive(Clone, Copy, PartialEq, Eq, Debug, Drop)]
pub struct RowHead {
    /// The number of its record, the header being 1.
    pub line: u32,
    /// It comes before this slot.
    pub at: u32,
    pub die: u32,
    pub job: JobHead,
}

impl RowHead {
    ghost use Rattle.script_texts.specs.Heads.{row_of};

    /// The row, with its operations. A collection frees them.
    pub fn with_ops(self, ops: OpList) -> ScriptItem
        ensures { result ≡ row_of self ops }
    {
        ScriptItem {
            line: self.line,
            at: self.at,
            die: self.die,
            event: self.job.with_ops(ops),
        }
    }
}

/// The number in a field of a row.
fn number_in(row: &ByteRecord, line: u32, place: usize) -> Result<u32, Refusal>
    ensures { result ≡ number_at line (fields_of row.now) place }
{
    let fault = Refusal::ScriptRow {
        line,
        cause: Cause::Number,
    };
    match row.get(place) {
        Some(field) => number(field).ok_or(fault),
        None => Err(fault),
    }
}

/// Whether a row is of a collection.
fn collects_in(row: &ByteRecord, line: u32) -> Result<bool, Refusal>
    ensures { result ≡ collects_at line (fields_of row.now) }
{
    let fault = Refusal::ScriptRow {
        line,
        cause: Cause::Kind,
    };
    let Some(kind) = row.get(3) else {
        return Err(fault);
    };
    if kind == b"job".as_slice() {
        Ok(false)
    } else if kind == b"collect".as_slice() {
        Ok(true)
    } else {
        Err(fault)
    }
}

/// Puts the operations of a field in place of others, in their memory, or says the fault of its record.
fn put_ops<O: WordSink<Op>>(ops: &mut O, field: &[u8], line: u32) -> Result<(), Refusal>
    ensures ops { Shows (λ _. O.items ops.new) result (ops_or line (ops_of field.now)) }
    ensures none { OnErr result (O.items ops.new ≡ []) }
{
    if put_list::<Op, O>(ops, field)? {
        Ok(())
    } else {
        Err(Refusal::ScriptRow {
            line,
            cause: Cause::Ops,
        })
    }
}

/// Puts the operations of a row in place of others, in their memory: a job's are the words of the text, and a collection
/// has none, and an empty text. Refused as ScriptRow with the cause Ops where the text is another, or as NoMemory; then
/// the list is empty.
pub fn read_ops<O: WordSink<Op>>(ops: &mut O, head: &RowHead, text: &[u8]) -> Result<(), Refusal>
    ensures item { Shows (λ _. row_of head.now (O.items ops.new)) result
        (item_in (row_text head.now text.now)) }
    ensures pages { OnOk result (RowHasPages (row_of head.now (O.items ops.new))) }
    ensures own { OnOk result (HasOwnOps head.now (O.items ops.new)) }
    ensures none { OnErr result (O.items ops.new ≡ []) }
{
    if !head.job.collects {
        return put_ops(ops, text, head.line);
    }
    ops.clear();
    if text.is_empty() {
        Ok(())
    } else {
        Err(Refusal::ScriptRow {
            line: head.line,
            cause: Cause::Ops,
        })
    }
}

/// The head of a row, after rows of its dies that came at these slots. Its operations aren't looked at.
#[tactic(auto, unfolding(crate::specs::ScriptRows::head_of))]
pub fn head_in(row: &ByteRecord, slots: u32, lasts: &[u32], line: u32) -> Result<RowHead, Refusal>
    ensures head { result ≡ head_of slots lasts.now line (fields_of row.now) }
    ensures row { IfOk result (IsHeadFor (length lasts.now) slots) }
    ensures line { IfOk result (λ head. head.line ≡ line) }
{
    if row.len() != 7 {
        return Err(Refusal::ScriptRow {
            line,
            cause: Cause::Fields,
        });
    }
    let at = number_in(row, line, 0)?;
    let die = number_in(row, line, 1)?;
    let task = number_in(row, line, 2)?;
    let release = number_in(row, line, 4)?;
    let due = number_in(row, line, 5)?;
    let collects = collects_in(row, line)?;
    if die as usize >= lasts.len() {
        return Err(Refusal::ScriptRow {
            line,
            cause: Cause::Die,
        });
    }
    if at < lasts[die as usize] || at > slots {
        return Err(Refusal::ScriptRow {
            line,
            cause: Cause::At,
        });
    }
    Ok(RowHead {
        line,
        at,
        die,
        job: JobHead {
            collects,
            task: TaskNo(task),
            release,
            due,
        },
    })
}
