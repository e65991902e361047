//! Scripts, row by row.

ghost use Rattle.std.specs.Prelude.{◌≡◌, ◌<◌, ◌≤◌, IfOk, IfSome, None, Some, false, true, length, option_map};
ghost use Rattle.csv.specs.Reading.{has_failed};
ghost use Rattle.slot_types.specs.Refusal.{FailsForMemory};
ghost use Rattle.slot_types.specs.declared.refusals.Refusal.TheVariants.{ReadFault};
ghost use Rattle.text_base.specs.Plain.{IsPlain};

use crate::script_rows::{RowHead, ScriptItem, read_ops};
use crate::steps::read_step;
use csv::{ByteRecord, Reader};
use slot_types::{Op, OpList, Refusal, StorePlan};
use std::alloc::Global;
use std::io::Read;
use text_base::{Bounded, WordSink, field_in, rows_in};

/// Reads a script, row by row, in the memory of its longest row.
///
/// A script is csv, read with the defaults of the crate `csv` and without trimming: empty lines are no records,
/// fields may be quoted, a record ends with a line feed, a carriage return or both, and a byte order mark at the start
/// is passed over. Record 1 is the header `at,die,task,kind,release,due,ops`. Each later record has these seven
/// fields: numbers of 1 to 10 digits, of at most 4,294,967,295; the kind `job` or `collect`; and for a job its
/// operations with one space between two, `R` and a page, `T` and a page that is trimmed, or `W`, a page, `=` and 32
/// hexadecimal digits. The `at` of a die's rows never falls and is at most the number of slots.
///
/// No more of the text is read than 67,108,864 bytes, in at most 67,108,865 calls of the reader.
#[derive(Drop)]
pub struct ScriptReader<R> {
    alloc: Global,
    rows: Reader<Bounded<R>>,
    row: ByteRecord,
    /// By die the `at` of its last row.
    lasts: Vec<u32>,
    slots: u32,
    line: u32,
    ended: bool,
    refused: Option<Refusal>,
    ghost plain: { refused ≡ None → IsPlain rows },
    ghost counted: { 0 < line },
    ghost bounded: { line ≤ 1000002 },
    ghost failed: { refused ≡ Some ReadFault → has_failed rows ≡ true },
}

impl<R: Read> ScriptReader<R> {
    ghost use Rattle.script_texts.specs.Script.{reading_of, rows_in, script_of};
    ghost use Rattle.script_texts.specs.Heads.{HasOwnOps, row_read};
    ghost use Rattle.script_texts.specs.NextItem.{ReadsNext, ReadsRow};
    ghost use Rattle.script_texts.specs.ScriptLeft.{dies_of, line_of, ops_text, reader_failed, reading_left, script_fits, script_left, script_rows_left, slots_of};
    ghost use Rattle.text_base.specs.Marks.{is_within};

    /// A reader of a script for the dies of a store and `slots` slots. The only refusal is NoMemory.
    pub fn new(
        alloc: Global,
        reader: R,
        plan: &StorePlan,
        slots: u32,
    ) -> Result<ScriptReader<R>, Refusal>
    where
        R: Drop,
        ensures dies { IfOk result (λ script. dies_of script ≡ length plan.now) }
        ensures slots { IfOk result (λ script. slots_of script ≡ slots) }
        ensures line { IfOk result (λ script. line_of script ≡ 1) }
        ensures rows { IfOk result (λ script. script_rows_left R.remaining script
            ≡ option_map (rows_in (length plan.now) slots) (R.remaining reader)) }
        ensures reading { IfOk result (λ script. reading_left R.remaining script
            ≡ option_map (reading_of (length plan.now) slots) (R.remaining reader)) }
        ensures script { IfOk result (λ script. script_left R.remaining script
            ≡ option_map (script_of (length plan.now) slots) (R.remaining reader)) }
        ensures bound { IfOk result (λ script.
            script_fits R.remaining script ≡ option_map (is_within 67108864) (R.remaining reader)) }
        ensures fresh { IfOk result (λ script. reader_failed script ≡ false) }
        ensures refused { FailsForMemory result }
    {
        let lasts = vec![in alloc; 0u32; plan.len()]?;
        Ok(ScriptReader {
            alloc,
            rows: rows_in(alloc, reader),
            row: ByteRecord::new(alloc),
            lasts,
            slots,
            line: 1,
            ended: false,
            refused: None,
        })
    }

    /// The next item, or none at the end. It is the next of the text also where a later record is at fault: the fault
    /// comes after the last item before it. After a refusal it answers the same again.
    ///
    /// ScriptRow has the number of the first record at fault, and its first fault in this order: TooManyRows for a
    /// record numbered above 1,000,001; Header where record 1 isn't the header or there is no record; Fields where it
    /// doesn't have seven fields; Number; Kind; Die for a die that isn't there; At; Ops. ReadFault comes where
    /// the reader below csv fails or goes on beyond its bound, and only where csv's reader has failed; that fails for
    /// lack of memory, too, and the answer is then NoMemory. The records before it are judged first.
    pub fn next(&mut self) -> Result<Option<ScriptItem>, Refusal>
        ensures { ReadsNext R.remaining self.old self.new result }
    {
        let mut ops = OpList::new(self.alloc);
        match self.next_into(&mut ops)? {
            Some(head) => Ok(Some(head.with_ops(ops))),
            None => Ok(None),
        }
    }

    /// The next item, as [`next`](ScriptReader::next) answers it, but its operations are put into a list of the
    /// caller's, packed or not, in place of those that it has and in their memory: a reader that is given one list for
    /// all rows takes memory for its longest job alone. A collection has no operations. Where there is no item, nothing
    /// is said of the list.
    pub fn next_into<O: WordSink<Op>>(&mut self, ops: &mut O) -> Result<Option<RowHead>, Refusal>
        ensures next { ReadsNext R.remaining self.old self.new
            (row_read result (O.items ops.new)) }
        ensures own { IfOk result (λ o. IfSome o (λ head. HasOwnOps head (O.items ops.new))) }
    {
        let Some(head) = self.next_row()? else {
            return Ok(None);
        };
        match read_ops(ops, &head, self.ops_text()) {
            Ok(()) => Ok(Some(head)),
            Err(refusal) => {
                self.refused = Some(refusal);
                Err(refusal)
            }
        }
    }

    /// The next row as it stands, for a caller that reads its operations later or elsewhere, by
    /// [`read_ops`](crate::read_ops): its head. Their text is [`ops_text`](ScriptReader::ops_text) until the next call;
    /// it isn't judged here, and a fault in it ends the script before all rows that come after. Each row has a greater
    /// record number than those before it, and none one above 1,000,001.
    ///
    /// Every other fault is refused as [`next`](ScriptReader::next) says, and answered again.
    pub fn next_row(&mut self) -> Result<Option<RowHead>, Refusal>
        ensures { ReadsRow R.remaining self.old self.new result }
    {
        if let Some(refusal) = self.refused {
            return Err(refusal);
        }
        if self.ended {
            return Ok(None);
        }
        let line = self.line;
        match read_step(&mut self.rows, &mut self.row, self.slots, &self.lasts, line) {
            Ok(Some(head)) => {
                self.line = line.max(2) + 1;
                self.lasts[head.die as usize] = head.at;
                Ok(Some(head))
            }
            Ok(None) => {
                self.ended = true;
                Ok(None)
            }
            Err(refusal) => {
                self.refused = Some(refusal);
                Err(refusal)
            }
        }
    }

    /// The text of the operations of the row that was read last.
    pub fn ops_text(&self) -> &[u8]
        ensures { result.now ≡ ops_text self.now }
    {
        field_in(&self.row, 6)
    }
}
