//! The rows of a script as they are read, by die.

ghost use Rattle.std.specs.Prelude.{◌≡◌, ◌≤◌, [], replicate, IfOk};
ghost use Rattle.slot_types.specs.Refusal.{FailsForMemory};
ghost use Rattle.script_texts.specs.ScriptLeft.{dies_of, line_of, reader_failed, script_rows_left, slots_of};
ghost use Rattle.task_script.specs.Feeds.{rows_dealt};
ghost use Rattle.task_script.specs.RowTexts.{EndsWithReader, GoesOn, HasReadTexts};

use script_texts::{RowTexts, ScriptReader};
use slot_types::Refusal;
use std::io::Read;

/// How many rows are read of a script before they are sent to their dies, at most.
pub const BATCH_ROWS: u32 = 8_192;

/// After how many bytes of operations no further row is read before these are sent. No contract depends on it.
const BATCH_BYTES: usize = 1_048_576;

/// Why no further row is read before those that were read are sent to their dies.
#[derive(Clone, Copy, PartialEq, Eq, Debug, Drop)]
pub enum ReadEnd {
    /// They are as many as are sent at a time.
    More,
    /// The script has no further row.
    Ended,
    /// The script is at fault after them, or reading it was refused: as ReadFault only where csv's reader has failed. A
    /// fault in the operations of these rows comes before that.
    Refused(Refusal),
}

/// The rows that were read from a script, by die, and how the reading ended.
#[derive(Drop)]
pub struct ReadRows {
    pub dies: Vec<RowTexts>,
    pub end: ReadEnd,
}

/// By die the next rows of a script, in these empty lists: those up to its end or its first fault, or 8,192 at most,
/// and no further one once they have 1 MiB of operations. Their operations aren't read yet.
/// `end` says what came then: where it is `More`, a row was read, and where it is ReadFault, csv's reader has failed.
/// The only refusal of this call is NoMemory.
pub fn read_rows<R: Read>(
    script: &mut ScriptReader<R>,
    empty: Vec<RowTexts>,
) -> Result<ReadRows, Refusal>
    requires empty { empty.items ≡ replicate (dies_of script.old) [] }
    ensures rows { IfOk result (λ rows.
        HasReadTexts (script_rows_left R.remaining script.old)
        (script_rows_left R.remaining script.new) (dies_of script.old) (slots_of script.old)
        (line_of script.old) (line_of script.new) rows.dies.items rows.end) }
    ensures few { IfOk result (λ rows. rows_dealt rows.dies.items ≤ 8192) }
    ensures more { IfOk result (λ rows.
        GoesOn (line_of script.old) (line_of script.new) rows.end) }
    ensures failed { IfOk result (λ rows. EndsWithReader (reader_failed script.new) rows.end) }
    ensures refused { FailsForMemory result }
    ensures dies { dies_of script.new ≡ dies_of script.old }
    ensures slots { slots_of script.new ≡ slots_of script.old }
{
    let mut rows = empty;
    let mut left = BATCH_BYTES;
    for _ in 0..BATCH_ROWS {
        match script.next_row() {
            Ok(Some(head)) => {
                let ops = script.ops_text();
                let size = ops.len();
                rows[head.die as usize].add(&head, ops)?;
                if size >= left {
                    return Ok(ReadRows {
                        dies: rows,
                        end: ReadEnd::More,
                    });
                }
                left -= size;
            }
            Ok(None) => {
                return Ok(ReadRows {
                    dies: rows,
                    end: ReadEnd::Ended,
                });
            }
            Err(refusal) => {
                return Ok(ReadRows {
                    dies: rows,
                    end: ReadEnd::Refused(refusal),
                });
            }
        }
    }
    Ok(ReadRows {
        dies: rows,
        end: ReadEnd::More,
    })
}
