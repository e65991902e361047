//! Rows of a script as they stand, until their operations are read.

ghost use Rattle.std.specs.Prelude.{◌≡◌, ◌⊎◌, ◌∷◌, ◌++◌, ◌+◌, ◌<◌, [], OnErr, OnOk, drop, length};
ghost use Rattle.slot_types.specs.Refusal.{FailsForMemory};
ghost use Rattle.script_texts.specs.RowTexts.{row_text};

use crate::script_rows::RowHead;
use csv::ByteRecord;
use slot_types::Refusal;
use std::alloc::Global;
use std::marker::Model;
use text_base::field_in;

/// Rows as they stand, in their order: their heads, and the texts of their operations, one after the other.
#[derive(Drop)]
pub struct RowTexts {
    heads: Vec<RowHead>,
    /// The fields of one record, so that all rows lie in a few blocks of memory.
    texts: ByteRecord,
}

impl Model for RowTexts {
    ghost use Rattle.std.specs.Prelude.{◌≡◌, [], List, length};
    ghost use Rattle.csv.specs.Records.{fields_of, partial_of};
    ghost use Rattle.script_texts.specs.RowTexts.{RowText, rows_with};

    ghost Value = { List RowText };

    ghost view = { λ r. rows_with r.heads.items (fields_of r.texts) };

    ghost invariant = { λ r. (length r.heads.items ≡ length (fields_of r.texts)) × (partial_of r.texts ≡ []) };
}

impl RowTexts {
    /// No row. It takes no memory.
    pub fn new(alloc: Global) -> RowTexts
        ensures { result ≡ [] }
    {
        RowTexts {
            heads: Vec::new(alloc),
            texts: ByteRecord::new(alloc),
        }
    }

    /// How many rows these are.
    pub fn len(&self) -> usize
        ensures { result ≡ length self.now }
    {
        self.heads.len()
    }

    /// The row at this place: its head, and the text of its operations.
    pub fn row(&self, place: usize) -> (RowHead, &[u8])
        requires { place < length self.now }
        ensures { drop place self.now
            ≡ row_text result.0 result.1.now ∷ drop (place + 1) self.now }
    {
        (self.heads[place], field_in(&self.texts, place))
    }

    /// Adds a row, of its head and the text of its operations. The only refusal is NoMemory; then the rows are as they
    /// were, or none is left.
    pub fn add(&mut self, head: &RowHead, ops: &[u8]) -> Result<(), Refusal>
        ensures ok { OnOk result (self.new ≡ self.old ++ row_text head.now ops.now ∷ []) }
        ensures refused { FailsForMemory result }
        ensures kept { OnErr result ((self.new ≡ self.old) ⊎ (self.new ≡ [])) }
    {
        self.heads.reserve(1)?;
        match self.texts.push_field(ops) {
            Ok(()) => {
                self.heads.push_reserved(*head);
                Ok(())
            }
            Err(_) => {
                // A part of the text may stand there, before that of the next row.
                self.heads.clear();
                self.texts.clear();
                Err(Refusal::NoMemory)
            }
        }
    }

    /// Takes all rows out. Their memory stays, for the next ones.
    pub fn clear(&mut self)
        ensures { self.new ≡ [] }
    {
        self.heads.clear();
        self.texts.clear();
    }
}
