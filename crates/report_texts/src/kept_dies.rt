//! What is kept of the dies of a report while it is read: all of it, or their work alone.

ghost use Rattle.std.specs.Prelude.{◌≡◌, ◌∷◌, ◌++◌, [], List, IfOk, OnOk, option_map};
ghost use Rattle.csv.specs.Records.{fields_of};
ghost use Rattle.slot_types.specs.Refusal.{FailsForMemory};
ghost use Rattle.slot_types.specs.declared.pages.PageData.{PageData};
ghost use Rattle.report_texts.specs.KeptDies.{kept_row};
ghost use Rattle.report_texts.specs.ReportOf.{report_on, with_cert};
ghost use Rattle.report_texts.specs.ReportRows.{sound_row};
ghost use Rattle.report_texts.specs.ReportWork.{work_of};
ghost use Rattle.report_texts.specs.Worst.{worst_of};
ghost use Rattle.report_texts.specs.declared.report_rows.DieRow.{DieRow};
ghost use Rattle.report_texts.specs.declared.reports.DieReport.{DieReport};

use crate::report_certs::{Finish, worst};
use crate::report_rows::{DieRow, die_row, read_row};
use crate::report_work::DieWork;
use crate::reports::{DieReport, ReportRow, ReportRows};
use crate::row_numbers::read_numbers;
use csv::ByteRecord;
use late_cert::Certificate;
use slot_types::{Reads, Refusal};
use std::alloc::Global;

/// What the reader keeps of a die of a report: `kept_of` says it of the whole die, of which the clauses speak.
pub trait KeptDie: Drop + Sized {
    ghost kept_of: { DieReport → Self };

    // what is kept of what the reads of a row gave
    ghost kept_reads: { List PageData → List PageData };

    /// What is kept of a die that has no row yet.
    fn without_row(alloc: Global, die: u32) -> Self
        ensures { result ≡ kept_of (report_on die []) };

    /// The row that a record says, as it is kept, if the record is of the right shape.
    fn row_in(alloc: Global, fields: &ByteRecord) -> Result<Option<DieRow>, Refusal>
        ensures ok { IfOk result (λ found.
            found ≡ option_map (kept_row kept_reads) (sound_row (fields_of fields.now))) }
        ensures refused { FailsForMemory result };

    /// Adds a row, as it is kept.
    fn push(&mut self, row: ReportRow) -> Result<(), Refusal>
        ensures ok { (die : DieReport) (x : DieRow) → self.old ≡ kept_of die →
            row ≡ (kept_row kept_reads x).row →
            OnOk result (self.new ≡ kept_of (record die { rows = die.rows ++ x.row ∷ [] })) }
        ensures refused { FailsForMemory result };

    /// The number of the die.
    fn number(&self) -> u32
        ensures { (die : DieReport) → self.now ≡ kept_of die → result ≡ die.die };

    /// The worst of the done rows.
    fn worst(&self) -> Option<Finish>
        ensures { (die : DieReport) → self.now ≡ kept_of die → result ≡ worst_of die.rows };

    /// Keeps the certificate.
    fn certify(&mut self, cert: Certificate)
        ensures { (die : DieReport) → self.old ≡ kept_of die →
            self.new ≡ kept_of (with_cert die cert) };
}

impl KeptDie for DieReport {
    ghost kept_of = { λ die. die };

    ghost kept_reads = { λ reads. reads };

    fn without_row(alloc: Global, die: u32) -> DieReport {
        DieReport {
            die,
            rows: ReportRows::new(alloc),
            cert: None,
        }
    }

    fn row_in(alloc: Global, fields: &ByteRecord) -> Result<Option<DieRow>, Refusal> {
        read_row(alloc, fields)
    }

    fn push(&mut self, row: ReportRow) -> Result<(), Refusal> {
        self.rows.push(row)
    }

    fn number(&self) -> u32 {
        self.die
    }

    fn worst(&self) -> Option<Finish> {
        worst(self.rows.as_slice())
    }

    fn certify(&mut self, cert: Certificate) {
        self.cert = Some(cert);
    }
}

impl KeptDie for DieWork {
    ghost kept_of = { work_of };

    ghost kept_reads = { λ _. [] };

    fn without_row(alloc: Global, die: u32) -> DieWork {
        DieWork::new(alloc, die)
    }

    fn row_in(alloc: Global, fields: &ByteRecord) -> Result<Option<DieRow>, Refusal> {
        let Some(numbers) = read_numbers(fields) else {
            return Ok(None);
        };
        Ok(Some(die_row(&numbers, Reads::new(alloc))))
    }

    fn push(&mut self, row: ReportRow) -> Result<(), Refusal> {
        self.add(&row)
    }

    fn number(&self) -> u32 {
        self.die
    }

    fn worst(&self) -> Option<Finish> {
        self.worst
    }

    fn certify(&mut self, cert: Certificate) {
        self.cert = Some(cert);
    }
}
