//! Reports as texts: their readers and their writer.
#![tactic(auto)]

mod gathered;
mod kept_dies;
mod laws;
mod lines;
mod report_certs;
mod report_lines;
mod report_reader;
mod report_reading;
mod report_rows;
mod report_work;
mod report_writing;
mod reports;
mod row_numbers;

pub use laws::{
    reading_a_report_has_one_answer, reports_come_back, writing_a_report_has_one_answer,
};
pub use report_certs::Finish;
pub use report_reader::ReportReader;
pub use report_reading::read_report;
pub use report_work::{DieWork, ReportWork};
pub use report_writing::{ReportText, write_parts, write_report};
pub use reports::{DieReport, Report, ReportRow, ReportRows, RowKind};
pub use row_numbers::RowNumbers;
