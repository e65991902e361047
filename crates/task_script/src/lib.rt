//! Scripts that are run on a store, and their reports. Their texts are those of `plan_texts`, `script_texts` and
//! `report_texts`.
#![tactic(auto)]

mod die_reports;
mod die_texts;
mod feeds;
mod laws;
mod row_batches;
mod row_dies;
mod row_runners;
mod run_counts;
mod sending;
mod stores;
mod text_runs;

pub use die_reports::add_die;
pub use laws::{
    exact_reports_come_back, planned_runs_go_as_planned, run_reports_come_back,
    running_a_script_has_one_answer,
};
pub use plan_texts::read_plan;
pub use report_texts::{
    DieReport, DieWork, Finish, Report, ReportReader, ReportRow, ReportRows, ReportWork, RowKind,
    read_report, reports_come_back, write_report,
};
pub use run_counts::RunCount;
pub use script_texts::{ScriptItem, ScriptReader};
pub use text_base::number;
pub use text_runs::{RefusedRun, run_text};
