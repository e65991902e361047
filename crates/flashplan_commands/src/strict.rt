//! What `--strict` wants: no row is refused, nothing is late, and each certificate holds.

use flash_commands::audits::audit_report;
use flashplan_words::{Command, ListCommand, Request};
use late_cert::JobRow;
use report_texts::{ReportReader, ReportWork};
use slot_types::Refusal;
use std::alloc::Global;
use std::fmt::{Display, Formatter};
use std::{fmt, str};
use text_base::number;

/// The status where that isn't so.
pub const STRICT_STATUS: u8 = 4;

/// What of it isn't so.
#[derive(Clone, Copy, PartialEq, Eq, Debug, Drop)]
pub enum Amiss {
    /// Rows were refused.
    Refused,
    /// How many jobs and collections weren't done by their deadline.
    Late(u32),
    /// How many jobs weren't done by their deadline.
    LateJobs(u32),
    /// The worst of a die is late.
    WorstLate,
    /// A certificate is refused.
    Certificate,
}

impl Display for Amiss {
    fn fmt<W: fmt::Write>(&self, f: &mut Formatter<W>) -> fmt::Result {
        match self {
            Amiss::Refused => f.write_str("rows were refused"),
            Amiss::Late(1) => f.write_str("1 job or collection wasn't done by its deadline"),
            Amiss::Late(count) => {
                write!(
                    f,
                    "{count} jobs and collections weren't done by their deadlines"
                )
            }
            Amiss::LateJobs(1) => f.write_str("1 job wasn't done by its deadline"),
            Amiss::LateJobs(count) => write!(f, "{count} jobs weren't done by their deadlines"),
            Amiss::WorstLate => f.write_str("the worst job of a die is late"),
            Amiss::Certificate => f.write_str("a certificate is refused"),
        }
    }
}

/// Whether a job or a collection is late in a run of `slots` slots: done after its deadline, or not done and due by the
/// run's end.
fn is_late(row: &JobRow, slots: u32) -> bool {
    match row.completion {
        Some(completion) => row.due < completion,
        None => row.due <= slots,
    }
}

/// How many of the jobs and collections of dies are late in a run of `slots` slots.
fn late_in(work: &ReportWork, slots: u32) -> u32 {
    let mut count: u32 = 0;
    for die in work.as_slice() {
        for row in die.rows.as_slice() {
            if is_late(row, slots) {
                count = count.saturating_add(1);
            }
        }
    }
    count
}

/// What isn't as it is wanted in the report of a run of `slots` slots.
fn amiss_in_report(alloc: Global, report: &[u8], slots: u32) -> Result<Option<Amiss>, Refusal> {
    let work = ReportReader::new(alloc, report).work()?;
    let late = late_in(&work, slots);
    if late > 0 {
        return Ok(Some(Amiss::Late(late)));
    }
    if audit_report(alloc, &work)?.refused {
        return Ok(Some(Amiss::Certificate));
    }
    Ok(None)
}

/// Whether a line of an audit says that the worst of a die is late, as `r.csv: die 0 worst 2 job 7 holds`.
fn is_late_line(line: &str) -> bool {
    let mut last: [&str; 5] = [""; 5];
    for word in line.split_ascii_whitespace() {
        last = [last[1], last[2], last[3], last[4], word];
    }
    match last {
        ["worst", late, "job", _, "holds"] => !late.starts_with('-') && late != "0",
        _ => false,
    }
}

/// What isn't as it is wanted in the lines of an audit, whose certificates hold.
fn amiss_in_audit(lines: &[u8]) -> Option<Amiss> {
    let lines = str::from_utf8(lines).ok()?;
    if lines.lines().any(is_late_line) {
        Some(Amiss::WorstLate)
    } else {
        None
    }
}

/// How many jobs a line of the table of `report` counts as late, of all tasks of a die, as `jobs late    2    1    1`.
fn late_in_line(line: &str) -> Option<u32> {
    let count = line.strip_prefix("jobs late")?;
    number(count.split_ascii_whitespace().next()?.as_bytes())
}

/// How many jobs a record of `report` counts as late, of all tasks of a die: `die,task,done,waiting,refused,late,..`, where
/// the task is empty.
fn late_in_record(record: &str) -> Option<u32> {
    let mut fields = record.split(',');
    let _die = fields.next()?;
    if !fields.next()?.is_empty() {
        return None;
    }
    number(fields.nth(3)?.as_bytes())
}

/// What isn't as it is wanted in the figures of `report`.
pub fn amiss_in_figures(figures: &[u8], as_csv: bool) -> Option<Amiss> {
    let lines = str::from_utf8(figures).ok()?.lines();
    let mut late: u32 = 0;
    for line in lines {
        let count = if as_csv {
            late_in_record(line)
        } else {
            late_in_line(line)
        };
        late = late.saturating_add(count.unwrap_or(0));
    }
    if late > 0 {
        Some(Amiss::LateJobs(late))
    } else {
        None
    }
}

/// Whether it was reported that rows were refused.
pub fn tells_refused(reported: &str) -> bool {
    reported.lines().any(|line| line.starts_with("refused "))
}

/// What isn't as it is wanted of a request that ended with 0, by what it printed and what it reported. Of `wear`, `draw` and
/// `compare`, whose texts don't tell all of it, [`act_judged`](crate::strict_runs::act_judged) says more.
pub fn amiss_of(
    alloc: Global,
    request: &Request<'_>,
    printed: &[u8],
    reported: &str,
) -> Result<Option<Amiss>, Refusal> {
    if tells_refused(reported) {
        return Ok(Some(Amiss::Refused));
    }
    match request {
        Request::One(Command::Run { slots, .. } | Command::RunKept { slots, .. }) => {
            amiss_in_report(alloc, printed, *slots)
        }
        Request::One(Command::Report { as_csv, .. }) => Ok(amiss_in_figures(printed, *as_csv)),
        Request::Listed(ListCommand::Audit, _) => Ok(amiss_in_audit(printed)),
        _ => Ok(None),
    }
}
