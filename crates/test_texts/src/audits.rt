//! An audit step by step: a report is read, and each certificate checked against the rows of its die.

ghost use Rattle.report_texts.specs.Numbering.{AreNumbered};

use example_texts::TWO_REPORT;
use late_cert::{JobRows, Verdict, check};
use slot_types::{Items, Refusal};
use std::alloc::Global;
use std::test::Fail;
use task_script::{DieReport, ReportReader};

/// The rows of a die, and the verdict on its certificate.
#[derive(Debug, Drop)]
struct DieAudit {
    rows: JobRows,
    verdict: Option<Verdict>,
}

/// What an audit finds, die by die.
fn audit(alloc: Global, dies: &[DieReport]) -> Result<Items<DieAudit>, Refusal>
    requires { AreNumbered dies.now }
{
    let mut found = Items::new(alloc);
    for die in dies {
        let rows = die.job_rows(alloc)?;
        let verdict = match &die.cert {
            Some(cert) => Some(check(&rows, cert)),
            None => None,
        };
        found.push(DieAudit { rows, verdict })?;
    }
    Ok(found)
}

#[test]
fn a_stored_report_is_audited_by_its_rows(rt: HostRuntime) -> Result<(), Fail> {
    let alloc = rt.alloc();
    let report = ReportReader::new(alloc, TWO_REPORT.as_bytes()).report()?;
    let found = format!(in alloc; "{:?}", audit(alloc, report.as_slice())?)?;
    let want = "[DieAudit { rows: [\
JobRow { number: JobNo(0), release: 2, due: 5, work: 2, completion: Some(4) }, \
JobRow { number: JobNo(1), release: 0, due: 5, work: 3, completion: Some(5) }], verdict: Some(Holds) }, \
DieAudit { rows: [\
JobRow { number: JobNo(0), release: 0, due: 2, work: 1, completion: Some(1) }, \
JobRow { number: JobNo(2), release: 1, due: 9, work: 1, completion: Some(2) }], verdict: Some(Holds) }]";
    assert_eq!(rt; found.as_str(), want);
    Ok(())
}
