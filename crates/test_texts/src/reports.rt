use example_texts::{REPORT, TWO_REPORT};
use report_texts::{DieWork, ReportReader};
use std::alloc::Global;
use std::process::Abort;
use std::test::Fail;
use task_script::{DieReport, Report, RowKind, write_report};

/// The header of reports.
const HEADER: &str = "row,die,job,task,release,due,work,completion,lateness,given,items\n";

/// Waiting rows, collections, and numbers at their limits.
const LIMITS: &str = "row,die,job,task,release,due,work,completion,lateness,given,items
collect,3,0,15,0,1048576,7,1048576,0,4294967295,
collect,3,1,0,1,2,4294967295,,,,
job,3,2,0,1,2,0,,,,
cert,3,0,,4294967295,1048576,,1048576,0,,
";

/// The work of a die is that of its rows.
fn check_die(rt: &impl Abort, die: &DieReport, work: &DieWork) -> Result<(), Fail> {
    assert_eq!(rt; work.die, die.die);
    assert!(rt; work.cert == die.cert);
    let mut next = 0;
    for row in die.rows.as_slice() {
        if row.row != RowKind::Waived {
            let found = work.rows.get(next).ok_or("no row")?;
            assert_eq!(rt; found.number, row.job);
            assert_eq!(rt;
                (found.release, found.due, found.work),
                (row.release, row.due, row.work)
            );
            assert_eq!(rt; found.completion, row.completion);
            next = next.saturating_add(1);
        }
    }
    assert_eq!(rt; work.rows.len(), next);
    let worst = work
        .worst
        .map(|worst| (worst.job, worst.due, worst.completion));
    let said = match &die.cert {
        Some(cert) => Some((cert.job, cert.due, cert.completion)),
        None => None,
    };
    assert_eq!(rt; worst, said);
    Ok(())
}

/// The work that is read of a text is that of its report.
fn check_work(rt: &impl Abort, alloc: Global, text: &str, report: &Report) -> Result<(), Fail> {
    let work = ReportReader::new(alloc, text.as_bytes()).work()?;
    assert_eq!(rt; work.len(), report.len());
    for i in 0..report.len() {
        let die = report.get(i).ok_or("no die")?;
        check_die(rt, die, work.get(i).ok_or("no work")?)?;
    }
    Ok(())
}

/// A report is read and written again as the same text, and its work is that of the report.
fn check_same(rt: &impl Abort, alloc: Global, text: &str) -> Result<(), Fail> {
    let report = ReportReader::new(alloc, text.as_bytes()).report()?;
    let mut written = Vec::new(alloc);
    write_report(alloc, &mut written, &report)?;
    assert_eq!(rt; written.as_slice(), text.as_bytes());
    check_work(rt, alloc, text, &report)
}

#[test]
fn reports_are_read_and_written(rt: HostRuntime) -> Result<(), Fail> {
    let alloc = rt.alloc();
    let report = format!(in alloc;
        "{:?}",
        ReportReader::new(alloc, REPORT.as_bytes()).report()?
    )?;
    let want = "[DieReport { die: 0, rows: [\
ReportRow { row: Job, job: JobNo(0), task: TaskNo(0), release: 0, due: 2, work: 1, completion: Some(1), lateness: Some(-1), given: None, reads: [] }, \
ReportRow { row: Job, job: JobNo(1), task: TaskNo(0), release: 1, due: 3, work: 1, completion: Some(2), lateness: Some(-1), given: None, reads: \
[PageData([17, 17, 17, 17, 17, 17, 17, 17, 17, 17, 17, 17, 17, 17, 17, 17])] }], \
cert: Some(Certificate { job: JobNo(0), start: 0, due: 2, completion: 1, jobs: [JobNo(0)] }) }]";
    assert_eq!(rt; report.as_str(), want);
    check_same(&rt, alloc, REPORT)?;
    check_same(&rt, alloc, TWO_REPORT)?;
    check_same(&rt, alloc, LIMITS)?;
    check_same(&rt, alloc, HEADER)
}

#[test]
fn waived_collections_are_no_work(rt: HostRuntime) -> Result<(), Fail> {
    let alloc = rt.alloc();
    let work = ReportReader::new(alloc, TWO_REPORT.as_bytes()).work()?;
    let die = format!(in alloc; "{:?}", work.get(1).ok_or("no die")?)?;
    let want =
        "DieWork { die: 1, rows: [JobRow { number: JobNo(0), release: 0, due: 2, work: 1, completion: Some(1) }, \
JobRow { number: JobNo(2), release: 1, due: 9, work: 1, completion: Some(2) }], \
worst: Some(Finish { job: JobNo(0), due: 2, completion: 1 }), \
cert: Some(Certificate { job: JobNo(0), start: 0, due: 2, completion: 1, jobs: [JobNo(0)] }) }";
    assert_eq!(rt; die.as_str(), want);
    Ok(())
}
