//! Runs whose reader or writer fails at a call.

ghost use Rattle.std.specs.Prelude.{◌≤◌};

use crate::faults::{choppy_writer, failing_at};
use example_texts::{TWO_DIES, TWO_REPORT, TWO_SCRIPT};
use slot_types::{Cause, Refusal};
use std::alloc::Global;
use std::io::Read;
use std::sync::Wait;
use std::test::Fail;
use std::thread::Threads;
use task_script::{RefusedRun, RunCount, read_plan, run_text};
use text_base::Output;

/// What a run answers on the dies of a plan for five slots by `workers` workers, with its writer.
pub fn run_on<R: Threads + Wait + Sync, S: Read + Drop, W: Output>(
    rt: &R,
    alloc: Global,
    plan: &str,
    script: S,
    writer: &mut W,
    workers: u32,
) -> Result<RunCount, Refusal>
    requires workers { (1 ≤ workers) × (workers ≤ 16) }
{
    let plan = read_plan(alloc, plan.as_bytes())?;
    let count = run_text(rt, alloc, &plan, script, writer, 5, workers)?;
    Ok(count)
}

/// The same on two dies.
fn run_by<R: Threads + Wait + Sync, S: Read + Drop, W: Output>(
    rt: &R,
    alloc: Global,
    script: S,
    writer: &mut W,
    workers: u32,
) -> Result<RunCount, Refusal>
    requires workers { (1 ≤ workers) × (workers ≤ 16) }
{
    run_on(rt, alloc, TWO_DIES, script, writer, workers)
}

/// The same by one worker.
fn run<R: Threads + Wait + Sync, S: Read + Drop, W: Output>(
    rt: &R,
    alloc: Global,
    script: S,
    writer: &mut W,
) -> Result<RunCount, Refusal> {
    run_by(rt, alloc, script, writer, 1)
}

/// A count of rows, of which each of these refusals, by its number, refused one.
fn counted(accepted: u64, refused: &[usize], first: Option<(u32, u8)>) -> RunCount {
    let mut kinds = [0; 25];
    for number in refused {
        if let Some(count) = kinds.get_mut(*number) {
            *count = 1;
        }
    }
    RunCount {
        accepted,
        refused: refused.len() as u64,
        first,
        kinds,
    }
}

/// A job of die 1 without operations, one of die 0 with an operation on no page of the die, and one that comes after
/// the last slot.
const REFUSED: &str = "at,die,task,kind,release,due,ops
0,1,0,job,0,2,
0,0,0,job,0,2,R12
5,0,0,job,5,9,R0
5,0,0,job,4,9,R0
";

const WAITING: &str = "row,die,job,task,release,due,work,completion,lateness,given,items
job,0,0,0,5,9,0,,,,
";

/// A script of 162 bytes is read in 25 calls of seven bytes: the first asks for one byte, and the last shows the end.
#[test]
fn a_failing_reader_writes_nothing(rt: HostRuntime) {
    let alloc = rt.alloc();
    for call in 1..40 {
        let mut text = Vec::new(alloc);
        let ended = run(
            &rt,
            alloc,
            failing_at(TWO_SCRIPT.as_bytes(), call),
            &mut text,
        );
        if call <= 25 {
            assert!(rt;
                ended == Err(Refusal::ReadFault) && text.is_empty(),
                "{call}"
            );
        } else {
            assert!(rt; ended == Ok(counted(5, &[], None)), "{call}");
            assert_eq!(rt; text.as_slice(), TWO_REPORT.as_bytes());
        }
    }
}

/// The reader that a run gives back where its script is refused answers the refusal again.
#[test]
fn a_refused_run_gives_its_reader_back(rt: HostRuntime) -> Result<(), Fail> {
    let alloc = rt.alloc();
    let plan = read_plan(alloc, TWO_DIES.as_bytes())?;
    for call in 1..26 {
        let mut text = Vec::new(alloc);
        let script = failing_at(TWO_SCRIPT.as_bytes(), call);
        let Err(run) = run_text(&rt, alloc, &plan, script, &mut text, 5, 2) else {
            return Err(Fail::from("it wasn't refused"));
        };
        let RefusedRun { refusal, reader } = run;
        let Some(mut reader) = reader else {
            return Err(Fail::from("no reader"));
        };
        assert!(rt; refusal == Refusal::ReadFault, "{call}");
        assert!(rt;
            reader.next_row().err() == Some(Refusal::ReadFault),
            "{call}"
        );
    }
    Ok(())
}

/// More rows than eight batches hold, of one die and of the other in turn.
fn many_rows(alloc: Global) -> Result<Vec<u8>, Fail> {
    let mut text = Vec::from_slice(alloc, b"at,die,task,kind,release,due,ops\n".as_slice())?;
    for _ in 0..35_000u32 {
        text.extend_from_slice(b"0,0,0,job,0,2,R3\n0,1,0,job,0,2,R2\n".as_slice())?;
    }
    Ok(text)
}

/// A worker has its dies for the whole run: it waits for their batches, and the reading thread for room.
#[test]
fn many_batches_are_run_alike_by_any_workers(rt: HostRuntime) -> Result<(), Fail> {
    let alloc = rt.alloc();
    let script = many_rows(alloc)?;
    let mut wanted = Vec::new(alloc);
    let count = run(&rt, alloc, script.as_slice(), &mut wanted)?;
    assert!(rt; count.accepted.checked_add(count.refused) == Some(70_000));
    for workers in 2..17 {
        let mut text = Vec::new(alloc);
        let again = run_by(&rt, alloc, script.as_slice(), &mut text, workers)?;
        assert!(rt; again == count && text == wanted, "{workers}");
    }
    Ok(())
}

/// A job whose operations are none, and another after it.
const WRONG_OPS: &str = "at,die,task,kind,release,due,ops
0,0,0,job,0,2,X
0,0,0,job,0,2,R3
";

/// The first 49 bytes end with the record at fault: they are read in eight calls, of one byte and of seven. What fails
/// after them is not reported.
#[test]
fn a_fault_of_operations_comes_before_a_failing_reader(rt: HostRuntime) {
    let alloc = rt.alloc();
    for call in 1..20 {
        let wanted = if call <= 8 {
            Refusal::ReadFault
        } else {
            Refusal::ScriptRow {
                line: 2,
                cause: Cause::Ops,
            }
        };
        for workers in 1..5 {
            let mut text = Vec::new(alloc);
            let ended = run_by(
                &rt,
                alloc,
                failing_at(WRONG_OPS.as_bytes(), call),
                &mut text,
                workers,
            );
            assert!(rt; ended == Err(wanted) && text.is_empty(), "{call} {workers}");
        }
    }
}

/// A report of 86 bytes is written in 13 calls of seven bytes.
#[test]
fn a_failing_writer_is_reported(rt: HostRuntime) {
    let alloc = rt.alloc();
    for calls in 1..30 {
        let mut writer = choppy_writer(alloc, calls);
        let ended = run(&rt, alloc, REFUSED.as_bytes(), &mut writer);
        assert!(rt; writer.has_failed() == (calls <= 13), "{calls}");
        if calls <= 13 {
            assert!(rt; ended == Err(Refusal::WriteFault), "{calls}");
        } else {
            assert!(rt;
                ended == Ok(counted(1, &[6, 8, 9], Some((2, 6)))),
                "{calls}"
            );
            assert_eq!(rt; writer.get_ref().text.as_slice(), WAITING.as_bytes());
        }
    }
}
