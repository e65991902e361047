//! What reading and writing answer where an allocation is refused: NoMemory, and nothing is written; the same call made
//! again is answered as without the refusal. Without a refusal none of this comes. `.ci/memory/refused-growths` refuses
//! each allocation in turn; of whole runs it does so in the program.

use example_texts::{TWO_DIES, TWO_REPORT, TWO_SCRIPT};
use slot_types::{DiePlan, Refusal, StorePlan};
use std::alloc::Global;
use std::env::Env;
use std::io;
use std::io::Write;
use task_script::{ReportReader, ScriptReader, read_plan, write_report};
use test_memory::is_scarce;
use text_base::Flagged;

/// Compares what it is given with a report, and takes no memory.
#[derive(Drop)]
struct Compared {
    /// What is left of the report, if it was given so far.
    rest: Option<&'static [u8]>,
    taken: usize,
}

fn uncompared() -> Compared {
    Compared {
        rest: Some(TWO_REPORT.as_bytes()),
        taken: 0,
    }
}

impl Compared {
    /// Whether the report was written, whole.
    fn is_whole(&self) -> bool {
        self.rest == Some(b"".as_slice())
    }
}

impl Write for Compared {
    fn write(&mut self, buf: &[u8]) -> io::Result<usize> {
        self.taken = self.taken.saturating_add(buf.len());
        self.rest = self.rest.and_then(|left| left.strip_prefix(buf));
        Ok(buf.len())
    }

    fn flush(&mut self) -> io::Result<()> {
        Ok(())
    }
}

fn is_die(plan: &DiePlan) -> bool {
    plan.shape.blocks == 8 && plan.logical == 12 && plan.caps.as_slice() == [4].as_slice()
}

/// Whether a plan is that of two dies.
fn is_plan(answer: Result<StorePlan, Refusal>) -> bool {
    match answer {
        Ok(plan) => plan.len() == 2 && plan.as_slice().iter().all(is_die),
        Err(_) => false,
    }
}

#[test]
fn a_plan_is_read_again(rt: HostRuntime) {
    let plan = match read_plan(rt.alloc(), TWO_DIES.as_bytes()) {
        Err(Refusal::NoMemory) if is_scarce(&rt) => read_plan(rt.alloc(), TWO_DIES.as_bytes()),
        answer => answer,
    };
    assert!(rt; is_plan(plan));
}

/// How many items a script has; a refusal has to come again when the next one is asked for.
fn count_items(alloc: Global) -> Result<u32, Refusal> {
    let plan = read_plan(alloc, TWO_DIES.as_bytes())?;
    let mut script = ScriptReader::new(alloc, TWO_SCRIPT.as_bytes(), &plan, 5)?;
    for items in 0..100 {
        match script.next() {
            Ok(Some(_)) => {}
            Ok(None) => return Ok(items),
            Err(refusal) => {
                return if script.next() == Err(refusal) {
                    Err(refusal)
                } else {
                    Err(Refusal::UnknownJob)
                };
            }
        }
    }
    Err(Refusal::UnknownJob)
}

#[test]
fn a_script_is_read_again(rt: HostRuntime) {
    let items = match count_items(rt.alloc()) {
        Err(Refusal::NoMemory) if is_scarce(&rt) => count_items(rt.alloc()),
        answer => answer,
    };
    assert_eq!(rt; items, Ok(5));
}

/// Whether a report is read and written again as it was. A writing that is refused for memory writes nothing, and is
/// made again where memory is scarce.
fn is_copied<R: Env>(rt: &R, alloc: Global) -> Result<bool, Refusal> {
    let mut writer = Flagged::new(uncompared());
    let report = ReportReader::new(alloc, TWO_REPORT.as_bytes()).report()?;
    match write_report(alloc, &mut writer, &report) {
        Err(Refusal::NoMemory) if is_scarce(rt) && writer.get_ref().taken == 0 => {
            write_report(alloc, &mut writer, &report)?
        }
        answer => answer?,
    }
    Ok(writer.get_ref().is_whole())
}

#[test]
fn a_report_is_copied_again(rt: HostRuntime) {
    let copied = match is_copied(&rt, rt.alloc()) {
        Err(Refusal::NoMemory) if is_scarce(&rt) => is_copied(&rt, rt.alloc()),
        answer => answer,
    };
    assert_eq!(rt; copied, Ok(true));
}
