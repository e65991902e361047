//! Readers and writers that are interrupted between calls: each call is made again, and nothing is lost.

use crate::answers::{items, two_dies};
use example_texts::{TWO_DIES, TWO_REPORT, TWO_SCRIPT};
use plan_texts::read_plan_from;
use slot_types::Refusal;
use std::alloc::Global;
use std::io;
use std::io::{ErrorKind, Read, Write};
use std::sync::Wait;
use std::test::Fail;
use std::thread::Threads;
use task_script::{ReportReader, RunCount, read_plan, run_text, write_report};
use text_base::{Flagged, FlaggedReader};

/// Gives a text `a_call` bytes a call, and is interrupted `times` times ahead of each.
#[derive(Drop)]
struct Interrupted<'a> {
    text: &'a [u8],
    a_call: usize,
    times: usize,
    left: usize,
}

fn reader_of(text: &str, a_call: usize, times: usize) -> Interrupted<'_> {
    Interrupted {
        text: text.as_bytes(),
        a_call,
        times,
        left: times,
    }
}

impl<'a> Read for Interrupted<'a> {
    fn read(&mut self, buf: &mut [u8]) -> io::Result<usize> {
        if self.left > 0 {
            self.left -= 1;
            return Err(io::Error::from(ErrorKind::Interrupted));
        }
        self.left = self.times;
        let most = buf.len().min(self.a_call);
        self.text.read(&mut buf[..most])
    }
}

/// Takes seven bytes a call, and is interrupted ahead of each.
#[derive(Drop)]
struct Halting {
    text: Vec<u8>,
    halted: bool,
}

fn halting_writer(alloc: Global) -> Flagged<Halting> {
    Flagged::new(Halting {
        text: Vec::new(alloc),
        halted: false,
    })
}

impl Write for Halting {
    fn write(&mut self, buf: &[u8]) -> io::Result<usize> {
        self.halted = !self.halted;
        if self.halted {
            return Err(io::Error::from(ErrorKind::Interrupted));
        }
        let most = buf.len().min(7);
        self.text.extend_from_slice(&buf[..most])?;
        Ok(most)
    }

    fn flush(&mut self) -> io::Result<()> {
        Ok(())
    }
}

#[test]
fn an_interrupted_plan_is_read(rt: HostRuntime) -> Result<(), Fail> {
    let alloc = rt.alloc();
    for (a_call, times) in [(1, 1), (7, 3), (4096, 1)] {
        let mut reader = FlaggedReader::new(reader_of(TWO_DIES, a_call, times));
        let plan = read_plan_from(alloc, &mut reader)?;
        assert!(rt; plan == two_dies(alloc)?, "{a_call} bytes a call");
        assert!(rt; !reader.has_failed(), "{a_call} bytes a call");
    }
    Ok(())
}

#[test]
fn an_interrupted_script_is_read(rt: HostRuntime) -> Result<(), Fail> {
    let alloc = rt.alloc();
    let want = format!(in alloc; "{:?}", items(alloc, TWO_SCRIPT.as_bytes())?)?;
    for (a_call, times) in [(1, 1), (7, 3), (4096, 1)] {
        let read = items(alloc, reader_of(TWO_SCRIPT, a_call, times))?;
        assert_eq!(rt; format!(in alloc; "{read:?}")?.as_str(), want.as_str());
    }
    Ok(())
}

#[test]
fn an_interrupted_report_is_read_and_written(rt: HostRuntime) -> Result<(), Fail> {
    let alloc = rt.alloc();
    for (a_call, times) in [(1, 1), (7, 3), (4096, 1)] {
        let report = ReportReader::new(alloc, reader_of(TWO_REPORT, a_call, times)).report()?;
        let mut writer = halting_writer(alloc);
        write_report(alloc, &mut writer, &report)?;
        assert!(rt; !writer.has_failed());
        assert_eq!(rt; writer.into_inner().text.as_slice(), TWO_REPORT.as_bytes());
    }
    Ok(())
}

/// What a run of an interrupted script writes to a writer that is interrupted, too.
fn run<R: Threads + Wait + Sync>(rt: &R, alloc: Global) -> (Result<RunCount, Refusal>, Vec<u8>) {
    let mut writer = halting_writer(alloc);
    let ended = match read_plan(alloc, TWO_DIES.as_bytes()) {
        Ok(plan) => {
            let script = reader_of(TWO_SCRIPT, 7, 2);
            match run_text(rt, alloc, &plan, script, &mut writer, 5, 2) {
                Ok(count) => Ok(count),
                Err(run) => Err(run.refusal),
            }
        }
        Err(refusal) => Err(refusal),
    };
    (ended, writer.into_inner().text)
}

#[test]
fn an_interrupted_run_writes_its_report(rt: HostRuntime) {
    let (ended, text) = run(&rt, rt.alloc());
    let count = RunCount {
        accepted: 5,
        refused: 0,
        first: None,
        kinds: [0; 25],
    };
    assert_eq!(rt; ended, Ok(count));
    assert_eq!(rt; text.as_slice(), TWO_REPORT.as_bytes());
}
