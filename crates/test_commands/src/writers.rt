//! Writers that take a few bytes a call, and fail: what they took by then, and what is reported.

use crate::printed::{AUDIT, PLAN_COMMAND, Printed, acted};
use example_texts::{PLAN, REPORT, TWO_REPORT};
use flash_commands::{Command, Flagged, act};
use std::alloc::Global;
use std::io;
use std::io::{ErrorKind, Write};
use std::sync::Wait;
use std::test::Fail;
use std::thread::Threads;

/// What a writer does when its calls are used up.
#[derive(Clone, Copy, PartialEq, Eq, Debug, Drop)]
pub(crate) enum End {
    Fails,
    TakesNothing,
    IsInterrupted,
}

/// Takes at most `most` bytes at a call, for `calls_left` calls.
#[derive(Drop)]
pub(crate) struct Slow {
    pub(crate) text: Vec<u8>,
    pub(crate) most: usize,
    pub(crate) calls_left: usize,
    pub(crate) end: End,
}

impl Write for Slow {
    fn write(&mut self, buf: &[u8]) -> io::Result<usize> {
        if self.calls_left == 0 {
            return match self.end {
                End::Fails => Err(io::Error::from(ErrorKind::BrokenPipe)),
                End::TakesNothing => Ok(0),
                End::IsInterrupted => Err(io::Error::from(ErrorKind::Interrupted)),
            };
        }
        self.calls_left -= 1;
        let most = buf.len().min(self.most);
        self.text.write(&buf[..most])
    }

    fn flush(&mut self) -> io::Result<()> {
        Ok(())
    }
}

/// Takes a byte at every other call, and is interrupted at those between.
#[derive(Drop)]
struct Stuttering {
    text: Vec<u8>,
    interrupted: bool,
}

impl Write for Stuttering {
    fn write(&mut self, buf: &[u8]) -> io::Result<usize> {
        self.interrupted = !self.interrupted;
        if self.interrupted {
            return Err(io::Error::from(ErrorKind::Interrupted));
        }
        let most = buf.len().min(1);
        self.text.write(&buf[..most])
    }

    fn flush(&mut self) -> io::Result<()> {
        Err(io::Error::from(ErrorKind::BrokenPipe))
    }
}

/// What a command prints to a slow writer.
fn slowly<R: Threads + Wait + Sync>(
    rt: &R,
    alloc: Global,
    command: Command<'_>,
    text: &[u8],
    most: usize,
    calls: usize,
    end: End,
) -> Printed {
    let mut out = Flagged::new(Slow {
        text: Vec::new(alloc),
        most,
        calls_left: calls,
        end,
    });
    let mut err = Vec::new(alloc);
    let status = act(rt, alloc, command, text, io::empty(), &mut out, &mut err);
    Printed {
        out: out.into_inner().text,
        err,
        status,
    }
}

/// Whether this is reported, and the output is `bytes` bytes of a text that has more.
fn is_cut(printed: &Printed, whole: &[u8], bytes: usize) -> bool {
    let said = printed.err.as_slice() == b"error 22 WriteFault\n".as_slice();
    let taken = printed.out.as_slice();
    let part = taken.len() < whole.len() && whole.starts_with(taken);
    printed.status == 1 && said && part && taken.len() == bytes
}

/// How often a command's output fails, at each call in turn, until it is written whole; none where a fault isn't
/// reported as it should.
fn cuts<R: Threads + Wait + Sync>(
    rt: &R,
    alloc: Global,
    command: Command<'_>,
    text: &[u8],
    most: usize,
    end: End,
) -> Option<usize> {
    let whole = acted(rt, alloc, command, text);
    for calls in 0..1000 {
        let printed = slowly(rt, alloc, command, text, most, calls, end);
        if printed.status == whole.status && printed.out.as_slice() == whole.out.as_slice() {
            return Some(calls);
        }
        if !is_cut(&printed, whole.out.as_slice(), most.saturating_mul(calls)) {
            return None;
        }
    }
    None
}

/// How many calls of `most` bytes a command's output takes.
fn calls_for<R: Threads + Wait + Sync>(
    rt: &R,
    alloc: Global,
    command: Command<'_>,
    text: &[u8],
    most: usize,
) -> Option<usize> {
    let bytes = acted(rt, alloc, command, text).out.len();
    bytes.checked_add(most)?.checked_sub(1)?.checked_div(most)
}

/// The texts that the built-in run's report is written as: the header, the rows of its die, and their certificate.
const REPORT_PARTS: [&str; 3] = [
    "row,die,job,task,release,due,work,completion,lateness,given,items\n",
    "job,0,0,0,0,2,1,1,-1,,\njob,0,1,0,1,3,1,2,-1,,11111111111111111111111111111111\n",
    "cert,0,0,,0,2,,1,-1,,0\n",
];

/// How many bytes of these texts a slow writer takes.
fn taken(alloc: Global, most: usize, calls: usize, end: End) -> usize {
    let mut out = Slow {
        text: Vec::new(alloc),
        most,
        calls_left: calls,
        end,
    };
    for part in REPORT_PARTS {
        if out.write_all(part.as_bytes()).is_err() {
            return out.text.len();
        }
    }
    out.text.len()
}

/// Whether the report is cut where these texts are, at each call in turn, until it is written whole.
fn is_cut_by_parts<R: Threads + Wait + Sync>(rt: &R, alloc: Global, most: usize, end: End) -> bool {
    for calls in 0..1000 {
        let bytes = taken(alloc, most, calls, end);
        let printed = slowly(rt, alloc, Command::Alone, b"", most, calls, end);
        if bytes == REPORT.len() {
            return printed.is(REPORT, "", 0);
        }
        if !is_cut(&printed, REPORT.as_bytes(), bytes) {
            return false;
        }
    }
    false
}

#[test]
fn a_writer_that_fails_took_a_part_of_a_report(rt: HostRuntime) {
    let alloc = rt.alloc();
    for most in [1, 7, 16, 1000] {
        for end in [End::Fails, End::TakesNothing] {
            assert!(rt;
                is_cut_by_parts(&rt, alloc, most, end),
                "{most} bytes a call"
            );
        }
    }
}

#[test]
fn a_writer_that_fails_took_a_part(rt: HostRuntime) {
    let alloc = rt.alloc();
    for (command, text) in [(PLAN_COMMAND, PLAN), (AUDIT, TWO_REPORT)] {
        for most in [1, 7, 16, 1000] {
            let calls = calls_for(&rt, alloc, command, text.as_bytes(), most);
            for end in [End::Fails, End::TakesNothing] {
                let cuts = cuts(&rt, alloc, command, text.as_bytes(), most, end);
                assert!(rt; cuts.is_some() && cuts == calls, "{most} bytes a call");
            }
        }
    }
}

#[test]
fn a_refused_certificate_is_reported_by_a_whole_text_alone(rt: HostRuntime) -> Result<(), Fail> {
    let alloc = rt.alloc();
    let old = "cert,0,1,,0,5,,5,0,,0 1";
    let report = TWO_REPORT.replace(alloc, old, "cert,0,1,,1,5,,5,0,,0 1")?;
    let whole = acted(&rt, alloc, AUDIT, report.as_bytes());
    assert!(rt; whole.status == 3);
    let calls = whole.out.len();
    for (least, status) in [(calls, 3), (calls.saturating_sub(1), 1), (0, 1)] {
        let printed = slowly(&rt, alloc, AUDIT, report.as_bytes(), 1, least, End::Fails);
        assert!(rt; printed.status == status);
    }
    Ok(())
}

#[test]
fn an_interrupted_call_is_made_again(rt: HostRuntime) {
    let alloc = rt.alloc();
    for (command, text) in [(PLAN_COMMAND, PLAN), (AUDIT, TWO_REPORT)] {
        let whole = acted(&rt, alloc, command, text.as_bytes());
        let mut out = Flagged::new(Stuttering {
            text: Vec::new(alloc),
            interrupted: false,
        });
        let mut err = Vec::new(alloc);
        let status = act(
            &rt,
            alloc,
            command,
            text.as_bytes(),
            io::empty(),
            &mut out,
            &mut err,
        );
        assert!(rt; status == 0 && err.is_empty());
        assert!(rt; out.get_ref().text.as_slice() == whole.out.as_slice());
    }
}

#[test]
fn a_writer_that_is_interrupted_for_ever_is_given_up(rt: HostRuntime) {
    let alloc = rt.alloc();
    let whole = acted(&rt, alloc, AUDIT, TWO_REPORT.as_bytes());
    let printed = slowly(
        &rt,
        alloc,
        AUDIT,
        TWO_REPORT.as_bytes(),
        16,
        2,
        End::IsInterrupted,
    );
    assert!(rt; is_cut(&printed, whole.out.as_slice(), 32));
}
