//! Readers that fail, and an error writer that does.

use crate::printed::{AUDIT, PLAN_COMMAND};
use crate::writers::{End, Slow};
use example_texts::{PLAN, TWO_REPORT};
use flash_commands::{Command, act};
use std::alloc::Global;
use std::io;
use std::io::Read;
use std::sync::Wait;
use std::test::Fail;
use std::thread::Threads;

/// Gives its text 16 bytes at a call, and fails at the call of a number.
#[derive(Drop)]
struct FailingReader<'a> {
    text: &'a [u8],
    calls_left: usize,
}

impl Read for FailingReader<'_> {
    fn read(&mut self, buf: &mut [u8]) -> io::Result<usize> {
        if self.calls_left == 0 {
            return Err(io::Error::from(io::ErrorKind::BrokenPipe));
        }
        self.calls_left -= 1;
        let most = buf.len().min(16);
        self.text.read(&mut buf[..most])
    }
}

/// Whether a command whose reader fails at the call of a number ends as it should: with 21 and nothing printed.
/// None where the reader was not called as often.
fn fails_at<R: Threads + Wait + Sync>(
    rt: &R,
    alloc: Global,
    command: Command<'_>,
    text: &str,
    calls: usize,
) -> Option<bool> {
    let (mut out, mut err) = (Vec::new(alloc), Vec::new(alloc));
    let first = FailingReader {
        text: text.as_bytes(),
        calls_left: calls,
    };
    let status = act(rt, alloc, command, first, io::empty(), &mut out, &mut err);
    if status == 0 {
        return None;
    }
    let said = err.as_slice() == b"error 21 ReadFault\n".as_slice();
    Some(status == 1 && out.is_empty() && said)
}

#[test]
fn a_reader_that_fails_is_reported(rt: HostRuntime) {
    let alloc = rt.alloc();
    for (command, text) in [(PLAN_COMMAND, PLAN), (AUDIT, TWO_REPORT)] {
        let mut failed: usize = 0;
        for calls in 0..100 {
            match fails_at(&rt, alloc, command, text, calls) {
                Some(right) => {
                    assert!(rt; right, "at call {calls}");
                    failed = calls;
                }
                None => break,
            }
        }
        assert!(rt; failed > text.len() / 16);
    }
}

#[test]
fn a_fault_of_the_error_writer_is_passed_over(rt: HostRuntime) {
    let alloc = rt.alloc();
    let mut out = Vec::new(alloc);
    let mut err = Slow {
        text: Vec::new(alloc),
        most: 16,
        calls_left: 0,
        end: End::Fails,
    };
    let status = act(
        &rt,
        alloc,
        AUDIT,
        PLAN.as_bytes(),
        io::empty(),
        &mut out,
        &mut err,
    );
    assert!(rt; status == 1 && out.is_empty());
}
