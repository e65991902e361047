use crate::answers::{report_refusal, script_refusal, work_refusal};
use checkpoint_texts::{CheckpointReader, TextFault};
use example_texts::{TWO_DIES, TWO_REPORT, TWO_SCRIPT};
use plan_texts::plan_text;
use slot_types::{Cause, Refusal};
use std::alloc::Global;
use std::io;
use std::io::{ErrorKind, Read, Write};
use std::test::Fail;
use task_script::{ReportReader, write_report};
use text_base::{Flagged, FlaggedReader, Input};

/// Gives a text seven bytes a call. The call of this number, from 1, fails, and those after it don't.
#[derive(Drop)]
pub struct Faulty<'a> {
    text: &'a [u8],
    calls: u32,
}

pub fn failing_at(text: &[u8], calls: u32) -> Faulty<'_> {
    Faulty { text, calls }
}

impl<'a> Read for Faulty<'a> {
    fn read(&mut self, buf: &mut [u8]) -> io::Result<usize> {
        if self.calls == 1 {
            self.calls = 0;
            return Err(io::Error::from(ErrorKind::BrokenPipe));
        }
        self.calls = self.calls.saturating_sub(1);
        let most = buf.len().min(7);
        self.text.read(&mut buf[..most])
    }
}

/// Takes seven bytes a call. The call of this number, from 1, fails, and those after it don't.
#[derive(Drop)]
pub struct Choppy {
    pub text: Vec<u8>,
    pub calls: u32,
}

pub fn choppy_writer(alloc: Global, calls: u32) -> Flagged<Choppy> {
    Flagged::new(Choppy {
        text: Vec::new(alloc),
        calls,
    })
}

impl Write for Choppy {
    fn write(&mut self, buf: &[u8]) -> io::Result<usize> {
        if self.calls == 1 {
            self.calls = 0;
            return Err(io::Error::from(ErrorKind::BrokenPipe));
        }
        self.calls = self.calls.saturating_sub(1);
        let most = buf.len().min(7);
        self.text.extend_from_slice(&buf[..most])?;
        Ok(most)
    }

    fn flush(&mut self) -> io::Result<()> {
        Ok(())
    }
}

#[test]
fn a_failing_reader_is_a_read_fault(rt: HostRuntime) {
    // The first call asks for one byte, to see whether a mark stands before the text, and the last one shows the end.
    let script_calls = TWO_SCRIPT.len().saturating_sub(1).div_ceil(7) + 2;
    let report_calls = TWO_REPORT.len().saturating_sub(1).div_ceil(7) + 2;
    for call in 1..100 {
        let script = script_refusal(rt.alloc(), failing_at(TWO_SCRIPT.as_bytes(), call));
        let whole = script_calls < call as usize;
        assert!(rt;
            script
                == if whole {
                    None
                } else {
                    Some(Refusal::ReadFault)
                },
            "{call}"
        );
        let report = report_refusal(rt.alloc(), failing_at(TWO_REPORT.as_bytes(), call));
        let whole = report_calls < call as usize;
        assert!(rt;
            report
                == if whole {
                    None
                } else {
                    Some(Refusal::ReadFault)
                },
            "{call}"
        );
        let work = work_refusal(rt.alloc(), failing_at(TWO_REPORT.as_bytes(), call));
        assert!(rt; work == report, "{call}");
    }
}

/// The call that fails sets the flag and gives nothing, and those after it leave it set.
#[test]
fn a_failing_call_sets_the_flag_of_its_reader(rt: HostRuntime) {
    for calls in 1..10 {
        let mut reader = FlaggedReader::new(failing_at(TWO_SCRIPT.as_bytes(), calls));
        for call in 1..20 {
            let fails = call == calls;
            let want = if fails {
                Err(Refusal::ReadFault)
            } else {
                Ok(7)
            };
            let taken = Input::take(&mut reader, &mut [0; 100]);
            assert_eq!(rt; taken, want, "{calls} {call}");
            assert_eq!(rt; reader.has_failed(), calls <= call, "{calls} {call}");
        }
    }
}

/// A plan is a read fault exactly where a call of its reader fails, which its flag says.
#[test]
fn a_plan_of_a_failing_reader_is_a_read_fault(rt: HostRuntime) {
    // The last call shows the end.
    let plan_calls = TWO_DIES.len().div_ceil(7) + 1;
    for call in 1..100 {
        let mut reader = FlaggedReader::new(failing_at(TWO_DIES.as_bytes(), call));
        let text = plan_text(rt.alloc(), &mut reader);
        let whole = plan_calls < call as usize;
        assert!(rt;
            text.as_deref()
                == if whole {
                    Ok(TWO_DIES.as_bytes())
                } else {
                    Err(&Refusal::ReadFault)
                },
            "{call}"
        );
        assert!(rt; reader.has_failed() != whole, "{call}");
    }
}

/// A checkpoint of two dies, which takes more than 20 calls.
const CHECKPOINT: &str = "checkpoint,1
page,4,2,000102030405060708090a0b0c0d0e0f
page,,,
page,4,1,ffffffffffffffffffffffffffffffff
page,,,
page,1,3,
block,0,7
block,4,2
block,0,0
block,0,4294967295
block,3,12
block,0,1
task,4
task,0
die,0,9
page,,,
block,0,0
block,0,0
task,10
die,1,4294967295
";

#[test]
fn a_checkpoint_of_a_failing_reader_is_a_read_fault(rt: HostRuntime) {
    let alloc = rt.alloc();
    for calls in [1u32, 2, 20] {
        let reader = failing_at(CHECKPOINT.as_bytes(), calls);
        assert!(rt; CheckpointReader::new(alloc, reader).checkpoint() == Err(TextFault::ReadFault));
    }
}

#[test]
fn records_before_a_failing_read_are_judged_first(rt: HostRuntime) {
    let text = "at,die,task,kind,release,due,ops\n0,0,0,jab,0,2,R3\n0,0,0,job,0,2,R3\n";
    let kind = Refusal::ScriptRow {
        line: 2,
        cause: Cause::Kind,
    };
    assert_eq!(rt;
        script_refusal(rt.alloc(), failing_at(text.as_bytes(), 9)),
        Some(kind)
    );
}

#[test]
fn a_failing_writer_is_a_write_fault(rt: HostRuntime) -> Result<(), Fail> {
    let alloc = rt.alloc();
    let report = ReportReader::new(alloc, TWO_REPORT.as_bytes()).report()?;
    for calls in 1..100 {
        let mut writer = choppy_writer(alloc, calls);
        let answer = write_report(alloc, &mut writer, &report);
        let whole = TWO_REPORT.len().div_ceil(7) < calls as usize;
        assert!(rt;
            answer
                == if whole {
                    Ok(())
                } else {
                    Err(Refusal::WriteFault)
                },
            "{calls}"
        );
        assert!(rt;
            TWO_REPORT
                .as_bytes()
                .starts_with(writer.get_ref().text.as_slice()),
            "{calls}"
        );
        assert!(rt; writer.has_failed() != whole, "{calls}");
    }
    Ok(())
}
