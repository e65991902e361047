//! The byte and the call at which the reader of a script or of a report is given up.

use crate::answers::{report_refusal, script_refusal};
use slot_types::Refusal;
use std::alloc::Global;
use std::io;
use std::io::{ErrorKind, Read};
use std::process::Abort;

/// The most bytes of a script or of a report.
const MAX_BYTES: usize = 67_108_864;

pub const SCRIPT_HEADER: &str = "at,die,task,kind,release,due,ops\n";

const REPORT_HEADER: &str = "row,die,job,task,release,due,work,completion,lateness,given,items\n";

/// The kinds of an error of a reader that failed, `OutOfMemory` among them. `Interrupted` is none.
pub const KINDS: [ErrorKind; 41] = [
    ErrorKind::NotFound,
    ErrorKind::PermissionDenied,
    ErrorKind::ConnectionRefused,
    ErrorKind::ConnectionReset,
    ErrorKind::HostUnreachable,
    ErrorKind::NetworkUnreachable,
    ErrorKind::ConnectionAborted,
    ErrorKind::NotConnected,
    ErrorKind::AddrInUse,
    ErrorKind::AddrNotAvailable,
    ErrorKind::NetworkDown,
    ErrorKind::BrokenPipe,
    ErrorKind::AlreadyExists,
    ErrorKind::WouldBlock,
    ErrorKind::NotADirectory,
    ErrorKind::IsADirectory,
    ErrorKind::DirectoryNotEmpty,
    ErrorKind::ReadOnlyFilesystem,
    ErrorKind::FilesystemLoop,
    ErrorKind::StaleNetworkFileHandle,
    ErrorKind::InvalidInput,
    ErrorKind::InvalidData,
    ErrorKind::TimedOut,
    ErrorKind::WriteZero,
    ErrorKind::StorageFull,
    ErrorKind::NotSeekable,
    ErrorKind::QuotaExceeded,
    ErrorKind::FileTooLarge,
    ErrorKind::ResourceBusy,
    ErrorKind::ExecutableFileBusy,
    ErrorKind::Deadlock,
    ErrorKind::CrossesDevices,
    ErrorKind::TooManyLinks,
    ErrorKind::InvalidFilename,
    ErrorKind::ArgumentListTooLong,
    ErrorKind::Unsupported,
    ErrorKind::UnexpectedEof,
    ErrorKind::OutOfMemory,
    ErrorKind::InProgress,
    ErrorKind::Other,
    ErrorKind::Uncategorized,
];

/// Gives a text and then line feeds, `bytes` bytes in all and at most `a_call` a call, and then fails or ends. It
/// counts its calls.
#[derive(Drop)]
pub struct Counting {
    text: &'static [u8],
    bytes: usize,
    a_call: usize,
    fault: Option<ErrorKind>,
    calls: usize,
}

impl Counting {
    /// A reader that wasn't called yet.
    pub fn new(
        text: &'static str,
        bytes: usize,
        a_call: usize,
        fault: Option<ErrorKind>,
    ) -> Counting {
        Counting {
            text: text.as_bytes(),
            bytes,
            a_call,
            fault,
            calls: 0,
        }
    }

    /// What came of reading these bytes.
    pub fn into_ended(self, bytes: usize, refusal: Option<Refusal>) -> Ended {
        Ended {
            refusal,
            given: bytes.saturating_sub(self.bytes),
            calls: self.calls,
        }
    }
}

impl Read for Counting {
    fn read(&mut self, buf: &mut [u8]) -> io::Result<usize> {
        self.calls = self.calls.saturating_add(1);
        let mut most = buf.len().min(self.a_call).min(self.bytes);
        if most == 0 {
            return match self.fault {
                Some(kind) => Err(io::Error::from(kind)),
                None => Ok(0),
            };
        }
        if self.text.is_empty() {
            for byte in &mut buf[..most] {
                *byte = b'\n';
            }
        } else {
            most = self.text.read(&mut buf[..most])?;
        }
        self.bytes = self.bytes.saturating_sub(most);
        Ok(most)
    }
}

/// Which text is read.
#[derive(Clone, Copy, PartialEq, Eq, Debug, Drop)]
enum Kind {
    Script,
    Report,
}

/// What came of reading a text and line feeds.
#[derive(Clone, Copy, PartialEq, Eq, Debug, Drop)]
pub struct Ended {
    pub refusal: Option<Refusal>,
    /// How many bytes the reader gave.
    pub given: usize,
    pub calls: usize,
}

/// Reads a header and line feeds, `bytes` bytes in all and at most `a_call` a call, after which the reader fails or
/// ends.
fn read(alloc: Global, kind: Kind, bytes: usize, a_call: usize, fault: Option<ErrorKind>) -> Ended {
    let text = match kind {
        Kind::Script => SCRIPT_HEADER,
        Kind::Report => REPORT_HEADER,
    };
    let mut reader = Counting::new(text, bytes, a_call, fault);
    let refusal = match kind {
        Kind::Script => script_refusal(alloc, &mut reader),
        Kind::Report => report_refusal(alloc, &mut reader),
    };
    reader.into_ended(bytes, refusal)
}

fn check(rt: &impl Abort, alloc: Global, case: (usize, usize, Option<ErrorKind>), want: Ended) {
    let (bytes, a_call, fault) = case;
    for kind in [Kind::Script, Kind::Report] {
        assert_eq!(rt;
            read(alloc, kind, bytes, a_call, fault),
            want,
            "{kind:?} {case:?}"
        );
    }
}

/// A text of the most bytes is read to its end, which its reader shows in one call more.
#[test]
fn a_text_of_the_most_bytes_is_read(rt: HostRuntime) {
    let want = Ended {
        refusal: None,
        given: MAX_BYTES,
        calls: MAX_BYTES + 1,
    };
    check(&rt, rt.alloc(), (MAX_BYTES, 1, None), want);
}

/// The byte after the most is the last that is asked for, and no more calls are made.
#[test]
fn a_reader_is_given_up_at_one_byte_more(rt: HostRuntime) {
    let want = Ended {
        refusal: Some(Refusal::ReadFault),
        given: MAX_BYTES + 1,
        calls: MAX_BYTES + 1,
    };
    check(&rt, rt.alloc(), (MAX_BYTES + 1, 1, None), want);
    check(&rt, rt.alloc(), (usize::MAX, 1, None), want);
}

#[test]
fn an_error_of_any_other_kind_is_a_read_fault(rt: HostRuntime) {
    for kind in KINDS {
        for bytes in [0, 1, 40, 8192, 100_000] {
            let ended = read(rt.alloc(), Kind::Script, bytes, usize::MAX, Some(kind));
            assert_eq!(rt;
                (ended.refusal, ended.given),
                (Some(Refusal::ReadFault), bytes),
                "{kind:?}"
            );
            let ended = read(rt.alloc(), Kind::Report, bytes, 1, Some(kind));
            let want = Ended {
                refusal: Some(Refusal::ReadFault),
                given: bytes,
                calls: bytes + 1,
            };
            assert_eq!(rt; ended, want, "{kind:?}");
        }
    }
}
