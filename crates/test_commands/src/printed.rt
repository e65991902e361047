//! What a command printed of the tests' texts.

use flash_commands::{Command, act};
use std::alloc::Global;
use std::io;
use std::sync::Wait;
use std::thread::Threads;

/// What a command printed, and its status.
#[derive(Drop)]
pub(crate) struct Printed {
    pub(crate) out: Vec<u8>,
    pub(crate) err: Vec<u8>,
    pub(crate) status: u8,
}

impl Printed {
    pub(crate) fn is(&self, out: &str, err: &str, status: u8) -> bool {
        self.out.as_slice() == out.as_bytes()
            && self.err.as_slice() == err.as_bytes()
            && self.status == status
    }
}

/// What a command prints of a text.
pub(crate) fn acted<R: Threads + Wait + Sync>(
    rt: &R,
    alloc: Global,
    command: Command<'_>,
    text: &[u8],
) -> Printed {
    let (mut out, mut err) = (Vec::new(alloc), Vec::new(alloc));
    let status = act(rt, alloc, command, text, io::empty(), &mut out, &mut err);
    Printed { out, err, status }
}

pub(crate) const PLAN_COMMAND: Command<'static> = Command::Plan { plan: "plan.toml" };

pub(crate) const AUDIT: Command<'static> = Command::Audit {
    report: "report.csv",
};
