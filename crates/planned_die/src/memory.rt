//! A job that a task asked for.

ghost use Rattle.std.specs.Prelude.{◌≡◌, ◌≤◌, length};
ghost use Rattle.slot_types.specs.Operations.{writes};

use slot_types::Op;

/// A job that a task asked for.
#[derive(Clone, Copy, PartialEq, Eq, Debug, Drop)]
pub struct AskedJob {
    /// The slot of the clock of all lives in which it came and was released.
    pub at: u64,
    /// How many operations it has.
    pub operations: u32,
    /// And how many of them write.
    pub writes: u32,
}

fn writes_of(ops: &[Op]) -> usize
    ensures writes { result ≡ writes ops.now }
    ensures within { result ≤ length ops.now }
{
    ops.iter()
        .filter(|op| matches!(op, Op::Write(_, _)))
        .count()
}

/// The job of these operations, which comes in this slot of the clock.
pub(crate) fn job_of(at: u64, ops: &[Op]) -> AskedJob
    requires few { length ops.now ≤ 64 }
    ensures { result ≡ record {
      at = at;
      operations = length ops.now;
      writes = writes ops.now;
    } }
{
    AskedJob {
        at,
        operations: ops.len() as u32,
        writes: writes_of(ops) as u32,
    }
}
