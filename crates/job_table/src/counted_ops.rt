//! Operations with what was counted of them.

ghost use Rattle.std.specs.Prelude.{◌≡◌, ◌-◌, ◌≤◌, ◌++◌, [], None, Some, length, count_by, find, nat_le, option_map, IfOk, IfErr, IsOk, OnOk, OnErr};
ghost use Rattle.slot_types.specs.Operations.{is_read, page_of, writes};
ghost use Rattle.slot_types.specs.Refusal.{FailsForMemory};

use slot_types::{LentOps, OpArena, Refusal};
use std::marker::Model;

/// The operations of a job, each on a page that is there, and how many of them read and write: so who takes them looks
/// at them no second time. Contracts see the operations.
#[derive(Drop)]
pub struct CountedOps<'a> {
    ops: LentOps<'a>,
    reads: usize,
    writes: usize,
}

impl<'a> Model for CountedOps<'a> {
    ghost use Rattle.std.specs.Prelude.{List};
    ghost use Rattle.slot_types.specs.declared.events.Op.{Op};
    ghost use Rattle.job_table.specs.OpCounts.{AreCounted};

    ghost Value = { List Op };

    ghost view = { λ c. c.ops };

    ghost invariant = { λ c. AreCounted c.ops c.reads c.writes };
}

impl<'a> CountedOps<'a> {
    /// No operation.
    pub fn none() -> CountedOps<'a>
        ensures { result ≡ [] }
    {
        CountedOps {
            ops: LentOps::none(),
            reads: 0,
            writes: 0,
        }
    }

    /// Looks at operations on `pages` pages, once each. Refused with the first page that isn't there.
    pub fn count(ops: &LentOps<'a>, pages: u32) -> Result<CountedOps<'a>, u32>
        ensures ok { IfOk result (λ counted. counted ≡ ops.now) }
        ensures all_there { IfOk result (λ counted.
            find (λ op. nat_le pages (page_of op)) ops.now ≡ None) }
        ensures missing { IfErr result (λ page.
            option_map page_of (find (λ op. nat_le pages (page_of op)) ops.now) ≡ Some page) }
    {
        match ops.count(pages) {
            Ok(counts) => Ok(CountedOps {
                ops: ops.lend(),
                reads: counts.reads,
                writes: counts.writes,
            }),
            Err(page) => Err(page),
        }
    }

    /// Adds them to others, in memory that is reserved, as far as it goes. Where that covers them, this isn't refused.
    /// Refused with `NoMemory`, none is added.
    pub(crate) fn add_to(&self, list: &mut OpArena) -> Result<(), Refusal>
        ensures ok { OnOk result (list.new
            ≡ record list.old {
              ops = list.old.ops ++ self.now;
              room = list.old.room - length self.now;
            }) }
        ensures refused { FailsForMemory result }
        ensures succeeds { length self.now ≤ list.old.room → IsOk result }
        ensures err { OnErr result (list.new ≡ list.old) }
    {
        list.push_all(&self.ops, self.writes)
    }

    /// How many there are.
    pub fn len(&self) -> usize
        ensures { result ≡ length self.now }
    {
        self.ops.len()
    }

    /// How many of them read.
    pub fn reads(&self) -> usize
        ensures { result ≡ count_by is_read self.now }
    {
        self.reads
    }

    /// How many of them write.
    pub fn writes(&self) -> usize
        ensures { result ≡ writes self.now }
    {
        self.writes
    }
}
