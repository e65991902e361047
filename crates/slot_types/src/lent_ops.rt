//! Operations that somebody lends.

ghost use Rattle.std.specs.Prelude.{◌≡◌, [], None, Some, length, count_by, find, nat_le, option_map, IfOk, IfErr};
ghost use Rattle.slot_types.specs.Operations.{is_read, page_of, writes};
ghost use Rattle.slot_types.specs.Packing.{reads};

use crate::events::Op;
use crate::op_kinds::OpKind;
use crate::pages::PageData;
use std::marker::Model;

/// Operations that somebody lends: a list of them, or a part of packed ones. Contracts see the list of these.
// Those of a list come first, and then those of the packed lists; either part may have none, so no call has to ask which
// of the two it is.
#[derive(Drop)]
pub struct LentOps<'a> {
    pub(crate) list: &'a [Op],
    pub(crate) kinds: &'a [OpKind],
    pub(crate) pages: &'a [u32],
    pub(crate) bytes: &'a [PageData],
}

impl<'a> Model for LentOps<'a> {
    ghost use Rattle.std.specs.Prelude.{List, ◌++◌};
    ghost use Rattle.slot_types.specs.declared.events.Op.{Op};
    ghost use Rattle.slot_types.specs.Packing.{ops_of, ArePacked};

    ghost Value = { List Op };

    ghost view = { λ l. l.list.now ++ ops_of l.kinds.now l.pages.now l.bytes.now };

    ghost invariant = { λ l. ArePacked l.kinds.now l.pages.now l.bytes.now (ops_of l.kinds.now l.pages.now l.bytes.now) };
}

/// How many operations of a list read, and how many write.
#[derive(Clone, Copy, PartialEq, Eq, Debug, Drop)]
pub struct OpCounts {
    pub reads: usize,
    pub writes: usize,
}

/// Counts the reads and writes of a list. Refused with the first page that isn't below `pages`.
fn count_list(ops: &[Op], pages: u32) -> Result<OpCounts, u32>
    ensures reads { IfOk result (λ counts. counts.reads ≡ count_by is_read ops.now) }
    ensures writes { IfOk result (λ counts. counts.writes ≡ writes ops.now) }
    ensures all_there { IfOk result (λ _.
        find (λ op. nat_le pages (page_of op)) ops.now ≡ None) }
    ensures missing { IfErr result (λ page.
        option_map page_of (find (λ op. nat_le pages (page_of op)) ops.now) ≡ Some page) }
{
    let mut reads = 0;
    let mut writes = 0;
    for op in ops {
        let page = op.page();
        if page >= pages {
            return Err(page);
        }
        match op {
            Op::Read(_) => reads += 1,
            Op::Write(..) => writes += 1,
            Op::Trim(_) => {}
        }
    }
    Ok(OpCounts { reads, writes })
}

/// The first page of a list that isn't below `pages`.
fn first_beyond(list: &[u32], pages: u32) -> Option<u32>
    ensures { result ≡ find (nat_le pages) list.now }
{
    list.iter().copied().find(|page| pages <= *page)
}

/// How many operations of a list write.
fn count_writes(ops: &[Op]) -> usize
    ensures { result ≡ writes ops.now }
{
    ops.iter().filter(|op| op.is_write()).count()
}

/// How many of these kinds are reads.
fn count_reads(kinds: &[OpKind]) -> usize
    ensures { result ≡ count_by reads kinds.now }
{
    kinds.iter().filter(|kind| kind.reads()).count()
}

impl<'a> LentOps<'a> {
    /// No operation.
    pub fn none() -> LentOps<'a>
        ensures { result ≡ [] }
    {
        LentOps::list(&[])
    }

    /// Those of a list.
    pub fn list(ops: &'a [Op]) -> LentOps<'a>
        ensures { result ≡ ops.now }
    {
        LentOps {
            list: ops,
            kinds: &[],
            pages: &[],
            bytes: &[],
        }
    }

    /// The same operations, lent once more.
    pub fn lend(&self) -> LentOps<'a>
        ensures { result ≡ self.now }
    {
        LentOps {
            list: self.list,
            kinds: self.kinds,
            pages: self.pages,
            bytes: self.bytes,
        }
    }

    /// How many there are.
    pub fn len(&self) -> usize
        ensures { result ≡ length self.now }
    {
        self.list.len() + self.kinds.len()
    }

    /// How many of them write.
    pub fn writes(&self) -> usize
        ensures { result ≡ writes self.now }
    {
        count_writes(self.list) + self.bytes.len()
    }

    /// Counts those that read and those that write. Refused with the page of the first that isn't below `pages`.
    pub fn count(&self, pages: u32) -> Result<OpCounts, u32>
        ensures reads { IfOk result (λ counts. counts.reads ≡ count_by is_read self.now) }
        ensures writes { IfOk result (λ counts. counts.writes ≡ writes self.now) }
        ensures all_there { IfOk result (λ _.
            find (λ op. nat_le pages (page_of op)) self.now ≡ None) }
        ensures missing { IfErr result (λ page.
            option_map page_of (find (λ op. nat_le pages (page_of op)) self.now) ≡ Some page) }
    {
        let listed = match count_list(self.list, pages) {
            Ok(listed) => listed,
            Err(page) => return Err(page),
        };
        match first_beyond(self.pages, pages) {
            Some(page) => Err(page),
            None => Ok(OpCounts {
                reads: listed.reads + count_reads(self.kinds),
                writes: listed.writes + self.bytes.len(),
            }),
        }
    }
}
