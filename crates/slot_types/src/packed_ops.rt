//! Operations in little room.

ghost use Rattle.std.specs.Prelude.{◌≡◌, ◌+◌, ◌-◌, ◌<◌, ◌≤◌, ◌∷◌, ◌++◌, [], Some, length, take, map, slice_get, slice_range};
ghost use Rattle.std.specs.Prelude.{vec_len, vec_capacity, count_by, OnOk, OnErr};
ghost use Rattle.slot_types.specs.Refusal.{FailsForMemory};
ghost use Rattle.slot_types.specs.Operations.{is_some_write, page_of, writes};
ghost use Rattle.slot_types.specs.Packing.{bytes_of, kind_of, writes as kind_writes};

use crate::events::Op;
use crate::lent_ops::LentOps;
use crate::op_kinds::OpKind;
use crate::pages::PageData;
use crate::refusals::Refusal;
use std::alloc::Global;
use std::marker::Model;

/// Operations, one after another. Each takes five bytes, and a write those of its page besides: these stand in the order
/// of their operations, so that the place of a write's bytes is the number of writes before it. Contracts see the list
/// of operations.
#[derive(Drop)]
pub struct PackedOps {
    kinds: Vec<OpKind>,
    pages: Vec<u32>,
    bytes: Vec<PageData>,
}

impl Model for PackedOps {
    ghost use Rattle.std.specs.Prelude.{List};
    ghost use Rattle.slot_types.specs.declared.events.Op.{Op};
    ghost use Rattle.slot_types.specs.Packing.{ops_of, ArePacked};

    ghost Value = { List Op };

    ghost view = { λ p. ops_of p.kinds.items p.pages.items p.bytes.items };

    ghost invariant = { λ p. ArePacked p.kinds.items p.pages.items p.bytes.items (ops_of p.kinds.items p.pages.items p.bytes.items) };
}

/// Adds the kinds and pages of a list of operations, and the bytes of those that write, in room that was made.
pub(crate) fn push_list(
    kinds: &mut Vec<OpKind>,
    pages: &mut Vec<u32>,
    bytes: &mut Vec<PageData>,
    ops: &[Op],
)
    requires room { vec_len kinds.old + length ops.now ≤ vec_capacity kinds.old }
    requires page_room { vec_len pages.old + length ops.now ≤ vec_capacity pages.old }
    requires byte_room { vec_len bytes.old + writes ops.now ≤ vec_capacity bytes.old }
    ensures kinds { kinds.new.items ≡ kinds.old.items ++ map kind_of ops.now }
    ensures pages { pages.new.items ≡ pages.old.items ++ map page_of ops.now }
    ensures bytes { bytes.new.items ≡ bytes.old.items ++ bytes_of ops.now }
    ensures kind_room { vec_capacity kinds.new ≡ vec_capacity kinds.old }
    ensures page_room { vec_capacity pages.new ≡ vec_capacity pages.old }
    ensures byte_room { vec_capacity bytes.new ≡ vec_capacity bytes.old }
{
    for op in ops {
        kinds.push_reserved(op.kind());
        pages.push_reserved(op.page());
        match op {
            Op::Read(_) => {}
            Op::Write(_, page) => bytes.push_reserved(*page),
            Op::Trim(_) => {}
        }
    }
}

/// Adds the bytes of an operation, if it writes. Refused with `NoMemory`, none are added.
fn push_bytes(bytes: &mut Vec<PageData>, op: Op) -> Result<(), Refusal>
    ensures ok { OnOk result (bytes.new.items ≡ bytes.old.items ++ bytes_of (op ∷ [])) }
    ensures refused { FailsForMemory result }
    ensures err { OnErr result (bytes.new.items ≡ bytes.old.items) }
{
    match op {
        Op::Write(_, page) => bytes.push(page)?,
        Op::Read(_) => {}
        Op::Trim(_) => {}
    }
    Ok(())
}

/// Adds items in room that was made.
pub(crate) fn append<T: Copy>(list: &mut Vec<T>, more: &[T])
    requires { vec_len list.old + length more.now ≤ vec_capacity list.old }
    ensures items { list.new.items ≡ list.old.items ++ more.now }
    ensures capacity { vec_capacity list.old ≤ vec_capacity list.new }
{
    let _ = list.extend_from_slice(more);
}

/// The bytes from one place to before another.
pub(crate) fn bytes_between(bytes: &[PageData], from: usize, to: usize) -> &[PageData]
    requires rise { from ≤ to }
    requires there { to ≤ length bytes.now }
    ensures { result.now ≡ slice_range bytes.now from to }
{
    &bytes[from..to]
}

/// How many of these kinds are writes.
pub(crate) fn count_writes_in(kinds: &[OpKind]) -> usize
    ensures { result ≡ count_by kind_writes kinds.now }
{
    kinds.iter().filter(|kind| kind.writes()).count()
}

impl PackedOps {
    /// No operation. It takes no memory.
    pub fn new(alloc: Global) -> PackedOps
        ensures { result ≡ [] }
    {
        PackedOps {
            kinds: Vec::new(alloc),
            pages: Vec::new(alloc),
            bytes: Vec::new(alloc),
        }
    }

    /// Takes all operations away. The memory stays.
    pub fn clear(&mut self)
        ensures { self.new ≡ [] }
    {
        self.kinds.clear();
        self.pages.clear();
        self.bytes.clear();
    }

    /// How many operations there are.
    pub fn len(&self) -> usize
        ensures { result ≡ length self.now }
    {
        self.kinds.len()
    }

    /// How many of them write.
    pub fn writes(&self) -> usize
        ensures { result ≡ writes self.now }
    {
        self.bytes.len()
    }

    /// The operation at a place with `before` writes before it.
    pub fn get(&self, place: usize, before: usize) -> Op
        requires there { place < length self.now }
        requires writes { before ≡ writes (take place self.now) }
        ensures { slice_get self.now place ≡ Some result }
    {
        let page = self.pages[place];
        match self.kinds[place] {
            OpKind::Read => Op::Read(page),
            OpKind::Write => Op::Write(page, self.bytes[before]),
            OpKind::Trim => Op::Trim(page),
        }
    }

    /// Whether the operation at a place is a write.
    pub fn is_write_at(&self, place: usize) -> bool
        requires { place < length self.now }
        ensures { result ≡ is_some_write (slice_get self.now place) }
    {
        self.kinds[place].writes()
    }

    /// How many writes there are from one place to before another. It takes a step for each operation between.
    pub fn count_writes(&self, from: usize, to: usize) -> usize
        requires rise { from ≤ to }
        requires there { to ≤ length self.now }
        ensures { writes (take from self.now) + result ≡ writes (take to self.now) }
    {
        count_writes_in(&self.kinds[from..to])
    }

    /// The operations from one place to before another: `writes_from` writes are before `from`, `writes_to` before
    /// `to`.
    pub fn slice(&self, from: usize, to: usize, writes_from: usize, writes_to: usize) -> LentOps<'_>
        requires rise { from ≤ to }
        requires there { to ≤ length self.now }
        requires writes_from { writes_from ≡ writes (take from self.now) }
        requires writes_to { writes_to ≡ writes (take to self.now) }
        ensures { result ≡ slice_range self.now from to }
    {
        LentOps {
            list: &[],
            kinds: &self.kinds[from..to],
            pages: &self.pages[from..to],
            bytes: bytes_between(self.bytes.as_slice(), writes_from, writes_to),
        }
    }

    /// All operations, lent as they lie.
    pub fn lend(&self) -> LentOps<'_>
        ensures { result ≡ self.now }
    {
        LentOps {
            list: &[],
            kinds: self.kinds.as_slice(),
            pages: self.pages.as_slice(),
            bytes: self.bytes.as_slice(),
        }
    }

    /// Adds an operation at the end. Refused with `NoMemory`, it isn't added.
    pub fn push(&mut self, op: Op) -> Result<(), Refusal>
        ensures ok { OnOk result (self.new ≡ self.old ++ op ∷ []) }
        ensures refused { FailsForMemory result }
        ensures err { OnErr result (self.new ≡ self.old) }
    {
        self.kinds.reserve(1)?;
        self.pages.reserve(1)?;
        push_bytes(&mut self.bytes, op)?;
        self.kinds.push_reserved(op.kind());
        self.pages.push_reserved(op.page());
        Ok(())
    }

    /// Adds operations, of which `write_count` write. Refused with `NoMemory`, none is added.
    pub fn push_all(&mut self, ops: &LentOps, write_count: usize) -> Result<(), Refusal>
        requires { write_count ≡ writes ops.now }
        ensures ok { OnOk result (self.new ≡ self.old ++ ops.now) }
        ensures refused { FailsForMemory result }
        ensures err { OnErr result (self.new ≡ self.old) }
    {
        let count = ops.len();
        self.kinds.reserve(count)?;
        self.pages.reserve(count)?;
        self.bytes.reserve(write_count)?;
        push_list(&mut self.kinds, &mut self.pages, &mut self.bytes, ops.list);
        append(&mut self.kinds, ops.kinds);
        append(&mut self.pages, ops.pages);
        append(&mut self.bytes, ops.bytes);
        Ok(())
    }
}
