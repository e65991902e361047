//! Operations in little room, in memory reserved beforehand.

ghost use Rattle.std.specs.Prelude.{◌≡◌, ◌+◌, ◌-◌, ◌<◌, ◌≤◌, ◌++◌, [], max, Some, length, take, slice_get, slice_range};
ghost use Rattle.std.specs.Prelude.{IsOk, OnOk, OnErr};
ghost use Rattle.slot_types.specs.Refusal.{FailsForMemory};
ghost use Rattle.slot_types.specs.Operations.{is_some_write, writes};

use crate::events::Op;
use crate::lent_ops::LentOps;
use crate::op_kinds::OpKind;
use crate::packed_ops::{append, bytes_between, count_writes_in, push_list};
use crate::pages::PageData;
use crate::refusals::Refusal;
use std::alloc::Global;
use std::marker::Model;

/// Operations as [`PackedOps`](crate::PackedOps) keeps them, in memory that can be reserved. Contracts see the list of
/// operations, for how many more, whatever they do, memory is reserved, and for how many there is memory once all are
/// taken away: as many as were ever reserved.
#[derive(Drop)]
pub struct OpArena {
    kinds: Vec<OpKind>,
    pages: Vec<u32>,
    bytes: Vec<PageData>,
    /// For how many more operations memory is reserved.
    room: usize,
    /// For how many there is memory where none stands.
    lasting: usize,
}

impl Model for OpArena {
    ghost use Rattle.std.specs.Prelude.{vec_len, vec_capacity};
    ghost use Rattle.slot_types.specs.Arenas.{Arena, HasRoom};
    ghost use Rattle.slot_types.specs.Packing.{ops_of, ArePacked};

    ghost Value = { Arena };

    ghost view = { λ p. record {
      ops = ops_of p.kinds.items p.pages.items p.bytes.items;
      room = p.room;
      lasting = p.lasting;
    } };

    ghost invariant = { λ p. ArePacked p.kinds.items p.pages.items p.bytes.items (ops_of p.kinds.items p.pages.items p.bytes.items)
        × HasRoom p.room p.lasting (vec_len p.kinds) (vec_capacity p.kinds)
        × HasRoom p.room p.lasting (vec_len p.pages) (vec_capacity p.pages)
        × HasRoom p.room p.lasting (vec_len p.bytes) (vec_capacity p.bytes) };
}

impl OpArena {
    /// No operation, and memory for none. It takes no memory.
    pub fn new(alloc: Global) -> OpArena
        ensures { result ≡ record { ops = []; room = 0; lasting = 0 } }
    {
        OpArena {
            kinds: Vec::new(alloc),
            pages: Vec::new(alloc),
            bytes: Vec::new(alloc),
            room: 0,
            lasting: 0,
        }
    }

    /// Takes all operations away. The memory stays, and is reserved again for as many as it ever was. It takes none.
    pub fn clear(&mut self)
        ensures { self.new ≡ record self.old { ops = []; room = self.old.lasting } }
    {
        self.kinds.clear();
        self.pages.clear();
        self.bytes.clear();
        self.room = self.lasting;
    }

    /// Reserves memory for `count` more operations. Where it is reserved for as many already, this isn't refused.
    /// Refused with `NoMemory`, nothing changes.
    pub fn reserve(&mut self, count: usize) -> Result<(), Refusal>
        ensures ok { OnOk result (self.new ≡ record self.old {
          room = max self.old.room count;
          lasting = max self.old.lasting count;
        }) }
        ensures refused { FailsForMemory result }
        ensures succeeds { count ≤ self.old.room → IsOk result }
        ensures err { OnErr result (self.new ≡ self.old) }
    {
        if count <= self.room {
            return Ok(());
        }
        self.kinds.reserve(count)?;
        self.pages.reserve(count)?;
        self.bytes.reserve(count)?;
        self.room = count;
        self.lasting = self.lasting.max(count);
        Ok(())
    }

    /// For how many more operations memory is reserved.
    pub fn room(&self) -> usize
        ensures { result ≡ self.now.room }
    {
        self.room
    }

    /// For how many operations there is memory once all are taken away: as many as were ever reserved, and never fewer
    /// than are now.
    pub fn lasting(&self) -> usize
        ensures lasting { result ≡ self.now.lasting }
        ensures most { self.now.room ≤ self.now.lasting }
    {
        self.lasting
    }

    /// How many operations there are.
    pub fn len(&self) -> usize
        ensures { result ≡ length self.now.ops }
    {
        self.kinds.len()
    }

    /// How many of them write.
    pub fn writes(&self) -> usize
        ensures { result ≡ writes self.now.ops }
    {
        self.bytes.len()
    }

    /// The operation at a place with `before` writes before it.
    pub fn get(&self, place: usize, before: usize) -> Op
        requires there { place < length self.now.ops }
        requires writes { before ≡ writes (take place self.now.ops) }
        ensures { slice_get self.now.ops place ≡ Some result }
    {
        let page = self.pages[place];
        match self.kinds[place] {
            OpKind::Read => Op::Read(page),
            OpKind::Write => Op::Write(page, self.bytes[before]),
            OpKind::Trim => Op::Trim(page),
        }
    }

    /// Whether the operation at a place is a write.
    pub fn is_write_at(&self, place: usize) -> bool
        requires { place < length self.now.ops }
        ensures { result ≡ is_some_write (slice_get self.now.ops place) }
    {
        self.kinds[place].writes()
    }

    /// How many writes there are from one place to before another. It takes a step for each operation between.
    pub fn count_writes(&self, from: usize, to: usize) -> usize
        requires rise { from ≤ to }
        requires there { to ≤ length self.now.ops }
        ensures { writes (take from self.now.ops) + result ≡ writes (take to self.now.ops) }
    {
        count_writes_in(&self.kinds[from..to])
    }

    /// The operations from one place to before another: `writes_from` writes are before `from`, `writes_to` before
    /// `to`.
    pub fn slice(&self, from: usize, to: usize, writes_from: usize, writes_to: usize) -> LentOps<'_>
        requires rise { from ≤ to }
        requires there { to ≤ length self.now.ops }
        requires writes_from { writes_from ≡ writes (take from self.now.ops) }
        requires writes_to { writes_to ≡ writes (take to self.now.ops) }
        ensures { result ≡ slice_range self.now.ops from to }
    {
        LentOps {
            list: &[],
            kinds: &self.kinds[from..to],
            pages: &self.pages[from..to],
            bytes: bytes_between(self.bytes.as_slice(), writes_from, writes_to),
        }
    }

    /// Adds operations, of which `write_count` write. They use up what is reserved, as far as it goes: where that is
    /// enough, this isn't refused. Refused with `NoMemory`, nothing changes.
    pub fn push_all(&mut self, ops: &LentOps, write_count: usize) -> Result<(), Refusal>
        requires { write_count ≡ writes ops.now }
        ensures ok { OnOk result (self.new
            ≡ record self.old {
              ops = self.old.ops ++ ops.now;
              room = self.old.room - length ops.now;
            }) }
        ensures refused { FailsForMemory result }
        ensures succeeds { length ops.now ≤ self.old.room → IsOk result }
        ensures err { OnErr result (self.new ≡ self.old) }
    {
        let count = ops.len();
        self.kinds.reserve(count)?;
        self.pages.reserve(count)?;
        self.bytes.reserve(write_count)?;
        push_list(&mut self.kinds, &mut self.pages, &mut self.bytes, ops.list);
        append(&mut self.kinds, ops.kinds);
        append(&mut self.pages, ops.pages);
        append(&mut self.bytes, ops.bytes);
        self.room = self.room.saturating_sub(count);
        Ok(())
    }
}
