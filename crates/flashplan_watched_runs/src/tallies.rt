//! What the slots of a die wore: the erases of its blocks, and the pages that were programmed.

ghost use Rattle.std.specs.Prelude.{◌≡◌, ℕ, ◌+◌, ◌∷◌, ◌<◌, ◌≤◌, [], length, get_or, slice_set, IfOk};
ghost use Rattle.slot_types.specs.Refusal.{FailsForMemory};
ghost use Rattle.slot_types.specs.declared.replies.Entry.{Entry};
ghost use Rattle.die_log.specs.Model.Log.{Log, now};
ghost use Rattle.flashplan_watched_runs.specs.Wear.{IsWearOf, slot_entry};

use flashplan_run_pictures::{ActBrief, Kind, brief_of};
use slot_types::{Refusal, SlotReply};
use std::alloc::Global;

/// What the slots of a die wore.
#[derive(Drop)]
pub struct Tally {
    /// By block how many erases it took.
    pub erases: Vec<u32>,
    /// How many erases there were.
    pub erased: u32,
    /// How many pages jobs wrote.
    pub written: u32,
    /// How many pages collections programmed.
    pub copied: u32,
}

impl Tally {
    /// Of a die of `blocks` blocks, on which nothing was done. The only refusal is NoMemory.
    pub fn new(alloc: Global, blocks: u32) -> Result<Tally, Refusal>
        ensures ok { IfOk result (IsWearOf blocks []) }
        ensures refused { FailsForMemory result }
    {
        Ok(Tally {
            erases: vec![in alloc; 0u32; blocks as usize]?,
            erased: 0,
            written: 0,
            copied: 0,
        })
    }

    /// Adds an erase of a block.
    fn add_erase(&mut self, block: u32)
        requires room { self.old.erased < 4294967295 }
        requires block_room { block < length self.old.erases.items
            → get_or self.old.erases.items block 0 < 4294967295 }
        ensures by_block { self.new.erases.items
            ≡ slice_set self.old.erases.items block (get_or self.old.erases.items block 0 + 1) }
        ensures erased { self.new.erased ≡ self.old.erased + 1 }
        ensures written { self.new.written ≡ self.old.written }
        ensures copied { self.new.copied ≡ self.old.copied }
    {
        self.erased += 1;
        let block = block as usize;
        if block < self.erases.len() {
            self.erases[block] += 1;
        }
    }

    /// Adds what was done in a slot. The counts are those of a log with fewer than 4,294,967,295 slots, and then of the log with
    /// this slot.
    pub fn note(&mut self, reply: &SlotReply)
        requires { (blocks : ℕ) × (past : Log) × IsWearOf blocks past self.old
            × (now past < 4294967295) }
        ensures { (blocks : ℕ) (past : Log) → IsWearOf blocks past self.old
            → IsWearOf blocks (slot_entry reply.now ∷ past) self.new }
    {
        let Some((_, act)) = reply.ran else {
            return;
        };
        let ActBrief { kind, of } = brief_of(act);
        match kind {
            Kind::Write => self.written += 1,
            Kind::CopyProgram => self.copied += 1,
            Kind::Erase if reply.finished.is_some() => self.add_erase(of),
            _ => {}
        }
    }
}
