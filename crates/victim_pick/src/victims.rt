//! The closed blocks that no collection has taken, each with its count of valid pages.

ghost use Rattle.std.specs.Prelude.{◌≡◌, ◌-◌, ◌<◌, ◌≤◌, ◌↔◌, Some, None, length, replicate, slice_set};
ghost use Rattle.std.specs.Prelude.{IsNone, IsSomeAnd, IfOk, IfSome};
ghost use Rattle.slot_types.specs.Refusal.{FailsForMemory};
ghost use Rattle.victim_pick.specs.Candidates.{count_of, one_page_less, HasNone, IsLeast, without};

use crate::lists::Lists;
use slot_types::Refusal;
use std::alloc::Global;
use std::marker::Model;

/// The candidates for a collection. Contracts see the pages of a block, and by block the count of valid pages and the
/// finished erases of each candidate.
///
/// The candidates of each count are a list of their own, linked by block numbers, in vectors that `new` makes: no other
/// call takes memory. `close`, `lower` and `count` take constant time, whatever block they name. `take_least` walks the
/// counts from the least that it remembers up to the one that it answers, which is one step for each valid page at
/// most, and then the list of that one count; so does `least`.
#[derive(Drop)]
pub struct Victims {
    /// By count the candidates that have it.
    lists: Lists,
    /// By block its finished erases, if it is a candidate.
    erases: Vec<Option<u32>>,
    /// No candidate has a smaller count.
    least: u32,
}

impl Model for Victims {
    ghost use Rattle.victim_pick.specs.Candidates.{Candidates};

    ghost Value = { Candidates };

    ghost use Rattle.victim_pick.specs.SoundVictims.{candidates_of, AreSoundVictims};

    ghost view = { candidates_of };

    ghost invariant = { AreSoundVictims };
}

impl Victims {
    /// No candidate among `blocks` blocks of `pages` pages each. Refused with `NoMemory` alone.
    pub fn new(alloc: Global, blocks: u32, pages: u32) -> Result<Victims, Refusal>
        ensures ok { IfOk result (λ victims. victims ≡ record
            { pages = pages; counts = replicate blocks None; erases = replicate blocks None }) }
        ensures err { FailsForMemory result }
    {
        Ok(Victims {
            lists: Lists::new(alloc, blocks, pages)?,
            erases: vec![in alloc; None; blocks as usize]?,
            least: 0,
        })
    }

    /// Makes a block that is no candidate one, with its count of valid pages and its finished erases.
    pub fn close(&mut self, block: u32, valid: u32, erases: u32)
        requires in_range { block < length self.old.counts }
        requires open { count_of self.old.counts block ≡ None }
        requires fits { valid ≤ self.old.pages }
        ensures { self.new ≡ record self.old {
          counts = slice_set self.old.counts block (Some valid);
          erases = slice_set self.old.erases
              block (Some erases);
        } }
    {
        self.lists.insert(valid, block);
        self.erases[block as usize] = Some(erases);
        self.least = self.least.min(valid);
    }

    /// Counts one valid page less in a candidate that has some.
    pub fn lower(&mut self, block: u32)
        requires { IsSomeAnd (count_of self.old.counts block) (λ valid. 0 < valid) }
        ensures { self.new
            ≡ record self.old {
              counts = slice_set self.old.counts block
                  (one_page_less (count_of self.old.counts block));
            } }
    {
        if let Some(valid) = self.count(block) {
            self.lists.remove(valid, block);
            self.lists.insert(valid - 1, block);
            self.least = self.least.min(valid - 1);
        }
    }

    /// How many valid pages a block has, if it is a candidate. A block that isn't there is none.
    pub fn count(&self, block: u32) -> Option<u32>
        ensures { result ≡ count_of self.now.counts block }
    {
        self.lists.count(block)
    }

    /// The candidate with the fewest valid pages, of equal ones that with the fewest erases, of these that of the
    /// smallest number: the one that `take_least` would take away. It walks as far as that.
    pub fn least(&self) -> Option<u32>
        ensures none { IsNone result ↔ HasNone self.now.counts }
        ensures least { IfSome result (IsLeast self.now.counts self.now.erases) }
    {
        let (_, block) = self.lists.first_from(self.least, &self.erases)?;
        Some(block)
    }

    /// Takes away the candidate with the fewest valid pages, of equal ones that with the fewest erases, of these that
    /// of the smallest number.
    pub fn take_least(&mut self) -> Option<u32>
        ensures none { IsNone result ↔ HasNone self.old.counts }
        ensures least { IfSome result (IsLeast self.old.counts self.old.erases) }
        ensures taken { self.new
            ≡ record self.old {
              counts = without result self.old.counts;
              erases = without result self.old.erases;
            } }
    {
        let (valid, block) = self.lists.first_from(self.least, &self.erases)?;
        self.lists.remove(valid, block);
        self.erases[block as usize] = None;
        self.least = valid;
        Some(block)
    }
}
