//! The blocks by count of valid pages: a list for each count, linked by block numbers.

ghost use Rattle.std.specs.Prelude.{◌≡◌, ℕ, ◌<◌, ◌≤◌, None, Some, IfNone, IfOk, IfSome, length, replicate, slice_set};
ghost use Rattle.std.specs.Option.{ForSome};
ghost use Rattle.victim_pick.specs.Candidates.{count_of};
ghost use Rattle.victim_pick.specs.Links.{set_at, set_first};
ghost use Rattle.victim_pick.specs.Ties.{AreEmpty, IsFirstFrom, IsFirstOf};

use crate::ties::earlier;
use std::alloc::{AllocError, Global};
use std::marker::Model;

/// A list of blocks for each count up to `pages`. Contracts see by block the count whose list it is in.
///
/// The lists are linked both ways, so that a block comes and goes in constant time, wherever in its list it stands. No
/// call but `new` takes memory.
#[derive(Drop)]
pub struct Lists {
    /// By block its count, if it is in a list.
    counts: Vec<Option<u32>>,
    /// By count the first block of its list.
    firsts: Vec<Option<u32>>,
    /// By block the one after it in its list.
    nexts: Vec<Option<u32>>,
    /// By block the one before it in its list.
    befores: Vec<Option<u32>>,
    pages: u32,
}

impl Model for Lists {
    ghost use Rattle.victim_pick.specs.Links.{CountLists};

    ghost Value = { CountLists };

    ghost use Rattle.victim_pick.specs.Lists.{counted_of, IsLinked};

    ghost view = { counted_of };

    ghost invariant = { IsLinked };
}

impl Lists {
    /// Empty lists for `blocks` blocks.
    pub fn new(alloc: Global, blocks: u32, pages: u32) -> Result<Self, AllocError>
        ensures { IfOk result (λ lists.
            lists ≡ record { pages = pages; counts = replicate blocks None }) }
    {
        Ok(Lists {
            counts: vec![in alloc; None; blocks as usize]?,
            firsts: vec![in alloc; None; pages as usize + 1]?,
            nexts: vec![in alloc; None; blocks as usize]?,
            befores: vec![in alloc; None; blocks as usize]?,
            pages,
        })
    }

    /// Puts a block that is in no list in front of the list of a count.
    pub fn insert(&mut self, count: u32, block: u32)
        requires in_range { block < length self.old.counts }
        requires free { count_of self.old.counts block ≡ None }
        requires fits { count ≤ self.old.pages }
        ensures { self.new
            ≡ record self.old { counts = slice_set self.old.counts block (Some count) } }
    {
        let first = self.firsts[count as usize];
        self.nexts[block as usize] = first;
        self.befores[block as usize] = None;
        set_at(&mut self.befores, first, Some(block));
        self.firsts[count as usize] = Some(block);
        self.counts[block as usize] = Some(count);
    }

    /// Takes a block out of the list of its count.
    pub fn remove(&mut self, count: u32, block: u32)
        requires { count_of self.old.counts block ≡ Some count }
        ensures fits { count ≤ self.old.pages }
        ensures gone { self.new
            ≡ record self.old { counts = slice_set self.old.counts block None } }
    {
        let before = self.befores[block as usize];
        let next = self.nexts[block as usize];
        set_first(&mut self.firsts, before, count, next);
        set_at(&mut self.nexts, before, next);
        set_at(&mut self.befores, next, before);
        self.counts[block as usize] = None;
    }

    /// The count whose list a block is in.
    pub fn count(&self, block: u32) -> Option<u32>
        ensures { result ≡ count_of self.now.counts block }
    {
        match self.counts.get(block as usize) {
            Some(count) => *count,
            None => None,
        }
    }

    /// The least count, from the count `least` on, whose list isn't empty, and of that list the block that goes first.
    pub fn first_from(&self, least: u32, erases: &[Option<u32>]) -> Option<(u32, u32)>
        ensures some { IfSome result (λ found.
            IsFirstFrom self.now.counts erases.now least found.0 found.1) }
        ensures none { IfNone result ((to : ℕ) → AreEmpty self.now.counts least to) }
    {
        for count in least as usize..self.firsts.len() {
            if let Some(block) = self.first_of(count as u32, erases) {
                return Some((count as u32, block));
            }
        }
        None
    }

    /// Of the list of a count the block that goes first.
    fn first_of(&self, count: u32, erases: &[Option<u32>]) -> Option<u32>
        requires { count ≤ self.now.pages }
        ensures { IsFirstOf self.now.counts erases.now count result }
    {
        let mut first = None;
        let mut at = self.firsts[count as usize];
        // A list has each block once, so there are no more steps than blocks.
        for _step in 0..self.nexts.len() {
            let Some(block) = at else {
                return first;
            };
            first = Some(earlier(erases, first, block));
            at = self.nexts[block as usize];
        }
        first
    }
}

/// Sets the link of a block, if there is one.
fn set_at(links: &mut [Option<u32>], block: Option<u32>, link: Option<u32>)
    requires { ForSome block (λ at. at < length links.old) }
    ensures { links.new ≡ set_at links.old block link }
{
    if let Some(at) = block {
        links[at as usize] = link;
    }
}

/// Sets the first block of a count, if no block is before it.
fn set_first(firsts: &mut [Option<u32>], before: Option<u32>, count: u32, first: Option<u32>)
    requires { count < length firsts.old }
    ensures { firsts.new ≡ set_first firsts.old before count first }
{
    if before.is_none() {
        firsts[count as usize] = first;
    }
}
