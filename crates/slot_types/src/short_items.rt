//! A list whose first items lie in the list itself. Contracts see it as the list of its items.

ghost use Rattle.std.specs.Prelude.{◌≡◌, ◌<◌, ◌∷◌, ◌++◌, ◌==◌, [], length, IsOk, OnOk, OnErr, slice_get, option_copied};
ghost use Rattle.std.specs.Cmp.Lexicographic.{pointwise, lists_per, lists_equiv};
ghost use Rattle.std.specs.List.{AllZip};
ghost use Rattle.slot_types.specs.Refusal.{FailsForMemory};

use crate::refusals::Refusal;
use smallvec::SmallVec;
use std::alloc::{AllocError, Global};
use std::default::MadeWith;
use std::fmt;
use std::fmt::{Debug, Formatter, Write};
use std::marker::Model;

/// A list that grows at its end, and keeps its first sixteen items in itself: as many as a die has tasks at most.
#[derive(Drop)]
pub struct ShortItems<T> {
    items: SmallVec<T, 16>,
}

impl<T> Model for ShortItems<T> {
    ghost use Rattle.std.specs.Prelude.{List, ◌≤◌};
    ghost use Rattle.std.specs.Coded.{coded_list};

    ghost Value = { List T };

    ghost coded = { coded_list T.code };

    ghost view = { λ l. l.items.items };

    ghost invariant = { λ l. 16 ≤ l.items.capacity };
}

impl<T> ShortItems<T> {
    /// How many items there are.
    pub fn len(&self) -> usize
        ensures { result ≡ length self.now }
    {
        self.items.len()
    }

    /// Whether there is no item.
    pub fn is_empty(&self) -> bool
        ensures { result ≡ (length self.now == 0) }
    {
        self.items.is_empty()
    }

    /// The item at a place from 0, if there is one.
    pub fn get(&self, place: usize) -> Option<&T>
        ensures { slice_get self.now place ≡ option_copied result }
    {
        self.items.as_slice().get(place)
    }

    /// The items, in order.
    pub fn as_slice(&self) -> &[T]
        ensures { result.now ≡ self.now }
    {
        self.items.as_slice()
    }
}

impl<T: MadeWith<Global> + Drop> ShortItems<T> {
    /// A list with no item. It takes no memory.
    pub fn new(alloc: Global) -> ShortItems<T>
        ensures { result ≡ [] }
    {
        ShortItems {
            items: SmallVec::new(alloc),
        }
    }

    /// The items of a vector. It takes no memory.
    pub fn from_vec(items: Vec<T>) -> ShortItems<T>
        ensures { result ≡ items.items }
    {
        ShortItems {
            items: SmallVec::from_vec(items),
        }
    }

    /// Adds an item at the end. With fewer than sixteen items this takes no memory. Without memory for more of them
    /// (`NoMemory`) the list stays as it was, and the item is freed.
    pub fn push(&mut self, item: T) -> Result<(), Refusal>
        ensures ok { OnOk result (self.new ≡ self.old ++ item ∷ []) }
        ensures refused { FailsForMemory result }
        ensures err { OnErr result (self.new ≡ self.old) }
        ensures within { length self.old < 16 → IsOk result }
    {
        self.items.push(item)?;
        Ok(())
    }

    /// Adds an item at the end, where there are fewer than sixteen. It takes no memory.
    pub fn push_within(&mut self, item: T)
        requires { length self.old < 16 }
        ensures { self.new ≡ self.old ++ item ∷ [] }
    {
        self.items.push_reserved(item);
    }
}

impl<T: PartialEq> PartialEq for ShortItems<T> {
    ghost eq = { pointwise T.eq };

    ghost laws = { lists_per T.laws };

    fn eq(&self, other: &Self) -> bool {
        self.items == other.items
    }
}

impl<T: Eq> Eq for ShortItems<T> {
    ghost laws = { lists_equiv T.Eq.laws };
}

impl<T: MadeWith<Global> + Clone> Clone for ShortItems<T> {
    ghost is_clone = { λ v w. AllZip T.is_clone v w };

    fn clone(&self) -> Result<Self, AllocError> {
        Ok(ShortItems {
            items: self.items.clone()?,
        })
    }
}

impl<T: Debug> Debug for ShortItems<T> {
    fn fmt<W: Write>(&self, f: &mut Formatter<W>) -> fmt::Result {
        f.debug_list().entries(self.items.as_slice()).finish()
    }
}
