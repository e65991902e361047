//! Lists that take what the words of a field say.

ghost use Rattle.std.specs.Prelude.{◌≡◌, ◌∷◌, ◌++◌, [], List, OnErr, OnOk};
ghost use Rattle.slot_types.specs.Refusal.{FailsForMemory};

use slot_types::{Items, Op, PackedOps, Refusal};

/// A list that takes what words say, one after another. Contracts see the list of these as `items`.
pub trait WordSink<T>: Sized {
    ghost items: { Self → List T };

    /// Takes all items away. The memory stays.
    fn clear(&mut self)
        ensures { items self.new ≡ [] };

    /// Adds an item at the end. Without memory for it (`NoMemory`) the list stays as it was.
    fn push(&mut self, item: T) -> Result<(), Refusal>
        ensures ok { OnOk result (items self.new ≡ items self.old ++ item ∷ []) }
        ensures refused { FailsForMemory result }
        ensures err { OnErr result (items self.new ≡ items self.old) };
}

impl<T: Drop> WordSink<T> for Items<T> {
    ghost items = { λ list. list };

    fn clear(&mut self) {
        self.clear();
    }

    fn push(&mut self, item: T) -> Result<(), Refusal> {
        self.push(item)
    }
}

impl WordSink<Op> for PackedOps {
    ghost items = { λ ops. ops };

    fn clear(&mut self) {
        self.clear();
    }

    fn push(&mut self, op: Op) -> Result<(), Refusal> {
        self.push(op)
    }
}
