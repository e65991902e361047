//! What a worker has for a whole run.

ghost use Rattle.std.specs.Prelude.{List};
ghost use Rattle.die_service.specs.Runners.{WasGiven};

use std::alloc::Global;

/// What a worker has for a whole run, and what is given its batches one after the other: a die, with whatever turns
/// batches `B` into its events. Contracts of a [`Run`](crate::Run) say of each runner that it ran all that was sent to it.
pub trait Runner<B>: Drop {
    // It was given nothing yet.
    ghost begins: { Self → Type 0 };

    // The batch may be sent after these.
    ghost may_follow: { List B → B → Type 0 };

    // It was given a batch.
    ghost runs: { Self → B → Self → Type 0 };

    // What comes back of a batch, to be filled again.
    ghost is_empty: { B → Type 0 };

    /// Runs the next batch, which may follow all that it was given before, and leaves it empty, with its memory.
    fn run(&mut self, alloc: Global, batch: &mut B)
        requires { (before : List B) × WasGiven begins runs before self.old
            × may_follow before batch.old }
        ensures runs { runs self.old batch.old self.new }
        ensures emptied { is_empty batch.new };
}
