//! What a clean shutdown saves.

use die_checkpoint::Checkpoint;
use slot_types::Refusal;

/// What a clean shutdown saves of a die on all blocks of a part but one.
#[derive(PartialEq, Eq, Debug, Drop)]
pub struct Saved {
    /// The block that stands aside.
    pub aside: u32,
    /// The serial of the next program.
    pub next: u64,
    /// What stands on the other blocks, by the numbers that they have on the die.
    pub checkpoint: Checkpoint,
}

/// What isn't saved, and why: there is no memory, or the part has failed.
#[derive(Drop)]
pub struct NotSaved {
    pub saved: Saved,
    pub refusal: Refusal,
}
