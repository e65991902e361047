//! Where a mount has ended.

use die_checkpoint::Checkpoint;

/// Where a mount has ended: the block that stands aside, and the die on the other ones.
#[derive(Drop)]
pub struct Mounted {
    /// The number that the part gives the block aside. The die's block of that number is the part's last one.
    pub aside: u32,
    /// What stands on the die.
    pub checkpoint: Checkpoint,
    /// The serial of the next program.
    pub next: u64,
}
