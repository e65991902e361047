//! Why a die isn't started, or isn't shut down.

use device_mount::MountRefusal;
use labelled_die::BesideNand;
use labelled_nand::LabelledNand;
use saving_nand::Saved;
use slot_core::{CheckpointRefusal, DieCore};
use slot_types::Refusal;

/// Why no die is started on a part.
#[derive(Clone, Copy, PartialEq, Eq, Debug, Drop)]
pub enum StartRefusal {
    /// The part failed as what is saved was voided. No cell was touched. Powered up anew it may be started.
    NotTaken,
    /// What was saved is of a part like the plan's, and memory was asked for and not had. No cell was touched, and
    /// nothing is saved any more. The part may be started again, by a mount.
    NoMemory,
    /// Nothing was saved, or what was doesn't fit the plan; and the part isn't mounted: why. Unless it failed, no cell has
    /// changed, and where that is `NoMemory` it may be started again at once.
    NotMounted { why: MountRefusal },
}

/// A part on which no die is started, and why.
#[derive(Drop)]
pub struct NotStarted<N> {
    pub part: N,
    pub refusal: StartRefusal,
}

/// A part on which something isn't saved, and why. The die is given up.
#[derive(Drop)]
pub struct Unsaved<N> {
    pub part: N,
    pub saved: Saved,
    /// `NoMemory`, and then it may be saved still, as nothing was done on the part; or `DeviceFault`.
    pub refusal: Refusal,
}

/// Why a die isn't shut down.
#[derive(Drop)]
pub enum NotShutDown<N: LabelledNand> {
    /// No checkpoint is taken of it: why. It may go on.
    AtWork {
        core: DieCore<BesideNand<N>>,
        why: CheckpointRefusal,
    },
    /// Its checkpoint isn't saved.
    NotSaved {
        unsaved: Unsaved<N>,
    },
}
