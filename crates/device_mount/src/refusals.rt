//! Why a part isn't mounted.

ghost use Rattle.std.specs.Prelude.{◌≡◌};
ghost use Rattle.device_mount.specs.Refusals.{refusal_of};

use labelled_die::PartFault;

/// Why a part isn't mounted, in the order in which the causes are looked at. Before its first call, the erase of a slot,
/// a mount has gone over the whole part, and has all memory: for its calls, its end, and the die.
#[derive(Clone, Copy, PartialEq, Eq, Debug, Drop)]
pub enum MountRefusal {
    /// The plan may not be used, or it leaves no block of a part's 1,024 aside.
    BadPlan,
    /// The part's shape isn't the plan's with one block more.
    OtherShape,
    /// Memory was asked for and not had. Nothing on the part has changed.
    NoMemory,
    /// A cell has a label of a page that the plan doesn't have, or with a serial of 2^63 or more: the first such cell.
    /// Nothing on the part has changed.
    OtherLabel { block: u32, cell: u32 },
    /// A page is found in each block, and a page would be lost without the block of the greatest serial. So it is of no
    /// part whose power went while a die or a mount was at work. Nothing on the part has changed.
    NoIdleBlock,
    /// The part failed. Powered up anew it may be mounted from the start.
    DeviceFault,
}

/// A part that isn't mounted, and why.
#[derive(Drop)]
pub struct NotMounted<N> {
    pub part: N,
    pub refusal: MountRefusal,
}

/// Why a part isn't scanned, as it isn't mounted.
pub(crate) fn refusal_of(fault: PartFault) -> MountRefusal
    ensures { result ≡ refusal_of fault }
{
    match fault {
        PartFault::BadPlan => MountRefusal::BadPlan,
        PartFault::OtherShape => MountRefusal::OtherShape,
        PartFault::NoMemory => MountRefusal::NoMemory,
        PartFault::OtherLabel { block, cell } => MountRefusal::OtherLabel { block, cell },
        PartFault::DeviceFault => MountRefusal::DeviceFault,
    }
}
