//! What a mount costs at most after a loss of power.

ghost use Rattle.std.specs.Prelude.{◌≡◌, ◌+◌, ◌-◌, ◌*◌};
ghost use Rattle.plan_rules.specs.Bound.{MeetsBound};
ghost use Rattle.power_loss.specs.Aside.{most_rounds_beside};
ghost use Rattle.die_mount.specs.Mounting.{most_calls};

use plan_rules::figures;
use slot_types::DiePlan;

/// What a mount does at most, in addition to looking at the label of each cell.
#[derive(Clone, Copy, PartialEq, Eq, Debug, Drop)]
pub struct MountCost {
    /// Blocks that it erases: the first one, and each that it empties.
    pub erases: u64,
    /// Pages that it copies.
    pub copies: u64,
    /// Calls of the device: a read and a program for each copy, and the slots of the erases.
    pub calls: u64,
}

/// How many blocks are emptied at most. The bound counts as many free pages, and alpha - 1 more.
fn rounds_of(plan: &DiePlan) -> u32
    requires { MeetsBound plan.now }
    ensures { result ≡ most_rounds_beside plan.now }
{
    figures(plan).fmax / plan.alpha
}

/// What a mount of a die's part does at most, wherever the power went. With N free pages for full accounts it empties
/// at most N / alpha blocks, rounded up, in addition to the block that it erases first. Each takes at most pages -
/// alpha copies and an erase. The part has one block more than the plan.
pub fn mount_cost(plan: &DiePlan) -> MountCost
    requires { MeetsBound plan.now }
    ensures erases { result.erases ≡ 1 + most_rounds_beside plan.now }
    ensures copies { result.copies ≡ most_rounds_beside plan.now * (plan.now.shape.pages - plan.now.alpha) }
    ensures calls { result.calls ≡ most_calls plan.now }
{
    let rounds = u64::from(rounds_of(plan));
    let copies = u64::from(plan.shape.pages - plan.alpha);
    let erase_slots = u64::from(plan.shape.erase_slots);
    MountCost {
        erases: 1 + rounds,
        copies: rounds * copies,
        calls: erase_slots + rounds * (2 * copies + erase_slots),
    }
}
