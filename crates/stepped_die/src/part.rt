//! What a die's driver has to know of the part beneath it.

ghost use Rattle.std.specs.Prelude.{◌≡◌, ◌↔◌, true};
ghost use Rattle.power_loss.specs.Aside.{on_part};
ghost use Rattle.stepped_die.specs.DeviceCalls.{Spends};
ghost use Rattle.stepped_die.specs.Parts.{fresh_part, serial_after};

use crate::calls::Call;
use slot_types::DiePlan;

/// The part beneath a die, which has one block more than the die.
#[derive(Clone, Copy, PartialEq, Eq, Debug, Drop)]
pub struct Part {
    /// The number that the part gives the block which stands aside.
    pub aside: u32,
    /// Whether a checkpoint stands from which the die was resumed: its owner hasn't said that it is void.
    pub stands: bool,
    /// What the label of the next program bears: more than that of each program before it.
    pub serial: u64,
}

impl Part {
    /// The part beneath a die that wasn't mounted.
    pub fn fresh(plan: &DiePlan) -> Part
        ensures { result ≡ fresh_part plan.now }
    {
        Part {
            aside: plan.shape.blocks,
            serial: 1,
            stands: false,
        }
    }
}

/// The serial once a call was done that ends a slot: one more after a program.
pub fn serial_after(call: Option<Call>, serial: u64) -> u64
    ensures { result ≡ serial_after call serial }
{
    match call {
        Some(Call::Program { .. }) => serial.saturating_add(1),
        _ => serial,
    }
}

/// Whether a checkpoint that stood before the call isn't what stands after it: a program, a slot of an erase and a trim
/// spend one. A read doesn't.
pub fn spends(call: Option<Call>) -> bool
    ensures { (result ≡ true) ↔ Spends call }
{
    match call {
        None => false,
        Some(Call::Read { .. }) => false,
        Some(Call::Program { .. }) => true,
        Some(Call::Erase { .. }) => true,
        Some(Call::Trim { .. }) => true,
    }
}

/// The number that the part gives a block of the die: the last one's where a block stands aside in its place.
pub fn on_part(last: u32, aside: u32, block: u32) -> u32
    ensures { result ≡ on_part last aside block }
{
    if block == aside { last } else { block }
}
