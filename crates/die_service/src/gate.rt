//! What is called around each slot of a run.

/// What a run calls around each of its slots. Both are called by the worker that has the die, without the die's turn,
/// and have to return.
pub trait Gate {
    /// Before a slot of the die: the slot that the worker asks for next.
    fn before(&self, die: u32, slot: u32);

    /// After a slot of the die was carried out: its number.
    fn after(&self, die: u32, slot: u32);
}

/// A gate that does nothing.
#[derive(Clone, Copy, Debug, Drop)]
pub struct FreeGate;

impl Gate for FreeGate {
    fn before(&self, _die: u32, _slot: u32) {}

    fn after(&self, _die: u32, _slot: u32) {}
}
