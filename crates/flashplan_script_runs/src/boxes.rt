//! A die in a box, which runs as it does without.

ghost use Rattle.std.specs.Box.{box_value};

use crate::script_dies::ScriptDie;
use slot_types::{Event, Refusal};
use std::alloc::Global;

impl<D: ScriptDie> ScriptDie for Box<D> {
    ghost running = { λ die. D.running (box_value die) };

    ghost runs_well = { λ die. D.runs_well (box_value die) };

    fn carry_to(&mut self, alloc: Global, slot: u32) -> Result<(), Refusal> {
        self.as_mut().carry_to(alloc, slot)
    }

    fn ask(&mut self, alloc: Global, event: Event) -> Result<Option<Refusal>, Refusal> {
        self.as_mut().ask(alloc, event)
    }
}
