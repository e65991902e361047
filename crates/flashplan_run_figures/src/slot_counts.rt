//! What slots carried.

ghost use Rattle.std.specs.Prelude.{◌≡◌};
ghost use Rattle.flashplan_run_figures.specs.SlotCounts.{NOTHING, after_act};

use slot_types::Act;

/// How many slots carried what.
#[derive(Clone, Copy, PartialEq, Eq, Debug, Drop)]
pub struct SlotCounts {
    /// Slots that carried jobs, that collections read and programmed in, and that they erased in.
    pub jobs: u32,
    pub copies: u32,
    pub erases: u32,
    /// Pages that jobs programmed, and that collections did.
    pub written: u32,
    pub copied: u32,
}

impl SlotCounts {
    /// No slot.
    pub fn new() -> SlotCounts
        ensures { result ≡ NOTHING }
    {
        SlotCounts {
            jobs: 0,
            copies: 0,
            erases: 0,
            written: 0,
            copied: 0,
        }
    }

    /// Adds a slot that carried an act.
    pub fn note(&mut self, act: &Act)
        ensures { self.new ≡ after_act act.now self.old }
    {
        match act {
            Act::Read { .. } | Act::Trim { .. } => self.jobs = self.jobs.saturating_add(1),
            Act::Write { .. } => {
                self.jobs = self.jobs.saturating_add(1);
                self.written = self.written.saturating_add(1);
            }
            Act::CopyRead { .. } => self.copies = self.copies.saturating_add(1),
            Act::CopyProgram { .. } => {
                self.copies = self.copies.saturating_add(1);
                self.copied = self.copied.saturating_add(1);
            }
            Act::Erase { .. } => self.erases = self.erases.saturating_add(1),
        }
    }
}
