//! What is said of a plan, in sentences of a line each.

ghost use Rattle.std.specs.Prelude.{◌≡◌, ◌++◌, ℕ, List, OnOk};
ghost use Rattle.flashplan_design.specs.Findings.{findings_text};

use crate::findings::{Finding, Timed};
use flashplan_slot_times::Units;
use std::alloc::Global;
use std::io;
use std::io::Write;

/// What is said of a plan: first its faults, with what would mend them, and then what its numbers come to.
#[derive(Drop)]
pub struct Sayings {
    pub faults: Vec<u8>,
    pub figures: Vec<u8>,
    /// What is known of a slot and of a page.
    pub units: Units,
}

impl Sayings {
    /// Nothing. It takes no memory.
    pub fn new(alloc: Global, units: Units) -> Sayings {
        Sayings {
            faults: Vec::new(alloc),
            figures: Vec::new(alloc),
            units,
        }
    }

    /// Adds all of it to a text, the faults first.
    pub fn put(&self, text: &mut Vec<u8>) -> io::Result<()>
        ensures { OnOk result ((more : List ℕ) × (text.new.items ≡ text.old.items ++ more)) }
    {
        text.extend_from_slice(&self.faults)?;
        text.extend_from_slice(&self.figures)?;
        Ok(())
    }
}

/// Adds what was found of a plan to a text, a line each.
pub fn put_findings(
    text: &mut Vec<u8>,
    findings: &[Finding],
    slot_us: Option<u32>,
) -> io::Result<()>
    ensures { OnOk result (text.new.items
        ≡ text.old.items ++ findings_text slot_us findings.now) }
{
    for of in findings {
        let finding = Timed { of: *of, slot_us };
        writeln!(text, "{finding}")?;
    }
    Ok(())
}
