//! All that was found of a plan, and its lines.

ghost use Rattle.std.specs.Prelude.{◌≡◌, ◌++◌, [], IfOk, OnOk, take};
ghost use Rattle.slot_types.specs.Refusal.{FailsForMemory};
ghost use Rattle.flashplan_design.specs.Explanations.{AreFound, found_text};

use crate::alpha_texts::put_rows;
use crate::alphas::{AlphaRow, alpha_rows};
use crate::change_texts::put_ranked;
use crate::changes::{Change, ranked_changes};
use crate::findings::Finding;
use crate::sayings::put_findings;
use crate::solves::findings_of;
use crate::subjects::TaskName;
use plan_texts::PlanNumbers;
use slot_types::Refusal;
use std::alloc::Global;
use std::io;

/// How many changes are said at most.
const MOST_CHANGES: usize = 10;

/// What was found of a plan.
#[derive(Drop)]
pub struct Found {
    /// With which numbers it would do, one at a time.
    pub findings: Vec<Finding>,
    /// What each alpha comes to, with the numbers that go with it.
    pub rows: Vec<AlphaRow>,
    /// Of a plan that is refused the changes that its findings name, the cheapest first.
    pub changes: Vec<Change>,
}

/// Nothing, where there is nothing to be found. It takes no memory.
pub fn nothing(alloc: Global) -> Found
    ensures findings { result.findings.items ≡ [] }
    ensures rows { result.rows.items ≡ [] }
    ensures changes { result.changes.items ≡ [] }
{
    Found {
        findings: Vec::new(alloc),
        rows: Vec::new(alloc),
        changes: Vec::new(alloc),
    }
}

/// What is found of a plan whose numbers are within their limits. The only refusal is NoMemory.
pub fn found_of(
    alloc: Global,
    plan: &PlanNumbers,
    names: &[TaskName],
    is_accepted: bool,
) -> Result<Found, Refusal>
    ensures found { IfOk result (λ found. AreFound plan.now is_accepted
        found.findings.items found.rows.items found.changes.items) }
    ensures refused { FailsForMemory result }
{
    let findings = findings_of(alloc, plan, names)?;
    let rows = alpha_rows(alloc, plan)?;
    let changes = if is_accepted {
        Vec::new(alloc)
    } else {
        ranked_changes(alloc, plan, &findings)?
    };
    Ok(Found {
        findings,
        rows,
        changes,
    })
}

/// The first ten changes, or all where there are fewer.
fn first_changes(changes: &[Change]) -> &[Change]
    ensures { result.now ≡ take 10 changes.entry.now }
{
    if changes.len() < MOST_CHANGES {
        changes
    } else {
        &changes[..MOST_CHANGES]
    }
}

/// Adds what was found to a text, a line each; of the changes at most ten.
pub fn put_found(text: &mut Vec<u8>, found: &Found, slot_us: Option<u32>) -> io::Result<()>
    ensures { OnOk result (text.new.items ≡ text.old.items
        ++ found_text slot_us found.now.findings.items found.now.rows.items found.now.changes.items) }
{
    put_findings(text, &found.findings, slot_us)?;
    put_rows(text, &found.rows, slot_us)?;
    put_ranked(text, first_changes(&found.changes), slot_us)
}
