//! Plans with one number changed, put to the test.

ghost use Rattle.std.specs.Prelude.{◌≡◌, ◌↔◌, ◌≤◌, IsTrue};
ghost use Rattle.plan_rules.specs.Bound.{MeetsBound};
ghost use Rattle.flashplan_design.specs.Trials.{FindsBlocks, FindsLogical, with_blocks};

use plan_rules::{bound, figures};
use slot_types::{DiePlan, MAX_BLOCKS, MIN_BLOCKS};

/// Whether a plan meets its bound with `blocks` blocks, which it then has.
fn meets_with_blocks(plan: &mut DiePlan, blocks: u32) -> bool
    ensures meets { IsTrue result ↔ MeetsBound (with_blocks plan.old blocks) }
    ensures plan { plan.new ≡ with_blocks plan.old blocks }
{
    plan.shape.blocks = blocks;
    bound(plan).is_ok()
}

/// The first number of blocks with which a plan meets its bound; any number of blocks is left in it.
fn first_that_meets(plan: &mut DiePlan) -> Option<u32>
    ensures found { FindsBlocks plan.old result }
    ensures plan { with_blocks plan.new plan.old.shape.blocks ≡ plan.old }
{
    for blocks in MIN_BLOCKS..=MAX_BLOCKS {
        if meets_with_blocks(plan, blocks) {
            return Some(blocks);
        }
    }
    None
}

/// The least number of blocks with which a plan meets its bound, the rest being as it is; none where no number of them
/// would do. Each is put to the test. It takes any plan, which is afterwards what it was, and no memory.
pub fn least_blocks(plan: &mut DiePlan) -> Option<u32>
    ensures found { FindsBlocks plan.old result }
    ensures plan { plan.new ≡ plan.old }
{
    let blocks = plan.shape.blocks;
    let least = first_that_meets(plan);
    plan.shape.blocks = blocks;
    least
}

/// The greatest number of logical pages with which a plan meets its bound, the rest being as it is; none where no number
/// of them would do. It takes any plan, which is afterwards what it was, and no memory.
pub fn greatest_logical(plan: &mut DiePlan) -> Option<u32>
    ensures found { FindsLogical plan.old result }
    ensures plan { plan.new ≡ plan.old }
{
    let logical = plan.logical;
    plan.logical = 1;
    let greatest = match bound(plan) {
        Ok(()) => Some(figures(plan).live - 1),
        Err(_) => None,
    };
    plan.logical = logical;
    greatest
}
