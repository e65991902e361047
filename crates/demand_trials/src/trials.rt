//! Both tests of a plan together, which answer its load alone.

ghost use Rattle.std.specs.Prelude.{◌≡◌, ◌↔◌, IfSome, IsSome};
ghost use Rattle.plan_rules.specs.Bound.{MeetsBound};
ghost use Rattle.demand_rules.specs.Demand.{PassesDemand, load};
ghost use Rattle.demand_rules.specs.Supply.{PassesSupply};

use crate::amounts::{MILLION, total_load};
use crate::fits::fits;
use demand_rules::{Terms, has_terms, supply_test};
use slot_types::DiePlan;

/// Of a million slots, how many a plan that passes its tests is asked for in the long run, 0 to 1,000,000: the sum over all
/// tasks of what their jobs ask for, and their collections, each rounded down; none where it doesn't pass. It answers as
/// [`terms_test`](demand_rules::terms_test) does, in a twentieth of its time, and takes no memory.
///
/// The plan meets its bound, as [`bound`](plan_rules::bound) says.
pub fn passing_load(plan: &DiePlan, terms: &Terms) -> Option<u32>
    requires { MeetsBound plan.now }
    ensures passes { IsSome result
        ↔ (PassesDemand plan.now terms.now × PassesSupply plan.now terms.now) }
    ensures load { IfSome result (λ found. found ≡ load plan.now terms.now) }
{
    if !has_terms(plan, terms) || supply_test(plan, terms).is_err() {
        return None;
    }
    // Most plans that don't pass ask for too much in the long run, or for more tokens than they get: these end here.
    let load = total_load(plan, terms.tasks.as_slice());
    if load > MILLION || !fits(plan, terms) {
        return None;
    }
    Some(load as u32)
}
