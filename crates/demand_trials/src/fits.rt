//! Whether each interval has room for what may be asked of it.
//!
//! What may be asked of `n` slots grows with `n`. So it is looked at from above: where less than `n` is asked of `n`
//! slots, any fewer slots down to what is asked have room for it (Zhang and Burns 2009).

ghost use Rattle.std.specs.Prelude.{◌↔◌, IsTrue};
ghost use Rattle.plan_rules.specs.Bound.{MeetsBound};
ghost use Rattle.demand_rules.specs.Demand.{FitsAllSlots, HasTerms};

use crate::amounts::total_demand;
use crate::repeats::enough;
use demand_rules::Terms;
use slot_types::DiePlan;

/// Whether each interval that a life has, has room for what may be asked of it.
pub(crate) fn fits(plan: &DiePlan, terms: &Terms) -> bool
    requires bound { MeetsBound plan.now }
    requires has { HasTerms plan.now terms.now }
    ensures { IsTrue result ↔ FitsAllSlots plan.now terms.now }
{
    let tasks = terms.tasks.as_slice();
    let mut end = enough(plan, terms);
    while end > 0 {
        let slots = end - 1;
        let demand = total_demand(plan, tasks, slots);
        if demand > u64::from(slots) {
            return false;
        }
        end = demand as u32;
    }
    true
}
