//! The test that what may be asked of any interval fits into it.

ghost use Rattle.std.specs.Prelude.{◌↔◌, IsOk, IfOk, IfErr};
ghost use Rattle.plan_rules.specs.Bound.{MeetsBound};
ghost use Rattle.demand_rules.specs.Demand.{PassesDemand};
ghost use Rattle.demand_rules.specs.Faults.{IsDemandLoad, IsDemandFault};

use crate::amounts::{MILLION, total_demand, total_load};
use crate::intervals::{first_overfull, short_of, tightest};
use crate::limits::{LimitFault, limits_test};
use crate::terms::Terms;
use slot_types::{DiePlan, MAX_SLOT};

/// What a plan that passes the test asks of its die.
#[derive(Clone, Copy, PartialEq, Eq, Debug, Drop)]
pub struct DemandLoad {
    /// How many of a million slots are asked for in the long run, 0 to 1,000,000: the sum over all tasks of what their
    /// jobs ask for and what their collections ask for, each rounded down.
    pub load: u32,
    /// Of all intervals of which anything may be asked, one that then has the fewest slots left, by its length in slots.
    pub tightest: u32,
    /// How many slots of it are left at least, whatever is asked.
    pub slack: u32,
}

/// Why a plan doesn't pass the test: what is wrong first.
#[derive(Clone, Copy, PartialEq, Eq, Debug, Drop)]
pub enum DemandFault {
    Limits(LimitFault),
    /// In the long run more is asked than there are slots. The number is what is asked of a million slots.
    Load(u64),
    /// The shortest interval of which more may be asked than it has slots, by its length, and how many slots more.
    Overfull { slots: u32, excess: u64 },
}

/// Whether a die can do all that its tasks may ask for, with deadlines and bursts: the processor demand criterion
/// (Baruah, Rosier and Howell 1990), for each interval that a life has; and in the long run. It takes no memory.
///
/// It is exact for the most that tasks may ask for: where it finds an interval overfull, jobs that are all released at its
/// start, and then as often as they may, and collections that all take their most slots, can't all be done by its end. But
/// a collection rarely takes its most slots, and some are waived, so that a plan that fails may still never be late.
///
/// The faults, in the order in which they are looked for: terms that aren't the plan's, a load above 1, an interval that is
/// overfull. The plan meets its bound, as [`bound`](plan_rules::bound) says.
pub fn demand_test(plan: &DiePlan, terms: &Terms) -> Result<DemandLoad, DemandFault>
    requires { MeetsBound plan.now }
    ensures passes { IsOk result ↔ PassesDemand plan.now terms.now }
    ensures load { IfOk result (IsDemandLoad plan.now terms.now) }
    ensures fault { IfErr result (IsDemandFault plan.now terms.now) }
{
    if let Err(fault) = limits_test(plan, terms) {
        return Err(DemandFault::Limits(fault));
    }
    let load = total_load(plan, terms.tasks.as_slice());
    if load > MILLION {
        return Err(DemandFault::Load(load));
    }
    if let Some(known) = short_of(plan, terms, MAX_SLOT, 0) {
        let slots = first_overfull(plan, terms, known);
        let demand = total_demand(plan, terms.tasks.as_slice(), slots);
        return Err(DemandFault::Overfull {
            slots,
            excess: demand - u64::from(slots),
        });
    }
    let tight = tightest(plan, terms);
    Ok(DemandLoad {
        load: load as u32,
        tightest: tight.slots,
        slack: tight.slack,
    })
}
