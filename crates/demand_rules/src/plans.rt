//! Both tests of a plan together.

ghost use Rattle.std.specs.Prelude.{◌↔◌, IsOk, IfOk, IfErr};
ghost use Rattle.plan_rules.specs.Bound.{MeetsBound};
ghost use Rattle.demand_rules.specs.Demand.{PassesDemand};
ghost use Rattle.demand_rules.specs.Supply.{PassesSupply};
ghost use Rattle.demand_rules.specs.Faults.{IsDemandLoad, IsTermsFault};

use crate::demands::{DemandFault, DemandLoad, demand_test};
use crate::supplies::{SupplyFault, supply_test};
use crate::terms::Terms;
use slot_types::DiePlan;

/// Why a plan doesn't pass both tests.
#[derive(Clone, Copy, PartialEq, Eq, Debug, Drop)]
pub enum TermsFault {
    Demand(DemandFault),
    Supply(SupplyFault),
}

/// Whether a die can do all that its tasks may ask for, and refuses none of it: [`demand_test`](crate::demand_test), and
/// where that is passed, [`supply_test`](crate::supply_test). It takes no memory.
///
/// The plan meets its bound, as [`bound`](plan_rules::bound) says.
pub fn terms_test(plan: &DiePlan, terms: &Terms) -> Result<DemandLoad, TermsFault>
    requires { MeetsBound plan.now }
    ensures passes { IsOk result
        ↔ (PassesDemand plan.now terms.now × PassesSupply plan.now terms.now) }
    ensures load { IfOk result (IsDemandLoad plan.now terms.now) }
    ensures fault { IfErr result (IsTermsFault plan.now terms.now) }
{
    match demand_test(plan, terms) {
        Err(fault) => Err(TermsFault::Demand(fault)),
        Ok(load) => match supply_test(plan, terms) {
            Err(fault) => Err(TermsFault::Supply(fault)),
            Ok(()) => Ok(load),
        },
    }
}
