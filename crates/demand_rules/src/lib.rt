//! Plans with deadlines of their own and bursts, and the tests that such a plan passes: in each number of slots, what may
//! be asked of them fits; and what a task may write comes back to it.
#![tactic(auto)]

mod amounts;
mod demands;
mod intervals;
mod laws;
mod limits;
mod plans;
mod supplies;
mod terms;

pub use demands::{DemandFault, DemandLoad, demand_test};
pub use laws::{demand_fits_windows, passing_plans_pass};
pub use limits::{LimitFault, TermsNumber, has_terms, limits_test};
pub use plans::{TermsFault, terms_test};
pub use supplies::{Lack, SupplyFault, supply_test};
pub use terms::{TaskTerms, Terms, TermsList};
