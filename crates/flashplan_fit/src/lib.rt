//! From a part's datasheet and what its tasks need to a plan that passes its test.
#![tactic(auto)]

mod advices;
mod datasheets;
mod decimals;
mod faults;
mod fits;
mod found_texts;
mod lives;
mod places;
mod plan_checks;
mod plans;
mod searches;
mod sheet_faults;
mod sheet_texts;
mod slots;
mod terms_plans;
mod terms_searches;

pub use datasheets::{Asked, InSlots, Need, Needs, Part, Sheet, Suspends};
pub use decimals::Decimal;
pub use faults::{Advice, FitFault, LongerTime, Reason, Unfound, WholeErase};
pub use fits::{Fitted, fit, fit_sheet};
pub use sheet_faults::{Level, Position, SheetFault, Wrong};
