//! Plans with deadlines of their own and bursts as texts: their reader and their writer.
#![tactic(auto)]

mod faults;
mod keys;
mod numbers;
mod plans;
mod stores;
mod tables;
mod terms_reading;
mod writing;

pub use faults::{DieFault, Place, TableName, TermsRefusal};
pub use keys::Key;
pub use numbers::{TaskList, TaskNumbers, TermsNumbers, TopNumbers, terms_numbers};
pub use plans::plans_of;
pub use stores::{DieTerms, StoreTerms, die_terms, read_terms};
pub use terms_reading::read_terms_from;
pub use writing::write_terms;
