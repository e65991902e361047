//! Devices that keep labels, and whose cells lie in a file.
#![tactic(auto)]

mod cell_file;
mod cells;
mod file_nand;
mod opening;
mod records;
mod saves;
mod sums;

pub use cell_file::{CellFile, NoCellFile};
pub use cells::CellStore;
pub use file_nand::FileNand;
pub use opening::OpenRefusal;
pub use records::{ERASED, Record};
pub use sums::check_sum;
