//! The labels of a device with spare blocks.
#![tactic(auto)]

mod labelled;
mod laws;

pub use labelled::LabelledSpares;
pub use laws::{a_device_made_anew_has_the_same_pages, a_mount_goes_on_by_any_numbers};
