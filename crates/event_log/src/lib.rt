//! The log of a die as small records: what was done, without the bytes that the jobs keep.
#![tactic(auto)]

mod deeds;
mod event_log;
mod items_from;
mod laws;
mod notes_from;
mod runs;
mod slots_back;
mod waived_of;
mod waivers;

pub use deeds::Deed;
pub use event_log::EventLog;
pub use laws::{entries_stay, events_go_on_fitting, records_are_counted};
pub use notes_from::{NoteParts, NotesFrom};
pub use runs::Runs;
pub use slots_back::{SlotRun, SlotsBack};
pub use waived_of::WaivedOf;
