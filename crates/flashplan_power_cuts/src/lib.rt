//! Runs of a script on a die over a part in memory, whose cells keep labels: the power goes in a call, the part is
//! mounted, and it is said what each page gives then, and what the mount cost.
#![tactic(auto)]

mod cut_dies;
mod erasing;
mod mounted_dies;
mod page_writes;
mod runs;
mod said;
mod saving;
mod texts;
mod told;
mod trials;
mod tried_texts;
mod written_pages;

pub use cut_dies::{CutDie, Ended, part_call};
pub use mounted_dies::mounted_die;
pub use page_writes::PageWrite;
pub use runs::{CutAt, CutFault, CutRun, TriedRun, cut_at, cut_each};
pub use said::{Gives, Lost, PageSaid, content_of, gives_of, is_right, say_all, writing_of};
pub use saving::save_mounted;
pub use texts::cut_text;
pub use told::{Told, tell_cut, tell_each};
pub use trials::{Amiss, Tally, Trials, Tries, WrongCut};
pub use tried_texts::tried_text;
