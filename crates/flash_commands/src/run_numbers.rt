//! The numbers of a run. Each is in its range by its type.

ghost use Rattle.std.specs.Prelude.{◌≡◌, ◌≤◌, option_map};
ghost use Rattle.flash_commands.specs.Ranges.{number_within};

use slot_types::{MAX_SLOT, MAX_WORKERS};

/// How many slots each die runs.
#[derive(Clone, Copy, PartialEq, Eq, Debug, Drop)]
pub struct Slots {
    /// From 0 to 1,048,576.
    pub count: u32,
    ghost in_range: { count ≤ 1048576 },
}

impl Slots {
    /// `count` slots, if that is at most 1,048,576.
    pub fn new(count: u32) -> Option<Slots>
        ensures { option_map (λ slots. slots.count) result ≡ number_within 0 1048576 count }
    {
        if count <= MAX_SLOT {
            Some(Slots { count })
        } else {
            None
        }
    }
}

/// How many workers run the dies.
#[derive(Clone, Copy, PartialEq, Eq, Debug, Drop)]
pub struct Workers {
    /// From 1 to 16.
    pub count: u32,
    ghost some: { 1 ≤ count },
    ghost few: { count ≤ 16 },
}

impl Workers {
    /// `count` workers, if that is 1 to 16.
    pub fn new(count: u32) -> Option<Workers>
        ensures { option_map (λ workers. workers.count) result ≡ number_within 1 16 count }
    {
        if 1 <= count && count <= MAX_WORKERS {
            Some(Workers { count })
        } else {
            None
        }
    }
}
