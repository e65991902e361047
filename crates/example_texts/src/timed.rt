//! A plan with times.

/// One die and one task: fmax is 1 + 2 + 6 = 9, and closed is 4 - 2 - 1 = 1. A job of two operations, one of them a
/// write, comes at most once in ten slots, and a collection once in twenty: of each 20 slots the jobs take at most 2 *
/// 2, and the collections 2 * 2 + 3.
pub const TIMED: &str = "version = 2
dies = 1
blocks = 4
pages = 4
erase_slots = 3
logical = 2
alpha = 2
common = 20

[[task]]
die = 0
cap = 6
period = 10
collect_period = 20
work = 2
writes = 1
";
