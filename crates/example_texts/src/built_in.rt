//! The run of the program without words: a write, and a read of the page that it wrote.

/// The plan of its store: one die of eight blocks of four pages, one task that may own four pages.
pub const PLAN: &str = "version = 1
dies = 1
blocks = 8
pages = 4
erase_slots = 3
logical = 12
alpha = 2

[[task]]
die = 0
cap = 4
";

/// Its script.
pub const SCRIPT: &str = "at,die,task,kind,release,due,ops
0,0,0,job,0,2,W3=11111111111111111111111111111111
1,0,0,job,1,3,R3
";

/// How many slots it runs.
pub const SLOTS: u32 = 2;

/// What became of it.
pub const REPORT: &str = "row,die,job,task,release,due,work,completion,lateness,given,items
job,0,0,0,0,2,1,1,-1,,
job,0,1,0,1,3,1,2,-1,,11111111111111111111111111111111
cert,0,0,,0,2,,1,-1,,0
";
