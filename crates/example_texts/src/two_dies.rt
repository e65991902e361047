//! A run of two dies and five slots, whose worst jobs have the lateness 0 and -1.

/// The plan of its store: that of the run without words, with a second die.
pub const TWO_DIES: &str = "version = 1
dies = 2
blocks = 8
pages = 4
erase_slots = 3
logical = 12
alpha = 2

[[task]]
die = 0
cap = 4

[[task]]
die = 1
cap = 4
";

/// Its script.
pub const TWO_SCRIPT: &str = "at,die,task,kind,release,due,ops
0,0,0,job,2,5,R0 R1
0,0,0,job,0,5,R2 R3 R4
0,1,0,job,0,2,W3=0102030405060708090A0B0C0D0E0F10
0,1,0,collect,1,4,
1,1,0,job,1,9,R3
";

/// What became of it.
pub const TWO_REPORT: &str = "row,die,job,task,release,due,work,completion,lateness,given,items
job,0,0,0,2,5,2,4,-1,,ffffffffffffffffffffffffffffffff ffffffffffffffffffffffffffffffff
job,0,1,0,0,5,3,5,0,,ffffffffffffffffffffffffffffffff ffffffffffffffffffffffffffffffff ffffffffffffffffffffffffffffffff
job,1,0,0,0,2,1,1,-1,,
waived,1,1,0,1,4,0,,,1,
job,1,2,0,1,9,1,2,-7,,0102030405060708090a0b0c0d0e0f10
cert,0,1,,0,5,,5,0,,0 1
cert,1,0,,0,2,,1,-1,,0
";
