//! Whether plans pass the tests of `demand_rules`, for those who try many plans: what such a test tells beside that, as the
//! tightest interval, isn't looked for.
#![tactic(auto)]

mod amounts;
mod fits;
mod repeats;
mod trials;

pub use trials::passing_load;
