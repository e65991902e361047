//! A die that keeps its plan and goes on by itself, life after life, whichever way each ends: definitions and laws about
//! them, apart from any body.
//!
//! - `PastLives`: the lives that a die had, which ended by themselves, by a checkpoint or by a loss of power;
//! - `Ongoing`: what stands of a die over all its lives, what an ask is answered, and what each move does;
//! - `Ahead`: asks whose release lies ahead.
//!
//! Each law is a function that does nothing, whose contract is the law.
#![tactic(auto)]

mod laws;

pub use laws::{
    a_die_goes_on_after_each_end, a_die_goes_on_by_itself, lives_since_a_loss_are_lives,
    ongoing_tasks_are_answered_for_their_own_asks, waiting_asks_are_taken,
};
