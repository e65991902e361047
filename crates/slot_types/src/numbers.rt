//! Numbers of jobs and of tasks. Contracts read each as a plain number.

use std::marker::Model;

/// The number of a job or of a collection on its die: 0, 1, 2, .. to at most 65,535, in order of acceptance.
#[derive(Clone, Copy, PartialEq, Eq, PartialOrd, Ord, Default, Debug, Drop)]
pub struct JobNo(pub u32);

impl Model for JobNo {
    ghost use Rattle.std.specs.Prelude.{ℕ};

    ghost Value = { ℕ };

    ghost view = { λ n. n.0 };

    ghost inverse = { λ n. record { 0 = n } };
}

/// The number of a task on its die, from 0 to at most 15.
#[derive(Clone, Copy, PartialEq, Eq, PartialOrd, Ord, Debug, Drop)]
pub struct TaskNo(pub u32);

impl Model for TaskNo {
    ghost use Rattle.std.specs.Prelude.{ℕ};

    ghost Value = { ℕ };

    ghost view = { λ n. n.0 };

    ghost inverse = { λ n. record { 0 = n } };
}
