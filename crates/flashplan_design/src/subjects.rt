//! What a sentence speaks of.

ghost use Rattle.std.specs.Prelude.{Some};
ghost use Rattle.flashplan_design.specs.Findings.{name_text};

use std::fmt;
use std::fmt::{Display, Formatter, Write};

/// A task of a die, by its place in the text of its plan and by its number on its die.
#[derive(Clone, Copy, PartialEq, Eq, Debug, Drop)]
pub struct TaskName {
    /// Its place in the text, the first being 1.
    pub nth: u64,
    pub die: u32,
    pub task: u32,
}

impl Display for TaskName {
    ghost output = { λ name. Some (name_text name) };

    fn fmt<W: Write>(&self, f: &mut Formatter<W>) -> fmt::Result {
        let (nth, die, task) = (self.nth, self.die, self.task);
        write!(f, "[[task]] {nth} (die {die} task {task})")
    }
}

/// What a sentence speaks of.
#[derive(Clone, Copy, PartialEq, Eq, Debug, Drop)]
pub enum Subject {
    Plan,
    Die(u32),
    Task(TaskName),
}

impl Display for Subject {
    fn fmt<W: Write>(&self, f: &mut Formatter<W>) -> fmt::Result {
        match self {
            Subject::Plan => f.write_str("plan"),
            Subject::Die(die) => write!(f, "die {die}"),
            Subject::Task(name) => write!(f, "{name}"),
        }
    }
}
