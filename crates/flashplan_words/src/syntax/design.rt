//! The command `design`.

ghost use Rattle.std.specs.Prelude.{IfOk};
ghost use Rattle.flashplan_words.specs.Syntax.{IsCommand, design_app};

use crate::syntax::parts::{command, with_arg};
use clap::Command;
use command_arguments::required;
use std::alloc::{AllocError, Global};

/// What the page has.
const DESIGN_HELP: &str =
    "The page has the plan that fit finds, its test by task, a run of the heaviest use that it allows with a picture of it, how
often blocks are erased, how much memory a die takes, and what a mount would take after a loss of power. It is one HTML file,
which loads nothing and has no scripts. Ends with 3 where no plan was found, and says what stands against it.

Example: flashplan design part.toml -o part.html";

/// The command `design`.
pub(crate) fn design_words<'a>(alloc: Global) -> Result<Command<'a>, AllocError>
    ensures { IfOk result (λ c. IsCommand c design_app) }
{
    let about =
        "Write a page of the plan that is found for a part and its tasks, and of a run of it";
    let sheet = required(
        alloc,
        "DATASHEET",
        "What a part's datasheet says, and what the tasks need, a TOML file; - is standard input",
    );
    with_arg(Ok(command(alloc, "design", about, DESIGN_HELP)), sheet)
}
