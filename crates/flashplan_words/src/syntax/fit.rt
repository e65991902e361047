//! The command `fit`.

ghost use Rattle.std.specs.Prelude.{IfOk};
ghost use Rattle.flashplan_words.specs.Syntax.{IsCommand, fit_app};

use crate::syntax::parts::{command, with_arg};
use clap::Command;
use command_arguments::required;
use std::alloc::{AllocError, Global};

/// What is found for a datasheet.
const FIT_HELP: &str =
    "A datasheet has read_us, program_us, erase_us, suspend_us, resume_us, blocks, pages and logical, and may have transfer_us,
margin_us, slot_us, program_typical_us, suspends and endurance. A [[task]] has period_ms, reads and writes; or burst_pages and
at_most_once_in_s; or pages_per_s; and may have deadline_ms. man maulgreen-texts says more. The plan says how long a slot is, and what is to spare.
Ends with 3 where no plan was found, and says what stands against it.

Example: flashplan fit part.toml > plan.toml";

/// The command `fit`.
pub(crate) fn fit_words<'a>(alloc: Global) -> Result<Command<'a>, AllocError>
    ensures { IfOk result (λ c. IsCommand c fit_app) }
{
    let about = "Find a plan for a part and its tasks, which passes its test";
    let sheet = required(
        alloc,
        "DATASHEET",
        "What a part's datasheet says, and what the tasks need, a TOML file; - is standard input",
    );
    with_arg(Ok(command(alloc, "fit", about, FIT_HELP)), sheet)
}
