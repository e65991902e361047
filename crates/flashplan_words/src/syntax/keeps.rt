//! The command `keeps`.

ghost use Rattle.std.specs.Prelude.{IfOk};
ghost use Rattle.flashplan_words.specs.Syntax.{IsCommand, keeps_app, keeps_files_app};

use crate::syntax::parts::{command, on_files, with_arg};
use crate::syntax::shared::slot_us;
use clap::Command;
use command_arguments::slots;
use std::alloc::{AllocError, Global};

/// What the status says.
const KEEPS_HELP: &str = "Ends with 0 where it keeps them, and with 3 where it doesn't.

Example: flashplan keeps plan.toml script.csv --slots 1000";

/// The command `keeps`, with its files.
fn keeps_files<'a>(alloc: Global) -> Result<Command<'a>, AllocError>
    ensures { IfOk result (λ c. IsCommand c keeps_files_app) }
{
    let about =
        "Tell whether a script keeps the plans of its dies, and if not, what breaks them first";
    on_files(alloc, command(alloc, "keeps", about, KEEPS_HELP))
}

/// The command `keeps`.
pub(crate) fn keeps_words<'a>(alloc: Global) -> Result<Command<'a>, AllocError>
    ensures { IfOk result (λ c. IsCommand c keeps_app) }
{
    let long = with_arg(keeps_files(alloc), slots(alloc));
    with_arg(long, slot_us(alloc))
}
