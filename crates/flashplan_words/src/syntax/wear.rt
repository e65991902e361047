//! The command `wear`.

ghost use Rattle.std.specs.Prelude.{IfOk};
ghost use Rattle.flashplan_words.specs.Syntax.{IsCommand, wear_app, wear_files_app};

use crate::syntax::parts::{command, on_files, with_arg};
use crate::syntax::shared::{begun_from, strict};
use clap::Command;
use command_arguments::slots;
use std::alloc::{AllocError, Global};

/// The command `wear`, with its files.
fn wear_files<'a>(alloc: Global) -> Result<Command<'a>, AllocError>
    ensures { IfOk result (λ c. IsCommand c wear_files_app) }
{
    let about = "Run a script on a store, and tell how often its blocks were erased";
    let example = "Example: flashplan wear plan.toml script.csv --slots 1000";
    on_files(alloc, command(alloc, "wear", about, example))
}

/// The command `wear`.
pub(crate) fn wear_words<'a>(alloc: Global) -> Result<Command<'a>, AllocError>
    ensures { IfOk result (λ c. IsCommand c wear_app) }
{
    let long = with_arg(wear_files(alloc), slots(alloc));
    let begun = with_arg(long, begun_from(alloc));
    with_arg(begun, strict(alloc))
}
