//! The command `explain`.

ghost use Rattle.std.specs.Prelude.{IfOk};
ghost use Rattle.flashplan_words.specs.Syntax.{IsCommand, explain_app, explain_files_app};

use crate::syntax::parts::{command, with_arg};
use crate::syntax::shared::{begun_from, page_bytes, slot_us};
use clap::Command;
use command_arguments::plan_file;
use std::alloc::{AllocError, Global};

/// The command `explain`, with its files.
fn explain_files<'a>(alloc: Global) -> Result<Command<'a>, AllocError>
    ensures { IfOk result (λ c. IsCommand c explain_files_app) }
{
    let about = "Tell in sentences whether a store's plan is accepted, and what would mend it";
    let command = command(
        alloc,
        "explain",
        about,
        "Example: flashplan explain plan.toml --slot-us 250 --page-bytes 2048",
    );
    let planned = with_arg(Ok(command), plan_file(alloc));
    with_arg(planned, begun_from(alloc))
}

/// The command `explain`.
pub(crate) fn explain_words<'a>(alloc: Global) -> Result<Command<'a>, AllocError>
    ensures { IfOk result (λ c. IsCommand c explain_app) }
{
    let timed = with_arg(explain_files(alloc), slot_us(alloc));
    with_arg(timed, page_bytes(alloc))
}
