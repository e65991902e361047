//! The command `audit`.

ghost use Rattle.std.specs.Prelude.{IfOk};
ghost use Rattle.flashplan_words.specs.Syntax.{IsCommand, audit_app};

use crate::syntax::parts::{command, with_arg};
use crate::syntax::shared::{files, strict};
use clap::Command;
use std::alloc::{AllocError, Global};

/// What an audit prints.
const AUDIT_HELP: &str =
    "Prints for each die of each report a line, with the name of the report in front.
A report that can't be read is named on standard error, and the others are audited all the same. Ends with 1 where one
can't be read, and else with 3 where a certificate is refused.

Example: flashplan audit monday.csv tuesday.csv";

/// The command `audit`.
pub(crate) fn audit_words<'a>(alloc: Global) -> Result<Command<'a>, AllocError>
    ensures { IfOk result (λ c. IsCommand c audit_app) }
{
    let about = "Check the certificate of each die of several reports";
    let reports = files(
        alloc,
        "REPORT",
        "The reports, as run prints them; - is standard input",
    );
    let read = with_arg(Ok(command(alloc, "audit", about, AUDIT_HELP)), reports);
    with_arg(read, strict(alloc))
}
