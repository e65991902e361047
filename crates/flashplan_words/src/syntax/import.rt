//! The command `import`.

ghost use Rattle.std.specs.Prelude.{◌≡◌, false, codes, IfOk};
ghost use Rattle.clap.specs.Words.{rule_of};
ghost use Rattle.command_arguments.specs.Arguments.{flag_rule, needed_rule};
ghost use Rattle.flashplan_words.specs.Syntax.{IsCommand, due_rule, import_app, import_trace_app};

use crate::syntax::parts::{command, with_arg};
use crate::syntax::shared::files;
use clap::{Arg, Command};
use command_arguments::{defaulted, flag, needed};
use std::alloc::{AllocError, Global};

/// What is made of a trace.
const IMPORT_HELP: &str =
    "A trace is fio's I/O log, version 3 (write_iolog): time in microseconds, file, action, offset, length.
Each trace is a die, and each file of it a task; each request is a job of 1 to 64 pages of 4096 bytes. Logs of several
jobs that share a die go one after the other: cat *.log > trace. What doesn't fit is refused with its line, and the
status is 1.

Example: flashplan import trace --slot-us 200 --plan -o plan.toml
         flashplan import disk0.log disk1.log --slot-us 200 -o script.csv";

/// How long a slot of a trace takes.
fn slot_length<'a>(alloc: Global) -> Arg<'a>
    ensures rule { rule_of result ≡ needed_rule (codes "slot-us") }
    ensures local { result.global ≡ false }
{
    needed(
        alloc,
        "slot-us",
        "U",
        "How many microseconds a slot takes, from 0 to 1048576, 0 being 1 (required)",
    )
}

/// When a request of a trace is due.
fn due<'a>(alloc: Global) -> Arg<'a>
    ensures rule { rule_of result ≡ due_rule }
    ensures local { result.global ≡ false }
{
    defaulted(
        alloc,
        "due",
        "D",
        "20",
        "How many slots after it came a request is due, from 0 to 1048576, 0 being 1",
    )
}

/// Whether the plan of a trace is made.
fn as_plan<'a>(alloc: Global) -> Arg<'a>
    ensures rule { rule_of result ≡ flag_rule (codes "plan") }
    ensures local { result.global ≡ false }
{
    flag(
        alloc,
        "plan",
        "Write the plan, and not the script that runs on it",
    )
}

/// The command `import`, with its trace.
fn import_trace<'a>(alloc: Global) -> Result<Command<'a>, AllocError>
    ensures { IfOk result (λ c. IsCommand c import_trace_app) }
{
    let about = "Write the script, or the plan, of traces of fio's requests";
    let traces = files(
        alloc,
        "TRACE",
        "The requests of a die, as fio logs them; - is standard input",
    );
    let traced = with_arg(Ok(command(alloc, "import", about, IMPORT_HELP)), traces);
    with_arg(traced, slot_length(alloc))
}

/// The command `import`.
pub(crate) fn import_words<'a>(alloc: Global) -> Result<Command<'a>, AllocError>
    ensures { IfOk result (λ c. IsCommand c import_app) }
{
    let timed = with_arg(import_trace(alloc), due(alloc));
    with_arg(timed, as_plan(alloc))
}
