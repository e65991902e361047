//! A command and its arguments, put together where memory may run out.

ghost use Rattle.std.specs.Prelude.{◌≡◌, false, IfOk};
ghost use Rattle.clap.specs.Words.{App, Rule, new_app, rule_of, with_rule};
ghost use Rattle.flashplan_words.specs.Syntax.{IsCommand, on_files};

use clap::{Arg, Command};
use command_arguments::{plan_file, script_file};
use std::alloc::{AllocError, Global};

/// A command without arguments, what it is about, and what its help ends with.
pub(crate) fn command<'a>(
    alloc: Global,
    name: &'a str,
    about: &'a str,
    after_help: &'a str,
) -> Command<'a>
    ensures { IsCommand result (new_app name.entry.now) }
{
    Command::new(alloc, name)
        .about(about)
        .after_help(after_help)
}

/// A command with one more argument. Where there was no memory for the command, there is none for this one: so what
/// puts a command together has one way out, and frees nothing on it.
pub(crate) fn with_arg<'a>(
    command: Result<Command<'a>, AllocError>,
    arg: Arg<'a>,
) -> Result<Command<'a>, AllocError>
    requires { arg.global ≡ false }
    ensures { (app : App) (rule : Rule) → IfOk command.entry (λ c. IsCommand c app)
        → rule_of arg.entry ≡ rule → IfOk result (λ c. IsCommand c (with_rule app rule)) }
{
    command?.arg(arg)
}

/// A command on a plan and a script.
pub(crate) fn on_files<'a>(alloc: Global, command: Command<'a>) -> Result<Command<'a>, AllocError>
    ensures { (app : App) → IsCommand command.entry app
        → IfOk result (λ c. IsCommand c (on_files app)) }
{
    let planned = with_arg(Ok(command), plan_file(alloc));
    with_arg(planned, script_file(alloc))
}
