//! The words that the program takes.

ghost use Rattle.std.specs.Prelude.{◌≡◌, false, IfOk};
ghost use Rattle.clap.specs.Words.{app_of, rule_of, with_subcommand};
ghost use Rattle.flash_commands.specs.Syntax.{audit_app, files_app, flashrec_app, has_globals, named_app, plan_app, run_app, workers_rule};

use clap::{Arg, Command};
pub use command_arguments::VERSION;
use command_arguments::{defaulted, plan_file, required, script_file, slots};
use std::alloc::{AllocError, Global};

/// How many workers run the dies.
fn workers<'a>(alloc: Global) -> Arg<'a>
    ensures rule { rule_of result ≡ workers_rule }
    ensures local { result.global ≡ false }
{
    defaulted(
        alloc,
        "workers",
        "W",
        "1",
        "How many workers run the dies, from 1 to 16",
    )
}

/// The command `run`, with its files.
fn run_files<'a>(alloc: Global) -> Result<Command<'a>, AllocError>
    ensures app { IfOk result (λ c. app_of c ≡ files_app) }
    ensures local { IfOk result (λ c. has_globals c ≡ false) }
{
    Command::new(alloc, "run")
        .about("Run a script on a store, and print its report")
        .after_help("Example: flashrec run plan.toml script.csv --slots 1000 --workers 2")
        .arg(plan_file(alloc))?
        .arg(script_file(alloc))
}

/// The command `run`.
fn run_words<'a>(alloc: Global) -> Result<Command<'a>, AllocError>
    ensures app { IfOk result (λ c. app_of c ≡ run_app) }
    ensures local { IfOk result (λ c. has_globals c ≡ false) }
{
    run_files(alloc)?.arg(slots(alloc))?.arg(workers(alloc))
}

/// The command `audit`.
fn audit_words<'a>(alloc: Global) -> Result<Command<'a>, AllocError>
    ensures app { IfOk result (λ c. app_of c ≡ audit_app) }
    ensures local { IfOk result (λ c. has_globals c ≡ false) }
{
    let report = required(
        alloc,
        "REPORT",
        "A report, as run prints it; - is standard input",
    );
    Command::new(alloc, "audit")
        .about("Check the certificate of each die of a report")
        .after_help("Example: flashrec audit report.csv")
        .arg(report)
}

/// The command `plan`.
fn plan_words<'a>(alloc: Global) -> Result<Command<'a>, AllocError>
    ensures app { IfOk result (λ c. app_of c ≡ plan_app) }
    ensures local { IfOk result (λ c. has_globals c ≡ false) }
{
    Command::new(alloc, "plan")
        .about("Print the figures of a store's plan")
        .after_help("Example: flashrec plan plan.toml")
        .arg(plan_file(alloc))
}

/// The program's name, its version and what it is about.
fn name<'a>(alloc: Global) -> Command<'a>
    ensures { app_of result ≡ named_app }
{
    Command::new(alloc, "flashrec")
        .version(VERSION)
        .about(
            "A real-time flash store. Without words it runs a plan and a script that are built in",
        )
        .after_help(
            "Ends with 0 where all went well, 1 where a text, a file or memory is refused, 2 for a fault of the\n\
             words, 3 where a certificate is refused.\n\n\
             Example: flashrec run plan.toml script.csv --slots 1000\n\
             man maulgreen-texts has what plans, scripts and reports say",
        )
}

/// A program with one more command.
fn with_command<'a>(program: Command<'a>, command: Command<'a>) -> Result<Command<'a>, AllocError>
    requires { has_globals command ≡ false }
    ensures { IfOk result (λ c.
        app_of c ≡ with_subcommand (app_of program.entry) (app_of command.entry).top) }
{
    program.subcommand(command)
}

/// The words of the program.
pub fn program_words<'a>(alloc: Global) -> Result<Command<'a>, AllocError>
    ensures { IfOk result (λ c. app_of c ≡ flashrec_app) }
{
    let run = run_words(alloc)?;
    let audit = audit_words(alloc)?;
    let plan = plan_words(alloc)?;
    let with_run = with_command(name(alloc), run)?;
    let with_audit = with_command(with_run, audit)?;
    with_command(with_audit, plan)
}
