//! The words that the program takes. Each command has a file of its own.

ghost use Rattle.std.specs.Prelude.{◌≡◌, false, codes, IfOk};
ghost use Rattle.clap.specs.Words.{App, app_of, rule_of};
ghost use Rattle.command_arguments.specs.Arguments.{flag_rule};
ghost use Rattle.flashplan_words.specs.Syntax.{IsCommand, flashplan_app, named_app, output_rule, with_command, with_output};

mod arrivals;
mod audit;
mod compare;
mod cut;
mod design;
mod draw;
mod explain;
mod fill;
mod fit;
mod import;
mod keeps;
mod parts;
mod report;
mod run;
mod shared;
mod wear;

use arrivals::arrivals_words;
use audit::audit_words;
use clap::{Arg, Command};
use command_arguments::{VERSION, flag};
use compare::compare_words;
use cut::cut_words;
use design::design_words;
use draw::draw_words;
use explain::explain_words;
use fill::fill_words;
use fit::fit_words;
use import::import_words;
use keeps::keeps_words;
use parts::with_arg;
use report::report_words;
use run::run_words;
use std::alloc::{AllocError, Global};
use wear::wear_words;

/// The program's name and version, and what it is about.
fn name<'a>(alloc: Global) -> Command<'a>
    ensures { app_of result ≡ named_app }
{
    Command::new(alloc, "flashplan")
        .version(VERSION)
        .about("Helps to design the plan of a real-time flash store")
        .after_help(
            "Ends with 0 where all went well, 1 where a plan isn't accepted, or something was refused or failed,\n\
             2 for a fault of the words, 3 where a script breaks its plan, no plan was found, no checkpoint may\n\
             be taken, a certificate is refused, or a page is wrong after a cut, 4 where --strict finds something\n\
             refused or late.\n\n\
             Example: flashplan explain plan.toml\n\
             man maulgreen-texts has the texts; share/doc/maulgreen/docs/DESIGNING.md walks through a recorder's plan",
        )
}

/// The file that a command writes.
fn output<'a>(alloc: Global) -> Arg<'a>
    ensures rule { rule_of result ≡ output_rule }
    ensures local { result.global ≡ false }
{
    Arg::new(alloc, "output")
        .short('o')
        .long("output")
        .value_name("FILE")
        .default_value("-")
        .help(
            "Write to a file, whole or not at all, or through a device or a pipe; - is standard output",
        )
}

/// Whether no progress is shown.
fn quiet<'a>(alloc: Global) -> Arg<'a>
    ensures rule { rule_of result ≡ flag_rule (codes "quiet") }
    ensures local { result.global ≡ false }
{
    flag(alloc, "quiet", "Show no progress on a terminal")
}

/// A command that may write to a file, and be quiet.
fn with_output<'a>(
    alloc: Global,
    command: Result<Command<'a>, AllocError>,
) -> Result<Command<'a>, AllocError>
    ensures { (app : App) → IfOk command.entry (λ c. IsCommand c app)
        → IfOk result (λ c. IsCommand c (with_output app)) }
{
    let saved = with_arg(command, output(alloc));
    with_arg(saved, quiet(alloc))
}

/// A program with one more command, which may write to a file. Where there was no memory for one of them, there is none
/// for both: so what puts the program together frees nothing.
fn with_command<'a>(
    alloc: Global,
    program: Result<Command<'a>, AllocError>,
    command: Result<Command<'a>, AllocError>,
) -> Result<Command<'a>, AllocError>
    ensures { (whole one : App) → IfOk program.entry (λ c. app_of c ≡ whole)
        → IfOk command.entry (λ c. IsCommand c one)
        → IfOk result (λ c. app_of c ≡ with_command whole one) }
{
    let whole = with_output(alloc, command)?;
    program?.subcommand(whole)
}

/// The words of the program.
pub fn program_words<'a>(alloc: Global) -> Result<Command<'a>, AllocError>
    ensures { IfOk result (λ c. app_of c ≡ flashplan_app) }
{
    let explaining = with_command(alloc, Ok(name(alloc)), explain_words(alloc));
    let fitting = with_command(alloc, explaining, fit_words(alloc));
    let designing = with_command(alloc, fitting, design_words(alloc));
    let arriving = with_command(alloc, designing, arrivals_words(alloc));
    let filling = with_command(alloc, arriving, fill_words(alloc));
    let keeping = with_command(alloc, filling, keeps_words(alloc));
    let wearing = with_command(alloc, keeping, wear_words(alloc));
    let reporting = with_command(alloc, wearing, report_words(alloc));
    let drawing = with_command(alloc, reporting, draw_words(alloc));
    let comparing = with_command(alloc, drawing, compare_words(alloc));
    let importing = with_command(alloc, comparing, import_words(alloc));
    let running = with_command(alloc, importing, run_words(alloc));
    let cutting = with_command(alloc, running, cut_words(alloc));
    with_command(alloc, cutting, audit_words(alloc))
}
