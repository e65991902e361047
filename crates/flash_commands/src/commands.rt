//! What the words of a command line ask for.

ghost use Rattle.std.specs.Prelude.{◌≡◌, IfOk, Some, None, map, option_map, string_bytes};
ghost use Rattle.clap.specs.Words.{app_of, first_of, found_of, rows_of, subcommand_rows_of};
ghost use Rattle.clap.specs.Kinds.{FailsBy, HasKind};
ghost use Rattle.clap.specs.Faults.{fault_of};
ghost use Rattle.flash_commands.specs.Commands.{command_asked, command_asked_by, command_named, number_between, range_fault, run_of, text_of_command, words_fault};
ghost use Rattle.flash_commands.specs.Syntax.{flashrec_app};

use crate::run_numbers::{Slots, Workers};
use crate::syntax::program_words;
use crate::word_faults::reported_of;
use clap::error::ErrorKind;
use clap::{ArgMatches, Error};
use std::alloc::Global;
use task_script::number;

/// What the words of a command line ask for. Files stand by their names.
#[derive(Clone, Copy, PartialEq, Eq, Debug)]
pub enum Command<'a> {
    /// Run the plan and the script that are built in.
    Alone,
    /// Run a script on a store, and print its report.
    Run {
        plan: &'a str,
        script: &'a str,
        /// How many slots each die runs.
        slots: Slots,
        /// How many workers run the dies.
        workers: Workers,
    },
    /// Check the certificates of a report.
    Audit {
        report: &'a str,
    },
    /// Print the figures of a plan.
    Plan {
        plan: &'a str,
    },
}

/// The value of an argument.
fn value<'a>(met: &ArgMatches<'a>, id: &str) -> Option<&'a str>
    ensures { option_map (λ s. s.now) result ≡ first_of id.now (rows_of (found_of met.now)) }
{
    met.get_str(id)
}

/// The number of slots that a text writes, if a run can have that many.
fn slots_in(text: &str) -> Option<Slots>
    ensures { option_map (λ slots. slots.count) result ≡ number_between 0 1048576 text.now }
{
    Slots::new(number(text.as_bytes())?)
}

/// The number of workers that a text writes, if a run can have that many.
fn workers_in(text: &str) -> Option<Workers>
    ensures { option_map (λ workers. workers.count) result ≡ number_between 1 16 text.now }
{
    Workers::new(number(text.as_bytes())?)
}

/// The run that was met.
fn run<'a>(met: &ArgMatches<'a>) -> Option<Command<'a>>
    ensures run { option_map text_of_command result ≡ run_of (rows_of (found_of met.now)) }
{
    let plan = value(met, "PLAN")?;
    let script = value(met, "SCRIPT")?;
    let slots = slots_in(value(met, "slots")?)?;
    let workers = workers_in(value(met, "workers")?)?;
    Some(Command::Run {
        plan,
        script,
        slots,
        workers,
    })
}

/// The command that was met, by its name.
fn command_named<'a>(name: &str, met: &ArgMatches<'a>) -> Option<Command<'a>>
    ensures named { option_map text_of_command result
        ≡ command_named name.now (rows_of (found_of met.now)) }
{
    if name == "run" {
        run(met)
    } else if name == "audit" {
        let report = value(met, "REPORT")?;
        Some(Command::Audit { report })
    } else if name == "plan" {
        let plan = value(met, "PLAN")?;
        Some(Command::Plan { plan })
    } else {
        None
    }
}

/// The command that clap met.
fn command_met<'a>(matches: &ArgMatches<'a>) -> Option<Command<'a>>
    ensures asked { option_map text_of_command result
        ≡ command_asked_by (subcommand_rows_of matches.now) }
{
    match matches.subcommand() {
        None => Some(Command::Alone),
        Some((name, met)) => command_named(name, met),
    }
}

/// The command that clap meets in the words, if its numbers lie in their ranges.
fn parsed<'a>(
    program: &mut clap::Command<'a>,
    words: &'a [String],
) -> Result<Option<Command<'a>>, Error>
    requires { app_of program.old ≡ flashrec_app }
    ensures ok { IfOk result (λ c.
        option_map text_of_command c ≡ command_asked (map string_bytes words.entry.now)) }
    ensures fault { FailsBy (fault_of flashrec_app (map string_bytes words.entry.now)) result }
{
    let matches = program.try_get_matches_from_mut(words)?;
    Ok(command_met(&matches))
}

/// The error for a number that is none or out of its range, which names its option and its value.
fn range_error(alloc: Global, mut program: clap::Command<'_>, words: &[String]) -> Error
    ensures { HasKind (range_fault None) result }
{
    let said = match reported_of(alloc, words) {
        Ok(said) => said,
        Err(error) => return Error::from(error),
    };
    match program.error(ErrorKind::ValueValidation, said.as_str()) {
        Ok(error) => error,
        Err(error) => Error::from(error),
    }
}

/// What the words ask for, the first of them being the program's name.
///
/// The words are `run PLAN SCRIPT --slots N --workers W`, with N from 0 to 1,048,576, and W from 1 to 16 or left out,
/// which is 1; `audit REPORT`; `plan PLAN`; or none. A number is 1 to 10 decimal digits.
///
/// The error is that of clap, which prints itself: a call for help, a fault of the words, as an option that is given
/// twice, or out of memory; and ValueValidation for a number that is none or out of its range.
#[tactic(auto, using(crate::proofs::KindLemmas::has_kind_in_first))]
pub fn read_words<'a>(alloc: Global, words: &'a [String]) -> Result<Command<'a>, Error>
    ensures ok { IfOk result (λ c.
        command_asked (map string_bytes words.entry.now) ≡ Some (text_of_command c)) }
    ensures fault { FailsBy (words_fault (map string_bytes words.entry.now)) result }
{
    let mut program = program_words(alloc)?;
    match parsed(&mut program, words) {
        Ok(Some(command)) => Ok(command),
        Ok(None) => Err(range_error(alloc, program, words)),
        Err(error) => Err(error),
    }
}
