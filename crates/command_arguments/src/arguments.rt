//! The arguments of both programs.

ghost use Rattle.std.specs.Prelude.{◌≡◌, false, codes};
ghost use Rattle.clap.specs.Words.{rule_of};
ghost use Rattle.command_arguments.specs.Arguments.{default_rule, flag_rule, needed_rule, option_rule, required_rule, slots_rule};

use clap::{Arg, ArgAction};
use std::alloc::Global;

/// A word that has to be there, as the name of a file.
pub fn required<'a>(alloc: Global, id: &'a str, help: &'a str) -> Arg<'a>
    ensures rule { rule_of result ≡ required_rule id.entry.now }
    ensures local { result.global ≡ false }
{
    Arg::new(alloc, id).required(true).help(help)
}

/// An option `--ID NAME` that has to be there.
pub fn needed<'a>(alloc: Global, id: &'a str, name: &'a str, help: &'a str) -> Arg<'a>
    ensures rule { rule_of result ≡ needed_rule id.entry.now }
    ensures local { result.global ≡ false }
{
    Arg::new(alloc, id)
        .long(id)
        .value_name(name)
        .required(true)
        .help(help)
}

/// An option `--ID NAME` that may be left out.
pub fn option<'a>(alloc: Global, id: &'a str, name: &'a str, help: &'a str) -> Arg<'a>
    ensures rule { rule_of result ≡ option_rule id.entry.now }
    ensures local { result.global ≡ false }
{
    Arg::new(alloc, id).long(id).value_name(name).help(help)
}

/// An option `--ID NAME` that has this value where it is left out.
pub fn defaulted<'a>(
    alloc: Global,
    id: &'a str,
    name: &'a str,
    value: &'a str,
    help: &'a str,
) -> Arg<'a>
    ensures rule { rule_of result ≡ default_rule id.entry.now value.entry.now }
    ensures local { result.global ≡ false }
{
    Arg::new(alloc, id)
        .long(id)
        .value_name(name)
        .default_value(value)
        .help(help)
}

/// A flag `--ID`.
pub fn flag<'a>(alloc: Global, id: &'a str, help: &'a str) -> Arg<'a>
    ensures rule { rule_of result ≡ flag_rule id.entry.now }
    ensures local { result.global ≡ false }
{
    Arg::new(alloc, id)
        .long(id)
        .action(ArgAction::SetTrue)
        .help(help)
}

/// The file that has the plan.
pub fn plan_file<'a>(alloc: Global) -> Arg<'a>
    ensures rule { rule_of result ≡ required_rule (codes "PLAN") }
    ensures local { result.global ≡ false }
{
    required(
        alloc,
        "PLAN",
        "The plan of the store, a TOML file; - is standard input",
    )
}

/// The file that has the script.
pub fn script_file<'a>(alloc: Global) -> Arg<'a>
    ensures rule { rule_of result ≡ required_rule (codes "SCRIPT") }
    ensures local { result.global ≡ false }
{
    required(
        alloc,
        "SCRIPT",
        "The jobs and collections that the dies get, a CSV file; - is standard input",
    )
}

/// How many slots each die runs.
pub fn slots<'a>(alloc: Global) -> Arg<'a>
    ensures rule { rule_of result ≡ slots_rule }
    ensures local { result.global ≡ false }
{
    needed(
        alloc,
        "slots",
        "N",
        "How many slots each die runs, from 0 to 1048576 (required)",
    )
}
