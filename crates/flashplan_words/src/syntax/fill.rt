//! The command `fill`.

ghost use Rattle.std.specs.Prelude.{◌≡◌, false, codes, IfOk};
ghost use Rattle.clap.specs.Words.{rule_of};
ghost use Rattle.command_arguments.specs.Arguments.{needed_rule};
ghost use Rattle.flashplan_words.specs.Syntax.{IsCommand, count_rule, fill_app, fill_lives_app};

use crate::syntax::parts::{command, with_arg};
use crate::syntax::shared::seed;
use clap::{Arg, Command};
use command_arguments::{defaulted, needed, plan_file};
use std::alloc::{AllocError, Global};

/// How dies are filled, and what goes on from there.
const FILL_HELP: &str =
    "The plan has to have times (version 2), and to pass its test. The dies run life after life, each for as many slots
as their numbers last, all that their tasks may ask for, as arrivals --fill makes it: each page is written once, in
order, before any is drawn. What stands on them is printed, as explain --from says it, and how many lives they had is
reported on standard error.

report, wear, arrivals, run and explain go on from there with --from CHECKPOINT, draw and compare with --checkpoint.

Example: flashplan fill plan.toml --to full.csv
         flashplan arrivals plan.toml --slots 1000 --from full.csv > script.csv
         flashplan report plan.toml script.csv --slots 1000 --from full.csv";

/// How many lives the dies have.
fn lives<'a>(alloc: Global) -> Arg<'a>
    ensures rule { rule_of result ≡ count_rule (codes "lives") }
    ensures local { result.global ≡ false }
{
    defaulted(
        alloc,
        "lives",
        "L",
        "0",
        "How many lives the dies have at least, from 0 to 1048576; more until they are full, and 1000 at most",
    )
}

/// The checkpoint that is written.
fn saved_to<'a>(alloc: Global) -> Arg<'a>
    ensures rule { rule_of result ≡ needed_rule (codes "to") }
    ensures local { result.global ≡ false }
{
    needed(
        alloc,
        "to",
        "CHECKPOINT",
        "The file that gets the checkpoint of the full dies, whole or not at all; - is standard output (required)",
    )
}

/// The command `fill`, with its plan and its lives.
fn fill_lives<'a>(alloc: Global) -> Result<Command<'a>, AllocError>
    ensures { IfOk result (λ c. IsCommand c fill_lives_app) }
{
    let about = "Run the dies of a plan until each of their pages is written, and save them";
    let command = command(alloc, "fill", about, FILL_HELP);
    let planned = with_arg(Ok(command), plan_file(alloc));
    with_arg(planned, lives(alloc))
}

/// The command `fill`.
pub(crate) fn fill_words<'a>(alloc: Global) -> Result<Command<'a>, AllocError>
    ensures { IfOk result (λ c. IsCommand c fill_app) }
{
    let seeded = with_arg(fill_lives(alloc), seed(alloc));
    with_arg(seeded, saved_to(alloc))
}
