//! The command `run`.

ghost use Rattle.std.specs.Prelude.{◌≡◌, false, codes, IfOk};
ghost use Rattle.clap.specs.Words.{rule_of};
ghost use Rattle.command_arguments.specs.Arguments.{flag_rule, option_rule};
ghost use Rattle.flashplan_words.specs.Syntax.{IsCommand, run_app, run_files_app, run_saved_app};

use crate::syntax::parts::{command, on_files, with_arg};
use crate::syntax::shared::{begun_from, fail_at, strict};
use clap::{Arg, Command};
use command_arguments::{flag, option, slots};
use std::alloc::{AllocError, Global};

/// What a run on dies in memory does with checkpoints.
const RUN_HELP: &str =
    "Prints the report that flashrec run prints. Each die is at slot 0 at first; with --from it goes on as it was saved.
With --to a die that isn't done with its jobs and collections after the last slot goes on with slots in which nothing
comes, as many as they take; this is reported. Ends with 3 where no checkpoint may be taken all the same: the report is
printed then, and the file stays as it was.

With --fail-at all dies are fresh, and no checkpoint is written; the slot in which the device failed is reported on
standard error.

With --keep each die keeps its plan, which has times or terms: a row of a job is an ask of its task, and is refused where
the task has asked for too much, or where it says another release or deadline than the plan gives; rows of collections are
passed over, since the die enters its own. What is refused is reported by its cause. All dies are fresh, and none is saved.

Example: flashplan run plan.toml morning.csv --slots 1000 --to noon.csv
         flashplan run plan.toml evening.csv --slots 1000 --from noon.csv --to night.csv";

/// The checkpoint that is written.
fn saved_to<'a>(alloc: Global) -> Arg<'a>
    ensures rule { rule_of result ≡ option_rule (codes "to") }
    ensures local { result.global ≡ false }
{
    option(
        alloc,
        "to",
        "CHECKPOINT",
        "The file to which the checkpoint of the dies' end is written, whole or not at all, after the report",
    )
}

/// Whether each die keeps its plan.
fn keep<'a>(alloc: Global) -> Arg<'a>
    ensures rule { rule_of result ≡ flag_rule (codes "keep") }
    ensures local { result.global ≡ false }
{
    flag(
        alloc,
        "keep",
        "Let each die keep its plan: what a task asks beyond it is refused, and nothing is late",
    )
}

/// The command `run`, with its files.
fn run_files<'a>(alloc: Global) -> Result<Command<'a>, AllocError>
    ensures { IfOk result (λ c. IsCommand c run_files_app) }
{
    let about =
        "Run a script on a store, from a checkpoint and to a checkpoint, and print its report";
    on_files(alloc, command(alloc, "run", about, RUN_HELP))
}

/// The command `run`, with its slots and its checkpoints.
fn run_saved<'a>(alloc: Global) -> Result<Command<'a>, AllocError>
    ensures { IfOk result (λ c. IsCommand c run_saved_app) }
{
    let long = with_arg(run_files(alloc), slots(alloc));
    let begun = with_arg(long, begun_from(alloc));
    with_arg(begun, saved_to(alloc))
}

/// The command `run`.
pub(crate) fn run_words<'a>(alloc: Global) -> Result<Command<'a>, AllocError>
    ensures { IfOk result (λ c. IsCommand c run_app) }
{
    let failing = with_arg(run_saved(alloc), fail_at(alloc));
    let keeping = with_arg(failing, keep(alloc));
    with_arg(keeping, strict(alloc))
}
