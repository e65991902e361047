//! The command `arrivals`.

ghost use Rattle.std.specs.Prelude.{◌≡◌, false, codes, IfOk};
ghost use Rattle.clap.specs.Words.{rule_of};
ghost use Rattle.command_arguments.specs.Arguments.{default_rule, flag_rule};
ghost use Rattle.flashplan_words.specs.Syntax.{IsCommand, arrivals_app, arrivals_drawn_app, arrivals_run_app, count_rule, load_rule};

use crate::syntax::parts::{command, with_arg};
use crate::syntax::shared::{begun_from, seed};
use clap::{Arg, Command};
use command_arguments::{defaulted, flag, plan_file, slots};
use std::alloc::{AllocError, Global};

/// What the script of arrivals has in it.
const ARRIVALS_HELP: &str =
    "The plan has to have times (version 2) or terms (terms = 1), and to pass its test.
A collection of each task comes at each multiple of its collect_period, a job at each multiple of its period.
A job has `work` operations, of which `writes` are writes; the seed draws which, and their pages.
Of a task that writes one in eight of the others is a trim, the rest are reads.
Of a plan with terms it is asked for in jobs of at most 64 operations, which are due `deadline` slots later; --fill,
--phases, --jitter, --load and --from are for plans with times alone.
The pages of task t of n tasks are t, t + n, t + 2n and so on; a task beyond the last page has page t modulo `logical`.
With --fill the writing tasks share all pages, and each first writes its own once, in order; nothing is trimmed.
With --from the pages that lie in no cell of the checkpoint are filled likewise, without --fill.
A task that fills its pages begins in slot 0, and leaves no job out and none late until it has.
What is written says where it comes from: slot, task, page and place in the job, each in 8 digits.

Example: flashplan arrivals plan.toml --slots 1000 > script.csv";

/// Whether the die is filled first.
fn fill<'a>(alloc: Global) -> Arg<'a>
    ensures rule { rule_of result ≡ flag_rule (codes "fill") }
    ensures local { result.global ≡ false }
{
    flag(
        alloc,
        "fill",
        "Write each page once before any is drawn, and trim none; tells from which slot on the die is full",
    )
}

/// Whether tasks begin in slots that are drawn.
fn phases<'a>(alloc: Global) -> Arg<'a>
    ensures rule { rule_of result ≡ flag_rule (codes "phases") }
    ensures local { result.global ≡ false }
{
    flag(
        alloc,
        "phases",
        "Let each task begin in a slot below its period that is drawn, and not all at once in slot 0",
    )
}

/// How late jobs come.
fn jitter<'a>(alloc: Global) -> Arg<'a>
    ensures rule { rule_of result ≡ count_rule (codes "jitter") }
    ensures local { result.global ≡ false }
{
    defaulted(
        alloc,
        "jitter",
        "J",
        "0",
        "Let each job come 0 to J slots later than the plan allows, from 0 to 1048576",
    )
}

/// Which part of the jobs comes.
fn load<'a>(alloc: Global) -> Arg<'a>
    ensures rule { rule_of result ≡ load_rule }
    ensures local { result.global ≡ false }
{
    defaulted(
        alloc,
        "load",
        "L",
        "100",
        "Let L of a hundred jobs come, from 0 to 1048576; 100 and more are all",
    )
}

/// The command `arrivals`, with what it makes.
fn arrivals_run<'a>(alloc: Global) -> Result<Command<'a>, AllocError>
    ensures { IfOk result (λ c. IsCommand c arrivals_run_app) }
{
    let about =
        "Write the script of all that a plan's tasks may ask for, none of which is then late or refused";
    let command = command(alloc, "arrivals", about, ARRIVALS_HELP);
    let planned = with_arg(Ok(command), plan_file(alloc));
    with_arg(planned, slots(alloc))
}

/// The command `arrivals`, with what it draws.
fn arrivals_drawn<'a>(alloc: Global) -> Result<Command<'a>, AllocError>
    ensures { IfOk result (λ c. IsCommand c arrivals_drawn_app) }
{
    let seeded = with_arg(arrivals_run(alloc), seed(alloc));
    with_arg(seeded, fill(alloc))
}

/// The command `arrivals`.
pub(crate) fn arrivals_words<'a>(alloc: Global) -> Result<Command<'a>, AllocError>
    ensures { IfOk result (λ c. IsCommand c arrivals_app) }
{
    let phased = with_arg(arrivals_drawn(alloc), phases(alloc));
    let late = with_arg(phased, jitter(alloc));
    let loaded = with_arg(late, load(alloc));
    with_arg(loaded, begun_from(alloc))
}
