//! The command `draw`.

ghost use Rattle.std.specs.Prelude.{◌≡◌, false, codes, IfOk};
ghost use Rattle.clap.specs.Words.{new_rule, rule_of};
ghost use Rattle.command_arguments.specs.Arguments.{flag_rule, option_rule};
ghost use Rattle.flashplan_words.specs.Syntax.{IsCommand, draw_app, draw_failing_app, draw_files_app, draw_forms_app, draw_run_app, draw_timed_app, draw_window_app, from_rule, to_rule};

use crate::syntax::parts::{command, with_arg};
use crate::syntax::shared::{checkpoint, die, fail_at, page_bytes, slot_us, strict};
use clap::{Arg, Command};
use command_arguments::{defaulted, flag, option, plan_file};
use std::alloc::{AllocError, Global};

/// How a picture is drawn, as SVG and as text; and without a script.
const DRAW_HELP: &str =
    "A run is drawn of a SCRIPT and --slots N. With --demand nothing runs: drawn is how many slots the tasks of a die may ask
for, by the length of an interval; the plan has to have terms (terms = 1), and needn't be accepted.

Example: flashplan draw plan.toml script.csv --slots 1000 --from 200 --to 300 > run.svg
         flashplan draw plan.toml script.csv --slots 1000 --worst --text
         flashplan draw plan.toml --demand > demand.svg";

/// The file that has the script of a run.
fn script<'a>(alloc: Global) -> Arg<'a>
    ensures rule { rule_of result ≡ new_rule (codes "SCRIPT") }
    ensures local { result.global ≡ false }
{
    Arg::new(alloc, "SCRIPT").help(
        "The jobs and collections that the dies get, a CSV file; - is standard input (required but for --demand)",
    )
}

/// How many slots a run has.
fn slots<'a>(alloc: Global) -> Arg<'a>
    ensures rule { rule_of result ≡ option_rule (codes "slots") }
    ensures local { result.global ≡ false }
{
    option(
        alloc,
        "slots",
        "N",
        "How many slots each die runs, from 0 to 1048576 (required but for --demand)",
    )
}

/// Where the picture begins.
fn first<'a>(alloc: Global) -> Arg<'a>
    ensures rule { rule_of result ≡ from_rule }
    ensures local { result.global ≡ false }
{
    defaulted(
        alloc,
        "from",
        "A",
        "0",
        "The first slot that is drawn, from 0 to 1048576",
    )
}

/// Where the picture ends.
fn end<'a>(alloc: Global) -> Arg<'a>
    ensures rule { rule_of result ≡ to_rule }
    ensures local { result.global ≡ false }
{
    defaulted(
        alloc,
        "to",
        "B",
        "1048576",
        "The slot before which the picture ends, from 0 to 1048576",
    )
}

/// Whether the worst is drawn.
fn worst<'a>(alloc: Global) -> Arg<'a>
    ensures rule { rule_of result ≡ flag_rule (codes "worst") }
    ensures local { result.global ≡ false }
{
    flag(
        alloc,
        "worst",
        "Draw the busy interval of the worst job, or its end, and ten slots before and after it, in place of A to B",
    )
}

/// Whether lines are drawn.
fn as_text<'a>(alloc: Global) -> Arg<'a>
    ensures rule { rule_of result ≡ flag_rule (codes "text") }
    ensures local { result.global ≡ false }
{
    flag(
        alloc,
        "text",
        "Write lines for a terminal, a character a slot, and no SVG",
    )
}

/// Whether all is drawn.
fn all<'a>(alloc: Global) -> Arg<'a>
    ensures rule { rule_of result ≡ flag_rule (codes "all") }
    ensures local { result.global ≡ false }
{
    flag(
        alloc,
        "all",
        "Draw all slots that are asked for, and not 20000 at most",
    )
}

/// Whether what may be asked for is drawn.
fn demand<'a>(alloc: Global) -> Arg<'a>
    ensures rule { rule_of result ≡ flag_rule (codes "demand") }
    ensures local { result.global ≡ false }
{
    flag(
        alloc,
        "demand",
        "Draw what the tasks of die D may ask for, and no run; takes no other option but --die",
    )
}

/// The command `draw`, with its files.
fn draw_files<'a>(alloc: Global) -> Result<Command<'a>, AllocError>
    ensures { IfOk result (λ c. IsCommand c draw_files_app) }
{
    let about = "Run a script on a die, and draw what its slots carried, as an SVG picture";
    let planned = with_arg(
        Ok(command(alloc, "draw", about, DRAW_HELP)),
        plan_file(alloc),
    );
    with_arg(planned, script(alloc))
}

/// The command `draw`, with what it runs.
fn draw_run<'a>(alloc: Global) -> Result<Command<'a>, AllocError>
    ensures { IfOk result (λ c. IsCommand c draw_run_app) }
{
    let long = with_arg(draw_files(alloc), slots(alloc));
    with_arg(long, die(alloc))
}

/// The command `draw`, with the slots that are asked for.
fn draw_window<'a>(alloc: Global) -> Result<Command<'a>, AllocError>
    ensures { IfOk result (λ c. IsCommand c draw_window_app) }
{
    let begun = with_arg(draw_run(alloc), first(alloc));
    with_arg(begun, end(alloc))
}

/// The command `draw`, with what is drawn of them, and how.
fn draw_forms<'a>(alloc: Global) -> Result<Command<'a>, AllocError>
    ensures { IfOk result (λ c. IsCommand c draw_forms_app) }
{
    let chosen = with_arg(draw_window(alloc), worst(alloc));
    with_arg(chosen, as_text(alloc))
}

/// The command `draw`, with a device that fails.
fn draw_failing<'a>(alloc: Global) -> Result<Command<'a>, AllocError>
    ensures { IfOk result (λ c. IsCommand c draw_failing_app) }
{
    let told = with_arg(draw_forms(alloc), all(alloc));
    with_arg(told, fail_at(alloc))
}

/// The command `draw`, with what times come of.
fn draw_timed<'a>(alloc: Global) -> Result<Command<'a>, AllocError>
    ensures { IfOk result (λ c. IsCommand c draw_timed_app) }
{
    let timed = with_arg(draw_failing(alloc), slot_us(alloc));
    with_arg(timed, page_bytes(alloc))
}

/// The command `draw`.
pub(crate) fn draw_words<'a>(alloc: Global) -> Result<Command<'a>, AllocError>
    ensures { IfOk result (λ c. IsCommand c draw_app) }
{
    let begun = with_arg(draw_timed(alloc), checkpoint(alloc));
    let asked = with_arg(begun, demand(alloc));
    with_arg(asked, strict(alloc))
}
