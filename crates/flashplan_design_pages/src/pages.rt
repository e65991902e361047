//! The page of a design.

ghost use Rattle.std.specs.Prelude.{◌≡◌, ◌++◌, IfOk, OnOk};
ghost use Rattle.plan_rules.specs.Bound.{MeetsBound};
ghost use Rattle.flashplan_design_pages.specs.Pages.{HoldsDesign, IsPageFor, escaped};

use crate::costs::{put_loss, put_memory};
use crate::demands::put_demand;
use crate::design_plans::{Design, Load, read_found};
use crate::escapes::put_escaped;
use crate::facts::{put, put_heading};
use crate::heads::{put_begin, put_end};
use crate::lives::put_life;
use crate::parts::put_part;
use crate::records::Records;
use crate::run_texts::put_run;
use crate::runs::{Run, RunSlots, run_of};
use crate::tasks::put_tasks;
use crate::verdicts::put_verdict;
use crate::wearing::put_wear;
use flashplan_demand_pictures::{Undrawn, draw_demand};
use flashplan_fit::{FitFault, Fitted, fit_sheet};
use slot_types::Refusal;
use std::alloc::Global;
use std::{io, str};

const PLAN: &str = "<p>As <code>flashplan fit</code> prints it:</p>\n<pre>";

/// Adds all that is before the plan's text.
fn put_front(text: &mut Vec<u8>, design: &Design<'_>) -> io::Result<()> {
    let shape = design.plan.shape;
    put_begin(text, design.tasks.len() as u64, shape.blocks, shape.pages)?;
    put_verdict(text, design)?;
    put_part(text, design)?;
    put_heading(text, "The plan")?;
    put(text, PLAN)
}

/// What the page has of a run and of the demand.
#[derive(Clone, Copy)]
struct Shown<'a> {
    run: RunSlots,
    ran: &'a Run,
    demand: &'a [u8],
}

const RECORDS: &str =
    "<details>\n<summary>All figures of the run, as <code>flashplan report --csv</code> prints them</summary>\n\
<pre>";

/// Adds what is between the plan's text and the run's figures.
fn put_between(text: &mut Vec<u8>, design: &Design<'_>, shown: Shown<'_>) -> io::Result<()>
    requires { MeetsBound design.now.plan.now }
{
    let records = Records {
        text: str::from_utf8(shown.ran.figures.as_slice()).unwrap_or(""),
    };
    put(text, "</pre>\n")?;
    put_tasks(text, design)?;
    put_demand(text, design, shown.demand)?;
    put_run(text, design, shown.run, shown.ran, &records)?;
    put_life(text, design)?;
    put_wear(text, design, &records, shown.run.slots)?;
    put_memory(text, design)?;
    put_loss(text, design)?;
    put(text, RECORDS)
}

/// Adds all that is after the run's figures.
fn put_back(text: &mut Vec<u8>) -> io::Result<()> {
    put(text, "</pre>\n</details>\n")?;
    put_end(text)
}

/// Adds a plan's text and the figures of its run, as they stand in a page, each after what is before it, and what ends the page.
fn put_pieces(
    text: &mut Vec<u8>,
    front: &[u8],
    plan: &[u8],
    between: &[u8],
    figures: &[u8],
    back: &[u8],
) -> io::Result<()>
    ensures { OnOk result (text.new.items ≡ text.old.items ++ front.now ++ escaped plan.now ++ between.now
        ++ escaped figures.now ++ back.now) }
{
    text.extend_from_slice(front)?;
    put_escaped(text, plan)?;
    text.extend_from_slice(between)?;
    put_escaped(text, figures)?;
    text.extend_from_slice(back)?;
    Ok(())
}

/// The page that has these pieces. The only refusal is NoMemory.
fn page_with(
    alloc: Global,
    front: &[u8],
    plan: &[u8],
    between: &[u8],
    figures: &[u8],
    back: &[u8],
) -> Result<Vec<u8>, Refusal>
    ensures { IfOk result (λ page. page.items
        ≡ front.now ++ escaped plan.now ++ between.now ++ escaped figures.now ++ back.now) }
{
    let mut text = Vec::new(alloc);
    match put_pieces(&mut text, front, plan, between, figures, back) {
        Ok(()) => Ok(text),
        Err(_) => Err(Refusal::NoMemory),
    }
}

/// The answer of a writer into memory.
fn written(put: io::Result<()>) -> Result<(), Refusal> {
    match put {
        Ok(()) => Ok(()),
        Err(_) => Err(Refusal::NoMemory),
    }
}

/// The picture of the demand of a plan with terms; nothing of one with times.
fn demand_of(alloc: Global, plan: &[u8], load: Load) -> Result<Vec<u8>, Refusal> {
    if let Load::Times { .. } = load {
        return Ok(Vec::new(alloc));
    }
    match draw_demand(alloc, plan, 0) {
        Ok(picture) => Ok(picture),
        Err(Undrawn::Refused(refusal)) => Err(refusal),
        Err(Undrawn::NoDie { .. } | Undrawn::NoInterval) => Err(Refusal::BadPlan),
    }
}

/// Of how many slots the picture of a run is to be: the tightest interval, or the longest period.
fn interval_of(design: &Design<'_>) -> u32 {
    if let Load::Terms(load) = design.load {
        return load.tightest;
    }
    let mut longest: u32 = 0;
    for task in design.tasks {
        longest = longest.max(task.period);
    }
    longest
}

/// The page of a plan that was found. NoMemory; another refusal has never been seen.
fn page_of(alloc: Global, fitted: &Fitted) -> Result<Vec<u8>, Refusal>
    ensures { IfOk result (λ page. HoldsDesign fitted.now.text.items page.items) }
{
    let found = read_found(alloc, fitted)?;
    let design = Design {
        sheet: &fitted.sheet,
        plan: &found.plan,
        tasks: found.tasks.as_slice(),
        load: found.load,
        slot_us: fitted.slot_us,
    };
    let run = RunSlots::of(design.tasks, interval_of(&design));
    let ran = run_of(alloc, fitted, run)?;
    let demand = demand_of(alloc, fitted.text.as_slice(), found.load)?;
    let shown = Shown {
        run,
        ran: &ran,
        demand: demand.as_slice(),
    };
    let (mut front, mut between, mut back) = (Vec::new(alloc), Vec::new(alloc), Vec::new(alloc));
    written(put_front(&mut front, &design))?;
    written(put_between(&mut between, &design, shown))?;
    written(put_back(&mut back))?;
    page_with(
        alloc,
        &front,
        fitted.text.as_slice(),
        &between,
        ran.figures.as_slice(),
        &back,
    )
}

/// A page of a datasheet. It has the plan that [`fit`](flashplan_fit::fit) finds for it, its text whole, and its test
/// by task. It shows what may be asked of the slots, compared with those that there are. It has a run of the heaviest
/// use that the plan allows, of 100,000 slots at least if a life has as many, with its figures and a picture of its
/// first slots. It says how long a life lasts, how often blocks are erased, how many bytes a die takes, and what a
/// mount would do at most after a loss of power. It is an HTML text, which is XML, too, names no other file, and has no
/// scripts. Refused as `fit` is, where it finds none; or with NoMemory.
pub fn design(alloc: Global, sheet: &[u8]) -> Result<Vec<u8>, FitFault>
    ensures { IfOk result (λ page. IsPageFor sheet.now page.items) }
{
    let fitted = fit_sheet(alloc, sheet)?;
    let page = page_of(alloc, &fitted)?;
    Ok(page)
}
