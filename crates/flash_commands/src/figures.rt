//! The figures of plans.

ghost use Rattle.std.specs.Prelude.{◌≡◌, ◌++◌, IfOk, OnOk};
ghost use Rattle.slot_types.specs.Refusal.{FailsForMemory};
ghost use Rattle.plan_rules.specs.Bound.{MeetsBound};
ghost use Rattle.plan_rules.specs.Times.{PassesItsTimes};
ghost use Rattle.flash_commands.specs.Figures.{AllMeetBound, AllPass, figures_line, load_line, load_text, plan_line, plan_text};

use plan_rules::{Figures, Load, figures, plan_test};
use slot_types::{DiePlan, Refusal, StorePlan};
use std::alloc::Global;
use std::io;
use std::io::Write;

/// Adds the line of a die, from its figures.
fn put_figures(text: &mut Vec<u8>, die: usize, figures: Figures, logical: u32) -> io::Result<()>
    ensures { OnOk result (text.new.items
        ≡ text.old.items ++ figures_line die figures.fmax figures.closed figures.live logical) }
{
    let (fmax, closed, live) = (figures.fmax, figures.closed, figures.live);
    write!(text, "die {die} fmax {fmax} closed {closed} live {live}")?;
    write!(text, " logical {logical} accepted")?;
    text.push(b'\n')?;
    Ok(())
}

/// Adds the line of a demand.
fn put_load(text: &mut Vec<u8>, die: usize, load: Load) -> io::Result<()>
    ensures { OnOk result (text.new.items
        ≡ text.old.items ++ load_line die load.demand load.common) }
{
    let (demand, common) = (load.demand, load.common);
    write!(text, "die {die} load {demand} of {common}")?;
    text.push(b'\n')?;
    Ok(())
}

/// Adds the line of a die's demand, if its plan has times.
fn put_load_of(text: &mut Vec<u8>, die: usize, plan: &DiePlan) -> io::Result<()>
    requires bound { MeetsBound plan.now }
    requires passes { PassesItsTimes plan.now }
    ensures { OnOk result (text.new.items
        ≡ text.old.items ++ load_text die plan.now plan.now.times) }
{
    match plan_test(plan) {
        Ok(load) => put_load(text, die, load),
        Err(_) => Ok(()),
    }
}

/// Adds the line of a die's figures.
fn put_plan(text: &mut Vec<u8>, die: usize, plan: &DiePlan) -> io::Result<()>
    requires { MeetsBound plan.now }
    ensures { OnOk result (text.new.items ≡ text.old.items ++ plan_line die plan.now) }
{
    put_figures(text, die, figures(plan), plan.logical)
}

/// Adds the lines of dies, numbered from 0.
fn put_plans(text: &mut Vec<u8>, plans: &[DiePlan]) -> io::Result<()>
    requires bound { AllMeetBound plans.now }
    requires passes { AllPass plans.now }
    ensures { OnOk result (text.new.items ≡ text.old.items ++ plan_text plans.now) }
{
    for die in 0..plans.len() {
        put_plan(text, die, &plans[die])?;
        put_load_of(text, die, &plans[die])?;
    }
    Ok(())
}

/// A line with the figures of each die, and after it one with its demand, if the plan has times. The only refusal is
/// NoMemory.
pub fn figures_text(alloc: Global, store: &StorePlan) -> Result<Vec<u8>, Refusal>
    requires bound { AllMeetBound store.now }
    requires passes { AllPass store.now }
    ensures text { IfOk result (λ text. text.items ≡ plan_text store.now) }
    ensures refused { FailsForMemory result }
{
    let mut text = Vec::new(alloc);
    match put_plans(&mut text, store.as_slice()) {
        Ok(()) => Ok(text),
        Err(_) => Err(Refusal::NoMemory),
    }
}
