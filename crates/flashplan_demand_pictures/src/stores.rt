//! The picture of a die of a plan's text.

use crate::axes::Axes;
use crate::pictures::{Marked, put_picture};
use crate::sampling::points;
use demand_rules::{DemandFault, demand_test};
use flashplan_slot_times::slot_in;
use plan_rules::bound;
use slot_types::{MAX_SLOT, Refusal};
use std::alloc::Global;
use terms_texts::{DieTerms, TermsRefusal, die_terms, terms_numbers};

/// How many points a picture has at most.
const MOST_POINTS: u32 = 700;

/// Why nothing is drawn.
#[derive(Clone, Copy, PartialEq, Eq, Debug, Drop)]
pub enum Undrawn {
    /// Out of memory; or what refuses the numbers of the text, as `explain` tells it.
    Refused(Refusal),
    /// The plan has no such die.
    NoDie { dies: u32 },
    /// The die doesn't meet its bound, a number of its terms is out of its limits, or in the long run it is asked for more than
    /// there is: there is no interval to be marked.
    NoInterval,
}

impl From<Refusal> for Undrawn {
    ghost use Rattle.std.specs.Prelude.{◌≡◌};
    ghost use Rattle.flashplan_demand_pictures.specs.declared.stores.Undrawn.TheVariants.{Refused};

    ghost from_gives = { λ refusal made. made ≡ Refused refusal };

    fn from(refusal: Refusal) -> Self {
        Undrawn::Refused(refusal)
    }
}

impl From<TermsRefusal> for Undrawn {
    ghost use Rattle.std.specs.Prelude.{◌≡◌};
    ghost use Rattle.terms_texts.specs.Refusing.{refusal_of};
    ghost use Rattle.flashplan_demand_pictures.specs.declared.stores.Undrawn.TheVariants.{Refused};

    ghost from_gives = { λ refusal made. made ≡ Refused (refusal_of refusal) };

    fn from(refusal: TermsRefusal) -> Self {
        Undrawn::Refused(refusal.refusal())
    }
}

/// Up to which length intervals are drawn: half as long again as the one that is marked.
fn end_of(marked: Marked) -> u32 {
    let slots = marked.slots();
    slots.saturating_add(slots / 2).max(10).min(MAX_SLOT)
}

/// Adds the picture of a die that has terms within their limits, which is long enough for the interval that is marked.
fn put_die(
    alloc: Global,
    text: &mut Vec<u8>,
    die: u32,
    made: &DieTerms,
    marked: Marked,
    slot_us: Option<u32>,
) -> Result<(), Refusal> {
    if bound(&made.plan).is_err() || demand_rules::limits_test(&made.plan, &made.terms).is_err() {
        return Ok(());
    }
    let end = end_of(marked);
    let step = end.div_ceil(MOST_POINTS).max(1);
    let count = (end / step).saturating_add(1).min(MAX_SLOT / step);
    let points = points(alloc, made, step, count)?;
    match put_picture(text, die, Axes { end }, &points, marked, slot_us) {
        Ok(()) => Ok(()),
        Err(_) => Err(Refusal::NoMemory),
    }
}

/// The interval of a die that is marked, where there is one.
fn marked_of(made: &DieTerms) -> Option<Marked> {
    if bound(&made.plan).is_err() {
        return None;
    }
    match demand_test(&made.plan, &made.terms) {
        Ok(load) => Some(Marked::Tightest {
            slots: load.tightest,
            slack: load.slack,
        }),
        Err(DemandFault::Overfull { slots, excess }) => Some(Marked::Overfull { slots, excess }),
        Err(_) => None,
    }
}

/// The picture of a die of a plan with terms, as SVG: how many slots may be asked of an interval, by its length,
/// compared with those that it has. The tightest interval is marked, or the shortest one that is overfull, with its
/// time where the plan's first line says how long a slot is.
pub fn draw_demand(alloc: Global, plan: &[u8], die: u32) -> Result<Vec<u8>, Undrawn> {
    let numbers = terms_numbers(alloc, plan)?;
    let dies = numbers.top.dies;
    if die >= dies {
        return Err(Undrawn::NoDie { dies });
    }
    let made = die_terms(alloc, &numbers, die)?;
    let Some(marked) = marked_of(&made) else {
        return Err(Undrawn::NoInterval);
    };
    let slot_us = slot_in(alloc, plan)?;
    let mut text = Vec::new(alloc);
    put_die(alloc, &mut text, die, &made, marked, slot_us)?;
    Ok(text)
}
