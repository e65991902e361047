//! The rows of a table that tell how long blocks last.

ghost use Rattle.std.specs.Prelude.{◌≡◌, ◌++◌, OnOk};
ghost use Rattle.flashplan_run_figures.specs.Tables.{daily, fewest_of_rate, if_all_wear_evenly, is_too_short, lasting_rows};
ghost use Rattle.flashplan_run_figures.specs.Tables.{lasts_row, most_erased, own_row, rate_rows, run_of};
ghost use Rattle.flashplan_run_figures.specs.Tables.{too_short, too_short_text, until_one_wears_out};

use crate::figures::Figure;
use crate::lives::{FEWEST_ERASES, Lasting, Rate};
use crate::records::{OwnFigures, Records};
use crate::table_cells::{LABEL, Layout, put_left, put_right};
use flashplan_slot_times::Units;
use std::alloc::Global;
use std::io;
use std::io::Write;

/// Adds a row in which the die alone has something.
#[tactic(auto, unfolding(crate::specs::Tables::own_row))]
fn put_own(
    alloc: Global,
    text: &mut Vec<u8>,
    layout: &Layout,
    records: &Records,
    name: &str,
    figure: Figure,
) -> io::Result<()>
    ensures { OnOk result
        (text.new.items ≡ text.old.items ++ own_row layout.now records.now name.now figure) }
{
    let cell = figure.to_string(alloc)?;
    put_left(text, LABEL, name.as_bytes())?;
    put_right(text, layout.width, cell.as_bytes())?;
    for _ in &records.tasks {
        put_right(text, layout.width, b"")?;
    }
    text.push(b'\n')?;
    Ok(())
}

/// A year, in hundredths.
const YEAR: i64 = 100;

/// Adds how long blocks last by a rate: in years, below one in days.
#[tactic(auto, unfolding(crate::specs::Tables::lasts_row))]
fn put_lasts(
    alloc: Global,
    text: &mut Vec<u8>,
    layout: &Layout,
    records: &Records,
    in_days: &str,
    in_years: &str,
    rate: Option<Rate>,
) -> io::Result<()>
    ensures { OnOk result
        (text.new.items ≡ text.old.items
        ++ lasts_row layout.now records.now in_days.now in_years.now rate) }
{
    let (name, figure) = match rate {
        None => (in_years, Figure::Nothing),
        Some(rate) if rate.years < YEAR => (in_days, Figure::Hundredths(rate.days)),
        Some(rate) => (in_years, Figure::Hundredths(rate.years)),
    };
    put_own(alloc, text, layout, records, name, figure)
}

/// Adds how long blocks last until one wears out, by that one.
#[tactic(auto, unfolding(crate::specs::Tables::until_one_wears_out))]
fn put_until_one_wears_out(
    alloc: Global,
    text: &mut Vec<u8>,
    layout: &Layout,
    records: &Records,
    worst: Option<Rate>,
) -> io::Result<()>
    ensures { OnOk result
        (text.new.items ≡ text.old.items ++ until_one_wears_out layout.now records.now worst) }
{
    let in_days = "days until one wears out";
    let in_years = "years until one wears out";
    put_lasts(alloc, text, layout, records, in_days, in_years, worst)
}

/// How often a block is erased a day by a rate, in hundredths.
fn daily(rate: Option<Rate>) -> Figure
    ensures { result ≡ daily rate }
{
    match rate {
        None => Figure::Nothing,
        Some(rate) => Figure::Hundredths(rate.a_day),
    }
}

/// Adds how long blocks last that all wear evenly.
#[tactic(auto, unfolding(crate::specs::Tables::if_all_wear_evenly))]
fn put_if_all_wear_evenly(
    alloc: Global,
    text: &mut Vec<u8>,
    layout: &Layout,
    records: &Records,
    mean: Option<Rate>,
) -> io::Result<()>
    ensures { OnOk result
        (text.new.items ≡ text.old.items ++ if_all_wear_evenly layout.now records.now mean) }
{
    let in_days = "days if all wear evenly";
    let in_years = "years if all wear evenly";
    put_lasts(alloc, text, layout, records, in_days, in_years, mean)
}

/// The seconds of a run.
fn run_of(lasting: Lasting) -> Figure
    ensures { result ≡ run_of lasting }
{
    Figure::Hundredths(lasting.run)
}

/// Adds the length of the run, and how often a block is erased a day.
#[tactic(auto, unfolding(crate::specs::Tables::rate_rows))]
fn put_rates(
    alloc: Global,
    text: &mut Vec<u8>,
    layout: &Layout,
    records: &Records,
    lasting: Lasting,
) -> io::Result<()>
    ensures { OnOk result
        (text.new.items ≡ text.old.items ++ rate_rows layout.now records.now lasting) }
{
    let run = run_of(lasting);
    let mean = daily(lasting.mean);
    let worst = daily(lasting.worst);
    put_own(alloc, text, layout, records, "seconds of the run", run)?;
    put_own(
        alloc,
        text,
        layout,
        records,
        "erases of a block a day",
        mean,
    )?;
    put_own(
        alloc,
        text,
        layout,
        records,
        "  of the one erased most",
        worst,
    )?;
    Ok(())
}

/// Adds how long the blocks of a die last; of a die of which that isn't asked, a row without a figure.
#[tactic(auto, unfolding(crate::specs::Tables::lasting_rows))]
pub(crate) fn put_lasting(
    alloc: Global,
    text: &mut Vec<u8>,
    layout: &Layout,
    records: &Records,
    lasting: Option<Lasting>,
) -> io::Result<()>
    ensures { OnOk result
        (text.new.items ≡ text.old.items ++ lasting_rows layout.now records.now lasting) }
{
    let Some(lasting) = lasting else {
        return put_until_one_wears_out(alloc, text, layout, records, None);
    };
    put_rates(alloc, text, layout, records, lasting)?;
    put_if_all_wear_evenly(alloc, text, layout, records, lasting.mean)?;
    put_until_one_wears_out(alloc, text, layout, records, lasting.worst)
}

/// Says how often the block was erased that was erased most.
#[tactic(auto, unfolding(crate::specs::Tables::most_erased))]
fn put_most(text: &mut Vec<u8>, die: usize, most: u32) -> io::Result<()>
    ensures { OnOk result (text.new.items ≡ text.old.items ++ most_erased die most) }
{
    write!(
        text,
        "die {die}: the block that was erased most was erased {most} times "
    )
}

/// Says in how many slots that was, and how many erases make a rate.
#[tactic(auto, unfolding(crate::specs::Tables::fewest_of_rate))]
fn put_fewest(text: &mut Vec<u8>, slots: u32, units: Units) -> io::Result<()>
    ensures { OnOk result (text.new.items ≡ text.old.items ++ fewest_of_rate units slots) }
{
    let slots = units.slots(u64::from(slots));
    write!(
        text,
        "in {slots} slots, and {FEWEST_ERASES} at least make a rate: "
    )
}

/// Adds why no life is reported by the block that was erased most.
#[tactic(auto, unfolding(crate::specs::Tables::too_short_text))]
fn put_too_short_text(
    text: &mut Vec<u8>,
    die: usize,
    own: &OwnFigures,
    units: Units,
) -> io::Result<()>
    ensures { OnOk result (text.new.items ≡ text.old.items ++ too_short_text units die own.now) }
{
    put_most(text, die, own.wearing.greatest)?;
    put_fewest(text, own.wearing.slots, units)?;
    writeln!(text, "run more slots, or go on from a checkpoint")
}

/// Whether a life is asked for, and the block that was erased most tells none.
fn is_too_short(own: &OwnFigures) -> bool
    ensures { result ≡ is_too_short own.now }
{
    own.lasting.is_some() && own.wearing.greatest < FEWEST_ERASES
}

/// Adds why no life is reported by the block that was erased most, where one is asked for and that block was erased too seldom.
#[tactic(auto, unfolding(crate::specs::Tables::too_short))]
pub(crate) fn put_too_short(
    text: &mut Vec<u8>,
    die: usize,
    own: Option<OwnFigures>,
    units: Units,
) -> io::Result<()>
    ensures { OnOk result (text.new.items ≡ text.old.items ++ too_short units die own) }
{
    let Some(own) = own else {
        return Ok(());
    };
    if is_too_short(&own) {
        put_too_short_text(text, die, &own, units)
    } else {
        Ok(())
    }
}
