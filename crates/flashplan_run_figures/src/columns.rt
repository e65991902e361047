//! The figures of a record, in the order in which they stand.

ghost use Rattle.std.specs.Prelude.{◌≡◌};
ghost use Rattle.flashplan_run_figures.specs.Csv.{end_columns, lasting_columns, level_columns, low_columns, rate_columns, slot_columns};
ghost use Rattle.flashplan_run_figures.specs.Csv.{spare_of, wear_columns, years_of};

use crate::figures::Figure;
use crate::levels::Low;
use crate::lives::{Lasting, Rate};
use crate::records::{Figures, OwnFigures};

/// What was asked for, and how late it was.
#[tactic(auto, unfolding(crate::specs::Csv::end_columns))]
pub(crate) fn end_columns(figures: &Figures) -> [Figure; 11]
    ensures { result ≡ end_columns figures.now }
{
    let (ends, lateness) = (figures.ends, figures.lateness);
    [
        Figure::count(ends.done),
        Figure::count(ends.waiting),
        Figure::count(ends.refused),
        Figure::count(ends.late),
        Figure::whole(lateness.worst),
        Figure::hundredths(lateness.mean),
        Figure::whole(lateness.p99),
        Figure::count(ends.collected),
        Figure::count(ends.waived),
        Figure::count(ends.collecting),
        Figure::count(ends.uncollected),
    ]
}

/// What the slots carried.
#[tactic(auto, unfolding(crate::specs::Csv::slot_columns))]
pub(crate) fn slot_columns(figures: &Figures) -> [Figure; 7]
    ensures { result ≡ slot_columns figures.now }
{
    let slots = figures.slots;
    let idle = match figures.own {
        None => Figure::Nothing,
        Some(own) => Figure::count(own.idle),
    };
    [
        Figure::count(slots.jobs),
        Figure::count(slots.copies),
        Figure::count(slots.erases),
        idle,
        Figure::count(slots.written),
        Figure::count(slots.copied),
        Figure::amplification(slots.written, slots.copied),
    ]
}

/// How low something fell, and in which slot.
fn low_columns(low: Option<Low>) -> [Figure; 2]
    ensures { result ≡ low_columns low }
{
    match low {
        None => [Figure::Nothing; 2],
        Some(low) => [Figure::count(low.value), Figure::count(low.slot)],
    }
}

/// How often a block is erased a day, and how many days it lasts.
fn rate_columns(rate: Option<Rate>) -> [Figure; 2]
    ensures { result ≡ rate_columns rate }
{
    match rate {
        None => [Figure::Nothing; 2],
        Some(rate) => [
            Figure::Hundredths(rate.a_day),
            Figure::Hundredths(rate.days),
        ],
    }
}

/// How many years a block lasts.
fn years_of(rate: Option<Rate>) -> Figure
    ensures { result ≡ years_of rate }
{
    match rate {
        None => Figure::Nothing,
        Some(rate) => Figure::Hundredths(rate.years),
    }
}

/// A run's seconds, and how long blocks last by it: by the mean, and by the one that was erased most.
fn lasting_columns(lasting: Option<Lasting>) -> [Figure; 6]
    ensures { result ≡ lasting_columns lasting }
{
    let Some(lasting) = lasting else {
        return [Figure::Nothing; 6];
    };
    let [mean_a_day, mean_days] = rate_columns(lasting.mean);
    let [most_a_day, most_days] = rate_columns(lasting.worst);
    [
        Figure::Hundredths(lasting.run),
        mean_a_day,
        mean_days,
        most_a_day,
        most_days,
        years_of(lasting.worst),
    ]
}

/// What a die wore; nothing of a task.
#[tactic(auto, unfolding(crate::specs::Csv::wear_columns))]
pub(crate) fn wear_columns(figures: &Figures) -> [Figure; 10]
    ensures { result ≡ wear_columns figures.now }
{
    let Some(own) = figures.own else {
        return [Figure::Nothing; 10];
    };
    let wearing = own.wearing;
    let [run, mean_a_day, mean_days, most_a_day, most_days, years] = lasting_columns(own.lasting);
    [
        Figure::count(wearing.erases),
        Figure::count(wearing.least),
        Figure::hundredths(wearing.mean()),
        Figure::count(wearing.greatest),
        run,
        mean_a_day,
        mean_days,
        most_a_day,
        most_days,
        years,
    ]
}

/// The fewest spare pages of a die; nothing of a task.
fn spare_of(own: Option<OwnFigures>) -> Option<Low>
    ensures { result ≡ spare_of own }
{
    match own {
        None => None,
        Some(own) => Some(own.least_spare),
    }
}

/// The fewest tokens of a task, and the fewest spare pages of a die.
#[tactic(auto, unfolding(crate::specs::Csv::level_columns))]
pub(crate) fn level_columns(figures: &Figures) -> [Figure; 4]
    ensures { result ≡ level_columns figures.now }
{
    let [balance, balance_slot] = low_columns(figures.least_balance);
    let [spare, spare_slot] = low_columns(spare_of(figures.own));
    [balance, balance_slot, spare, spare_slot]
}
