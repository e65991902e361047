//! The cells of a table: a name or a figure in a column.

ghost use Rattle.std.specs.Prelude.{◌≡◌, ◌++◌, get_or, OnOk};
ghost use Rattle.flashplan_run_figures.specs.Quantities.{quantity_text};
ghost use Rattle.flashplan_run_figures.specs.Tables.{blanks, cell, figure_at, left, right, unit_of};

use crate::columns::{end_columns, level_columns, slot_columns, wear_columns};
use crate::figures::Figure;
use crate::quantities::{Quantity, Unit};
use crate::records::Figures;
use flashplan_slot_times::Units;
use std::alloc::AllocError;

/// What the figures of a name count.
#[derive(Clone, Copy, Drop)]
pub(crate) enum Counted {
    /// Neither slots nor pages.
    Others,
    Slots,
    /// Pages that the slots of the run carried.
    Pages,
}

/// How wide the column of names is.
pub(crate) const LABEL: usize = 25;

/// How the cells of a table look.
#[derive(Clone, Copy, Drop)]
pub(crate) struct Layout {
    pub(crate) units: Units,
    /// How many slots the die carried out.
    pub(crate) slots: u32,
    /// How wide each column is.
    pub(crate) width: usize,
}

/// Adds as many blanks as are missing.
#[tactic(auto, using(crate::proofs::Blanks::one_more, crate::proofs::Blanks::none_left))]
fn put_blanks(text: &mut Vec<u8>, from: usize, to: usize) -> Result<(), AllocError>
    ensures { OnOk result (text.new.items ≡ text.old.items ++ blanks from to) }
{
    for _ in from..to {
        text.push(b' ')?;
    }
    Ok(())
}

/// Adds a text in a column of this width, at its left.
pub(crate) fn put_left(text: &mut Vec<u8>, width: usize, cell: &[u8]) -> Result<(), AllocError>
    ensures { OnOk result (text.new.items ≡ text.old.items ++ left width cell.now) }
{
    text.extend_from_slice(cell)?;
    put_blanks(text, cell.len(), width)
}

/// Adds a text in a column of this width, at its right.
pub(crate) fn put_right(text: &mut Vec<u8>, width: usize, cell: &[u8]) -> Result<(), AllocError>
    ensures { OnOk result (text.new.items ≡ text.old.items ++ right width cell.now) }
{
    put_blanks(text, cell.len(), width)?;
    text.extend_from_slice(cell)
}

/// The figure at a place; nothing beyond the last one.
fn figure_in(figures: &[Figure], place: usize) -> Figure
    ensures { result ≡ get_or figures.now place Figure.Nothing }
{
    figures.get(place).copied().unwrap_or(Figure::Nothing)
}

/// The figure of a record in a row.
#[tactic(auto, using(crate::proofs::FigurePlaces::of_ends, crate::proofs::FigurePlaces::of_slots, crate::proofs::FigurePlaces::of_levels, crate::proofs::FigurePlaces::of_wear))]
fn figure_at(figures: &Figures, row: usize) -> Figure
    ensures { result ≡ figure_at figures.now row }
{
    if row < 11 {
        figure_in(&end_columns(figures), row)
    } else if row < 18 {
        figure_in(&slot_columns(figures), row - 11)
    } else if row < 22 {
        figure_in(&level_columns(figures), row - 18)
    } else {
        figure_in(&wear_columns(figures), row - 22)
    }
}

/// The unit of what is counted in a run of `slots` slots.
fn unit_of(slots: u32, counted: Counted) -> Unit
    ensures { result ≡ unit_of slots counted }
{
    match counted {
        Counted::Others => Unit::One,
        Counted::Slots => Unit::Slot,
        Counted::Pages => Unit::Page { slots },
    }
}

/// What a record has in a row, with its time or rate.
pub(crate) fn cell_at(layout: &Layout, figures: &Figures, row: usize, counted: Counted) -> Quantity
    ensures { quantity_text result ≡ cell layout.now figures.now row counted }
{
    Quantity {
        figure: figure_at(figures, row),
        unit: unit_of(layout.slots, counted),
        units: layout.units,
    }
}
