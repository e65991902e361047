//! Records as a table for eyes, with a column for the die and for each of its tasks.

ghost use Rattle.std.specs.Prelude.{◌≡◌, ◌++◌, ◌+◌, codes, decimal, length, max, IfOk, OnOk};
ghost use Rattle.flashplan_run_figures.specs.Tables.{cell, head_text, heads_text, lasting_of, layout_of, left, named_rows, right};
ghost use Rattle.flashplan_run_figures.specs.Tables.{row_text, slots_in, table_text, rows_text, wide_all, wide_names, width_of};

use crate::csv::task_figure;
use crate::lasting_rows::{put_lasting, put_too_short};
use crate::lives::Lasting;
use crate::records::{Figures, OwnFigures, Records};
use crate::table_cells::{Counted, LABEL, Layout, cell_at, put_left, put_right};
use flashplan_slot_times::Units;
use std::alloc::Global;
use std::io;
use std::io::Write;

/// By figure its name, and what it counts.
const NAMES: [(&str, Counted); 26] = [
    ("jobs done", Counted::Others),
    ("jobs waiting", Counted::Others),
    ("jobs refused", Counted::Others),
    ("jobs late", Counted::Others),
    ("lateness: worst", Counted::Slots),
    ("lateness: mean", Counted::Slots),
    ("lateness: 99 % at most", Counted::Slots),
    ("collections run", Counted::Others),
    ("collections waived", Counted::Others),
    ("collections waiting", Counted::Others),
    ("collections refused", Counted::Others),
    ("slots of jobs", Counted::Slots),
    ("slots of copies", Counted::Slots),
    ("slots of erases", Counted::Slots),
    ("slots idle", Counted::Slots),
    ("pages written", Counted::Pages),
    ("pages copied", Counted::Pages),
    ("amplification", Counted::Others),
    ("least balance", Counted::Others),
    ("  in slot", Counted::Slots),
    ("least spare", Counted::Others),
    ("  in slot", Counted::Slots),
    ("erases", Counted::Others),
    ("  of a block, least", Counted::Others),
    ("  mean", Counted::Others),
    ("  greatest", Counted::Others),
];

/// How wide a column is at least.
const WIDTH: usize = 11;

/// Adds what a record has in a row.
fn put_cell(
    alloc: Global,
    text: &mut Vec<u8>,
    layout: &Layout,
    figures: &Figures,
    row: usize,
    counted: Counted,
) -> io::Result<()>
    ensures { OnOk result
        (text.new.items ≡ text.old.items
        ++ right layout.now.width (cell layout.now figures.now row counted)) }
{
    let cell = cell_at(layout, figures, row, counted).to_string(alloc)?;
    put_right(text, layout.width, cell.as_bytes())?;
    Ok(())
}

/// Adds a name, and in columns what each record has under it.
fn put_row(
    alloc: Global,
    text: &mut Vec<u8>,
    layout: &Layout,
    records: &Records,
    row: usize,
    name: &str,
    counted: Counted,
) -> io::Result<()>
    ensures { OnOk result
        (text.new.items ≡ text.old.items ++ row_text layout.now records.now row (name.now, counted)) }
{
    put_left(text, LABEL, name.as_bytes())?;
    put_cell(alloc, text, layout, &records.die, row, counted)?;
    for figures in &records.tasks {
        put_cell(alloc, text, layout, figures, row, counted)?;
    }
    text.push(b'\n')?;
    Ok(())
}

/// Adds a row for each name.
fn put_rows(
    alloc: Global,
    text: &mut Vec<u8>,
    layout: &Layout,
    records: &Records,
    names: &[(&str, Counted)],
) -> io::Result<()>
    ensures { OnOk result
        (text.new.items ≡ text.old.items ++ named_rows layout.now records.now 0 names.now) }
{
    for row in 0..names.len() {
        let (name, counted) = names[row];
        put_row(alloc, text, layout, records, row, name, counted)?;
    }
    Ok(())
}

/// Adds a row for each figure.
#[tactic(auto, unfolding(crate::specs::Tables::rows_text))]
fn put_all_rows(
    alloc: Global,
    text: &mut Vec<u8>,
    layout: &Layout,
    records: &Records,
) -> io::Result<()>
    ensures { OnOk result (text.new.items ≡ text.old.items ++ rows_text layout.now records.now) }
{
    put_rows(alloc, text, layout, records, &NAMES)
}

/// Adds the name of a task's column.
fn put_head(alloc: Global, text: &mut Vec<u8>, layout: &Layout, figures: &Figures) -> io::Result<()>
    ensures { OnOk result (text.new.items ≡ text.old.items ++ head_text layout.now figures.now) }
{
    let task = task_figure(figures.task).to_string(alloc)?;
    let mut head = Vec::new(alloc);
    write!(head, "task ")?;
    put_right(&mut head, 2, task.as_bytes())?;
    put_right(text, layout.width, head.as_slice())?;
    Ok(())
}

/// Adds the number of a die, in the column of names.
fn put_die(alloc: Global, text: &mut Vec<u8>, die: usize) -> io::Result<()>
    ensures { OnOk result
        (text.new.items ≡ text.old.items ++ left 25 (codes "die " ++ decimal die)) }
{
    let mut name = Vec::new(alloc);
    write!(name, "die {die}")?;
    put_left(text, LABEL, name.as_slice())?;
    Ok(())
}

/// Adds the names of the columns.
#[tactic(auto, unfolding(crate::specs::Tables::heads_text))]
fn put_heads(
    alloc: Global,
    text: &mut Vec<u8>,
    layout: &Layout,
    die: usize,
    records: &Records,
) -> io::Result<()>
    ensures { OnOk result
        (text.new.items ≡ text.old.items ++ heads_text layout.now die records.now) }
{
    put_die(alloc, text, die)?;
    put_right(text, layout.width, b"all")?;
    for figures in &records.tasks {
        put_head(alloc, text, layout, figures)?;
    }
    text.push(b'\n')?;
    Ok(())
}

/// The greater one of a width and of what a cell with two blanks before it takes.
fn wider(width: usize, cell: &str) -> usize
    ensures { result ≡ max width (length cell.now + 2) }
{
    width.max(cell.len() + 2)
}

/// How wide a column has to be that is so wide at least, for two blanks before each cell of a record.
fn wide_for(
    alloc: Global,
    layout: &Layout,
    names: &[(&str, Counted)],
    width: usize,
    figures: &Figures,
) -> io::Result<usize>
    ensures { IfOk result (λ wide. wide ≡ wide_names layout.now figures.now width 0 names.now) }
{
    let mut wide = width;
    for row in 0..names.len() {
        let (_, counted) = names[row];
        let cell = cell_at(layout, figures, row, counted).to_string(alloc)?;
        wide = wider(wide, cell.as_str());
    }
    Ok(wide)
}

/// How wide the columns have to be for two blanks before each cell.
fn wide_for_all(
    alloc: Global,
    layout: &Layout,
    records: &Records,
    names: &[(&str, Counted)],
) -> io::Result<usize>
    ensures { IfOk result (λ wide. wide ≡ wide_all layout.now records.now names.now) }
{
    let mut wide = wide_for(alloc, layout, names, WIDTH, &records.die)?;
    for figures in &records.tasks {
        wide = wide_for(alloc, layout, names, wide, figures)?;
    }
    Ok(wide)
}

/// How wide the columns are: wider where a number has its time.
#[tactic(auto, unfolding(crate::specs::Tables::width_of))]
fn width_of(alloc: Global, layout: &Layout, records: &Records) -> io::Result<usize>
    ensures { IfOk result (λ wide. wide ≡ width_of layout.now records.now) }
{
    if layout.units.slot_us.is_none() {
        Ok(WIDTH)
    } else {
        wide_for_all(alloc, layout, records, &NAMES)
    }
}

/// How many slots a die carried out.
fn slots_in(own: Option<OwnFigures>) -> u32
    ensures { result ≡ slots_in own }
{
    match own {
        None => 0,
        Some(own) => own.wearing.slots,
    }
}

/// How long the blocks of a die last.
fn lasting_of(own: Option<OwnFigures>) -> Option<Lasting>
    ensures { result ≡ lasting_of own }
{
    match own {
        None => None,
        Some(own) => own.lasting,
    }
}

/// How the cells of a table look.
#[tactic(auto, unfolding(crate::specs::Tables::layout_of))]
fn layout_of(alloc: Global, records: &Records, units: Units) -> io::Result<Layout>
    ensures { IfOk result (λ layout. layout ≡ layout_of records.now units) }
{
    let narrow = Layout {
        units,
        slots: slots_in(records.die.own),
        width: WIDTH,
    };
    let width = width_of(alloc, &narrow, records)?;
    Ok(Layout { width, ..narrow })
}

/// Adds the records of a die as a table with a column for each. Behind a number of slots stands its time, where it is
/// known how long a slot is, and after one of pages how many bytes a second that is, where it is known how many bytes a
/// page has.
pub fn put_table(
    alloc: Global,
    text: &mut Vec<u8>,
    die: usize,
    records: &Records,
    units: Units,
) -> io::Result<()>
    ensures { OnOk result (text.new.items ≡ text.old.items ++ table_text die records.now units) }
{
    let layout = layout_of(alloc, records, units)?;
    let own = records.die.own;
    put_heads(alloc, text, &layout, die, records)?;
    put_all_rows(alloc, text, &layout, records)?;
    put_lasting(alloc, text, &layout, records, lasting_of(own))?;
    put_too_short(text, die, own, units)
}
