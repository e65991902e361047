//! Records as CSV.

ghost use Rattle.std.specs.Prelude.{◌≡◌, ◌++◌, OnOk};
ghost use Rattle.flashplan_run_figures.specs.Csv.{all_fields, csv_header, csv_record, csv_records, csv_text, fields, task_text};
ghost use Rattle.flashplan_run_figures.specs.Csv.{end_names, level_names, slot_names, wear_names};
ghost use Rattle.flashplan_run_figures.specs.FigureTexts.{figure_text};

use crate::columns::{end_columns, level_columns, slot_columns, wear_columns};
use crate::figures::Figure;
use crate::records::{Figures, Records};
use std::io;
use std::io::Write;

/// Adds the names of what was asked for, and how late it was.
#[tactic(auto, unfolding(crate::specs::Csv::end_names))]
fn put_end_names(text: &mut Vec<u8>) -> io::Result<()>
    ensures { OnOk result (text.new.items ≡ text.old.items ++ end_names) }
{
    write!(text, ",done,waiting,refused,late,worst,mean,p99")?;
    write!(text, ",collected,waived,collecting,uncollected")
}

/// Adds the names of what the slots carried.
#[tactic(auto, unfolding(crate::specs::Csv::slot_names))]
fn put_slot_names(text: &mut Vec<u8>) -> io::Result<()>
    ensures { OnOk result (text.new.items ≡ text.old.items ++ slot_names) }
{
    write!(text, ",job_slots,copy_slots,erase_slots,idle_slots")?;
    write!(text, ",written,copied,amplification")
}

/// Adds the names of the fewest tokens and spare pages.
#[tactic(auto, unfolding(crate::specs::Csv::level_names))]
fn put_level_names(text: &mut Vec<u8>) -> io::Result<()>
    ensures { OnOk result (text.new.items ≡ text.old.items ++ level_names) }
{
    write!(text, ",least_balance,balance_slot,least_spare,spare_slot")
}

/// Adds the names of what a die wore.
#[tactic(auto, unfolding(crate::specs::Csv::wear_names))]
fn put_wear_names(text: &mut Vec<u8>) -> io::Result<()>
    ensures { OnOk result (text.new.items ≡ text.old.items ++ wear_names) }
{
    write!(text, ",erases,least_erases,mean_erases,most_erases")?;
    write!(
        text,
        ",run_s,mean_a_day,mean_days,most_a_day,most_days,years"
    )
}

/// Adds the header of the CSV.
fn put_header(text: &mut Vec<u8>) -> io::Result<()>
    ensures { OnOk result (text.new.items ≡ text.old.items ++ csv_header) }
{
    write!(text, "die,task")?;
    put_end_names(text)?;
    put_slot_names(text)?;
    put_level_names(text)?;
    put_wear_names(text)?;
    text.push(b'\n')?;
    Ok(())
}

/// Adds figures, each after a comma.
fn put_fields(text: &mut Vec<u8>, figures: &[Figure]) -> io::Result<()>
    ensures { OnOk result (text.new.items ≡ text.old.items ++ fields figures.now) }
{
    for figure in figures {
        write!(text, ",{figure}")?;
    }
    Ok(())
}

/// Adds all figures of a record, each after a comma.
fn put_columns(text: &mut Vec<u8>, figures: &Figures) -> io::Result<()>
    ensures { OnOk result (text.new.items ≡ text.old.items ++ all_fields figures.now) }
{
    put_fields(text, &end_columns(figures))?;
    put_fields(text, &slot_columns(figures))?;
    put_fields(text, &level_columns(figures))?;
    put_fields(text, &wear_columns(figures))
}

/// The task of a record, as a field; nothing of a die's own.
pub(crate) fn task_figure(task: Option<u32>) -> Figure
    ensures { figure_text result ≡ task_text task }
{
    match task {
        Some(task) => Figure::count(task),
        None => Figure::Nothing,
    }
}

/// Adds a record.
fn put_record(text: &mut Vec<u8>, die: usize, figures: &Figures) -> io::Result<()>
    ensures { OnOk result (text.new.items ≡ text.old.items ++ csv_record die figures.now) }
{
    let task = task_figure(figures.task);
    write!(text, "{die},{task}")?;
    put_columns(text, figures)?;
    text.push(b'\n')?;
    Ok(())
}

/// Adds the records of a die as CSV.
fn put_records(text: &mut Vec<u8>, die: usize, records: &Records) -> io::Result<()>
    ensures { OnOk result (text.new.items ≡ text.old.items ++ csv_records die records.now) }
{
    put_record(text, die, &records.die)?;
    for figures in &records.tasks {
        put_record(text, die, figures)?;
    }
    Ok(())
}

/// The figures of dies, numbered from 0, as CSV: the header, and of each die a record of its own and one of each of its tasks.
pub fn put_csv(text: &mut Vec<u8>, dies: &[Records]) -> io::Result<()>
    ensures { OnOk result (text.new.items ≡ text.old.items ++ csv_text dies.now) }
{
    put_header(text)?;
    for die in 0..dies.len() {
        put_records(text, die, &dies[die])?;
    }
    Ok(())
}
