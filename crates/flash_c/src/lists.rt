//! Lists that go out into the caller's array, as far as there is room, and lists that come in.

ghost use Rattle.std.specs.Prelude.{◌≡◌, map, IfOk, IfErr};
ghost use Rattle.slot_types.specs.Refusal.{FailsForMemory};
ghost use Rattle.flash_c.specs.Lists.{array_with};
ghost use Rattle.flash_c.specs.Names.{name_of};
ghost use Rattle.flash_c.specs.Slots.{waived_of};
ghost use Rattle.flash_c.specs.Conversions.{row_of, row_in, number_in};

use crate::names::name_of;
use crate::said::{row_in, row_of};
use crate::shapes::{FlashName, FlashRow, FlashWaived};
use crate::slots::waived_of;
use late_cert::{JobList, JobRow, JobRows};
use slot_types::{JobNo, PageData, Refusal, Waived};
use std::alloc::Global;

pub(crate) fn put_names(places: &mut [FlashName], pages: &[PageData])
    ensures { places.new ≡ array_with name_of places.old pages.now }
{
    for i in 0..places.len().min(pages.len()) {
        places[i] = name_of(pages[i]);
    }
}

pub(crate) fn put_waived(places: &mut [FlashWaived], waived: &[Waived])
    ensures { places.new ≡ array_with waived_of places.old waived.now }
{
    for i in 0..places.len().min(waived.len()) {
        places[i] = waived_of(waived[i]);
    }
}

pub(crate) fn put_jobs(places: &mut [u32], jobs: &[JobNo])
    ensures { places.new ≡ array_with number_in places.old jobs.now }
{
    for i in 0..places.len().min(jobs.len()) {
        let job = jobs[i];
        places[i] = job.0;
    }
}

pub(crate) fn put_rows(places: &mut [FlashRow], rows: &[JobRow])
    ensures { places.new ≡ array_with row_of places.old rows.now }
{
    for i in 0..places.len().min(rows.len()) {
        places[i] = row_of(rows[i]);
    }
}

pub(crate) fn rows_in(alloc: Global, rows: &[FlashRow]) -> Result<JobRows, Refusal>
    ensures rows { IfOk result (λ made. made ≡ map row_in rows.now) }
    ensures refused { FailsForMemory result }
{
    let mut made = JobRows::new(alloc);
    for row in rows {
        made.push(row_in(row))?;
    }
    Ok(made)
}

pub(crate) fn jobs_in(alloc: Global, jobs: &[u32]) -> Result<JobList, Refusal>
    ensures jobs { IfOk result (λ made. made ≡ jobs.now) }
    ensures refused { FailsForMemory result }
{
    let mut made = JobList::new(alloc);
    for job in jobs {
        made.push(JobNo(*job))?;
    }
    Ok(made)
}
