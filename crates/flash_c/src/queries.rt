//! What a die is asked. A question leaves the die as it is.

ghost use Rattle.std.specs.Prelude.{◌≡◌, ◌≢◌, ◌⊎◌, ◌↔◌, None, Some, length, true, IsSomeAnd};
ghost use Rattle.event_log.specs.RecordCounts.{record_count};
ghost use Rattle.die_log.specs.Model.Log.{now, job_at};
ghost use Rattle.die_log.specs.Model.Rows.{rows, certificate};
ghost use Rattle.slot_core.specs.Outcomes.{outcome_at, head_at, worst_of};
ghost use Rattle.slot_core.specs.Overdues.{overdue_of};
ghost use Rattle.stepped_die.specs.Stepped.{Stepped};
ghost use Rattle.flash_c.specs.Counts.{count_of};
ghost use Rattle.flash_c.specs.Lists.{array_with};
ghost use Rattle.flash_c.specs.Names.{name_of};
ghost use Rattle.slot_types.specs.Places.{place_of as place_in_log};
ghost use Rattle.die_log.specs.Model.Flash.{cells};
ghost use Rattle.flash_c.specs.Checkpoints.{place_of};
ghost use Rattle.flash_c.specs.Conversions as says;
ghost use Rattle.flash_c.specs.Entries.{SaysCaller};

use crate::checkpoints::place_of;
use crate::codes::{NONE_OVERDUE, NOTHING_DONE, OK, of_refusal};
use crate::counts::count_of;
use crate::entries::caller_of_job;
use crate::handles::{Handle, put, take};
use crate::lists::{put_jobs, put_names, put_rows};
use crate::said::{certificate_of, job_of, outcome_of, overdue_as, worst_of};
use crate::shapes::{
    FlashCertificate, FlashJob, FlashName, FlashOutcome, FlashOverdue, FlashPlace, FlashRow,
    FlashWorst,
};
use slot_core::Outcome;
use slot_types::JobNo;
use std::alloc::Global;

/// The present slot.
#[unsafe(no_mangle)]
pub extern "C" fn flash_now(alloc: Global, die: &mut Handle) -> u32
    ghost held: { Stepped }
    requires full { die.old.value ≡ Some held }
    ensures same { die.new.value ≡ Some held }
    ensures now { result ≡ now held.core.log }
{
    let boxed = take(alloc, die);
    let now = boxed.core().now();
    put(die, boxed);
    now
}

/// How many entries the log has.
#[unsafe(no_mangle)]
pub extern "C" fn flash_len(alloc: Global, die: &mut Handle) -> u64
    ghost held: { Stepped }
    requires full { die.old.value ≡ Some held }
    ensures same { die.new.value ≡ Some held }
    ensures len { result ≡ length held.core.log }
{
    let boxed = take(alloc, die);
    let len = boxed.core().len();
    put(die, boxed);
    len
}

/// How many records the log takes.
#[unsafe(no_mangle)]
pub extern "C" fn flash_records(alloc: Global, die: &mut Handle) -> u64
    ghost held: { Stepped }
    requires full { die.old.value ≡ Some held }
    ensures same { die.new.value ≡ Some held }
    ensures records { result ≡ record_count held.core.log }
{
    let boxed = take(alloc, die);
    let records = boxed.core().records();
    put(die, boxed);
    records
}

/// What a job or a collection was accepted with.
#[unsafe(no_mangle)]
pub extern "C" fn flash_job(alloc: Global, die: &mut Handle, number: u32, job: &mut FlashJob) -> u32
    ghost held: { Stepped }
    requires full { die.old.value ≡ Some held }
    ensures same { die.new.value ≡ Some held }
    ensures said { result ≡ 0 → IsSomeAnd (head_at held.core.log number) (λ head.
        job.new ≡ says.job_of head) }
    ensures unknown { result ≢ 0 → (result ≡ 17) × (job_at held.core.log number ≡ None)
        × (job.new ≡ job.old) }
{
    let boxed = take(alloc, die);
    let said = boxed.core().job(JobNo(number));
    put(die, boxed);
    match said {
        Ok(head) => {
            *job = job_of(head);
            OK
        }
        Err(refusal) => of_refusal(refusal),
    }
}

/// Who submitted a job or a collection. To find that takes a step for each entry of the log up to that one.
#[unsafe(no_mangle)]
pub extern "C" fn flash_caller(
    alloc: Global,
    die: &mut Handle,
    number: u32,
    caller: &mut u32,
) -> u32
    ghost held: { Stepped }
    requires full { die.old.value ≡ Some held }
    ensures same { die.new.value ≡ Some held }
    ensures said { result ≡ 0 → SaysCaller held.core.log number caller.new }
    ensures unknown { (result ≡ 17) ↔ (job_at held.core.log number ≡ None) }
    ensures refused { result ≢ 0 → (result ≡ 17) × (caller.new ≡ caller.old) }
{
    let boxed = take(alloc, die);
    let said = boxed.core().job(JobNo(number));
    let mut notes = boxed.core().notes_from(0);
    let found = caller_of_job(&mut notes, number);
    put(die, boxed);
    match said {
        Ok(_) => {
            *caller = found;
            OK
        }
        Err(refusal) => of_refusal(refusal),
    }
}

/// The cell in which a logical page lies, of a die that is stopped, too; a page that the die doesn't have lies nowhere.
#[unsafe(no_mangle)]
pub extern "C" fn flash_place(
    alloc: Global,
    die: &mut Handle,
    page: u32,
    place: &mut FlashPlace,
) -> u32
    ghost held: { Stepped }
    requires full { die.old.value ≡ Some held }
    ensures same { die.new.value ≡ Some held }
    ensures place { place.new
        ≡ place_of (place_in_log (cells held.core.start held.core.log).places page) }
    ensures well { result ≡ 0 }
{
    let boxed = take(alloc, die);
    let found = boxed.core().place(page);
    put(die, boxed);
    *place = place_of(found);
    OK
}

/// What became of a job or a collection; what its reads gave goes into `reads`, as far as there is room.
#[unsafe(no_mangle)]
pub extern "C" fn flash_outcome(
    alloc: Global,
    die: &mut Handle,
    job: u32,
    outcome: &mut FlashOutcome,
    reads: &mut [FlashName],
) -> u32
    ghost held: { Stepped }
    requires full { die.old.value ≡ Some held }
    ensures same { die.new.value ≡ Some held }
    ensures said { result ≡ 0 → IsSomeAnd (outcome_at held.core.start held.core.log job) (λ said.
        outcome.new ≡ says.outcome_of said) }
    ensures reads { result ≡ 0 → IsSomeAnd (outcome_at held.core.start held.core.log job) (λ said.
        reads.new ≡ array_with name_of reads.old (says.reads_in said)) }
    ensures unknown { (result ≡ 17) ↔ (job_at held.core.log job ≡ None) }
    ensures refused { result ≢ 0 → (result ≡ 17) ⊎ (result ≡ 1) }
    ensures silent { result ≢ 0 → (outcome.new ≡ outcome.old) × (reads.new ≡ reads.old) }
{
    let boxed = take(alloc, die);
    let said = boxed.core().outcome(alloc, JobNo(job));
    put(die, boxed);
    match said {
        Ok(said) => {
            put_reads(reads, &said);
            *outcome = outcome_of(&said);
            OK
        }
        Err(refusal) => of_refusal(refusal),
    }
}

/// Puts what reads gave into place, as far as there is room.
pub(crate) fn put_reads(places: &mut [FlashName], outcome: &Outcome)
    ensures { places.new ≡ array_with name_of places.old (says.reads_in outcome.now) }
{
    match outcome {
        Outcome::Done { reads, .. } => put_names(places, reads.as_slice()),
        _ => put_names(places, &[]),
    }
}

/// The done job or collection with the greatest lateness.
#[unsafe(no_mangle)]
pub extern "C" fn flash_worst(alloc: Global, die: &mut Handle, worst: &mut FlashWorst) -> u32
    ghost held: { Stepped }
    requires full { die.old.value ≡ Some held }
    ensures same { die.new.value ≡ Some held }
    ensures said { result ≡ 0 → IsSomeAnd (worst_of held.core.start.plan held.core.log) (λ found.
        worst.new ≡ says.worst_of found) }
    ensures nothing { result ≢ 0 → (result ≡ 103)
        × (worst_of held.core.start.plan held.core.log ≡ None) × (worst.new ≡ worst.old) }
{
    let boxed = take(alloc, die);
    let said = boxed.core().worst();
    put(die, boxed);
    match said {
        None => NOTHING_DONE,
        Some(found) => {
            *worst = worst_of(found);
            OK
        }
    }
}

/// The released job or collection that waits and is due at the present slot at the latest, with the earliest deadline;
/// none of a die that a fault has stopped.
#[unsafe(no_mangle)]
pub extern "C" fn flash_overdue(alloc: Global, die: &mut Handle, overdue: &mut FlashOverdue) -> u32
    ghost held: { Stepped }
    requires full { die.old.value ≡ Some held }
    ensures same { die.new.value ≡ Some held }
    ensures said { result ≡ 0 → IsSomeAnd (overdue_of held.core.start.plan held.core.log) (λ found.
        overdue.new ≡ says.overdue_as found) }
    ensures nothing { result ≢ 0 → (result ≡ 111) × (overdue.new ≡ overdue.old) }
    ensures cause { (result ≡ 111)
        ↔ ((held.core.stopped ≡ true) ⊎ (overdue_of held.core.start.plan held.core.log ≡ None)) }
{
    let mut boxed = take(alloc, die);
    let said = boxed.overdue();
    put(die, boxed);
    match said {
        None => NONE_OVERDUE,
        Some(found) => {
            *overdue = overdue_as(found);
            OK
        }
    }
}

/// The certificate of the worst job or collection; its jobs go into `jobs`, as far as there is room.
#[unsafe(no_mangle)]
pub extern "C" fn flash_certificate(
    alloc: Global,
    die: &mut Handle,
    said: &mut FlashCertificate,
    jobs: &mut [u32],
) -> u32
    ghost held: { Stepped }
    requires full { die.old.value ≡ Some held }
    ensures same { die.new.value ≡ Some held }
    ensures said { result ≡ 0 → IsSomeAnd (certificate held.core.start.plan held.core.log) (λ built.
        said.new ≡ says.certificate_of built) }
    ensures jobs { result ≡ 0 → IsSomeAnd (certificate held.core.start.plan held.core.log) (λ built.
        jobs.new ≡ array_with says.number_in jobs.old built.jobs) }
    ensures nothing { result ≡ 103 → certificate held.core.start.plan held.core.log ≡ None }
    ensures refused { result ≢ 0 → (result ≡ 103) ⊎ (result ≡ 1) }
    ensures silent { result ≢ 0 → (said.new ≡ said.old) × (jobs.new ≡ jobs.old) }
{
    let boxed = take(alloc, die);
    let made = boxed.core().certificate(alloc);
    put(die, boxed);
    match made {
        Err(refusal) => of_refusal(refusal),
        Ok(None) => NOTHING_DONE,
        Ok(Some(built)) => {
            put_jobs(jobs, built.jobs.as_slice());
            *said = certificate_of(&built);
            OK
        }
    }
}

/// The rows of all jobs and collections but the waived ones, by number, as far as there is room, and how many they are.
#[unsafe(no_mangle)]
pub extern "C" fn flash_rows(
    alloc: Global,
    die: &mut Handle,
    said: &mut [FlashRow],
    count: &mut u32,
) -> u32
    ghost held: { Stepped }
    requires full { die.old.value ≡ Some held }
    ensures same { die.new.value ≡ Some held }
    ensures rows { result ≡ 0 → said.new
        ≡ array_with says.row_of said.old (rows held.core.start.plan held.core.log) }
    ensures count { result ≡ 0 → count.new
        ≡ count_of (length (rows held.core.start.plan held.core.log)) }
    ensures silent { result ≢ 0 → (result ≡ 1) × (said.new ≡ said.old) × (count.new ≡ count.old) }
{
    let boxed = take(alloc, die);
    let made = boxed.core().rows(alloc);
    put(die, boxed);
    match made {
        Err(refusal) => of_refusal(refusal),
        Ok(rows) => {
            put_rows(said, rows.as_slice());
            *count = count_of(rows.len());
            OK
        }
    }
}
