//! What needs no die: the test of a plan, the check of a certificate, the names of refusals, the version.

ghost use Rattle.std.specs.Prelude.{◌≡◌, ◌≢◌, ◌⊎◌, ◌++◌, ◌∷◌, [], length, map, IsOk, IfOk, IfErr, IsSomeAnd};
ghost use Rattle.plan_rules.specs.Bound.{MeetsBound};
ghost use Rattle.plan_rules.specs.Times.{Passes, demand};
ghost use Rattle.late_cert.specs.Rows.{RowsRise};
ghost use Rattle.late_cert.specs.Check.{verdict_of};
ghost use Rattle.late_cert.specs.Bound.{IsCertificate, BindsEverySchedule};
ghost use Rattle.flash_c.specs.Answers.{SaysNoPlan};
ghost use Rattle.flash_c.specs.Codes.{verdict_code};
ghost use Rattle.flash_c.specs.Plans.{plan_in, IsTimed};
ghost use Rattle.flash_c.specs.Texts.{name_at};
ghost use Rattle.flash_c.specs.Lists.{array_with};
ghost use Rattle.flash_c.specs.Conversions.{row_in, number_in};

use crate::codes::{OK, ROWS_NOT_RISING, of_refusal, of_verdict};
use crate::counts::count_of;
use crate::lists::{jobs_in, rows_in};
use crate::plans::plan_in;
use crate::said::load_of;
use crate::shapes::{FlashCertificate, FlashLoad, FlashPlan, FlashRow, FlashTask};
use crate::texts::{name_of, put_text};
use crate::times::may_be_used;
use late_cert::{Certificate, check, rows_rise};
use plan_rules::{bound, plan_test};
use slot_types::JobNo;
use std::alloc::Global;

/// The version of this interface, 1.3: 65,536 times the major number, which changes where something that was there
/// changes, and the minor one, which changes where something is added.
pub const VERSION: u32 = 0x20000;

/// The version of this interface.
#[unsafe(no_mangle)]
pub extern "C" fn flash_version() -> u32
    ensures { result ≡ 131072 }
{
    VERSION
}

/// Whether a plan, with times or without, may be used.
#[unsafe(no_mangle)]
pub extern "C" fn flash_plan_bound(alloc: Global, plan: &FlashPlan, tasks: &[FlashTask]) -> u32
    ensures met { result ≡ 0 → MeetsBound (plan_in plan.now tasks.now) }
    ensures timed { result ≡ 0 → IsTimed (plan_in plan.now tasks.now) }
    ensures unmet { result ≢ 0 → result ≢ 1 → ((result ≡ 2) ⊎ (result ≡ 3))
        × ¬ (MeetsBound (plan_in plan.now tasks.now) × IsTimed (plan_in plan.now tasks.now)) }
    ensures cause { result ≢ 0 → SaysNoPlan (plan_in plan.now tasks.now) result }
{
    let plan = match plan_in(alloc, plan, tasks) {
        Ok(plan) => plan,
        Err(refusal) => return of_refusal(refusal),
    };
    match may_be_used(&plan) {
        Ok(()) => OK,
        Err(refusal) => of_refusal(refusal),
    }
}

/// Tests a plan with times, and writes its demand.
#[unsafe(no_mangle)]
pub extern "C" fn flash_plan_test(
    alloc: Global,
    plan: &FlashPlan,
    tasks: &[FlashTask],
    load: &mut FlashLoad,
) -> u32
    ensures bound { result ≡ 0 → MeetsBound (plan_in plan.now tasks.now) }
    ensures passes { result ≡ 0
        → IsSomeAnd (plan_in plan.now tasks.now).times (Passes (plan_in plan.now tasks.now)) }
    ensures demand { result ≡ 0 → IsSomeAnd (plan_in plan.now tasks.now).times (λ times.
        (load.new.demand ≡ demand (plan_in plan.now tasks.now) times)
        × (load.new.common ≡ times.common)) }
    ensures fails { result ≡ 3 → ¬ (MeetsBound (plan_in plan.now tasks.now)
        × IsSomeAnd (plan_in plan.now tasks.now).times (Passes (plan_in plan.now tasks.now))) }
    ensures silent { result ≢ 0 → load.new ≡ load.old }
{
    let plan = match plan_in(alloc, plan, tasks) {
        Ok(plan) => plan,
        Err(refusal) => return of_refusal(refusal),
    };
    match bound(&plan) {
        Ok(()) => {}
        Err(refusal) => return of_refusal(refusal),
    }
    match plan_test(&plan) {
        Ok(said) => {
            *load = load_of(said);
            OK
        }
        Err(refusal) => of_refusal(refusal),
    }
}

/// Whether a certificate over these jobs holds for these rows: 0, or its first fault, 201 to 207.
#[unsafe(no_mangle)]
pub extern "C" fn flash_check(
    alloc: Global,
    rows: &[FlashRow],
    certificate: &FlashCertificate,
    jobs: &[u32],
) -> u32
    ensures rising { result ≡ 104 → ¬ RowsRise (map row_in rows.now) }
    ensures verdict { result ≢ 104 → result ≢ 1
        → RowsRise (map row_in rows.now) × (result ≡ verdict_code
        (verdict_of (map row_in rows.now) certificate.now.start certificate.now.due
        certificate.now.completion jobs.now)) }
    ensures holds { result ≡ 0
        → IsCertificate (map row_in rows.now) certificate.now.start certificate.now.due
        certificate.now.completion
        jobs.now }
    ensures binds { result ≡ 0
        → BindsEverySchedule (map row_in rows.now) certificate.now.due certificate.now.completion
        jobs.now }
{
    let made = match rows_in(alloc, rows) {
        Ok(made) => made,
        Err(refusal) => return of_refusal(refusal),
    };
    if !rows_rise(&made) {
        return ROWS_NOT_RISING;
    }
    let jobs = match jobs_in(alloc, jobs) {
        Ok(jobs) => jobs,
        Err(refusal) => return of_refusal(refusal),
    };
    let given = Certificate {
        job: JobNo(certificate.job),
        start: certificate.start,
        due: certificate.due,
        completion: certificate.completion,
        jobs,
    };
    of_verdict(check(&made, &given))
}

/// The name of a refusal's number, with a 0 after it, as far as there is room; answers its length without the 0.
#[unsafe(no_mangle)]
pub extern "C" fn flash_refusal_name(refusal: u32, text: &mut [u8]) -> u32
    ensures text { text.new ≡ array_with number_in text.old (name_at refusal ++ 0 ∷ []) }
    ensures len { result ≡ length (name_at refusal) }
{
    let name = name_of(refusal).as_bytes();
    put_text(text, name);
    count_of(name.len())
}
