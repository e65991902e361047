//! The numbers of refusals. 0 is none, 1 to 24 are those of the store.

ghost use Rattle.std.specs.Prelude.{◌≡◌, ◌<◌};
ghost use Rattle.flash_c.specs.Codes.{code_of, two, why_of, renewal_code, renewal_why, verdict_code};
ghost use Rattle.flash_c.specs.Checkpoints.{untaken_code, untaken_why, fault_code, fault_why};

use crate::counts::count_of;
use crate::shapes::FlashWhy;
use die_checkpoint::CheckpointFault;
use late_cert::Verdict;
use slot_core::{CheckpointRefusal, RenewalRefusal};
use slot_types::Refusal;
use stepped_die::{StepCheckpointRefusal, StepRefusal, StepRenewalRefusal};

pub const OK: u32 = 0;

/// Memory was asked for and not had.
pub const NO_MEMORY: u32 = 1;

/// A fault has stopped the die.
pub const DIE_STOPPED: u32 = 16;

/// A slot has begun and is to be ended first.
pub const BEGUN: u32 = 100;

/// No slot has begun.
pub const NOT_BEGUN: u32 = 101;

/// An operation of no kind.
pub const BAD_KIND: u32 = 102;

/// No job or collection is done yet.
pub const NOTHING_DONE: u32 = 103;

/// Rows that don't rise by number.
pub const ROWS_NOT_RISING: u32 = 104;

/// A job or collection is neither done nor waived.
pub const NOT_QUIET: u32 = 105;

/// A block was erased too often for a life more.
pub const WORN_OUT: u32 = 106;

// 107 to 110 are refusals of the C above: an empty handle, a full one, a null pointer, and a report that isn't taken.

/// No work is overdue.
pub const NONE_OVERDUE: u32 = 111;

/// A mount needs something else next.
pub const WRONG_STEP: u32 = 112;

/// More cells of a block were reported than it has.
pub const TOO_MANY_CELLS: u32 = 113;

/// A label of a page that the plan doesn't have, or with a serial of 2^63 or more.
pub const BAD_LABEL: u32 = 114;

/// A checkpoint stands from which the die was resumed, and a slot would spend it.
pub const CHECKPOINT_STANDS: u32 = 115;

/// The faults of a certificate are 201 to 207.
pub const VERDICTS: u32 = 200;

/// A plan out of its limits, or whose bound isn't met.
pub const BAD_PLAN: u32 = 3;

/// A checkpoint of another number of pages, blocks or tasks than the plan has.
pub const OTHER_SHAPE: u32 = 301;

/// More pages are programmed in a block than it has.
pub const OVERFULL: u32 = 302;

/// Two blocks have programmed and free pages.
pub const SECOND_OPEN: u32 = 303;

/// A page lies in a cell that isn't programmed.
pub const UNPROGRAMMED: u32 = 304;

/// A balance is above its task's cap.
pub const ABOVE_CAP: u32 = 305;

/// The accounts share out another number of pages than are free.
pub const OTHER_SUM: u32 = 306;

/// Two pages lie in one cell.
pub const SHARED_CELL: u32 = 307;

/// More writes than a task may ask for in a period.
pub const TOO_MANY_WRITES: u32 = 401;

/// With what the task asked for in its last period it would be too much.
pub const TOO_SOON: u32 = 402;

/// An ask of the task waits for the next life already.
pub const WAITS_ALREADY: u32 = 403;

/// A job would be due after its die's life.
pub const LIFE_END: u32 = 404;

/// No life has at most the slots that were allowed.
pub const NO_LIFE: u32 = 405;

/// A life is shorter than a task's deadline.
pub const SHORT_LIFE: u32 = 406;

/// Terms that aren't the plan's, or are out of their limits.
pub const BAD_TERMS: u32 = 407;

/// More is asked for than there are slots.
pub const TOO_MUCH_DEMAND: u32 = 408;

/// A task's collections or its cap don't cover what it writes.
pub const TOO_FEW_PAGES: u32 = 409;

/// An ask waits for the next life, and would be lost.
pub const ASK_WAITS: u32 = 410;

/// A task has too few pages to go on with.
pub const NOT_STOCKED: u32 = 411;

/// A block failed, and no spare one is left.
pub const NO_SPARE: u32 = 501;

/// No block has this number, or a block doesn't have this page.
pub const NO_BLOCK: u32 = 502;

/// The number of a refusal of the store.
pub(crate) fn of_refusal(refusal: Refusal) -> u32
    ensures { result ≡ code_of (StepRefusal.Die refusal) }
{
    u32::from(refusal.number())
}

/// The number of a refusal.
pub(crate) fn of_step(refusal: StepRefusal) -> u32
    ensures { result ≡ code_of refusal }
{
    match refusal {
        StepRefusal::Die(refusal) => of_refusal(refusal),
        StepRefusal::Begun => BEGUN,
        StepRefusal::NotBegun => NOT_BEGUN,
        StepRefusal::CheckpointStands => CHECKPOINT_STANDS,
    }
}

/// The numbers of a refusal that has none.
pub(crate) fn no_numbers() -> FlashWhy
    ensures { result ≡ two 0 0 }
{
    FlashWhy {
        first: 0,
        second: 0,
    }
}

/// The numbers that a refusal has.
pub(crate) fn why_of(refusal: StepRefusal) -> FlashWhy
    ensures { result ≡ why_of refusal }
{
    let (first, second) = match refusal {
        StepRefusal::Die(Refusal::BadPage { page }) => (page, 0),
        StepRefusal::Die(Refusal::ReleasePast { now }) => (now, 0),
        StepRefusal::Die(Refusal::NoTokens { have, need }) => (have, need),
        _ => (0, 0),
    };
    FlashWhy { first, second }
}

/// The number of a refusal to renew.
pub(crate) fn of_renewal(refusal: StepRenewalRefusal) -> u32
    ensures { result ≡ renewal_code refusal }
{
    match refusal {
        StepRenewalRefusal::Die(RenewalRefusal::DieStopped) => DIE_STOPPED,
        StepRenewalRefusal::Die(RenewalRefusal::NotQuiet { .. }) => NOT_QUIET,
        StepRenewalRefusal::Die(RenewalRefusal::WornOut { .. }) => WORN_OUT,
        StepRenewalRefusal::Begun => BEGUN,
    }
}

/// The job or block that a refusal to renew has.
pub(crate) fn renewal_why(refusal: StepRenewalRefusal) -> FlashWhy
    ensures { result ≡ renewal_why refusal }
{
    let first = match refusal {
        StepRenewalRefusal::Die(RenewalRefusal::NotQuiet { job }) => job,
        StepRenewalRefusal::Die(RenewalRefusal::WornOut { block }) => block,
        _ => 0,
    };
    FlashWhy { first, second: 0 }
}

/// The number of a verdict on a certificate.
pub(crate) fn of_verdict(verdict: Verdict) -> u32
    ensures { result ≡ verdict_code verdict }
{
    match verdict.number() {
        None => OK,
        Some(number) => VERDICTS + u32::from(number),
    }
}

/// The number of why no checkpoint is taken.
pub(crate) fn of_untaken(refusal: StepCheckpointRefusal) -> u32
    ensures { result ≡ untaken_code refusal }
{
    match refusal {
        StepCheckpointRefusal::Die(CheckpointRefusal::NotRenewable { why }) => {
            of_renewal(StepRenewalRefusal::Die(why))
        }
        StepCheckpointRefusal::Die(CheckpointRefusal::NoMemory) => NO_MEMORY,
        StepCheckpointRefusal::Begun => BEGUN,
    }
}

/// The job or block that it has.
pub(crate) fn untaken_why(refusal: StepCheckpointRefusal) -> FlashWhy
    ensures { result ≡ untaken_why refusal }
{
    match refusal {
        StepCheckpointRefusal::Die(CheckpointRefusal::NotRenewable { why }) => {
            renewal_why(StepRenewalRefusal::Die(why))
        }
        _ => FlashWhy {
            first: 0,
            second: 0,
        },
    }
}

/// The number of what is wrong with a checkpoint.
pub(crate) fn of_fault(fault: CheckpointFault) -> u32
    ensures { result ≡ fault_code fault }
{
    match fault {
        CheckpointFault::OtherShape => OTHER_SHAPE,
        CheckpointFault::BadPlan => BAD_PLAN,
        CheckpointFault::Overfull { .. } => OVERFULL,
        CheckpointFault::SecondOpen { .. } => SECOND_OPEN,
        CheckpointFault::WornOut { .. } => WORN_OUT,
        CheckpointFault::Unprogrammed { .. } => UNPROGRAMMED,
        CheckpointFault::AboveCap { .. } => ABOVE_CAP,
        CheckpointFault::OtherSum { .. } => OTHER_SUM,
        CheckpointFault::NoMemory => NO_MEMORY,
        CheckpointFault::SharedCell { .. } => SHARED_CELL,
    }
}

/// The block, page or task that it names, or the two sums.
pub(crate) fn fault_why(fault: CheckpointFault) -> FlashWhy
    ensures { result ≡ fault_why fault }
{
    let (first, second) = match fault {
        CheckpointFault::Overfull { block } => (block, 0),
        CheckpointFault::SecondOpen { block } => (block, 0),
        CheckpointFault::WornOut { block } => (block, 0),
        CheckpointFault::Unprogrammed { page } => (page, 0),
        CheckpointFault::AboveCap { task } => (task, 0),
        CheckpointFault::OtherSum { accounts, free } => {
            (count_of(accounts as usize), count_of(free as usize))
        }
        CheckpointFault::SharedCell { page } => (page, 0),
        _ => (0, 0),
    };
    FlashWhy { first, second }
}
