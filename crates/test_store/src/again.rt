//! Calls on a die of a store that may need memory. Where memory is scarce, one that is refused for lack of it is made
//! again, and has to be answered then as without the refusal. So the tables may be played with each allocation refused
//! in turn. Where it is ample, no call is made twice.

ghost use Rattle.std.specs.Prelude.{◌≡◌};

use die_service::{Die, DiePass, RefusedAt};
use flash_die::Nand;
use late_cert::Certificate;
use slot_core::Outcome;
use slot_types::{JobNo, Op, OpList, Refusal, TaskNo};
use std::alloc::Global;
use std::env::Env;
use std::sync::Wait;
use test_memory::is_scarce;

/// The number of a job of one operation of task 0, which is asked for once.
pub(crate) fn submit_once<N: Nand, R: Wait>(
    rt: &R,
    alloc: Global,
    die: &Die<N>,
    pass: &mut DiePass<N>,
    release: u32,
    due: u32,
    op: Op,
) -> Result<u32, Refusal>
    requires { pass.old.lock ≡ die.now }
    ensures { pass.new.lock ≡ pass.old.lock }
{
    let ops = OpList::from_vec(Vec::from_slice(alloc, &[op])?);
    match die.submit(rt, pass, TaskNo(0), release, due, ops) {
        Ok(number) => Ok(number.0),
        Err(refused) => Err(refused.refusal),
    }
}

/// The number that is done with the present slot, which is asked for once.
pub(crate) fn carry_once<N: Nand, R: Wait>(
    rt: &R,
    die: &Die<N>,
    pass: &mut DiePass<N>,
) -> Result<Option<u32>, RefusedAt>
    requires { pass.old.lock ≡ die.now }
    ensures { pass.new.lock ≡ pass.old.lock }
{
    match die.slot(rt, pass)?.finished {
        Some(number) => Ok(Some(number.0)),
        None => Ok(None),
    }
}

/// The number of a job of one operation of task 0.
pub(crate) fn submit<N: Nand, R: Wait + Env>(
    rt: &R,
    alloc: Global,
    die: &Die<N>,
    pass: &mut DiePass<N>,
    release: u32,
    due: u32,
    op: Op,
) -> Result<u32, Refusal>
    requires { pass.old.lock ≡ die.now }
    ensures { pass.new.lock ≡ pass.old.lock }
{
    match submit_once(rt, alloc, die, pass, release, due, op) {
        Err(Refusal::NoMemory) if is_scarce(rt) => submit_once(
            rt, alloc, die, pass, release, due, op,
        ),
        answer => answer,
    }
}

/// The number that is done with the present slot.
pub(crate) fn carry<N: Nand, R: Wait + Env>(
    rt: &R,
    die: &Die<N>,
    pass: &mut DiePass<N>,
) -> Result<Option<u32>, RefusedAt>
    requires { pass.old.lock ≡ die.now }
    ensures { pass.new.lock ≡ pass.old.lock }
{
    let first = carry_once(rt, die, pass);
    if let Err(refused) = first {
        if refused.refusal == Refusal::NoMemory && is_scarce(rt) {
            return carry_once(rt, die, pass);
        }
    }
    first
}

/// What became of a job.
pub(crate) fn outcome_of<N: Nand, R: Wait + Env>(
    rt: &R,
    die: &Die<N>,
    pass: &mut DiePass<N>,
    job: u32,
) -> Result<Outcome, Refusal>
    requires { pass.old.lock ≡ die.now }
    ensures { pass.new.lock ≡ pass.old.lock }
{
    match die.outcome(rt, pass, JobNo(job)) {
        Err(Refusal::NoMemory) if is_scarce(rt) => die.outcome(rt, pass, JobNo(job)),
        answer => answer,
    }
}

/// The certificate of the die's worst job.
pub(crate) fn certificate_of<N: Nand, R: Wait + Env>(
    rt: &R,
    die: &Die<N>,
    pass: &mut DiePass<N>,
) -> Result<Option<Certificate>, Refusal>
    requires { pass.old.lock ≡ die.now }
    ensures { pass.new.lock ≡ pass.old.lock }
{
    match die.certificate(rt, pass) {
        Err(Refusal::NoMemory) if is_scarce(rt) => die.certificate(rt, pass),
        answer => answer,
    }
}
