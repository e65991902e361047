//! Passes that are split off, joined and dropped.

ghost use Rattle.std.specs.Prelude.{◌≡◌};

use crate::again::{carry, submit};
use crate::said::Reported;
use die_service::{Die, DiePass};
use flash_die::Nand;
use slot_types::Op;
use std::alloc::Global;
use std::env::Env;
use std::mem;
use std::process::Abort;
use std::sync::Wait;

/// A second pass is split off, which takes this one's place, and has joined it once this one did a job.
pub(crate) fn hands_over<N: Nand, R: Wait + Abort + Env>(
    said: &Reported<R>,
    alloc: Global,
    die: &Die<N>,
    pass: &mut DiePass<N>,
    release: u32,
    due: u32,
    op: Op,
    job: u32,
)
    requires { pass.old.lock ≡ die.now }
    ensures { pass.new.lock ≡ pass.old.lock }
{
    match die.split_pass(said.rt, pass) {
        Ok(mut other) => {
            said.same(
                &submit(said.rt, alloc, die, pass, release, due, op),
                &Ok(job),
            );
            said.same(&carry(said.rt, die, pass), &Ok(Some(job)));
            mem::swap(pass, &mut other);
            die.join_pass(pass, other);
        }
        Err(refusal) => said.same(&Some(refusal), &None),
    }
}

/// A second pass is split off, which takes this one's place once this one did a job. It doesn't join it.
pub(crate) fn passes_on<N: Nand, R: Wait + Abort + Env>(
    said: &Reported<R>,
    alloc: Global,
    die: &Die<N>,
    pass: &mut DiePass<N>,
    release: u32,
    due: u32,
    op: Op,
    job: u32,
)
    requires { pass.old.lock ≡ die.now }
    ensures { pass.new.lock ≡ pass.old.lock }
{
    match die.split_pass(said.rt, pass) {
        Ok(other) => {
            said.same(
                &submit(said.rt, alloc, die, pass, release, due, op),
                &Ok(job),
            );
            said.same(&carry(said.rt, die, pass), &Ok(Some(job)));
            *pass = other;
        }
        Err(refusal) => said.same(&Some(refusal), &None),
    }
}

/// A second pass is split off, which takes this one's place.
pub(crate) fn lets_go<N: Nand, R: Wait + Abort + Env>(
    said: &Reported<R>,
    die: &Die<N>,
    pass: &mut DiePass<N>,
)
    requires { pass.old.lock ≡ die.now }
    ensures { pass.new.lock ≡ pass.old.lock }
{
    match die.split_pass(said.rt, pass) {
        Ok(other) => *pass = other,
        Err(refusal) => said.same(&Some(refusal), &None),
    }
}
