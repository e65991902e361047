//! Audits of reports: the verdict on each certificate.

ghost use Rattle.std.specs.Prelude.{◌≡◌, ◌<◌, ◌++◌, ◌∷◌, [], codes, decimal, flat_map, get_or, length, map};
ghost use Rattle.std.specs.Prelude.{IfOk, OnOk, Some, None};
ghost use Rattle.std.specs.List.{list_any};
ghost use Rattle.slot_types.specs.Refusal.{FailsForMemory};
ghost use Rattle.late_cert.specs.Rows.{RowsRise};
ghost use Rattle.report_texts.specs.ReportWork.{AllRise};
ghost use Rattle.flash_commands.specs.Audit.{cert_line, is_refused_work, refuses, verdict_in, verdict_text, work_line, worst_text};

use late_cert::{Certificate, Verdict, check, lateness};
use report_texts::{DieWork, ReportWork};
use slot_types::Refusal;
use std::alloc::Global;
use std::io::Write;
use std::thread::Threads;
use std::{io, thread};

/// How many threads judge the dies of a report, at most.
const MAX_JUDGES: usize = 4;

/// What an audit found.
#[derive(Drop)]
pub struct Audit {
    /// A line for each die.
    pub text: Vec<u8>,
    /// Whether a certificate is refused.
    pub refused: bool,
}

/// Adds what a check says.
fn put_verdict(text: &mut Vec<u8>, verdict: Verdict) -> io::Result<()>
    ensures { OnOk result (text.new.items ≡ text.old.items ++ verdict_text verdict) }
{
    match verdict.number() {
        None => write!(text, "holds"),
        Some(number) => {
            let name = verdict.name();
            write!(text, "refused {number} {name}")
        }
    }
}

/// Adds the lateness and the job that a certificate speaks of.
fn put_worst(text: &mut Vec<u8>, die: u32, cert: &Certificate) -> io::Result<()>
    ensures { OnOk result (text.new.items ≡ text.old.items ++ worst_text die cert.now) }
{
    let (late, job) = (lateness(cert.completion, cert.due), cert.job.0);
    write!(text, "die {die} worst {late} job {job} ")
}

/// Adds the line of a die without a certificate.
fn put_none(text: &mut Vec<u8>, die: u32) -> io::Result<()>
    ensures { OnOk result (text.new.items ≡ text.old.items ++ cert_line die [] None) }
{
    write!(text, "die {die} no lateness")?;
    text.push(b'\n')?;
    Ok(())
}

/// Adds the line of a certificate.
fn put_cert(text: &mut Vec<u8>, die: u32, cert: &Certificate, verdict: Verdict) -> io::Result<()>
    ensures { OnOk result (text.new.items
        ≡ text.old.items ++ (worst_text die cert.now ++ verdict_text verdict ++ 10 ∷ [])) }
{
    put_worst(text, die, cert)?;
    put_verdict(text, verdict)?;
    text.push(b'\n')?;
    Ok(())
}

/// The verdict on the certificate of a die's work, if it has one.
fn verdict_in(die: &DieWork) -> Option<Verdict>
    requires { RowsRise die.now.rows }
    ensures { result ≡ verdict_in die.now }
{
    match &die.cert {
        Some(cert) => Some(check(&die.rows, cert)),
        None => None,
    }
}

/// The verdicts on the certificates of dies, in their order. The only refusal is NoMemory.
fn verdicts_in(alloc: Global, dies: &[DieWork]) -> Result<Vec<Option<Verdict>>, Refusal>
    requires { AllRise dies.now }
    ensures ok { IfOk result (λ verdicts. verdicts.items ≡ map verdict_in dies.now) }
    ensures refused { FailsForMemory result }
{
    let mut verdicts = Vec::new(alloc);
    for die in dies {
        verdicts.push(verdict_in(die))?;
    }
    Ok(verdicts)
}

/// A place for the verdict on each die. The only refusal is NoMemory.
fn no_verdicts(alloc: Global, dies: usize) -> Result<Vec<Option<Verdict>>, Refusal>
    ensures ok { IfOk result (λ verdicts. length verdicts.items ≡ dies) }
    ensures refused { FailsForMemory result }
{
    let mut verdicts = Vec::new(alloc);
    for _ in 0..dies {
        verdicts.push(None)?;
    }
    Ok(verdicts)
}

/// The same verdicts, each die's by one of at most four threads: of a single die by none but the caller's. A thread
/// that can't be started is done without.
fn verdicts_by_threads<R: Threads + Sync>(
    rt: &R,
    alloc: Global,
    dies: &[DieWork],
) -> Result<Vec<Option<Verdict>>, Refusal>
    requires { AllRise dies.now }
    ensures ok { IfOk result (λ verdicts. verdicts.items ≡ map verdict_in dies.now) }
    ensures refused { FailsForMemory result }
{
    let mut verdicts = no_verdicts(alloc, dies.len())?;
    let judge = |at: usize, verdict: &mut Option<Verdict>|
        requires { (at < length dies.now) × AllRise dies.now }
        ensures { verdict.exit.now ≡ get_or (map verdict_in dies.entry.now) at verdict.exit.now }
    { *verdict = verdict_in(&dies[at]) };
    thread::for_each_mut(rt, verdicts.as_mut_slice(), MAX_JUDGES, &judge);
    Ok(verdicts)
}

/// Adds the line of a die's work, on whose certificate this is the verdict, and says whether it is refused.
fn put_die(text: &mut Vec<u8>, die: &DieWork, verdict: Option<Verdict>) -> Result<bool, Refusal>
    requires { verdict ≡ verdict_in die.now }
    ensures text { OnOk result (text.new.items ≡ text.old.items ++ work_line die.now) }
    ensures refusal { IfOk result (λ is. is ≡ is_refused_work die.now) }
    ensures refused { FailsForMemory result }
{
    let (Some(cert), Some(verdict)) = (&die.cert, verdict) else {
        if put_none(text, die.die).is_err() {
            return Err(Refusal::NoMemory);
        }
        return Ok(false);
    };
    if put_cert(text, die.die, cert, verdict).is_err() {
        return Err(Refusal::NoMemory);
    }
    Ok(verdict.number().is_some())
}

/// What an audit of a report finds, by its work and the verdicts on it. The only refusal is NoMemory.
fn audit_of(alloc: Global, dies: &[DieWork], verdicts: &[Option<Verdict>]) -> Result<Audit, Refusal>
    requires { verdicts.now ≡ map verdict_in dies.now }
    ensures text { IfOk result (λ audit. audit.text.items ≡ flat_map work_line dies.now) }
    ensures refusal { IfOk result (λ audit. audit.refused ≡ list_any is_refused_work dies.now) }
    ensures refused { FailsForMemory result }
{
    let mut text = Vec::new(alloc);
    let mut refused = false;
    for at in 0..dies.len() {
        let is_refused = put_die(&mut text, &dies[at], verdicts[at])?;
        refused |= is_refused;
    }
    Ok(Audit { text, refused })
}

/// What an audit of a report finds, by its work. The only refusal is NoMemory.
pub fn audit_report(alloc: Global, work: &ReportWork) -> Result<Audit, Refusal>
    requires { AllRise work.now }
    ensures text { IfOk result (λ audit. audit.text.items ≡ flat_map work_line work.now) }
    ensures refusal { IfOk result (λ audit. audit.refused ≡ list_any is_refused_work work.now) }
    ensures refused { FailsForMemory result }
{
    let verdicts = verdicts_in(alloc, work.as_slice())?;
    audit_of(alloc, work.as_slice(), verdicts.as_slice())
}

/// The same, by as many threads as there are dies with work, at most four.
pub fn audit_by_threads<R: Threads + Sync>(
    rt: &R,
    alloc: Global,
    work: &ReportWork,
) -> Result<Audit, Refusal>
    requires { AllRise work.now }
    ensures text { IfOk result (λ audit. audit.text.items ≡ flat_map work_line work.now) }
    ensures refusal { IfOk result (λ audit. audit.refused ≡ list_any is_refused_work work.now) }
    ensures refused { FailsForMemory result }
{
    let verdicts = verdicts_by_threads(rt, alloc, work.as_slice())?;
    audit_of(alloc, work.as_slice(), verdicts.as_slice())
}
