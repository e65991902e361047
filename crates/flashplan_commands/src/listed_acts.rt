//! Commands on several files of a kind.

ghost use Rattle.std.specs.Prelude.{◌≡◌, ◌≢◌, ◌⊎◌, IfErr, IfOk};
ghost use Rattle.flash_commands.specs.Acts.{RefusesAudit};
ghost use Rattle.flashplan_commands.specs.Acts.{AuditsFiles, Ends, IsAuditOf, IsAudited, PrintsText, worse_of};
ghost use Rattle.text_base.specs.Writing.{IsNotWhole};
ghost use Rattle.slot_types.specs.Refusal.{FailsForMemory};

use crate::endings::end_refused;
use flash_commands::Folder;
use flash_commands::audits::audit_report;
use flashplan_keeping::script_text;
use flashplan_trace_import::{ImportFault, Made, Measure, TraceFault, import};
use report_texts::ReportReader;
use slot_types::Refusal;
use std::alloc::Global;
use std::io::{Read, Write};
use text_base::{Output, write_whole};

/// A text, each of whose lines has a name in front. The only refusal is NoMemory.
fn named_lines(alloc: Global, name: &str, text: &[u8]) -> Result<Vec<u8>, Refusal>
    ensures { FailsForMemory result }
{
    let mut named = Vec::new(alloc);
    let mut begins = true;
    for byte in text {
        if begins {
            named.extend_from_slice(name.as_bytes())?;
            named.extend_from_slice(b": ")?;
        }
        named.push(*byte)?;
        begins = *byte == b'\n';
    }
    Ok(named)
}

/// Audits a report: adds the lines of its dies to a text, each with the report's name in front, and says whether a
/// certificate is refused. Where that is refused, nothing is added.
fn audit_named<R: Read + Drop>(
    alloc: Global,
    name: &str,
    report: R,
    text: &mut Vec<u8>,
) -> Result<bool, Refusal>
    ensures audited { IfOk result (IsAuditOf (R.remaining report)) }
    ensures refused { IfErr result (RefusesAudit (R.remaining report)) }
{
    let work = ReportReader::new(alloc, report).work()?;
    let audit = audit_report(alloc, &work)?;
    let named = named_lines(alloc, name, &audit.text)?;
    text.extend_from_slice(&named)?;
    Ok(audit.refused)
}

/// Opens a report and audits it.
#[tactic(auto, using(crate::proofs::Audits::audited_file))]
fn audit_file<D: Folder>(
    alloc: Global,
    folder: &D,
    name: &str,
    text: &mut Vec<u8>,
) -> Result<bool, Refusal>
    ensures { IsAudited (D.held folder.now name.now) result }
{
    let report = folder.open(name)?;
    audit_named(alloc, name, report, text)
}

/// The status of two audits: 1 where a report wasn't read, else 3 where a certificate is refused, else 0.
fn worse(status: u8, audited: Result<bool, Refusal>) -> u8
    ensures { result ≡ worse_of status audited }
{
    match audited {
        Err(_) => 1,
        Ok(refused) => { if refused && status != 1 { 3 } else { status } }
    }
}

/// Audits reports, one after the other, and prints for each die a line, with the report's name in front, as
/// `monday.csv: die 0 worst -1 job 0 holds`, whole. A report that can't be read is named in a line, as
/// `tuesday.csv: error 20 ReportText 3`, and the others are audited all the same. Answers the status: 1 where a report
/// can't be read or `out` fails, else 3 where a certificate is refused. A writer of `err` that fails is passed over.
pub fn act_audits<D: Folder, W: Output, E: Write>(
    alloc: Global,
    folder: &D,
    names: &[&str],
    out: &mut W,
    err: &mut E,
) -> u8
    ensures worst { result ≢ 1 → AuditsFiles (D.held folder.now) names.now 0 result }
    ensures printed { PrintsText (W.contents out.old) (W.contents out.new)
        ⊎ (IsNotWhole W.contents W.has_failed PrintsText out.old out.new × (result ≡ 1)) }
{
    let mut text = Vec::new(alloc);
    let mut status = 0;
    for name in names {
        let audited = audit_file(alloc, folder, name, &mut text);
        if let Err(refusal) = &audited {
            let _ = writeln!(err, "{name}: error {} {refusal}", refusal.number());
        }
        status = worse(status, audited);
    }
    match write_whole(out, &text) {
        Ok(()) => status,
        Err(refusal) => end_refused(err, refusal),
    }
}

/// The traces of these names, each whole. An error is of the first that can't be read, and its place.
fn traces_of<D: Folder>(
    alloc: Global,
    folder: &D,
    names: &[&str],
) -> Result<Vec<Vec<u8>>, Refusal> {
    let mut traces = Vec::new(alloc);
    for name in names {
        let trace = folder.open(name)?;
        traces.push(script_text(alloc, trace)?)?;
    }
    Ok(traces)
}

/// What is made of the traces of these names.
fn imported<D: Folder>(
    alloc: Global,
    folder: &D,
    names: &[&str],
    measure: Measure,
    made: Made,
) -> Result<Vec<u8>, ImportFault> {
    let traces = traces_of(alloc, folder, names)?;
    let mut texts: Vec<&[u8]> = Vec::new(alloc);
    for trace in &traces {
        texts.reserve(1)?;
        texts.push_reserved(trace.as_slice());
    }
    import(alloc, texts.as_slice(), measure, made)
}

/// Prints the script of traces, a die each, or their plan, as [`import`](flashplan_trace_import::import) makes it, whole.
/// Answers the status: 0, or 1 where something was refused, which is reported, of several traces with the name of the
/// one at fault: nothing was written then, or not the whole.
pub fn act_imports<D: Folder, W: Output, E: Write>(
    alloc: Global,
    folder: &D,
    names: &[&str],
    measure: Measure,
    as_plan: bool,
    out: &mut W,
    err: &mut E,
) -> u8
    ensures { Ends W.contents W.has_failed PrintsText out.old out.new result }
{
    let made = if as_plan { Made::Plan } else { Made::Script };
    match imported(alloc, folder, names, measure, made) {
        Ok(text) => match write_whole(out, &text) {
            Ok(()) => 0,
            Err(refusal) => end_refused(err, refusal),
        },
        Err(
            ImportFault {
                fault: TraceFault::Refused(refusal),
                ..
            },
        ) => end_refused(err, refusal),
        Err(ImportFault { die, fault }) => {
            let _ = match names.get(die as usize) {
                Some(name) if names.len() > 1 => writeln!(err, "error: {name}: {fault}"),
                _ => writeln!(err, "error: {fault}"),
            };
            1
        }
    }
}
