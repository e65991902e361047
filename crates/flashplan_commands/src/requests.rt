//! Requests that are carried out on the files that they name.

ghost use Rattle.std.specs.Prelude.{◌≡◌, IfErr, IfOk};
ghost use Rattle.flashplan_words.specs.RequestTexts.{FitsRun, RequestFits, name_of};
ghost use Rattle.flashplan_commands.specs.Files.{EndsOnFiles, IsOpened, plan_name, script_name};

use crate::acts::act;
use crate::checkpoint_acts::Kept;
use crate::listed_acts::{act_audits, act_imports};
use crate::outputs::{clash_in, saved_to, written_path};
use crate::shelves::{Later, STDOUT, Shelf, report_unput};
use crate::strict::{Amiss, STRICT_STATUS, amiss_of, tells_refused};
use crate::strict_runs::{JudgedRun, act_judged, untold_run};
use flash_commands::{Fault, Folder, Heard, Texts, end, inputs_among, inputs_in};
use flashplan_trace_import::Measure;
use flashplan_words::{Asked, Command, ListCommand, Request};
use slot_types::Refusal;
use std::alloc::Global;
use std::io;
use std::io::Write;
use text_base::{Output, write_whole};

/// The files of a command: the first one, the script, and the checkpoint.
fn files_of<'a>(command: Command<'a>) -> (&'a str, Option<&'a str>, Option<&'a str>)
    ensures plan { result.0.now ≡ plan_name command.entry }
    ensures script { name_of result.1 ≡ script_name command.entry }
{
    match command {
        Command::Explain { plan, from, .. } => (plan, None, from),
        Command::Fit { sheet: plan }
        | Command::Design { sheet: plan }
        | Command::Fill { plan, .. }
        | Command::Demand { plan, .. } => (plan, None, None),
        Command::Arrivals { plan, from, .. } => (plan, None, from),
        Command::Keeps { plan, script, .. }
        | Command::RunKept { plan, script, .. }
        | Command::Cut { plan, script, .. } => (plan, Some(script), None),
        Command::Wear {
            plan,
            script,
            from,
            ..
        }
        | Command::Report {
            plan,
            script,
            from,
            ..
        }
        | Command::Draw {
            plan,
            script,
            checkpoint: from,
            ..
        }
        | Command::Compare {
            plan,
            script,
            checkpoint: from,
            ..
        }
        | Command::Run {
            plan,
            script,
            from,
            ..
        } => (plan, Some(script), from),
    }
}

/// The die and the task that the options of a command name, each with its option.
fn parts_of(command: Command<'_>) -> (Option<(&'static str, u32)>, Option<(&'static str, u32)>) {
    match command {
        Command::Report {
            fail: Some(fail),
            ..
        }
        | Command::Run {
            fail: Some(fail),
            ..
        } => (Some(("the die of --fail-at", fail.die)), None),
        Command::Draw { die, .. } | Command::Demand { die, .. } | Command::Cut { die, .. } => {
            (Some(("--die", die)), None)
        }
        Command::Compare { die, task, .. } => (Some(("--die", die)), Some(("--task", task))),
        _ => (None, None),
    }
}

/// The files of what is asked for, by what they have, and the numbers that options name, for what is reported.
pub fn texts_of<'a>(asked: &'a Asked<'a>) -> Texts<'a> {
    let (die, task) = match &asked.request {
        Request::One(command) => parts_of(*command),
        Request::Listed(..) => (None, None),
    };
    Texts {
        slots: slots_of(&asked.request),
        die,
        task,
        ..files_read(&asked.request)
    }
}

/// The files of a request that are read, by what they have.
fn files_read<'a>(request: &'a Request<'a>) -> Texts<'a> {
    match request {
        Request::One(Command::Fit { sheet } | Command::Design { sheet }) => Texts {
            sheet: Some(*sheet),
            ..Texts::NONE
        },
        Request::One(command) => {
            let (plan, script, checkpoint) = files_of(*command);
            Texts {
                plan: Some(plan),
                script,
                checkpoint,
                ..Texts::NONE
            }
        }
        Request::Listed(ListCommand::Audit, reports) => Texts {
            reports: reports.as_slice(),
            ..Texts::NONE
        },
        Request::Listed(ListCommand::Import { .. }, traces) => Texts {
            traces: traces.as_slice(),
            ..Texts::NONE
        },
    }
}

/// How many slots a request runs, if it runs any.
pub fn slots_of(request: &Request<'_>) -> Option<u32> {
    match request {
        Request::One(
            Command::Keeps { slots, .. }
            | Command::Wear { slots, .. }
            | Command::Report { slots, .. }
            | Command::Draw { slots, .. }
            | Command::Compare { slots, .. }
            | Command::Run { slots, .. }
            | Command::RunKept { slots, .. }
            | Command::Cut { slots, .. },
        ) => Some(*slots),
        _ => None,
    }
}

/// Opens a file that needn't be named. The only refusal is ReadFault.
fn open_named<D: Folder>(folder: &D, name: Option<&str>) -> Result<Option<D::Reader>, Refusal>
    ensures opened { IfOk result
        (IsOpened D.Reader.remaining (D.held folder.now) (name_of name.entry)) }
    ensures refused { IfErr result (λ refusal. refusal ≡ Refusal.ReadFault) }
{
    match name {
        Some(name) => Ok(Some(folder.open(name)?)),
        None => Ok(None),
    }
}

/// Carries out a command on the files that it names, which are opened before any of them is read. ReadFault, and nothing
/// is written, where one can't be opened, or standard input stands for two.
fn act_on_files<D: Folder, K: Shelf, W: Output, E: Write>(
    alloc: Global,
    folder: &D,
    shelf: &K,
    command: Command<'_>,
    out: &mut W,
    err: &mut E,
) -> Result<u8, Refusal>
    requires { FitsRun command }
    ensures ended { IfOk result
        (EndsOnFiles W.contents W.has_failed (D.held folder.now) command.entry out.old out.new) }
    ensures refused { IfErr result (λ refusal. refusal ≡ Refusal.ReadFault) }
    ensures unwritten { IfErr result (λ _. out.new ≡ out.old) }
{
    let (plan, script, from) = files_of(command);
    if inputs_in(&[Some(plan), script, from]) > 1 {
        return Err(Refusal::ReadFault);
    }
    let plan = folder.open(plan)?;
    let script = open_named(folder, script)?;
    let from = open_named(folder, from)?;
    let kept = Kept { from, shelf };
    match script {
        Some(script) => Ok(act(alloc, command, plan, script, kept, out, err)),
        None => Ok(act(alloc, command, plan, io::empty(), kept, out, err)),
    }
}

/// Carries out a command on several files, each of which is opened at its turn. ReadFault, and nothing is written, where
/// standard input stands for two.
fn act_on_list<D: Folder, W: Output, E: Write>(
    alloc: Global,
    folder: &D,
    command: ListCommand,
    names: &[&str],
    out: &mut W,
    err: &mut E,
) -> Result<u8, Refusal>
    ensures refused { IfErr result (λ refusal. refusal ≡ Refusal.ReadFault) }
    ensures unwritten { IfErr result (λ _. out.new ≡ out.old) }
{
    if inputs_among(names) > 1 {
        return Err(Refusal::ReadFault);
    }
    Ok(match command {
        ListCommand::Audit => act_audits(alloc, folder, names, out, err),
        ListCommand::Import {
            slot_us,
            due,
            as_plan,
        } => {
            let measure = Measure { slot_us, due };
            act_imports(alloc, folder, names, measure, as_plan, out, err)
        }
    })
}

/// Carries out what is asked for. ReadFault, and nothing is written, where a file can't be opened, or standard input
/// stands for two.
fn act_on<D: Folder, K: Shelf, W: Output, E: Write>(
    alloc: Global,
    folder: &D,
    shelf: &K,
    request: &Request<'_>,
    out: &mut W,
    err: &mut E,
) -> Result<u8, Refusal>
    requires { RequestFits request.now }
    ensures refused { IfErr result (λ refusal. refusal ≡ Refusal.ReadFault) }
    ensures unwritten { IfErr result (λ _. out.new ≡ out.old) }
{
    match request {
        Request::One(command) => act_on_files(alloc, folder, shelf, *command, out, err),
        Request::Listed(command, names) => {
            act_on_list(alloc, folder, *command, names.as_slice(), out, err)
        }
    }
}

/// Puts a text into the file of a name, and reports why not. Answers whether it stands there.
fn put_text<K: Shelf, E: Write>(shelf: &K, name: &str, text: &[u8], err: &mut E) -> bool {
    match shelf.put(name, text) {
        Ok(()) => true,
        Err(unput) => {
            let _ = end(err, Err(Fault::Refused(unput.refusal())));
            let _ = writeln!(err, "{name}: {unput}");
            false
        }
    }
}

/// Puts the checkpoint that was kept, if one was, into the file of its name. Answers the status, which is `status` where
/// nothing is refused.
fn put_later<K: Shelf, E: Write>(
    shelf: &K,
    request: &Request<'_>,
    later: Later,
    status: u8,
    err: &mut E,
) -> u8 {
    let (Some(name), Some(text)) = (saved_to(request), later.text()) else {
        return status;
    };
    let path = written_path(name);
    match shelf.put(path, &text) {
        Ok(()) => status,
        Err(unput) => {
            report_unput(err, name, &unput);
            1
        }
    }
}

/// Whether what is asked for is printed, and not put into a file.
fn is_printed<K: Shelf>(shelf: &K, output: &str) -> bool {
    output == "-" || output == STDOUT || shelf.is_one(output, STDOUT)
}

/// Prints a text, or puts it into the file that is to get it, and reports why not. Answers whether it stands there.
fn give_text<K: Shelf, W: Output, E: Write>(
    shelf: &K,
    output: &str,
    text: &[u8],
    out: &mut W,
    err: &mut E,
) -> bool {
    if is_printed(shelf, output) {
        write_whole(out, text).is_ok()
    } else {
        put_text(shelf, output, text, err)
    }
}

/// Reports what isn't as `--strict` wants it of what ended with 0, and answers the status.
fn end_strictly<E: Write>(err: &mut E, amiss: Option<Amiss>) -> u8 {
    match amiss {
        Some(amiss) => {
            let _ = writeln!(err, "strict: {amiss}");
            STRICT_STATUS
        }
        None => 0,
    }
}

/// Carries out a request that is to be strict, and says what isn't as it is wanted of one that ended with 0. The texts of
/// some runs don't tell all of it: these are carried out twice.
fn act_strictly<D: Folder, K: Shelf, E: Write>(
    alloc: Global,
    folder: &D,
    shelf: &K,
    request: &Request<'_>,
    text: &mut Vec<u8>,
    heard: &mut Heard<E>,
) -> Result<JudgedRun, Refusal>
    requires { RequestFits request.now }
{
    let untold = match request {
        Request::One(command) => untold_run(*command),
        Request::Listed(..) => None,
    };
    let judged = match untold {
        Some(run) => act_judged(alloc, folder, shelf, &run, text, heard)?,
        None => JudgedRun {
            status: act_on(alloc, folder, shelf, request, text, heard)?,
            amiss: None,
        },
    };
    if judged.status != 0 || (judged.amiss.is_some() && !tells_refused(heard.lines())) {
        return Ok(judged);
    }
    Ok(JudgedRun {
        status: 0,
        amiss: amiss_of(alloc, request, text.as_slice(), heard.lines())?,
    })
}

/// Carries out a request, and says what isn't as it is wanted, where it is to be strict.
fn act_made<D: Folder, K: Shelf, E: Write>(
    alloc: Global,
    folder: &D,
    shelf: &K,
    asked: &Asked<'_>,
    text: &mut Vec<u8>,
    err: &mut E,
) -> Result<JudgedRun, Refusal>
    requires { RequestFits asked.now.request }
{
    let mut heard = Heard::new(&mut *err, false);
    if asked.strict {
        return act_strictly(alloc, folder, shelf, &asked.request, text, &mut heard);
    }
    Ok(JudgedRun {
        status: act_on(alloc, folder, shelf, &asked.request, text, &mut heard)?,
        amiss: None,
    })
}

/// Carries out a request, and then prints its text or puts it into its file, whole, where one is made, which a refusal
/// doesn't. Answers the status. A checkpoint is put once the text stands in its file, and not where that fails.
fn act_whole<D: Folder, K: Shelf, W: Output, E: Write>(
    alloc: Global,
    folder: &D,
    shelf: &K,
    asked: &Asked<'_>,
    out: &mut W,
    err: &mut E,
) -> Result<u8, Refusal>
    requires { RequestFits asked.now.request }
{
    let later = Later::new(alloc);
    let mut text = Vec::new(alloc);
    let JudgedRun { status, amiss } = act_made(alloc, folder, &later, asked, &mut text, err)?;
    let is_made = status == 0 || !text.is_empty();
    if is_made && !give_text(shelf, asked.output, &text, out, err) {
        return Ok(1);
    }
    let status = put_later(shelf, &asked.request, later, status, err);
    if status == 0 {
        return Ok(end_strictly(err, amiss));
    }
    Ok(status)
}

/// Carries out what is asked for, prints it or writes it to its file, and answers the status, which is 4 where it was
/// to be strict, and a row was refused, something was late, or a certificate is refused. Where a file can't be
/// opened or written, or one of two names of a file would be written over the other, `err` gets a line, as `error 21
/// ReadFault`, and the status is 1; of two such names nothing is done, and both are reported.
pub fn act_asked<D: Folder, K: Shelf, W: Output, E: Write>(
    alloc: Global,
    folder: &D,
    shelf: &K,
    asked: &Asked<'_>,
    out: &mut W,
    err: &mut E,
) -> u8
    requires { RequestFits asked.now.request }
{
    if let Some(clash) = clash_in(shelf, asked, files_read(&asked.request)) {
        let status = end(err, Err(Fault::Refused(Refusal::WriteFault)));
        let _ = writeln!(err, "{clash}");
        return status;
    }
    let acted = if !asked.strict && is_printed(shelf, asked.output) {
        act_on(alloc, folder, shelf, &asked.request, out, err)
    } else {
        act_whole(alloc, folder, shelf, asked, out, err)
    };
    match acted {
        Ok(status) => status,
        Err(refusal) => end(err, Err(Fault::Refused(refusal))),
    }
}
