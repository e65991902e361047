//! The program `flashplan`.
#![tactic(auto)]

mod places;
mod whole_files;

ghost use Rattle.flashplan_words.specs.RequestTexts.{RequestFits};

use flash_commands::{
    Fault, Heard, Noted, Shown, WatchedDisk, clears_lines, end, own_words, report_more,
    report_unwritten, show,
};
use flashplan_commands::{act_asked, slots_of, texts_of};
use flashplan_words::{Asked, read_words};
use slot_types::Refusal;
use std::alloc::Global;
use std::io;
use std::io::{ErrorKind, IsTerminal, Write};
use std::process::ExitCode;
use std::rt::{Clock, Files};
use text_base::{Flagged, Output};
use whole_files::DiskShelf;

/// What is shown on a terminal of the files that are read: of a script how far it is run, of others how much was read.
fn shown_of(asked: &Asked<'_>, is_terminal: bool) -> Shown {
    if !is_terminal || asked.quiet {
        return Shown::Nothing;
    }
    match slots_of(&asked.request) {
        Some(all) => Shown::Slots { all },
        None => Shown::Bytes,
    }
}

/// Carries out what is asked for on the files of the system, and answers the status. `more` gets the file, the place in
/// it, and the cause of what `err` gets.
fn carry_out<R: Files + Clock + Eprint, W: Output, E: Write + Drop>(
    rt: &R,
    alloc: Global,
    asked: &Asked<'_>,
    is_terminal: bool,
    out: &mut W,
    err: E,
    more: &mut E,
) -> u8
    requires { RequestFits asked.now.request }
{
    let mut heard = Heard::new(err, is_terminal);
    let folder = WatchedDisk::new(rt, shown_of(asked, is_terminal));
    let shelf = DiskShelf::new(rt, alloc);
    let status = act_asked(alloc, &folder, &shelf, asked, out, &mut heard);
    report_more(rt, alloc, more, heard.lines(), texts_of(asked));
    status
}

/// Reports that standard output took no more, and why; nothing where its reader went away, as of `| head`. A writer that
/// fails is passed over.
fn tell_unwritten<W: Write>(err: &mut W, error: Option<&io::Error>) {
    if let Some(fault) = error
        && fault.kind() != ErrorKind::BrokenPipe
    {
        let _ = end(err, Err(Fault::Refused(Refusal::WriteFault)));
        report_unwritten(err, error);
    }
}

fn main(rt: HostRuntime) -> ExitCode {
    let alloc = rt.alloc();
    let (mut out, mut err) = (Flagged::new(Noted::new(rt.stdout())), rt.stderr());
    let is_terminal = err.is_terminal() && clears_lines(&rt);
    let status = match own_words(&rt, alloc, "flashplan") {
        Ok(words) => match read_words(alloc, words.as_slice()) {
            Ok(asked) => carry_out(
                &rt,
                alloc,
                &asked,
                is_terminal,
                &mut out,
                rt.stderr(),
                &mut err,
            ),
            Err(error) => show(&rt, &mut err, error),
        },
        Err(fault) => end(&mut err, Err(fault)),
    };
    tell_unwritten(&mut err, out.get_ref().error());
    ExitCode::from(status)
}
