//! The program `flashrec`.
#![tactic(auto)]

pub use flash_commands::{Command, act, read_words};
use flash_commands::{
    Fault, Flagged, Heard, Noted, Shown, Texts, WatchedDisk, clears_lines, end, open, own_words,
    report_more, report_unwritten, show,
};
use std::io::IsTerminal;
use std::process::ExitCode;

/// The files of a command, by what they have.
fn texts_of(command: Command<'_>) -> Texts<'_> {
    match command {
        Command::Alone => Texts::NONE,
        Command::Run {
            plan,
            script,
            slots,
            ..
        } => Texts {
            plan: Some(plan),
            script: Some(script),
            slots: Some(slots.count),
            ..Texts::NONE
        },
        Command::Audit { report } => Texts {
            report: Some(report),
            ..Texts::NONE
        },
        Command::Plan { plan } => Texts {
            plan: Some(plan),
            ..Texts::NONE
        },
    }
}

fn main(rt: HostRuntime) -> ExitCode {
    let alloc = rt.alloc();
    let (mut out, mut err) = (Flagged::new(Noted::new(rt.stdout())), rt.stderr());
    let is_terminal = err.is_terminal() && clears_lines(&rt);
    let shown = if is_terminal {
        Shown::Bytes
    } else {
        Shown::Nothing
    };
    let status = match own_words(&rt, alloc, "flashrec") {
        Ok(words) => match read_words(alloc, words.as_slice()) {
            Ok(command) => {
                let mut heard = Heard::new(rt.stderr(), is_terminal);
                let status = match open(&WatchedDisk::new(&rt, shown), command) {
                    Ok((first, second)) => {
                        act(&rt, alloc, command, first, second, &mut out, &mut heard)
                    }
                    Err(refusal) => end(&mut heard, Err(Fault::Refused(refusal))),
                };
                report_more(&rt, alloc, &mut err, heard.lines(), texts_of(command));
                report_unwritten(&mut err, out.get_ref().error());
                status
            }
            Err(error) => show(&rt, &mut err, error),
        },
        Err(fault) => end(&mut err, Err(fault)),
    };
    ExitCode::from(status)
}
