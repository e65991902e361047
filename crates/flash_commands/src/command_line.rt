//! The words of the command line, and what is shown in place of a command.

ghost use Rattle.std.specs.Prelude.{◌≡◌, ◌≢◌, ◌⊎◌, IfErr};
ghost use Rattle.clap.specs.Values.{kind_of};
ghost use Rattle.clap.specs.declared.error.kind.ErrorKind.{ErrorKind};
ghost use Rattle.flash_commands.specs.Faults.{IsUnreadable};

use crate::faults::{Fault, end};
use crate::hints::report_unwritten;
use slot_types::Refusal;
use std::alloc::Global;
use std::env::Env;
use std::io::Write;
use std::{env, io};

/// The words of the command line, with the program's name in front. A word that isn't UTF-8 is `NotText`.
pub fn words_of<R: Env>(rt: &R, alloc: Global) -> Result<Vec<String>, Fault>
    ensures fault { IfErr result IsUnreadable }
{
    match env::args(&(rt, alloc)).and_then(|words| Ok(words.collect(alloc)?)) {
        Ok(words) => Ok(words),
        Err(error) if error.kind() == io::ErrorKind::OutOfMemory => {
            Err(Fault::Refused(Refusal::NoMemory))
        }
        Err(_) => Err(Fault::NotText),
    }
}

/// The words of the command line as [`words_of`] answers them, but with this name in front, however the program was
/// started: what is printed of its use doesn't depend on that.
pub fn own_words<R: Env>(rt: &R, alloc: Global, name: &str) -> Result<Vec<String>, Fault>
    ensures fault { IfErr result IsUnreadable }
{
    let Ok(own) = String::from_str(alloc, name) else {
        return Err(Fault::Refused(Refusal::NoMemory));
    };
    let mut words = words_of(rt, alloc)?;
    if let Some(first) = words.first_mut() {
        *first = own;
    }
    Ok(words)
}

/// Shows what clap answers in place of a command, and gives the status. Help and the version are written to standard
/// output, and end with 0, or with 1, as `WriteFault`, where they can't be written. A fault of the words is written to
/// standard error, and ends with 2.
pub fn show<R: Print + Eprint, E: Write>(rt: &R, err: &mut E, error: clap::Error) -> u8
    ensures help { kind_of error ≡ ErrorKind.DisplayHelp → (result ≡ 0) ⊎ (result ≡ 1) }
    ensures version { kind_of error ≡ ErrorKind.DisplayVersion → (result ≡ 0) ⊎ (result ≡ 1) }
    ensures fault { kind_of error ≢ ErrorKind.DisplayHelp → kind_of error ≢ ErrorKind.DisplayVersion
        → result ≡ 2 }
{
    let shown = error.print(rt);
    if error.use_stderr() {
        return Fault::Words(error).status();
    }
    match shown {
        Ok(()) => 0,
        Err(fault) => {
            let status = end(err, Err(Fault::Refused(Refusal::WriteFault)));
            report_unwritten(err, Some(&fault));
            status
        }
    }
}
