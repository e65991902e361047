//! The files of a command, opened.

ghost use Rattle.std.specs.Prelude.{◌≡◌, IfErr, IfOk};
ghost use Rattle.std.specs.Io.{ReadsAtMost};
ghost use Rattle.std.specs.Io.KnownBytes.{ReadConsumes};
ghost use Rattle.flash_commands.specs.Files.{GivesFile};
ghost use Rattle.flash_commands.specs.Sources.{AreOpen, source_remaining};

use crate::commands::Command;
use slot_types::Refusal;
use std::io::Read;
use std::rt::Files;
use std::{fs, io};

/// Files by their names. Contracts see what each holds, where that is known.
pub trait Folder {
    ghost use Rattle.std.specs.Prelude.{None};
    ghost use Rattle.flash_commands.specs.Files.{FileContents};

    type Reader: Read + Drop;

    ghost held: { Self → FileContents } = { λ _ _. None };

    /// Opens a file, to be read from its start. The only refusal is `ReadFault`, for a file that isn't there too.
    fn open(&self, name: &str) -> Result<Self::Reader, Refusal>
        ensures opened { IfOk result (λ reader.
            GivesFile (held self.now name.now) (Self.Reader.remaining reader)) }
        ensures refused { IfErr result (λ refusal. refusal ≡ Refusal.ReadFault) };
}

/// Where the file of a name is: `-` is standard input.
pub fn path_of(name: &str) -> &str {
    if name == "-" { "/dev/stdin" } else { name }
}

/// How many of these names are standard input, which is read once.
pub fn inputs_in(names: &[Option<&str>]) -> usize {
    names.iter().filter(|name| **name == Some("-")).count()
}

/// How many of these names are standard input, which is read once.
pub fn inputs_among(names: &[&str]) -> usize {
    names.iter().filter(|name| **name == "-").count()
}

/// The files of the system; `-` is standard input. Nothing is known of what they hold.
#[derive(Clone, Copy)]
pub struct Disk<'a, R: Files> {
    files: &'a R,
}

impl<'a, R: Files> Disk<'a, R> {
    /// The files that `files` opens.
    pub fn new(files: &'a R) -> Disk<'a, R> {
        Disk { files }
    }
}

impl<R: Files> Folder for Disk<'_, R> {
    type Reader = R::File;

    fn open(&self, name: &str) -> Result<R::File, Refusal> {
        match fs::open(self.files, path_of(name)) {
            Ok(file) => Ok(file),
            Err(_) => Err(Refusal::ReadFault),
        }
    }
}

/// What a command reads in place of a text of its own: a file, or nothing where the command has no such text.
#[derive(Drop)]
pub enum Source<R> {
    File(R),
    Nothing,
}

impl<R: Read> Read for Source<R> {
    ghost remaining = { source_remaining R.remaining };

    fn read(&mut self, buf: &mut [u8]) -> io::Result<usize>
        ensures bound { ReadsAtMost result buf.new }
        ensures bytes { ReadConsumes (source_remaining R.remaining self.old)
            (source_remaining R.remaining self.new) result buf.new }
    {
        match self {
            Source::File(file) => file.read(buf),
            Source::Nothing => Ok(0),
        }
    }
}

/// Opens the files of a command, all before any of them is read: that of the plan, or of the report, and then that of
/// the script. They are what [`act`](crate::act) takes. The only refusal is `ReadFault`, for a file that can't be
/// opened, and for standard input (`-`) in the place of both, since it is read once.
pub fn open<D: Folder>(
    folder: &D,
    command: Command<'_>,
) -> Result<(Source<D::Reader>, Source<D::Reader>), Refusal>
    ensures opened { IfOk result (λ files.
        AreOpen D.Reader.remaining (D.held folder.now) command.entry files.0 files.1) }
    ensures refused { IfErr result (λ refusal. refusal ≡ Refusal.ReadFault) }
{
    match command {
        Command::Alone => Ok((Source::Nothing, Source::Nothing)),
        Command::Audit { report: name } | Command::Plan { plan: name } => {
            let first = folder.open(name)?;
            Ok((Source::File(first), Source::Nothing))
        }
        Command::Run { plan, script, .. } => {
            if plan == "-" && script == "-" {
                return Err(Refusal::ReadFault);
            }
            let first = folder.open(plan)?;
            let second = folder.open(script)?;
            Ok((Source::File(first), Source::File(second)))
        }
    }
}
