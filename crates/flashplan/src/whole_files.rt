//! Where texts are written: whole, in the place of a file; or through what is no file that has bytes of its own, as a
//! device or a pipe.

use crate::places::{Place, is_one_place, place_of};
use flashplan_commands::{Shelf, Unput};
use std::alloc::Global;
use std::fs::{Metadata, OpenFile, OpenOptions};
use std::io::{ErrorKind, Write};
use std::os::unix::fs::{MetadataExt, OpenOptionsExt, lchown};
use std::rt::Files;
use std::{fs, io};

/// How many names a new file is tried by, if files of the others are there.
const TRIES: u32 = 1_000;

/// The files of the system.
#[derive(Clone, Copy)]
pub struct DiskShelf<'a, R: Files> {
    files: &'a R,
    alloc: Global,
}

/// A new file beside the one whose place it is to take.
#[derive(Drop)]
struct Part<F> {
    name: String,
    file: F,
}

impl<'a, R: Files> DiskShelf<'a, R> {
    /// The files that `files` writes.
    pub fn new(files: &'a R, alloc: Global) -> DiskShelf<'a, R> {
        DiskShelf { files, alloc }
    }

    /// The name of the new file at a try: the first is `NAME.part`, the next `NAME.1.part`.
    fn part_name(&self, name: &str, number: u32) -> io::Result<String> {
        let named = if number == 0 {
            format!(in self.alloc; "{name}.part")
        } else {
            format!(in self.alloc; "{name}.{number}.part")
        };
        Ok(named?)
    }

    /// Makes a new file beside a name, under a name that nothing has. It may be read by its owner alone where it is to
    /// take the place of a file.
    fn new_part(&self, name: &str, had: Option<&Metadata>) -> io::Result<Part<R::File>> {
        let mut options = OpenOptions::new();
        options.write(true).create_new(true);
        if had.is_some() {
            options.mode(0o600);
        }
        for number in 0..TRIES {
            let part = self.part_name(name, number)?;
            match options.open(self.files, part.as_str()) {
                Ok(file) => return Ok(Part { name: part, file }),
                Err(error) if error.kind() == ErrorKind::AlreadyExists => {}
                Err(error) => return Err(error),
            }
        }
        Err(io::Error::from(ErrorKind::AlreadyExists))
    }

    /// Gives a new file the owner and the mode of the one whose place it is to take.
    fn keep_owner(&self, part: &Part<R::File>, had: &Metadata) -> Result<(), Unput> {
        let own = part.file.metadata()?;
        if own.uid() != had.uid() || own.gid() != had.gid() {
            let (user, group) = (Some(had.uid()), Some(had.gid()));
            match lchown(self.files, part.name.as_str(), user, group) {
                Ok(()) => {}
                Err(_) => return Err(Unput::NotOwned),
            }
        }
        Ok(part.file.set_permissions(had.permissions())?)
    }

    /// Writes a text into a new file, down to the disk, and gives it its name.
    fn fill(
        &self,
        part: &mut Part<R::File>,
        name: &str,
        had: Option<&Metadata>,
        text: &[u8],
    ) -> Result<(), Unput> {
        if let Some(had) = had {
            self.keep_owner(part, had)?;
        }
        part.file.write_all(text)?;
        part.file.sync_all()?;
        Ok(fs::rename(self.files, part.name.as_str(), name)?)
    }

    /// Puts a text in the place of a file, or where there is none. A file that isn't to be written is left, though a
    /// file of another name could take its place.
    fn put_file(&self, name: &str, had: Option<&Metadata>, text: &[u8]) -> Result<(), Unput> {
        if had.is_some() {
            let _open = OpenOptions::new().write(true).open(self.files, name)?;
        }
        let mut part = self.new_part(name, had)?;
        let filled = self.fill(&mut part, name, had, text);
        if filled.is_err() {
            let _ = fs::remove_file(self.files, part.name.as_str());
        }
        filled
    }

    /// Writes a text through what has no bytes of its own, or after what was written to an open file.
    fn put_through(&self, name: &str, text: &[u8]) -> Result<(), Unput> {
        let mut file = OpenOptions::new().append(true).open(self.files, name)?;
        match file.write_all(text) {
            Ok(()) => Ok(()),
            Err(error) => Err(Unput::Cut(error)),
        }
    }
}

impl<R: Files> Shelf for DiskShelf<'_, R> {
    fn put(&self, name: &str, text: &[u8]) -> Result<(), Unput> {
        match place_of(self.files, self.alloc, name)? {
            Place::Folder => Err(Unput::Folder),
            Place::Through => self.put_through(name, text),
            Place::File { path, had } => self.put_file(path.as_str(), had.as_ref(), text),
        }
    }

    fn is_one(&self, one: &str, other: &str) -> bool {
        is_one_place(self.files, self.alloc, one, other)
    }
}
