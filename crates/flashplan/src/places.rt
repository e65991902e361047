//! What stands at a name: a file, which links may lead to, or something that texts are written through.

use std::alloc::Global;
use std::fs::Metadata;
use std::io::ErrorKind;
use std::os::unix::fs::{FileTypeExt, MetadataExt};
use std::path::{Path, PathBuf};
use std::rt::Files;
use std::{fs, io};

/// The most links that are followed.
const LINKS: u32 = 40;

/// What a text that is written to a name comes to.
#[derive(Drop)]
pub(crate) enum Place {
    /// It has no bytes.
    Folder,
    /// A device, a pipe, a socket, or a file that is open here, by the name of its descriptor.
    Through,
    /// A file, and what it is; or where there is none yet.
    File {
        path: PathBuf,
        had: Option<Metadata>,
    },
}

/// The folder of a path; the present one where none is named.
fn folder_of(path: Path<'_>) -> Path<'_> {
    match path.parent() {
        Some(folder) if !folder.as_str().is_empty() => folder,
        _ => Path::new("."),
    }
}

/// Whether a link is that of an open file: these lie below `/proc`.
fn is_open_file<R: Files>(files: &R, alloc: Global, link: Path<'_>) -> bool {
    match fs::canonicalize(&(files, alloc), folder_of(link)) {
        Ok(folder) => folder.starts_with("/proc"),
        Err(_) => false,
    }
}

/// Where a name leads: no link stands there, or that of an open file.
fn end_of<R: Files>(files: &R, alloc: Global, name: &str) -> io::Result<(PathBuf, bool)> {
    let mut path = PathBuf::from_str(alloc, name)?;
    for _ in 0..LINKS {
        match fs::symlink_metadata(files, path.as_path()) {
            Ok(found) if found.is_symlink() => {}
            _ => return Ok((path, false)),
        }
        if is_open_file(files, alloc, path.as_path()) {
            return Ok((path, true));
        }
        let target = fs::read_link(&(files, alloc), path.as_path())?;
        path = folder_of(path.as_path()).join(alloc, target.as_path())?;
    }
    Err(io::Error::from(ErrorKind::InvalidInput))
}

/// What stands at a name, links followed.
pub(crate) fn place_of<R: Files>(files: &R, alloc: Global, name: &str) -> io::Result<Place> {
    let had = match fs::metadata(files, name) {
        Ok(found) if found.is_dir() => return Ok(Place::Folder),
        Ok(found) if !found.is_file() => return Ok(Place::Through),
        Ok(found) => Some(found),
        Err(error) if error.kind() == ErrorKind::NotFound => None,
        Err(error) => return Err(error),
    };
    let (path, is_open) = end_of(files, alloc, name)?;
    if is_open {
        return Ok(Place::Through);
    }
    Ok(Place::File { path, had })
}

/// Whether two files of which something is known are one: by device and inode. A terminal and `/dev/null` are one device
/// each, but take any number of texts; a socket is read and written, and what is written to it isn't read here.
fn is_one_file(one: &Metadata, other: &Metadata) -> bool {
    let kind = one.file_type();
    let is_node = one.dev() == other.dev() && one.ino() == other.ino();
    is_node && !kind.is_char_device() && !kind.is_socket()
}

/// Whether two paths at which nothing stands are one: the same name in the same folder.
fn is_one_path<R: Files>(files: &R, one: Path<'_>, other: Path<'_>) -> bool {
    let folders = (
        fs::metadata(files, folder_of(one)),
        fs::metadata(files, folder_of(other)),
    );
    match folders {
        (Ok(here), Ok(there)) => {
            is_one_file(&here, &there) && one.file_name() == other.file_name()
        }
        _ => false,
    }
}

/// Whether two names are of one file, also where it isn't there yet.
pub(crate) fn is_one_place<R: Files>(files: &R, alloc: Global, one: &str, other: &str) -> bool {
    match (fs::metadata(files, one), fs::metadata(files, other)) {
        (Ok(one), Ok(other)) => is_one_file(&one, &other),
        (Err(_), Err(_)) => match (end_of(files, alloc, one), end_of(files, alloc, other)) {
            (Ok((one, _)), Ok((other, _))) => is_one_path(files, one.as_path(), other.as_path()),
            _ => false,
        },
        _ => false,
    }
}
