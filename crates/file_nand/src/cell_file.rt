//! Cells in a file.

use crate::cells::CellStore;
use crate::records::{ERASED, Record};
use slot_types::{Place, Shape};
use std::alloc::Global;
use std::fs::OpenFile;
use std::io;
use std::io::{ErrorKind, Read, Seek, SeekFrom, Write};

/// What a file begins with: what it is, and the device's shape.
type Header = [u8; 28];

const MARK: [u8; 16] = *b"Maulgreen chip 1";

/// How far apart cells lie, in bytes: a disk writes no less at once, so that no write of a cell touches another one.
const STRIDE: u64 = 4096;

/// Cells in a file: first a header, then each cell in a part of its own of 4,096 bytes, block by block, and then what is
/// saved.
#[derive(Drop)]
pub struct CellFile<F: Read + Write + Seek + OpenFile + Drop> {
    file: F,
    /// Cells in a block.
    pages: u32,
    /// Where what is saved lies in the file.
    saved: u64,
    is_synced: bool,
}

/// Why a file isn't opened.
#[derive(Drop)]
pub enum NoCellFile {
    /// It has something else, or cells of a device of another shape. It stays as it is.
    OtherFile,
    /// It can't be read or written.
    Fault(io::Error),
}

fn header_of(shape: Shape) -> Header {
    let mut header = [0; 28];
    header[0..16].copy_from_slice(&MARK);
    header[16..20].copy_from_slice(&shape.blocks.to_le_bytes());
    header[20..24].copy_from_slice(&shape.pages.to_le_bytes());
    header[24..28].copy_from_slice(&shape.erase_slots.to_le_bytes());
    header
}

/// Whether these bytes are what a file may have whose header wasn't written to its end: each is the header's, or 0.
fn is_begun(bytes: &Header, header: &Header) -> bool {
    bytes
        .iter()
        .zip(header.iter())
        .all(|(byte, wanted)| *byte == 0 || byte == wanted)
}

/// Reads bytes at a position of the file. Where the file is shorter they are as they were, or in part.
fn read_at<F: Read + Seek>(file: &mut F, position: u64, bytes: &mut [u8]) -> io::Result<bool> {
    file.seek(SeekFrom::Start(position))?;
    match file.read_exact(bytes) {
        Ok(()) => Ok(true),
        Err(error) if error.kind() == ErrorKind::UnexpectedEof => Ok(false),
        Err(error) => Err(error),
    }
}

/// Where a cell lies in a file whose blocks have `pages` pages; that of the block past the last one is where the cells
/// end.
fn position_of(pages: u32, block: u32, page: u32) -> u64 {
    let first = u64::from(block).saturating_mul(u64::from(pages));
    let cell = first.saturating_add(u64::from(page));
    cell.saturating_add(1).saturating_mul(STRIDE)
}

fn write_at<F: Write + Seek>(file: &mut F, position: u64, bytes: &[u8]) -> io::Result<()> {
    file.seek(SeekFrom::Start(position))?;
    file.write_all(bytes)
}

impl<F: Read + Write + Seek + OpenFile + Drop> CellFile<F> {
    /// The cells of a device of this shape in a file. One that is empty, or in which nothing but a part of the header
    /// was written, is begun anew: all its cells are erased.
    ///
    /// Where it `is_synced`, a cell that was written is on the disk, and so it outlasts the machine's power; it asks
    /// the disk once for each write. Else it outlasts the program's end alone.
    pub fn open(file: F, shape: Shape, is_synced: bool) -> Result<CellFile<F>, NoCellFile> {
        let mut cells = CellFile {
            file,
            pages: shape.pages,
            saved: position_of(shape.pages, shape.blocks, 0),
            is_synced,
        };
        match cells.begin(&header_of(shape)) {
            Ok(true) => Ok(cells),
            Ok(false) => Err(NoCellFile::OtherFile),
            Err(error) => Err(NoCellFile::Fault(error)),
        }
    }

    /// Whether the file has this header, or it is new, and then it has it from now on.
    fn begin(&mut self, header: &Header) -> io::Result<bool> {
        let mut bytes = [0; 28];
        if read_at(&mut self.file, 0, &mut bytes)? && bytes == *header {
            // What is read from now on is on the disk.
            self.sync()?;
            return Ok(true);
        }
        let length = self.file.seek(SeekFrom::End(0))?;
        if length > 28 || !is_begun(&bytes, header) {
            return Ok(false);
        }
        write_at(&mut self.file, 0, header)?;
        self.sync()?;
        Ok(true)
    }

    fn sync(&self) -> io::Result<()> {
        if self.is_synced {
            self.file.sync_all()
        } else {
            Ok(())
        }
    }

    /// Asks the disk to have what was written, where it `is_synced`.
    fn sync_data(&self) -> io::Result<()> {
        if self.is_synced {
            self.file.sync_data()
        } else {
            Ok(())
        }
    }

    /// How many bytes the file has from where what is saved lies.
    fn saved_bytes(&mut self) -> io::Result<usize> {
        let length = self.file.seek(SeekFrom::End(0))?;
        match usize::try_from(length.saturating_sub(self.saved)) {
            Ok(bytes) => Ok(bytes),
            Err(_) => Err(io::Error::from(ErrorKind::OutOfMemory)),
        }
    }
}

impl<F: Read + Write + Seek + OpenFile + Drop> CellStore for CellFile<F> {
    fn read_cell(&mut self, place: Place) -> io::Result<Record> {
        let position = position_of(self.pages, place.block, place.page);
        let mut record = ERASED;
        if read_at(&mut self.file, position, &mut record)? {
            Ok(record)
        } else {
            // The file ends within the cell: it was never written, or not to its end.
            Ok(ERASED)
        }
    }

    fn write_cell(&mut self, place: Place, record: &Record) -> io::Result<()> {
        let position = position_of(self.pages, place.block, place.page);
        write_at(&mut self.file, position, record)?;
        self.sync_data()
    }

    fn read_saved(&mut self, alloc: Global) -> io::Result<Vec<u8>> {
        let count = self.saved_bytes()?;
        let mut bytes = vec![in alloc; 0; count]?;
        // The file has as many.
        let _ = read_at(&mut self.file, self.saved, bytes.as_mut_slice())?;
        Ok(bytes)
    }

    fn write_saved(&mut self, at: u64, bytes: &[u8]) -> io::Result<()> {
        write_at(&mut self.file, self.saved.saturating_add(at), bytes)?;
        self.sync_data()
    }
}
