//! What reading a text answers.

use example_texts::TWO_DIES;
use report_texts::ReportReader;
use slot_types::{Items, Refusal, StorePlan};
use std::alloc::Global;
use std::io::Read;
use task_script::{ScriptItem, ScriptReader, read_plan};

/// The plan of two dies.
pub fn two_dies(alloc: Global) -> Result<StorePlan, Refusal> {
    read_plan(alloc, TWO_DIES.as_bytes())
}

/// All items of a script for two dies and five slots. A refusal has to come again when the next item is asked for.
pub fn items<R: Read + Drop>(alloc: Global, reader: R) -> Result<Items<ScriptItem>, Refusal> {
    let mut script = ScriptReader::new(alloc, reader, &two_dies(alloc)?, 5)?;
    let mut items = Items::new(alloc);
    for _ in 0..u64::MAX {
        match script.next() {
            Ok(Some(item)) => items.push(item)?,
            Ok(None) => break,
            Err(refusal) => {
                if script.next() != Err(refusal) {
                    return Err(Refusal::UnknownJob);
                }
                return Err(refusal);
            }
        }
    }
    Ok(items)
}

/// What a script answers where it isn't read.
pub fn script_refusal<R: Read + Drop>(alloc: Global, reader: R) -> Option<Refusal> {
    items(alloc, reader).err()
}

/// What a report answers where it isn't read.
pub fn report_refusal<R: Read + Drop>(alloc: Global, reader: R) -> Option<Refusal> {
    ReportReader::new(alloc, reader).report().err()
}

/// What the reading of a report's work answers where it isn't read.
pub fn work_refusal<R: Read + Drop>(alloc: Global, reader: R) -> Option<Refusal> {
    ReportReader::new(alloc, reader).work().err()
}
