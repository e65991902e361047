//! A plan for tests, and parts by their labels.

use die_mount::{Label, MountFault, Scan, ScanFault};
use slot_types::{Caps, DiePlan, Refusal, Shape};
use std::alloc::Global;

/// A cell of a part: page and serial of its label, or none.
pub type Cell = Option<(u32, u64)>;

/// Four blocks of four pages, alpha two, one task with cap one, five logical pages: fmax = 2 - 1 + (4 - 2) + 1 = 4, so
/// 4 - 4 / 4 - 1 = 2 blocks are closed, and 2 * (4 - 2 + 1) = 6 is more than five. The part has five blocks.
pub fn plan(alloc: Global) -> Result<DiePlan, Refusal> {
    Ok(DiePlan {
        shape: Shape {
            blocks: 4,
            pages: 4,
            erase_slots: 3,
        },
        logical: 5,
        alpha: 2,
        caps: Caps::from_vec(vec![in alloc; 1; 1]?),
        times: None,
    })
}

/// Why a sample isn't read.
#[derive(Clone, Copy, PartialEq, Eq, Debug, Drop)]
pub enum Fault {
    Memory,
    Mount(MountFault),
    Scan(ScanFault),
}

/// Tells a scan the cells of a block, whose labels don't say how often it was erased.
pub fn tell(alloc: Global, scan: &mut Scan, cells: &[Cell]) -> Result<(), Fault> {
    tell_erases(alloc, scan, cells, None)
}

/// Tells a scan the cells of a block, and how often it was erased, where its labels say so.
pub fn tell_erases(
    alloc: Global,
    scan: &mut Scan,
    cells: &[Cell],
    erases: Option<u32>,
) -> Result<(), Fault> {
    let mut labels: Vec<Option<Label>> = Vec::new(alloc);
    for cell in cells {
        let label = match *cell {
            Some((page, serial)) => Some(Label { page, serial }),
            None => None,
        };
        if labels.push(label).is_err() {
            return Err(Fault::Memory);
        }
    }
    match scan.tell(labels.as_slice(), erases) {
        Ok(()) => Ok(()),
        Err(fault) => Err(Fault::Scan(fault)),
    }
}

/// What a scan has of a part whose blocks show this.
pub fn scan_of(alloc: Global, plan: &DiePlan, blocks: &[&[Cell]]) -> Result<Scan, Fault> {
    let mut scan = match Scan::new(alloc, plan) {
        Ok(scan) => scan,
        Err(fault) => return Err(Fault::Mount(fault)),
    };
    for cells in blocks {
        tell(alloc, &mut scan, cells)?;
    }
    Ok(scan)
}
