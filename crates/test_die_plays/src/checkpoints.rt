//! A die that is written down, given up and resumed on its device.

ghost use Rattle.std.specs.Prelude.{◌≡◌};
ghost use Rattle.std.specs.Box.{box_value};
ghost use Rattle.die_checkpoint.specs.Fits.{Fits};
ghost use Rattle.flash_volume.specs.Checkpoints.{IsAsLeft};

use crate::answers::put_renewal;
use crate::dies::plan_in;
use crate::fields::{Fields, UNREAD};
use crate::said::Reported;
use die_checkpoint::laws::a_fault_excludes_fitting;
use die_checkpoint::{BlockCounts, Checkpoint, CheckpointFault};
use flash_die::Nand;
use slot_core::{CheckpointRefusal, DieCore, NotResumed, ResumeRefusal};
use slot_types::{DiePlan, Items, Place, Refusal};
use std::alloc::{AllocFailed, Global};
use text_base::number;

/// Tells what stands: by logical page its block and its page there; by block how many pages are programmed and how often it
/// was erased; the spare pages, and the balances.
fn put_stood(said: &mut Reported, stood: &Checkpoint) -> Result<(), Refusal> {
    said.words("pages")?;
    for place in stood.places.as_slice() {
        match place {
            Some(place) => said.pair(place.block, place.page)?,
            None => said.words("-")?,
        }
    }
    said.words("blocks")?;
    for block in stood.blocks.as_slice() {
        said.pair(block.filled, block.erases)?;
    }
    said.counted("spare", i64::from(stood.spare))?;
    said.words("balances")?;
    for balance in stood.balances.as_slice() {
        said.number(i64::from(*balance))?;
    }
    Ok(())
}

/// Tells why no checkpoint is taken.
fn put_not_taken(said: &mut Reported, refusal: CheckpointRefusal) -> Result<(), Refusal> {
    match refusal {
        CheckpointRefusal::NotRenewable { why } => put_renewal(said, Err(why)),
        CheckpointRefusal::NoMemory => Err(Refusal::NoMemory),
    }
}

fn put_fault(said: &mut Reported, fault: CheckpointFault) -> Result<(), Refusal> {
    match fault {
        CheckpointFault::OtherShape => said.words("other shape"),
        CheckpointFault::BadPlan => said.words("bad plan"),
        CheckpointFault::Overfull { block } => said.counted("overfull", i64::from(block)),
        CheckpointFault::SecondOpen { block } => said.counted("second open", i64::from(block)),
        CheckpointFault::WornOut { block } => said.counted("worn", i64::from(block)),
        CheckpointFault::Unprogrammed { page } => said.counted("unprogrammed", i64::from(page)),
        CheckpointFault::AboveCap { task } => said.counted("above cap", i64::from(task)),
        CheckpointFault::OtherSum { accounts, free } => {
            said.words("accounts")?;
            said.count(accounts)?;
            said.words("free")?;
            said.count(free)
        }
        CheckpointFault::NoMemory => Err(Refusal::NoMemory),
        CheckpointFault::SharedCell { page } => said.counted("shared", i64::from(page)),
    }
}

/// Tells what became of a resumption.
fn put_resumed(said: &mut Reported, refusal: Option<ResumeRefusal>) -> Result<(), Refusal> {
    match refusal {
        None => said.words("ok"),
        Some(ResumeRefusal::OtherDevice) => said.words("other device"),
        Some(ResumeRefusal::Unfit { fault }) => put_fault(said, fault),
    }
}

/// Prints what stands on a die, which stays as it is.
pub(crate) fn checkpoint<N: Nand>(
    die: &mut DieCore<N>,
    alloc: Global,
    said: &mut Reported,
) -> Result<(), Refusal> {
    match die.checkpoint(alloc) {
        Ok(stood) => put_stood(said, &stood),
        Err(refusal) => put_not_taken(said, refusal),
    }
}

/// Two numbers with a slash between them.
fn pair_in(word: &str) -> Result<(u32, u32), Refusal> {
    let Some((first, second)) = word.split_once('/') else {
        return Err(UNREAD);
    };
    match (number(first.as_bytes()), number(second.as_bytes())) {
        (Some(first), Some(second)) => Ok((first, second)),
        _ => Err(UNREAD),
    }
}

fn places_in(alloc: Global, field: &str) -> Result<Items<Option<Place>>, Refusal> {
    let mut places = Items::new(alloc);
    for word in field.split(' ') {
        if word == "-" {
            places.push(None)?;
        } else {
            let (block, page) = pair_in(word)?;
            places.push(Some(Place { block, page }))?;
        }
    }
    Ok(places)
}

fn blocks_in(alloc: Global, field: &str) -> Result<Items<BlockCounts>, Refusal> {
    let mut blocks = Items::new(alloc);
    for word in field.split(' ') {
        let (filled, erases) = pair_in(word)?;
        blocks.push(BlockCounts { filled, erases })?;
    }
    Ok(blocks)
}

fn balances_in(alloc: Global, fields: &Fields) -> Result<Items<u32>, Refusal> {
    let mut balances = Items::new(alloc);
    for balance in fields.numbers(alloc, 3)? {
        balances.push(balance.0)?;
    }
    Ok(balances)
}

/// The checkpoint of four fields: pages, blocks, spare, balances.
fn stood_in(alloc: Global, fields: &Fields) -> Result<Checkpoint, Refusal> {
    Ok(Checkpoint {
        places: places_in(alloc, fields.at(0))?,
        blocks: blocks_in(alloc, fields.at(1))?,
        spare: fields.number(2)?,
        balances: balances_in(alloc, fields)?,
    })
}

/// Puts a die into a box. It is given up where memory is refused twice.
fn boxed<N: Nand>(alloc: Global, die: DieCore<N>) -> Option<Box<DieCore<N>>> {
    match Box::new(alloc, die) {
        Ok(die) => Some(die),
        Err(AllocFailed { value }) => match Box::new(alloc, value) {
            Ok(die) => Some(die),
            Err(_) => None,
        },
    }
}

/// What a line asks for: a plan, and a checkpoint if it isn't the die's own.
#[derive(Drop)]
struct Asked {
    plan: DiePlan,
    from: Option<Checkpoint>,
    /// The plan of the die that is given up.
    own: DiePlan,
}

/// `resume` has no field, `resume-as` a plan, and `resume-from` a checkpoint.
fn asked_in(alloc: Global, own: &DiePlan, fields: &Fields) -> Result<Asked, Refusal> {
    let own = own.clone()?;
    let plan = match fields.name {
        "resume-as" => plan_in(alloc, fields, 0)?,
        _ => own.clone()?,
    };
    let from = match fields.name {
        "resume-from" => Some(stood_in(alloc, fields)?),
        _ => None,
    };
    Ok(Asked { plan, from, own })
}

/// A die on this device, by a plan and from a checkpoint; where that is refused, by its own plan and from its own checkpoint.
/// Beside it, why it was refused.
fn resumed<N: Nand>(
    alloc: Global,
    device: N,
    plan: DiePlan,
    from: &Checkpoint,
    own: DiePlan,
    stood: &Checkpoint,
) -> (Option<Box<DieCore<N>>>, Option<ResumeRefusal>)
    requires left { N.shape_of device ≡ plan.shape → Fits plan from.now
        → IsAsLeft from.now (N.blocks device) (N.failures device) }
    requires own { IsAsLeft stood.now (N.blocks device) (N.failures device) }
{
    match DieCore::resume(alloc, plan, device, from) {
        Ok(die) => (boxed(alloc, die), None),
        Err(NotResumed { device, refusal }) => match DieCore::resume(alloc, own, device, stood) {
            Ok(die) => (boxed(alloc, die), Some(refusal)),
            Err(_) => (None, Some(refusal)),
        },
    }
}

/// Gives up a die, on which this stands, and resumes it from there.
fn resume_as<N: Nand>(
    alloc: Global,
    die: Box<DieCore<N>>,
    stood: &Checkpoint,
    plan: DiePlan,
    own: DiePlan,
    said: &mut Reported,
) -> (Option<Box<DieCore<N>>>, Result<(), Refusal>)
    requires own { IsAsLeft stood.now (N.blocks (box_value die).device)
        (N.failures (box_value die).device) }
{
    let die = Box::into_inner(die);
    let (die, refusal) = resumed(alloc, die.into_device(), plan, stood, own, stood);
    (die, put_resumed(said, refusal))
}

/// Gives up a die, on which this stands, and tries to resume it from a checkpoint that doesn't fit. One that fits is left
/// alone, since the device isn't as it says.
fn resume_from<N: Nand>(
    alloc: Global,
    die: Box<DieCore<N>>,
    stood: &Checkpoint,
    plan: DiePlan,
    from: &Checkpoint,
    own: DiePlan,
    said: &mut Reported,
) -> (Option<Box<DieCore<N>>>, Result<(), Refusal>)
    requires own { IsAsLeft stood.now (N.blocks (box_value die).device)
        (N.failures (box_value die).device) }
{
    match from.check(alloc, &plan) {
        Ok(()) => (Some(die), said.words("fits")),
        Err(CheckpointFault::NoMemory) => (Some(die), Err(Refusal::NoMemory)),
        Err(_) => {
            a_fault_excludes_fitting();
            let die = Box::into_inner(die);
            let (die, refusal) = resumed(alloc, die.into_device(), plan, from, own, stood);
            (die, put_resumed(said, refusal))
        }
    }
}

/// Gives up a die, on which this stands, and resumes it as the line asks.
fn resume_by<N: Nand>(
    alloc: Global,
    die: Box<DieCore<N>>,
    stood: &Checkpoint,
    fields: &Fields,
    said: &mut Reported,
) -> (Option<Box<DieCore<N>>>, Result<(), Refusal>)
    requires own { IsAsLeft stood.now (N.blocks (box_value die).device)
        (N.failures (box_value die).device) }
{
    let asked = match asked_in(alloc, die.plan(), fields) {
        Ok(asked) => asked,
        Err(refusal) => return (Some(die), Err(refusal)),
    };
    let Asked { plan, from, own } = asked;
    match from {
        None => resume_as(alloc, die, stood, plan, own, said),
        Some(from) => resume_from(alloc, die, stood, plan, &from, own, said),
    }
}

/// A die that is not quiet is not resumed. Else it is given up and resumed on its device, as the line asks. Where that is
/// refused, the die goes on from its own checkpoint. There is no die only where memory is refused twice.
pub(crate) fn resume<N: Nand>(
    alloc: Global,
    die: Box<DieCore<N>>,
    fields: &Fields,
    said: &mut Reported,
) -> (Option<Box<DieCore<N>>>, Result<(), Refusal>) {
    let mut die = die;
    match die.checkpoint(alloc) {
        Ok(stood) => resume_by(alloc, die, &stood, fields, said),
        Err(refusal) => {
            let answer = put_not_taken(said, refusal);
            (Some(die), answer)
        }
    }
}
