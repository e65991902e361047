//! What a clean shutdown saves, as bytes: a seal, and then the text. The seal is written once all of the text is there, and
//! is overwritten to void it. So a text that was cut has no seal, and a seal that was cut doesn't fit any text, the one
//! that was saved before neither.

ghost use Rattle.std.specs.Prelude.{◌≡◌, ◌≤◌, All, IfOk, length};
ghost use Rattle.file_nand.specs.Opened.{IsOfPart, IsUnerased};

use crate::sums::check_sum_of_two;
use die_checkpoint::{BlockCounts, Checkpoint};
use saving_nand::Saved;
use slot_types::{Items, Place, Shape};
use std::alloc::{AllocError, AllocFailed, Global};

/// With what a seal begins.
const MARK: [u8; 4] = *b"save";

/// A mark, the length of the text, and a check sum of both and of the text: 4 bytes each.
pub(crate) type Seal = [u8; 12];

/// In the place of a seal it voids what is saved.
pub(crate) const VOID: Seal = [0; 12];

/// Where the text begins.
pub(crate) const TEXT: u64 = 12;

/// The block of a page that lies nowhere.
const NOWHERE: u32 = u32::MAX;

/// Why bytes have nothing that was saved.
#[derive(Drop)]
pub(crate) enum NoSaved {
    /// They are void, or cut, or of another part.
    None,
    NoMemory,
}

impl From<AllocError> for NoSaved {
    fn from(_: AllocError) -> NoSaved {
        NoSaved::NoMemory
    }
}

impl<T: Drop> From<AllocFailed<T>> for NoSaved {
    fn from(_: AllocFailed<T>) -> NoSaved {
        NoSaved::NoMemory
    }
}

/// The lower and the upper half.
fn halves(number: u64) -> (u32, u32) {
    let low = u32::try_from(number % 0x1_0000_0000).unwrap_or(0);
    let high = u32::try_from(number / 0x1_0000_0000).unwrap_or(0);
    (low, high)
}

/// The length of a list, as it is kept.
fn count(length: usize) -> u32 {
    u32::try_from(length).unwrap_or(u32::MAX)
}

fn put(bytes: &mut Vec<u8>, word: u32) -> Result<(), AllocError> {
    bytes.extend_from_slice(&word.to_le_bytes())?;
    Ok(())
}

/// The block aside, the serial, the spare pages; then by block its programmed pages; by page its cell; and by task its
/// balance: each list with its length in front.
fn put_saved(bytes: &mut Vec<u8>, saved: &Saved) -> Result<(), AllocError> {
    let (low, high) = halves(saved.next);
    for word in [saved.aside, low, high, saved.checkpoint.spare] {
        put(bytes, word)?;
    }
    put(bytes, count(saved.checkpoint.blocks.len()))?;
    for counts in saved.checkpoint.blocks.as_slice() {
        put(bytes, counts.filled)?;
    }
    put(bytes, count(saved.checkpoint.places.len()))?;
    for place in saved.checkpoint.places.as_slice() {
        let (block, page) = match place {
            Some(place) => (place.block, place.page),
            None => (NOWHERE, 0),
        };
        put(bytes, block)?;
        put(bytes, page)?;
    }
    put(bytes, count(saved.checkpoint.balances.len()))?;
    for balance in saved.checkpoint.balances.as_slice() {
        put(bytes, *balance)?;
    }
    Ok(())
}

/// What is saved, as a text.
pub(crate) fn text_of(alloc: Global, saved: &Saved) -> Result<Vec<u8>, AllocError> {
    let mut text = Vec::new(alloc);
    put_saved(&mut text, saved)?;
    Ok(text)
}

/// The seal of a text.
pub(crate) fn seal_of(text: &[u8]) -> Seal {
    let mut seal = VOID;
    seal[0..4].copy_from_slice(&MARK);
    seal[4..8].copy_from_slice(&count(text.len()).to_le_bytes());
    let sum = check_sum_of_two(&seal[0..8], text).to_le_bytes();
    seal[8..12].copy_from_slice(&sum);
    seal
}

/// Numbers that are read off bytes, one by one.
#[derive(Drop)]
struct Words<'b> {
    rest: &'b [u8],
}

impl<'b> Words<'b> {
    fn next(&mut self) -> Option<u32> {
        if self.rest.len() < 4 {
            return None;
        }
        let (word, rest) = self.rest.split_at(4);
        self.rest = rest;
        let mut bytes = [0; 4];
        bytes.copy_from_slice(word);
        Some(u32::from_le_bytes(bytes))
    }

    fn word(&mut self) -> Result<u32, NoSaved> {
        match self.next() {
            Some(word) => Ok(word),
            None => Err(NoSaved::None),
        }
    }
}

/// The text that is saved in these bytes, if it has its seal.
fn sealed(bytes: &[u8]) -> Result<&[u8], NoSaved> {
    if bytes.len() < 12 {
        return Err(NoSaved::None);
    }
    let (seal, rest) = bytes.split_at(12);
    let mut words = Words { rest: seal };
    let (_, length) = (words.word()?, words.word()? as usize);
    if rest.len() < length {
        return Err(NoSaved::None);
    }
    let (text, _) = rest.split_at(length);
    if seal[..] == seal_of(text)[..] {
        Ok(text)
    } else {
        Err(NoSaved::None)
    }
}

/// `blocks` blocks, each with at most `pages` programmed pages. Erases are counted anew from the power-up on.
fn counts_in(
    alloc: Global,
    words: &mut Words<'_>,
    blocks: u32,
    pages: u32,
) -> Result<Vec<BlockCounts>, NoSaved>
    ensures many { IfOk result (λ counts. length counts.items ≡ blocks) }
    ensures each { IfOk result (λ counts. All (IsUnerased pages) counts.items) }
{
    let mut counts = Vec::new(alloc);
    for _ in 0..blocks {
        let filled = words.word()?;
        if filled > pages {
            return Err(NoSaved::None);
        }
        counts.push(BlockCounts { filled, erases: 0 })?;
    }
    Ok(counts)
}

/// `pages` pages, each with its cell if it lies in one.
fn places_in(
    alloc: Global,
    words: &mut Words<'_>,
    pages: u32,
) -> Result<Vec<Option<Place>>, NoSaved> {
    let mut places = Vec::new(alloc);
    for _ in 0..pages {
        let (block, page) = (words.word()?, words.word()?);
        places.push(if block == NOWHERE {
            None
        } else {
            Some(Place { block, page })
        })?;
    }
    Ok(places)
}

/// The next `count` numbers.
fn numbers_in(alloc: Global, words: &mut Words<'_>, count: u32) -> Result<Vec<u32>, NoSaved> {
    let mut numbers = Vec::new(alloc);
    for _ in 0..count {
        numbers.push(words.word()?)?;
    }
    Ok(numbers)
}

/// What is saved in these bytes of a part of this shape, if it is sealed.
pub(crate) fn saved_in(alloc: Global, shape: Shape, bytes: &[u8]) -> Result<Saved, NoSaved>
    ensures { IfOk result (IsOfPart shape) }
{
    let mut words = Words {
        rest: sealed(bytes)?,
    };
    let (aside, low, high, spare) = (words.word()?, words.word()?, words.word()?, words.word()?);
    if aside >= shape.blocks || words.word()? != shape.blocks - 1 {
        return Err(NoSaved::None);
    }
    let blocks = counts_in(alloc, &mut words, shape.blocks - 1, shape.pages)?;
    let pages = words.word()?;
    let places = places_in(alloc, &mut words, pages)?;
    let tasks = words.word()?;
    let balances = numbers_in(alloc, &mut words, tasks)?;
    Ok(Saved {
        aside,
        next: u64::from(high) * 0x1_0000_0000 + u64::from(low),
        checkpoint: Checkpoint {
            places: Items::from_vec(places),
            blocks: Items::from_vec(blocks),
            spare,
            balances: Items::from_vec(balances),
        },
    })
}
