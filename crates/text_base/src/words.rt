//! Fields that hold several words, with one space between two.

ghost use Rattle.std.specs.Prelude.{◌≡◌, ◌∷◌, [], ◌==◌, ◌<◌, List, ℕ, Option, IfOk, IfSome, MatchOption, None, OnErr, false, length, option_map};
ghost use Rattle.std.specs.List.{position, slice_split};
ghost use Rattle.slot_types.specs.Refusal.{FailsForMemory};
ghost use Rattle.text_base.specs.Number.{number_of};
ghost use Rattle.text_base.specs.Ops.{op_of};
ghost use Rattle.text_base.specs.Words.{IsFirstWord, StartsWith, all_of, beyond, if_whole, list_of, words_of};
ghost use Rattle.text_base.specs.Pages.{page_of};
ghost use Rattle.text_base.specs.PageStarts.{BeginsWithPage, FirstIsPage};

use crate::numbers::{leading_number, number};
use crate::ops::{leading_op, op};
use crate::pages::{after_page, leading_page, page};
use crate::word_sinks::WordSink;
use slot_types::{Items, JobNo, Op, PageData, Refusal};
use std::alloc::Global;

/// What a word may say.
pub trait Word: Sized {
    ghost word_of: { List ℕ → Option Self };

    /// What the word says, if it is of the right shape.
    fn read(word: &[u8]) -> Option<Self>
        ensures { result ≡ word_of word.now };

    /// What a word at the front of a text says, and what stands after it. None says nothing: some words are left
    /// to [`read`](Word::read).
    fn start(text: &[u8]) -> Option<(Self, &[u8])>
        ensures { IfSome result (λ found. StartsWith word_of text.now found.0 found.1.now) };
}

impl Word for Op {
    ghost word_of = { op_of };

    fn read(word: &[u8]) -> Option<Op> {
        op(word)
    }

    fn start(text: &[u8]) -> Option<(Op, &[u8])> {
        leading_op(text)
    }
}

impl Word for PageData {
    ghost word_of = { page_of };

    fn read(word: &[u8]) -> Option<PageData> {
        page(word)
    }

    fn start(text: &[u8]) -> Option<(PageData, &[u8])> {
        leading_page(text)
    }
}

impl Word for JobNo {
    ghost word_of = { number_of };

    fn read(word: &[u8]) -> Option<JobNo> {
        match number(word) {
            Some(n) => Some(JobNo(n)),
            None => None,
        }
    }

    fn start(text: &[u8]) -> Option<(JobNo, &[u8])> {
        let (number, rest) = leading_number(text)?;
        Some((JobNo(number), rest))
    }
}

/// The place of the first space.
fn space_in(text: &[u8]) -> Option<usize>
    ensures { result ≡ position (λ b. b == 32) text.now }
{
    text.iter().position(|b| *b == b' ')
}

/// The first word, and what stands after the space after it.
fn cut(text: &[u8]) -> (&[u8], Option<&[u8]>)
    ensures parts { slice_split (λ b. b == 32) text.now
        ≡ result.0.now ∷ words_of (option_map (λ rest. rest.now) result.1) }
    ensures shorter { IfSome result.1 (λ rest. length rest.now < length text.now) }
{
    match space_in(text) {
        Some(space) => (&text[..space], Some(&text[space + 1..])),
        None => (text, None),
    }
}

/// What stands after a word: nothing, or a space and more.
fn beyond(left: &[u8]) -> Option<Option<&[u8]>>
    ensures { IfSome result (λ rest. left.now ≡ beyond (option_map (λ text. text.now) rest)) }
{
    let Some((first, rest)) = left.split_first() else {
        return Some(None);
    };
    if *first == b' ' {
        Some(Some(rest))
    } else {
        None
    }
}

/// What the first word of a text says in one pass, and what stands after the space after it. None says nothing.
fn quick_word<T: Word + Drop>(text: &[u8]) -> Option<(T, Option<&[u8]>)>
    ensures { IfSome result (λ found.
        StartsWith T.word_of text.now found.0 (beyond (option_map (λ text. text.now) found.1))) }
{
    let (item, left) = T::start(text)?;
    let rest = beyond(left)?;
    Some((item, rest))
}

/// What the first word of a text says, cut off first, and what stands after the space after it.
fn cut_word<T: Word + Drop>(text: &[u8]) -> Option<(T, Option<&[u8]>)>
    ensures word { MatchOption result (all_of T.word_of (slice_split (λ b. b == 32) text.now)
        ≡ None)
        (λ found. IsFirstWord T.word_of text.now found.0
        (words_of (option_map (λ rest. rest.now) found.1))) }
    ensures shorter { IfSome result (λ found.
        IfSome found.1 (λ rest. length rest.now < length text.now)) }
{
    let (word, rest) = cut(text);
    match T::read(word) {
        Some(item) => Some((item, rest)),
        None => None,
    }
}

/// What the first word of a text says, and what stands after the space after it.
fn first_word<T: Word + Drop>(text: &[u8]) -> Option<(T, Option<&[u8]>)>
    ensures word { MatchOption result (all_of T.word_of (slice_split (λ b. b == 32) text.now)
        ≡ None)
        (λ found. IsFirstWord T.word_of text.now found.0
        (words_of (option_map (λ rest. rest.now) found.1))) }
    ensures shorter { IfSome result (λ found.
        IfSome found.1 (λ rest. length rest.now < length text.now)) }
{
    match quick_word(text) {
        Some(found) => Some(found),
        None => cut_word(text),
    }
}

/// Adds what the words of a text say, up to one that says nothing, and answers whether there is none.
fn put_all<T: Word + Drop, L: WordSink<T>>(list: &mut L, text: &[u8]) -> Result<bool, Refusal>
    requires { L.items list.old ≡ [] }
    ensures ok { IfOk result (λ whole.
        if_whole whole (L.items list.new)
        ≡ all_of T.word_of (slice_split (λ b. b == 32) text.now)) }
    ensures refused { FailsForMemory result }
{
    let mut left = Some(text);
    while let Some(text) = left {
        match first_word(text) {
            Some((item, rest)) => {
                list.push(item)?;
                left = rest;
            }
            None => return Ok(false),
        }
    }
    Ok(true)
}

/// Puts what the words of a field say in place of other items, in their memory, and answers whether all of them say
/// something. An empty field has none. Where one says nothing, and where memory is refused, the list is left empty.
pub fn put_list<T: Word + Drop, L: WordSink<T>>(list: &mut L, field: &[u8]) -> Result<bool, Refusal>
    ensures ok { IfOk result (λ whole.
        if_whole whole (L.items list.new) ≡ list_of T.word_of field.now) }
    ensures none { IfOk result (λ whole. whole ≡ false → L.items list.new ≡ []) }
    ensures refused { FailsForMemory result }
    ensures err { OnErr result (L.items list.new ≡ []) }
{
    list.clear();
    if field.is_empty() {
        return Ok(true);
    }
    match put_all(list, field) {
        Ok(true) => Ok(true),
        Ok(false) => {
            list.clear();
            Ok(false)
        }
        Err(refusal) => {
            list.clear();
            Err(refusal)
        }
    }
}

/// What the words of a field say, if all of them say something. An empty field has none.
pub fn list<T: Word + Drop>(alloc: Global, field: &[u8]) -> Result<Option<Items<T>>, Refusal>
    ensures ok { IfOk result (λ found. found ≡ list_of T.word_of field.now) }
    ensures refused { FailsForMemory result }
{
    let mut items = Items::new(alloc);
    let whole = put_list(&mut items, field)?;
    Ok(if whole { Some(items) } else { None })
}

/// What stands after the page at the front of a text and the space there, where 32 plain digits write it. None says
/// nothing.
fn quick_rest(text: &[u8]) -> Option<Option<&[u8]>>
    ensures { IfSome result (λ rest.
        BeginsWithPage text.now (beyond (option_map (λ text. text.now) rest))) }
{
    let left = after_page(text)?;
    beyond(left)
}

/// What stands after the first word of a text and the space there, if that word is a page.
fn skip_page(text: &[u8]) -> Option<Option<&[u8]>>
    ensures word { MatchOption result (all_of page_of (slice_split (λ b. b == 32) text.now) ≡ None)
        (λ rest. FirstIsPage text.now (words_of (option_map (λ rest. rest.now) rest))) }
    ensures shorter { IfSome result (λ rest.
        IfSome rest (λ rest. length rest.now < length text.now)) }
{
    match quick_rest(text) {
        Some(rest) => Some(rest),
        None => match cut_word::<PageData>(text) {
            Some((_, rest)) => Some(rest),
            None => None,
        },
    }
}

/// How many words a text has, if all of them are pages.
fn count_all(text: &[u8]) -> Option<usize>
    ensures { result ≡ option_map length (all_of page_of (slice_split (λ b. b == 32) text.now)) }
{
    let mut count = 0;
    let mut left = Some(text);
    while let Some(text) = left {
        match skip_page(text) {
            Some(rest) => {
                count += 1;
                left = rest;
            }
            None => return None,
        }
    }
    Some(count)
}

/// How many pages a field has, if all of its words are pages: none of them is made. An empty field has none.
pub fn count_pages(field: &[u8]) -> Option<usize>
    ensures { result ≡ option_map length (list_of page_of field.now) }
{
    if field.is_empty() {
        return Some(0);
    }
    count_all(field)
}
