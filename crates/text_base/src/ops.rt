//! The operations of a job, as a script writes them.

ghost use Rattle.std.specs.Prelude.{◌≡◌, ◌∷◌, IfSome};
ghost use Rattle.text_base.specs.Ops.{op_of, write_of};
ghost use Rattle.text_base.specs.Words.{StartsWith};

use crate::numbers::{leading_number, number};
use crate::pages::{leading_page, page};
use slot_types::Op;

/// A write: a page number, `=` and the digits of a page.
fn write(word: &[u8]) -> Option<Op>
    ensures { result ≡ write_of word.now }
{
    if word.len() < 33 {
        return None;
    }
    let sign = word.len() - 33;
    if word[sign] != b'=' {
        return None;
    }
    let target = number(&word[..sign])?;
    let bytes = page(&word[sign + 1..])?;
    Some(Op::Write(target, bytes))
}

/// An operation.
pub fn op(word: &[u8]) -> Option<Op>
    ensures { result ≡ op_of word.now }
{
    let Some((letter, rest)) = word.split_first() else {
        return None;
    };
    if *letter == b'R' {
        return Some(Op::Read(number(rest)?));
    }
    if *letter == b'W' {
        return write(rest);
    }
    if *letter == b'T' {
        return Some(Op::Trim(number(rest)?));
    }
    None
}

/// A read at the front of a text, after its letter, and what stands after it.
fn leading_read(text: &[u8]) -> Option<(Op, &[u8])>
    ensures { IfSome result (λ found. StartsWith op_of (82 ∷ text.now) found.0 found.1.now) }
{
    let (page, rest) = leading_number(text)?;
    Some((Op::Read(page), rest))
}

/// A write at the front of a text, after its letter, and what stands after it.
fn leading_write(text: &[u8]) -> Option<(Op, &[u8])>
    ensures { IfSome result (λ found. StartsWith op_of (87 ∷ text.now) found.0 found.1.now) }
{
    let (target, left) = leading_number(text)?;
    let (sign, digits) = left.split_first()?;
    if *sign != b'=' {
        return None;
    }
    let (bytes, rest) = leading_page(digits)?;
    Some((Op::Write(target, bytes), rest))
}

/// A trim at the front of a text, after its letter, and what stands after it.
fn leading_trim(text: &[u8]) -> Option<(Op, &[u8])>
    ensures { IfSome result (λ found. StartsWith op_of (84 ∷ text.now) found.0 found.1.now) }
{
    let (page, rest) = leading_number(text)?;
    Some((Op::Trim(page), rest))
}

/// An operation at the front of a text, and what stands after it.
pub fn leading_op(text: &[u8]) -> Option<(Op, &[u8])>
    ensures { IfSome result (λ found. StartsWith op_of text.now found.0 found.1.now) }
{
    let (letter, left) = text.split_first()?;
    if *letter == b'R' {
        return leading_read(left);
    }
    if *letter == b'W' {
        return leading_write(left);
    }
    if *letter == b'T' {
        return leading_trim(left);
    }
    None
}
