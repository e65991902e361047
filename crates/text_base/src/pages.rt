//! Pages as 32 hexadecimal digits, read and written without a branch for each digit.

ghost use Rattle.std.specs.Prelude.{◌≡◌, ◌<◌, length, IfSome, Some, OnErr, OnOk, ◌++◌, slice_index, unwrap_or};
ghost use Rattle.hex.specs.Hex.{hex_digit_value, lower_digits};
ghost use Rattle.text_base.specs.Pages.{page_word};
ghost use Rattle.text_base.specs.Words.{StartsWith};
ghost use Rattle.text_base.specs.Pages.{page_of};
ghost use Rattle.text_base.specs.PageStarts.{AreUpTo, BeginsWithPage};

use slot_types::PageData;
use std::io;

/// The value of a hexadecimal digit in either case, and 255 of any other byte.
fn digit_value(digit: u8) -> u8
    ensures { result ≡ unwrap_or (hex_digit_value digit) 255 }
{
    let decimal = digit.wrapping_sub(b'0');
    let upper = digit.wrapping_sub(b'A');
    let lower = digit.wrapping_sub(b'a');
    if decimal < 10 {
        decimal
    } else if upper < 6 {
        upper + 10
    } else if lower < 6 {
        lower + 10
    } else {
        255
    }
}

/// The page that 32 bytes write, if each of them is a digit.
fn clean_page(digits: &[u8]) -> Option<PageData>
    ensures { IfSome result (λ page. page_of digits.now ≡ Some page) }
{
    if digits.len() != 32 {
        return None;
    }
    let mut bytes = [0u8; 16];
    let mut most = 0u8;
    for i in 0..16 {
        let high = digit_value(digits[2 * i]);
        let low = digit_value(digits[2 * i + 1]);
        most = most.max(high).max(low);
        bytes[i] = high.wrapping_mul(16).wrapping_add(low);
    }
    if most > 15 {
        return None;
    }
    Some(PageData(bytes))
}

/// The page that 32 hexadecimal digits write.
pub fn page(digits: &[u8]) -> Option<PageData>
    ensures { result ≡ page_of digits.now }
{
    if let Some(page) = clean_page(digits) {
        return Some(page);
    }
    let mut bytes = [0u8; 16];
    match hex::decode_to_slice(digits, &mut bytes) {
        Ok(()) => Some(PageData(bytes)),
        Err(_) => None,
    }
}

/// The page that the first 32 bytes of a text write, and what stands after them.
pub fn leading_page(text: &[u8]) -> Option<(PageData, &[u8])>
    ensures { IfSome result (λ found. StartsWith page_of text.now found.0 found.1.now) }
{
    if text.len() < 32 {
        return None;
    }
    let page = clean_page(&text[..32])?;
    Some((page, &text[32..]))
}

/// The greatest value of 32 digits, 255 where a byte is none. Each is looked at by itself, one after the other, so that
/// a machine may take sixteen at once.
fn greatest_value(digits: &[u8]) -> u8
    requires { length digits.now ≡ 32 }
    ensures { AreUpTo result digits.now 32 }
{
    let mut most = 0u8;
    for i in 0..32 {
        most = most.max(digit_value(digits[i]));
    }
    most
}

/// What stands after a page, where the first 32 bytes of a text write one. The page isn't made.
pub fn after_page(text: &[u8]) -> Option<&[u8]>
    ensures { IfSome result (λ rest. BeginsWithPage text.now rest.now) }
{
    if text.len() < 32 || greatest_value(&text[..32]) > 15 {
        return None;
    }
    Some(&text[32..])
}

/// The lower-case digit of a number below 16.
fn digit(number: u8) -> u8
    requires { number < 16 }
    ensures { result ≡ slice_index lower_digits number }
{
    if number < 10 {
        number + 48
    } else {
        number + 87
    }
}

/// The digits of a page.
fn digits_of(page: &PageData) -> [u8; 32]
    ensures { result ≡ page_word page.now }
{
    let mut digits = [0u8; 32];
    for i in 0..16 {
        let byte = page.0[i];
        digits[2 * i] = digit(byte >> 4);
        digits[2 * i + 1] = digit(byte & 15);
    }
    digits
}

/// Adds the digits of a page. Without memory for them the text stays as it was.
pub fn put_page(text: &mut Vec<u8>, page: &PageData) -> io::Result<()>
    ensures ok { OnOk result (text.new.items ≡ text.old.items ++ page_word page.now) }
    ensures err { OnErr result (text.new.items ≡ text.old.items) }
{
    let digits = digits_of(page);
    text.extend_from_slice(&digits)?;
    Ok(())
}
