//! Numbers of scripts and reports.

ghost use Rattle.std.specs.Prelude.{◌≡◌, ◌≤◌, IfSome, length};
ghost use Rattle.text_base.specs.Number.{HasDigits, number_of};
ghost use Rattle.text_base.specs.Words.{StartsWith};

/// The number that a field writes: 1 to 10 decimal digits, of at most 4,294,967,295.
#[tactic(auto, unfolding(crate::specs::Number::number_from))]
pub fn number(field: &[u8]) -> Option<u32>
    ensures { result ≡ number_of field.now }
{
    if field.is_empty() || field.len() > 10 {
        return None;
    }
    let mut value: u64 = 0;
    for digit in field {
        if !digit.is_ascii_digit() {
            return None;
        }
        value = 10 * value + u64::from(*digit - b'0');
    }
    u32::try_from(value).ok()
}

/// The number of the first `digits` digits of a text, of this value, and what stands after them.
fn number_and_rest(text: &[u8], digits: usize, value: u64) -> Option<(u32, &[u8])>
    requires few { digits ≤ 10 }
    requires inside { digits ≤ length text.now }
    requires value { HasDigits text.now digits value }
    ensures { IfSome result (λ found. StartsWith number_of text.now found.0 found.1.now) }
{
    if digits == 0 {
        return None;
    }
    if value > 4_294_967_295 {
        return None;
    }
    Some((value as u32, &text[digits..]))
}

/// The number that the digits at the front of a text write, and what stands after them.
#[tactic(auto, unfolding(crate::specs::Number::number_from))]
pub fn leading_number(text: &[u8]) -> Option<(u32, &[u8])>
    ensures { IfSome result (λ found. StartsWith number_of text.now found.0 found.1.now) }
{
    let most = text.len().min(10);
    let mut value: u64 = 0;
    for i in 0..most {
        let digit = text[i];
        if !digit.is_ascii_digit() {
            return number_and_rest(text, i, value);
        }
        value = 10 * value + u64::from(digit - b'0');
    }
    number_and_rest(text, most, value)
}
