//! A check sum of bytes: the CRC-32 that zip and Ethernet have.

/// Its polynomial, the lowest bit first.
const POLYNOMIAL: u32 = 0xEDB8_8320;

fn with_bit(sum: u32) -> u32 {
    if sum % 2 == 1 {
        (sum / 2) ^ POLYNOMIAL
    } else {
        sum / 2
    }
}

fn with_byte(sum: u32, byte: u8) -> u32 {
    let mut sum = sum ^ u32::from(byte);
    for _ in 0..8 {
        sum = with_bit(sum);
    }
    sum
}

fn with_bytes(sum: u32, bytes: &[u8]) -> u32 {
    let mut sum = sum;
    for byte in bytes {
        sum = with_byte(sum, *byte);
    }
    sum
}

/// The check sum of bytes. Of two texts that differ in no more than 32 bits that lie side by side it is never the same,
/// and of others once in 2^32.
pub fn check_sum(bytes: &[u8]) -> u32 {
    !with_bytes(u32::MAX, bytes)
}

/// The check sum of these bytes, one list and then the other.
pub(crate) fn check_sum_of_two(first: &[u8], second: &[u8]) -> u32 {
    !with_bytes(with_bytes(u32::MAX, first), second)
}
