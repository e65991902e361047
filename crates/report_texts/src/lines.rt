//! A line of a report, made from its end: numbers are written digit by digit in that order.

ghost use Rattle.std.specs.Prelude.{◌≡◌, ◌+◌, ◌≤◌, [], ◌∷◌, ◌++◌, decimal};
ghost use Rattle.std.specs.Fmt.{signed_decimal};
ghost use Rattle.report_texts.specs.ReportText.{lateness_field, number_field};

use itoa::write_digits;

/// The most bytes that a line has.
const MAX_LINE: usize = 128;

/// A line so far, before which more may be put.
#[derive(Drop)]
pub struct Line {
    bytes: [u8; MAX_LINE],
    start: usize,
    ghost within: { start ≤ 128 },
}

impl Line {
    ghost use Rattle.report_texts.specs.Lines.{line_room, line_text};

    /// An empty line.
    pub fn new() -> Line
        ensures text { line_text result ≡ [] }
        ensures room { line_room result ≡ 128 }
    {
        Line {
            bytes: [0u8; MAX_LINE],
            start: MAX_LINE,
        }
    }

    /// The line.
    pub fn as_slice(&self) -> &[u8]
        ensures { result.now ≡ line_text self.now }
    {
        &self.bytes[self.start..]
    }

    /// Puts a byte before the line.
    fn put_byte(&mut self, byte: u8)
        requires { 1 ≤ line_room self.old }
        ensures text { line_text self.new ≡ byte ∷ line_text self.old }
        ensures room { line_room self.new + 1 ≡ line_room self.old }
    {
        self.start -= 1;
        self.bytes[self.start] = byte;
    }

    /// Puts a number before the line.
    fn put_number(&mut self, number: u32)
        requires { 10 ≤ line_room self.old }
        ensures text { line_text self.new ≡ decimal number ++ line_text self.old }
        ensures room { line_room self.old ≤ line_room self.new + 10 }
    {
        self.start = write_digits(u64::from(number), &mut self.bytes, self.start);
    }

    /// Puts a signed number before the line.
    fn put_signed(&mut self, number: i64)
        requires { 20 ≤ line_room self.old }
        ensures text { line_text self.new ≡ signed_decimal number ++ line_text self.old }
        ensures room { line_room self.old ≤ line_room self.new + 20 }
    {
        self.start = write_digits(number.unsigned_abs(), &mut self.bytes, self.start);
        if number < 0 {
            self.put_byte(b'-');
        }
    }

    /// Puts a comma and a number before the line.
    pub fn put_field(&mut self, number: u32)
        requires { 11 ≤ line_room self.old }
        ensures text { line_text self.new ≡ 44 ∷ (decimal number ++ line_text self.old) }
        ensures room { line_room self.old ≤ line_room self.new + 11 }
    {
        self.put_number(number);
        self.put_byte(b',');
    }

    /// Puts a comma before the line, and between them a number where there is one.
    pub fn put_field_if(&mut self, number: Option<u32>)
        requires { 11 ≤ line_room self.old }
        ensures text { line_text self.new ≡ 44 ∷ (number_field number ++ line_text self.old) }
        ensures room { line_room self.old ≤ line_room self.new + 11 }
    {
        if let Some(number) = number {
            self.put_number(number);
        }
        self.put_byte(b',');
    }

    /// Puts a comma before the line, and between them a lateness where there is one.
    pub fn put_lateness_if(&mut self, late: Option<i64>)
        requires { 21 ≤ line_room self.old }
        ensures text { line_text self.new ≡ 44 ∷ (lateness_field late ++ line_text self.old) }
        ensures room { line_room self.old ≤ line_room self.new + 21 }
    {
        if let Some(late) = late {
            self.put_signed(late);
        }
        self.put_byte(b',');
    }
}
