//! Numbers that are counted in parts of a unit.

use std::fmt;
use std::fmt::{Display, Formatter, Write};

/// A number of units, said in parts: `parts` of them, where a unit has `unit`, which is 1, 1,000 or 1,000,000.
#[derive(Clone, Copy, Drop)]
pub struct Decimal {
    pub parts: u32,
    pub unit: u32,
}

impl Display for Decimal {
    /// The number in units, with the decimals that it has.
    fn fmt<W: Write>(&self, f: &mut Formatter<W>) -> fmt::Result {
        let unit = self.unit.max(1);
        let (whole, mut rest, mut place) = (self.parts / unit, self.parts % unit, unit / 10);
        write!(f, "{whole}")?;
        if rest != 0 {
            f.write_str(".")?;
        }
        for _ in 0..6 {
            if rest == 0 || place == 0 {
                break;
            }
            let digit = rest / place;
            write!(f, "{digit}")?;
            rest %= place;
            place /= 10;
        }
        Ok(())
    }
}
