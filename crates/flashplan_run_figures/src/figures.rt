//! Numbers as a table has them.

ghost use Rattle.std.specs.Prelude.{◌≡◌, pos, option_map};
ghost use Rattle.flashplan_run_figures.specs.FigureTexts.{amplification, count_of, hundredths_of, whole_of};

use std::fmt;
use std::fmt::{Display, Formatter, Write};

/// A number of a table: none, a whole one, a number of hundredths or thousandths, or the word `refused`.
#[derive(Clone, Copy, PartialEq, Eq, Debug, Drop)]
pub enum Figure {
    Nothing,
    Whole(i64),
    Hundredths(i64),
    Thousandths(u64),
    Refused,
}

impl Figure {
    /// A count.
    pub fn count(count: u32) -> Figure
        ensures { result ≡ count_of count }
    {
        Figure::Whole(i64::from(count))
    }

    /// A whole number, where there is one.
    pub fn whole(number: Option<i64>) -> Figure
        ensures { result ≡ whole_of number }
    {
        match number {
            Some(number) => Figure::Whole(number),
            None => Figure::Nothing,
        }
    }

    /// A number of hundredths, where there is one.
    pub fn hundredths(number: Option<i64>) -> Figure
        ensures { result ≡ hundredths_of number }
    {
        match number {
            Some(number) => Figure::Hundredths(number),
            None => Figure::Nothing,
        }
    }

    /// The pages that were programmed for each page that jobs wrote, to the thousandth below; none where none was.
    pub fn amplification(written: u32, copied: u32) -> Figure
        ensures { result ≡ amplification written copied }
    {
        if written == 0 {
            return Figure::Nothing;
        }
        let programmed = u64::from(written) + u64::from(copied);
        Figure::Thousandths(programmed * 1000 / u64::from(written))
    }
}

impl Display for Figure {
    ghost use Rattle.std.specs.Prelude.{Some};
    ghost use Rattle.flashplan_run_figures.specs.FigureTexts.{figure_text};

    ghost output = { λ figure. Some (figure_text figure) };

    fn fmt<W: Write>(&self, f: &mut Formatter<W>) -> fmt::Result {
        match *self {
            Figure::Nothing => Ok(()),
            Figure::Refused => f.write_str("refused"),
            Figure::Whole(n) => write!(f, "{n}"),
            Figure::Hundredths(n) => {
                let sign = if n < 0 { "-" } else { "" };
                let size = n.unsigned_abs();
                let whole = size / 100;
                let tenths = size / 10 % 10;
                let hundredths = size % 10;
                write!(f, "{sign}{whole}.{tenths}{hundredths}")
            }
            Figure::Thousandths(n) => {
                let whole = n / 1000;
                let tenths = n / 100 % 10;
                let hundredths = n / 10 % 10;
                let thousandths = n % 10;
                write!(f, "{whole}.{tenths}{hundredths}{thousandths}")
            }
        }
    }
}
