//! The records of a run's figures, as `report` writes them: a line of names, and then one of the die and one of each of its
//! tasks.

/// The text of figures as records.
#[derive(Clone, Copy, Drop)]
pub(crate) struct Records<'a> {
    pub(crate) text: &'a str,
}

/// The most records of a die: its own, and those of 16 tasks.
const MOST_RECORDS: usize = 17;

impl<'a> Records<'a> {
    /// How many records there are.
    pub(crate) fn count(&self) -> usize {
        let lines = self.text.lines().count();
        lines.saturating_sub(1).min(MOST_RECORDS)
    }

    /// The place of a name among the names.
    fn place(&self, name: &str) -> Option<usize> {
        let names = self.text.lines().next()?;
        names.split(',').position(|own| own == name)
    }

    /// What a record has under a name; empty where it has nothing.
    pub(crate) fn value(&self, record: usize, name: &str) -> &'a str {
        let Some(place) = self.place(name) else {
            return "";
        };
        let line = self.text.lines().nth(record.saturating_add(1));
        match line {
            Some(line) => line.split(',').nth(place).unwrap_or(""),
            None => "",
        }
    }

    /// The whole number that the die's own record has under a name, 0 where it has none.
    pub(crate) fn of_die(&self, name: &str) -> u64 {
        self.value(0, name).parse::<u64>().unwrap_or(0)
    }
}

/// The hundredths that a text of a decimal number says, as `-12.34` or `-12`.
pub(crate) fn hundredths_of(text: &str) -> Option<i64> {
    let (whole, rest) = text.split_once('.').unwrap_or((text, "00"));
    let whole_part = whole.parse::<i64>().ok()?;
    let part = rest.parse::<i64>().ok()?;
    let size = whole_part.saturating_abs().saturating_mul(100);
    let size = size.saturating_add(part);
    if whole.starts_with('-') {
        Some(0i64.saturating_sub(size))
    } else {
        Some(size)
    }
}
