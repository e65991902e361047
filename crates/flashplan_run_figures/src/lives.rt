//! How long a part lives.

ghost use Rattle.std.specs.Prelude.{◌≡◌, ◌↔◌, ◌<◌, ◌/◌, IfSome, IsSome, None, pos};
ghost use Rattle.flashplan_run_figures.specs.Lasting.{IsLasting, IsLife, IsRate};
ghost use Rattle.flashplan_run_figures.specs.Wearing.{IsWearing, mean_erases};

/// How often a block may be erased, and how long a slot takes.
#[derive(Clone, Copy, PartialEq, Eq, Debug, Drop)]
pub struct Life {
    /// Erases of a block.
    pub endurance: u32,
    /// Microseconds of a slot.
    pub slot_us: u32,
}

/// What the blocks of a die wore in `slots` slots.
#[derive(Clone, Copy, PartialEq, Eq, Debug, Drop)]
pub struct Wearing {
    pub slots: u32,
    pub erases: u32,
    pub blocks: u32,
    /// Of a block.
    pub least: u32,
    pub greatest: u32,
}

/// The fewest erases that make a rate.
pub const FEWEST_ERASES: u32 = 10;

/// Microseconds of a day, and of a year of 365.25 days.
const DAY: u128 = 86_400_000_000;

const YEAR: u128 = 31_557_600_000_000;

/// How often a block is erased, and how long one lasts that is erased as often: each in hundredths, rounded down.
#[derive(Clone, Copy, PartialEq, Eq, Debug, Drop)]
pub struct Rate {
    /// Erases a day.
    pub a_day: i64,
    pub days: i64,
    /// Years of 365.25 days.
    pub years: i64,
}

/// How long blocks last that go on as in a run.
#[derive(Clone, Copy, PartialEq, Eq, Debug, Drop)]
pub struct Lasting {
    /// The run's length, in hundredths of a second, rounded down.
    pub run: i64,
    /// By the mean of the blocks; none where all of them together weren't erased [`FEWEST_ERASES`] times.
    pub mean: Option<Rate>,
    /// By the block that was erased most; none where that wasn't erased [`FEWEST_ERASES`] times.
    pub worst: Option<Rate>,
}

/// How many whole units there are in all; none where that is no number of 63 bits, or the unit is 0.
fn units(all: u128, unit: u128) -> Option<i64>
    ensures { IfSome result (λ count. count ≡ pos (all / unit)) }
{
    i64::try_from(all.checked_div(unit)?).ok()
}

impl Rate {
    /// Where `blocks` blocks were erased `erases` times in all, in `us` microseconds, and one lasts for `endurance`
    /// erases. None where they were erased fewer than [`FEWEST_ERASES`] times, or a number has more than 63 bits.
    fn of(erases: u32, blocks: u32, us: u64, endurance: u32) -> Option<Rate>
        ensures rate { IfSome result (IsRate erases blocks us endurance) }
        ensures few { erases < 10 → result ≡ None }
    {
        if erases < FEWEST_ERASES {
            return None;
        }
        let erases = u128::from(erases);
        let time = u128::from(blocks) * u128::from(us);
        let worn = u128::from(endurance).checked_mul(time)?.checked_mul(100)?;
        Some(Rate {
            a_day: units(erases * DAY * 100, time)?,
            days: units(worn, erases * DAY)?,
            years: units(worn, erases * YEAR)?,
        })
    }
}

impl Wearing {
    /// Of blocks that were erased in `slots` slots, as often as `erases` says.
    pub fn of(slots: u32, erases: &[u32]) -> Wearing
        ensures { IsWearing slots erases.now result }
    {
        let mut wearing = Wearing {
            slots,
            erases: 0,
            blocks: 0,
            least: u32::MAX,
            greatest: 0,
        };
        for count in erases {
            wearing.erases = wearing.erases.saturating_add(*count);
            wearing.blocks = wearing.blocks.saturating_add(1);
            wearing.least = wearing.least.min(*count);
            wearing.greatest = wearing.greatest.max(*count);
        }
        wearing
    }

    /// The mean erases of a block, in hundredths, rounded down.
    pub fn mean(self) -> Option<i64>
        ensures { result ≡ mean_erases self }
    {
        if self.blocks == 0 {
            return None;
        }
        Some((u64::from(self.erases) * 100 / u64::from(self.blocks)) as i64)
    }

    /// How long blocks last that go on like that; none where the endurance or the length of a slot is 0.
    pub fn lasting(self, life: Life) -> Option<Lasting>
        ensures lasts { IfSome result (IsLasting self life) }
        ensures told { IsSome result ↔ IsLife life }
    {
        let Life { endurance, slot_us } = life;
        if endurance == 0 || slot_us == 0 {
            return None;
        }
        let us = u64::from(self.slots) * u64::from(slot_us);
        Some(Lasting {
            run: (us / 10_000) as i64,
            mean: Rate::of(self.erases, self.blocks, us, endurance),
            worst: Rate::of(self.greatest, 1, us, endurance),
        })
    }
}
