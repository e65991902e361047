//! Means and ranks.

ghost use Rattle.std.specs.Prelude.{◌≡◌, ◌≤◌, slice_get};
ghost use Rattle.flashplan_run_figures.specs.Ranks.{nearest_rank};

/// The number at a place, if there is one.
fn number_at(numbers: &[i64], place: usize) -> Option<i64>
    ensures { result ≡ slice_get numbers.now place }
{
    numbers.get(place).copied()
}

/// Of rising numbers the least one that `per_mille` in a thousand don't exceed (nearest rank); none of no numbers.
pub fn nearest_rank(rising: &[i64], per_mille: usize) -> Option<i64>
    requires { per_mille ≤ 1000 }
    ensures { result ≡ nearest_rank rising.now per_mille }
{
    // In two parts, so that no product is too large.
    let whole = rising.len() / 1000 * per_mille;
    let rest = (rising.len() % 1000 * per_mille).div_ceil(1000);
    number_at(rising, (whole + rest).saturating_sub(1))
}

/// The mean of numbers, in hundredths, rounded down; none of no numbers.
pub fn mean(numbers: &[i64]) -> Option<i64> {
    let mut sum: i64 = 0;
    for number in numbers {
        sum = sum.saturating_add(*number);
    }
    let count = i64::try_from(numbers.len()).unwrap_or(i64::MAX);
    sum.saturating_mul(100).checked_div_euclid(count)
}
