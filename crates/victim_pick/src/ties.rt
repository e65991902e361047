//! Of blocks with equally many valid pages the one that goes first: that with the fewest erases, then the smallest
//! number.

ghost use Rattle.std.specs.Prelude.{◌≡◌};
ghost use Rattle.victim_pick.specs.Candidates.{erases_of};
ghost use Rattle.victim_pick.specs.Ties.{IsEarlier};

/// Of a block, if there is one, and another one the one that goes first.
pub fn earlier(erases: &[Option<u32>], one: Option<u32>, other: u32) -> u32
    ensures { IsEarlier erases.now one other result }
{
    match one {
        None => other,
        Some(block) => {
            let worn = erases_of(erases, block);
            let other_worn = erases_of(erases, other);
            if worn < other_worn || (worn == other_worn && block < other) {
                block
            } else {
                other
            }
        }
    }
}

/// How many finished erases a block has, if it is a candidate, and else 0.
fn erases_of(erases: &[Option<u32>], block: u32) -> u32
    ensures { result ≡ erases_of erases.now block }
{
    match erases.get(block as usize) {
        Some(Some(count)) => *count,
        _ => 0,
    }
}
