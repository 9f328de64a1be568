//! Round numbers for an axis.

ghost use Rattle.std.specs.Prelude.{◌≡◌, ◌<◌, ◌≤◌, ◌^◌};
ghost use Rattle.racp_charts.specs.Texts.{mark_of};

/// How many numbers an axis has at most after the first.
pub const MOST_MARKS: u64 = 12;

/// How much there is from one number of an axis to the next: 1, 2 or 5 times a power of ten, the least that has no more
/// than `MOST_MARKS` up to this number.
pub fn mark_of(most: u64) -> u128
    ensures mark { result ≡ mark_of most }
    ensures some { 1 ≤ result }
    ensures small { result < 2 ^ 62 }
{
    let most = most as u128;
    let mut power = 1u128;
    for _round in 0..18u32 {
        if most <= power * 12 {
            return power;
        }
        if most <= power * 24 {
            return power * 2;
        }
        if most <= power * 60 {
            return power * 5;
        }
        power *= 10;
    }
    power
}
