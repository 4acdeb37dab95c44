//! A coefficient in ticks.
ghost use Rattle.std.specs.Prelude.{◌≡◌, ℕ, ◌+◌, ◌*◌, ◌^◌, ◌<◌, ◌≤◌};
ghost use Rattle.fx_base.specs.Fraction.{◌≤ᶠ◌};
ghost use Rattle.fx_base.specs.Units.{ticks};
ghost use Rattle.series_enclose.specs.Series.{pi};
ghost use Rattle.form_factor.specs.Coefficient.{kernel};
ghost use Rattle.form_factor.specs.Divisor.{IsAbove, IsNear};

use crate::pi_ends::pi_ends;
use crate::quotient::quotient;
use fx_base::Weight;

/// The ticks in one.
const ONE: u64 = 68_719_476_736;

/// A power of two that makes n large enough for a quotient to have all its digits, and no larger than a room has.
fn scale(n: u64) -> u64
    requires some { 0 < n }
    requires far { n ≤ 160000000000 }
    ensures some { 0 < result }
    ensures large { 2 ^ 24 ≤ result * n }
    ensures fits { result * n ≤ 160000000000 }
{
    if n < 4_096 {
        16_777_216
    } else if n < 16_777_216 {
        4_096
    } else {
        1
    }
}

/// `thousand_r * (pi * s + area)` by 2^23, rounded up, where pi is in ticks.
fn divisor(thousand_r: u64, pi: u128, s: u64, area: u64) -> u64
    requires r { thousand_r ≤ 160000000000000 }
    requires pi { pi ≤ 2 ^ 38 + 1 }
    requires s { s + area ≤ 160000000000 }
    ensures some { 0 < result }
    ensures above { IsAbove thousand_r pi s area result }
    ensures near { IsNear thousand_r pi s area result }
{
    let sum = pi * s as u128 / 4_096 + 1 + area as u128 * 16_777_216;
    (thousand_r as u128 * sum / 140_737_488_355_328 + 1) as u64
}

/// `reflect / 1000 * (fronts / squared) * area / (pi * squared + area)` between two ticks. All areas and squares are in square
/// half mm. The lower end is one quotient, with both ratios made of large numbers; the upper end is 5 ticks above it, which holds
/// all that is lost below.
pub fn weigh(reflect: u16, fronts: u64, squared: u64, area: u64) -> Weight
    requires reflect { reflect ≤ 1000 }
    requires near { fronts ≤ squared }
    requires apart { 0 < squared }
    requires far { squared ≤ 120000000000 }
    requires some { 0 < area }
    requires wide { area ≤ 40000000000 }
    ensures low { (n : ℕ) → ticks result.lo ≤ᶠ kernel reflect fronts squared area (pi n).lo }
    ensures high { (n : ℕ) → kernel reflect fronts squared area (pi n).hi ≤ᶠ ticks result.hi }
    ensures narrow { result.hi ≤ result.lo + 5 }
    ensures order { result.lo ≤ result.hi }
    ensures most { result.hi ≤ 2 ^ 36 }
{
    if reflect == 0 {
        return Weight::NONE;
    }
    let pi = pi_ends();
    let near = scale(squared);
    let far = scale(squared + area);
    let large_area = far * area;
    let under = divisor(1000 * (near * squared), pi.hi, far * squared, large_area);
    let over = (reflect as u128 * large_area as u128 * 8_192) * (near * fronts) as u128;
    let lo = quotient(over, under);
    Weight {
        lo,
        hi: (lo + 5).min(ONE),
    }
}
