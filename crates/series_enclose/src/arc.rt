//! Sines and cosines between ends in ticks: the angle in radians, its square, and the first two terms of each series.
ghost use Rattle.std.specs.Prelude.{ℕ, ◌+◌, ◌*◌, ◌^◌, ◌≤◌};
ghost use Rattle.fx_base.specs.Interval.{Meets};
ghost use Rattle.fx_base.specs.Units.{millionths, ticks_between};
ghost use Rattle.series_enclose.specs.Series.{sine, cosine};
ghost use Rattle.series_enclose.specs.Turns.{IsProduct};

use crate::bounds::{Bounds, product_over};
use crate::pi::{PI_HIGH, PI_LOW};
use crate::turns::series_bounds;
use fx_base::TICKS_IN_ONE;

/// The angle in radians: times pi, by 180 degrees.
#[inline(always)]
fn arc_of(angle: u64) -> Bounds
    requires { angle ≤ 45000000 }
    ensures low { result.lo * 180000000 ≤ angle * 215888603272 }
    ensures high { angle * 215888603273 ≤ result.hi * 180000000 }
    ensures order { result.lo ≤ result.hi }
    ensures narrow { result.hi ≤ result.lo + 2 }
    ensures below { result.hi ≤ 53972150819 }
{
    Bounds {
        lo: angle * PI_LOW / 180_000_000,
        hi: (angle * PI_HIGH).div_ceil(180_000_000),
    }
}

/// Its square.
#[inline(always)]
fn square_of(arc: Bounds) -> Bounds
    requires order { arc.lo ≤ arc.hi }
    requires narrow { arc.hi ≤ arc.lo + 2 }
    requires below { arc.hi ≤ 53972150819 }
    ensures product { IsProduct 1 arc.lo arc.hi arc.lo arc.hi result.lo result.hi }
    ensures order { result.lo ≤ result.hi }
    ensures narrow { result.hi ≤ result.lo + 5 }
    ensures below { result.hi ≤ 68719476736 }
{
    product_over(arc, arc, 1)
}

/// The sine of an angle in millionths of a degree.
#[inline(always)]
pub fn sine_bounds(angle: u64) -> Bounds
    requires { angle ≤ 45000000 }
    ensures meets { (n : ℕ) → Meets (ticks_between result.lo result.hi) (sine n (millionths angle)) }
    ensures narrow { result.hi ≤ result.lo + 16 }
    ensures order { result.lo ≤ result.hi }
    ensures below { result.hi ≤ 2 ^ 40 }
{
    let arc = arc_of(angle);
    let square = square_of(arc);
    let cube = product_over(arc, square, 6);
    series_bounds(1, arc, cube, square)
}

/// The cosine of an angle in millionths of a degree.
#[inline(always)]
pub fn cosine_bounds(angle: u64) -> Bounds
    requires { angle ≤ 45000000 }
    ensures meets { (n : ℕ) → Meets (ticks_between result.lo result.hi) (cosine n (millionths angle)) }
    ensures narrow { result.hi ≤ result.lo + 16 }
    ensures order { result.lo ≤ result.hi }
    ensures below { result.hi ≤ 2 ^ 40 }
{
    let arc = arc_of(angle);
    let square = square_of(arc);
    // the first term of a cosine
    let one = Bounds {
        lo: TICKS_IN_ONE as u64,
        hi: TICKS_IN_ONE as u64,
    };
    let half_square = product_over(one, square, 2);
    series_bounds(0, one, half_square, square)
}
