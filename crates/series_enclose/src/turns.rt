//! The sums of a series, two terms a turn.
ghost use Rattle.std.specs.Prelude.{◌+◌, ◌*◌, ◌^◌, ◌<◌, ◌≤◌, ◌≡◌};
ghost use Rattle.fx_base.specs.Fraction.{Fraction};
ghost use Rattle.series_enclose.specs.Turns.{IsStart, IsSum};

use crate::bounds::{Bounds, product_over};

/// What term k is divided by, besides the square of x, to give term k + 1.
#[inline(always)]
fn divisor(k: u64, offset: u64) -> u64
    requires k { k ≤ 10 }
    requires offset { offset ≤ 1 }
    ensures { result ≡ (2 * k + offset + 1) * (2 * k + offset + 2) }
{
    let power = 2 * k + offset;
    (power + 1) * (power + 2)
}

/// The sum of eight terms, and that of seven: each turn takes one term away and adds the next. `offset` is 1 for a sine, 0 for a
/// cosine.
#[inline(always)]
pub fn series_bounds(offset: u64, first: Bounds, second: Bounds, square: Bounds) -> Bounds
    requires offset { offset ≤ 1 }
    requires first_order { first.lo ≤ first.hi }
    requires first_below { first.hi ≤ 2 ^ 36 }
    requires second_order { second.lo ≤ second.hi }
    requires second_below { second.hi ≤ 2 ^ 35 }
    requires square_order { square.lo ≤ square.hi }
    requires square_below { square.hi ≤ 2 ^ 36 }
    requires square_narrow { square.hi ≤ square.lo + 5 }
    requires narrow { first.hi + second.hi ≤ first.lo + second.lo + 4 }
    ensures encloses { (x : Fraction) → IsStart offset first.lo first.hi second.lo second.hi square.lo square.hi x
        → IsSum offset result.lo result.hi x }
    ensures narrow { (x : Fraction) → IsStart offset first.lo first.hi second.lo second.hi square.lo square.hi x
        → result.hi ≤ result.lo + 16 }
    ensures order { result.lo ≤ result.hi }
    ensures below { result.hi ≤ 2 ^ 40 }
{
    let mut sum = first;
    let mut term = second;
    for n in 0..3 {
        let next = product_over(term, square, divisor(2 * n + 1, offset));
        sum = Bounds {
            lo: sum.lo.saturating_sub(term.hi) + next.lo,
            hi: sum.hi.saturating_sub(term.lo) + next.hi,
        };
        term = product_over(next, square, divisor(2 * n + 2, offset));
    }
    Bounds {
        lo: sum.lo.saturating_sub(term.hi),
        hi: sum.hi,
    }
}
