//! Numbers between two ends in ticks, and their products.
ghost use Rattle.std.specs.Prelude.{◌+◌, ◌*◌, ◌^◌, ◌<◌, ◌≤◌};
ghost use Rattle.series_enclose.specs.Turns.{IsProduct};

use fx_base::TICKS_IN_ONE;

/// A number that isn't negative, between two ends in ticks.
#[derive(Clone, Copy)]
pub struct Bounds {
    pub lo: u64,
    pub hi: u64,
}

/// The product by `divisor`, rounded down and up to a tick.
#[inline(always)]
pub fn product_over(one: Bounds, other: Bounds, divisor: u64) -> Bounds
    requires some { 0 < divisor }
    requires divisor { divisor ≤ 2 ^ 20 }
    requires order { one.lo ≤ one.hi }
    requires below { one.hi ≤ 2 ^ 36 }
    requires other_order { other.lo ≤ other.hi }
    requires other_below { other.hi ≤ 2 ^ 36 }
    ensures product { IsProduct divisor one.lo one.hi other.lo other.hi result.lo result.hi }
    ensures order { result.lo ≤ result.hi }
{
    // the product in ticks fits 64 bits, and the floor of a floor is the floor of the whole quotient, as the ceilings are
    let low = (one.lo as u128 * other.lo as u128 / TICKS_IN_ONE) as u64;
    let high = (one.hi as u128 * other.hi as u128).div_ceil(TICKS_IN_ONE) as u64;
    Bounds {
        lo: low / divisor,
        hi: high.div_ceil(divisor),
    }
}
