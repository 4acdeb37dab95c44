//! Ticks in hundredths and thousandths, rounded outward: the numbers that are printed.
ghost use Rattle.std.specs.Prelude.{◌≡◌, ◌^◌, ◌≤◌, ◌≤ℤ◌, pos};
ghost use Rattle.fx_base.specs.Units.{natural};
ghost use Rattle.fx_base.specs.Rounded.{hundredths_below, hundredths_above, thousandths_above};

use crate::tick::{TICKS_IN_ONE, Tick, magnitude};

/// The value in hundredths, rounded down: the lower end that is printed.
pub fn floor_cent(t: Tick) -> u128
    requires low { pos 0 ≤ℤ t.0 }
    requires high { natural t.0 ≤ 2 ^ 115 }
    ensures { result ≡ hundredths_below (natural t.0) }
{
    magnitude(t) * 100 / TICKS_IN_ONE
}

/// The value in hundredths, rounded up: the upper end that is printed.
pub fn ceil_cent(t: Tick) -> u128
    requires low { pos 0 ≤ℤ t.0 }
    requires high { natural t.0 ≤ 2 ^ 115 }
    ensures { result ≡ hundredths_above (natural t.0) }
{
    (magnitude(t) * 100).div_ceil(TICKS_IN_ONE)
}

/// The value in thousandths, rounded up.
pub fn ceil_thousandth(t: Tick) -> u128
    requires low { pos 0 ≤ℤ t.0 }
    requires high { natural t.0 ≤ 2 ^ 115 }
    ensures { result ≡ thousandths_above (natural t.0) }
{
    (magnitude(t) * 1000).div_ceil(TICKS_IN_ONE)
}
