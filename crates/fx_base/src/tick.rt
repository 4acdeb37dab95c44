//! Ticks, the smallest step of a number in Lux.
ghost use Rattle.std.specs.Prelude.{◌≡◌, ◌^◌, ◌<◌, ◌≤ℤ◌, pos};
ghost use Rattle.fx_base.specs.Units.{natural};

/// A number of ticks. A tick is 2^-36 of the unit, which is lux for light and one for coefficients.
#[derive(Clone, Copy, Debug, PartialEq, Eq, PartialOrd, Ord)]
pub struct Tick(pub i128);

/// How many ticks one has.
pub const TICKS_IN_ONE: u128 = 68_719_476_736;

/// How many ticks these are, where there are no fewer than none. Code computes with these numbers and makes ticks of them last.
pub fn magnitude(t: Tick) -> u128
    requires { pos 0 ≤ℤ t.0 }
    ensures { result ≡ natural t.0 }
{
    t.0 as u128
}

/// So many ticks.
pub fn tick_of(n: u128) -> Tick
    requires { n < 2 ^ 127 }
    ensures { result.0 ≡ pos n }
{
    Tick(n as i128)
}
