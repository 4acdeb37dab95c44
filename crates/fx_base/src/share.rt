//! The share of a light that a weight hands on, in ticks, rounded to a tick on either side.
ghost use Rattle.std.specs.Prelude.{◌≡◌, ◌*◌, ◌^◌, ◌≤◌};
ghost use Rattle.fx_base.specs.Bound.{IsEnd};
ghost use Rattle.fx_base.specs.Rounded.{down_to, up_to};
ghost use Rattle.fx_base.specs.Units.{natural};

use crate::tick::{TICKS_IN_ONE, Tick, magnitude};

/// How many ticks an end of a bound is.
#[tactic(auto, using(crate::proofs::Shares::end_small))]
pub fn end_ticks(t: Tick) -> u128
    requires { IsEnd t }
    ensures size { result ≡ natural t.0 }
    ensures most { result ≤ 2 ^ 90 }
{
    magnitude(t)
}

/// The share of a light by one end of a weight, rounded down to a tick.
#[tactic(auto, using(crate::proofs::Shares::shares))]
pub fn share_below(share: u64, light: u128) -> u128
    requires share { share ≤ 2 ^ 36 }
    requires light { light ≤ 2 ^ 90 }
    ensures product { result ≡ down_to (2 ^ 36) (share * light) }
    ensures most { result ≤ 2 ^ 90 }
{
    share as u128 * light / TICKS_IN_ONE
}

/// The share of a light by one end of a weight, rounded up to a tick.
#[tactic(auto, using(crate::proofs::Shares::shares))]
pub fn share_above(share: u64, light: u128) -> u128
    requires share { share ≤ 2 ^ 36 }
    requires light { light ≤ 2 ^ 90 }
    ensures product { result ≡ up_to (2 ^ 36) (share * light) }
    ensures most { result ≤ 2 ^ 90 }
{
    (share as u128 * light + (TICKS_IN_ONE - 1)) / TICKS_IN_ONE
}
