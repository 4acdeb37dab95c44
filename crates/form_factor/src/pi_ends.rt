//! Pi between two ticks.
ghost use Rattle.std.specs.Prelude.{ℕ, ◌+◌, ◌*◌, ◌^◌, ◌≤◌};
ghost use Rattle.fx_base.specs.Fraction.{◌≤ᶠ◌};
ghost use Rattle.fx_base.specs.Units.{ticks};
ghost use Rattle.series_enclose.specs.Series.{pi};

use fx_base::magnitude;
use series_enclose::pi_span;

/// The ends of pi in ticks.
#[derive(Clone, Copy)]
pub struct PiEnds {
    pub lo: u128,
    pub hi: u128,
}

/// Both ends of pi, next to each other.
pub fn pi_ends() -> PiEnds
    ensures low { (n : ℕ) → ticks result.lo ≤ᶠ (pi n).hi }
    ensures high { (n : ℕ) → (pi n).lo ≤ᶠ ticks result.hi }
    ensures order { result.lo ≤ result.hi }
    ensures narrow { result.hi ≤ result.lo + 1 }
    ensures three { 3 * 2 ^ 36 ≤ result.hi }
    ensures four { result.lo ≤ 4 * 2 ^ 36 }
{
    let pi = pi_span();
    let lo = magnitude(pi.lo());
    let hi = magnitude(pi.hi());
    PiEnds { lo, hi }
}
