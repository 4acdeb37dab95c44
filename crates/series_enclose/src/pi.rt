//! Pi.
ghost use Rattle.std.specs.Prelude.{ℕ, ◌+ℤ◌, ◌≤ℤ◌, pos};
ghost use Rattle.fx_base.specs.Interval.{Meets};
ghost use Rattle.fx_base.specs.Units.{of_span};
ghost use Rattle.series_enclose.specs.Series.{pi};

use fx_base::{Span, tick_of};

/// The tick next below pi.
pub const PI_LOW: u64 = 215_888_603_272;

/// The tick next above pi.
pub const PI_HIGH: u64 = 215_888_603_273;

/// Pi, to one tick. It meets, at every depth, what the first terms of Machin's formula `16 arctan(1/5) - 4 arctan(1/239)` enclose.
pub fn pi_span() -> Span
    ensures meets { (n : ℕ) → Meets (of_span result) (pi n) }
    ensures narrow { result.hi ≤ℤ (result.lo +ℤ pos 1) }
    ensures natural { pos 0 ≤ℤ result.lo }
{
    Span::new(tick_of(PI_LOW as u128), tick_of(PI_HIGH as u128))
}
