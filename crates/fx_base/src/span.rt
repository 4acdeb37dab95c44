//! Spans: two ticks that hold an exact value between them.
ghost use Rattle.std.specs.Prelude.{◌≡◌, ℕ, ◌+◌, ◌*◌, ◌/◌, ◌^◌, ◌<◌, ◌≤◌, ◌≤ℤ◌, ◌+ℤ◌, pos};
ghost use Rattle.std.specs.Int.{div_ceil};
ghost use Rattle.fx_base.specs.Units.{natural};
ghost use Rattle.fx_base.specs.Ends.{IsWithin, IsRootBelow};

use crate::tick::{TICKS_IN_ONE, Tick, magnitude, tick_of};
use std::marker::Model;

/// A lower and an upper end in ticks, the lower one at most the upper one. A span stands for an exact value that lies between
/// its ends; each call rounds its lower end down and its upper end up, so that what it gives holds the exact result.
#[derive(Clone, Copy, Debug)]
pub struct Span {
    lo: Tick,
    hi: Tick,
}

impl Model for Span {
    ghost use Rattle.fx_base.specs.Ends.{Ends};
    ghost use Rattle.std.specs.Prelude.{◌≤ℤ◌};

    ghost Value = { Ends };

    ghost view = { λ s. record { lo = s.lo.0; hi = s.hi.0 } };

    ghost invariant = { λ s. s.lo.0 ≤ℤ s.hi.0 };

    ghost inverse = { λ e. record { lo = record { 0 = e.lo }; hi = record { 0 = e.hi } } };
}

/// From `low / under` rounded down to `high / over` rounded up.
#[tactic(auto, using(crate::proofs::Rounding::quotients_rule))]
fn quotients(low: u128, under: u128, high: u128, over: u128) -> Span
    requires some { 0 < over }
    requires divisors { over ≤ under }
    requires ends { low ≤ high }
    requires fits { high ≤ 2 ^ 126 }
    ensures low { result.lo ≡ pos (low / under) }
    ensures high { result.hi ≡ pos (div_ceil high over) }
{
    Span::new(tick_of(low / under), tick_of(high.div_ceil(over)))
}

impl Span {
    /// The span between two ticks.
    pub fn new(lo: Tick, hi: Tick) -> Span
        requires { lo.0 ≤ℤ hi.0 }
        ensures low { result.lo ≡ lo.0 }
        ensures high { result.hi ≡ hi.0 }
    {
        Span { lo, hi }
    }

    /// Exactly n.
    pub fn whole(n: u64) -> Span
        requires { n ≤ 2 ^ 60 }
        ensures low { result.lo ≡ pos (n * 2 ^ 36) }
        ensures high { result.hi ≡ pos (n * 2 ^ 36) }
    {
        let end = tick_of(n as u128 * TICKS_IN_ONE);
        Span { lo: end, hi: end }
    }

    /// The lower end.
    pub fn lo(&self) -> Tick
        ensures end { result.0 ≡ self.now.lo }
        ensures in_order { self.now.lo ≤ℤ self.now.hi }
    {
        self.lo
    }

    /// The upper end.
    pub fn hi(&self) -> Tick
        ensures end { result.0 ≡ self.now.hi }
        ensures in_order { self.now.lo ≤ℤ self.now.hi }
    {
        self.hi
    }

    /// The sum, exactly.
    pub fn add(self, other: Span) -> Span
        requires low { IsWithin (2 ^ 125) self.lo }
        requires high { IsWithin (2 ^ 125) self.hi }
        requires other_low { IsWithin (2 ^ 125) other.lo }
        requires other_high { IsWithin (2 ^ 125) other.hi }
        ensures low { result.lo ≡ self.lo +ℤ other.lo }
        ensures high { result.hi ≡ self.hi +ℤ other.hi }
    {
        let lo = self.lo().0 + other.lo().0;
        let hi = self.hi().0 + other.hi().0;
        Span::new(Tick(lo), Tick(hi))
    }

    /// The product: of the lower ends rounded down to a tick, of the upper ends rounded up.
    pub fn mul(self, other: Span) -> Span
        requires low { pos 0 ≤ℤ self.lo }
        requires other_low { pos 0 ≤ℤ other.lo }
        requires high { natural self.hi * natural other.hi ≤ 2 ^ 126 }
        ensures low { result.lo ≡ pos (natural self.lo * natural other.lo / 2 ^ 36) }
        ensures high { result.hi ≡ pos (div_ceil (natural self.hi * natural other.hi) (2 ^ 36)) }
    {
        let low = magnitude(self.lo()) * magnitude(other.lo());
        let high = magnitude(self.hi()) * magnitude(other.hi());
        quotients(low, TICKS_IN_ONE, high, TICKS_IN_ONE)
    }

    /// The span times `num` by `den`: the lower end rounded down to a tick, the upper end rounded up.
    pub fn scale_div(self, num: u64, den: u64) -> Span
        requires den { 0 < den }
        requires low { pos 0 ≤ℤ self.lo }
        requires high { natural self.hi * num ≤ 2 ^ 126 }
        ensures low { result.lo ≡ pos (natural self.lo * num / den) }
        ensures high { result.hi ≡ pos (div_ceil (natural self.hi * num) den) }
    {
        let low = magnitude(self.lo()) * num as u128;
        let high = magnitude(self.hi()) * num as u128;
        quotients(low, den as u128, high, den as u128)
    }

    /// The quotient: `lo` by the divisor's upper end rounded down to a tick, `hi` by its lower end rounded up.
    pub fn div(self, by: Span) -> Span
        requires low { pos 0 ≤ℤ self.lo }
        requires by { pos 1 ≤ℤ by.lo }
        requires high { natural self.hi ≤ 2 ^ 90 }
        ensures low { result.lo ≡ pos (natural self.lo * 2 ^ 36 / natural by.hi) }
        ensures high { result.hi ≡ pos (div_ceil (natural self.hi * 2 ^ 36) (natural by.lo)) }
    {
        let low = magnitude(self.lo()) * TICKS_IN_ONE;
        let high = magnitude(self.hi()) * TICKS_IN_ONE;
        quotients(low, magnitude(by.hi()), high, magnitude(by.lo()))
    }

    /// The square root of `r`: the greatest tick whose square is at most `r`, and the next one unless that square is `r`.
    pub fn root(r: u64) -> Span
        requires { r < 2 ^ 40 }
        ensures low { IsRootBelow (r * 4 ^ 36) result.lo }
        ensures exact { natural result.lo * natural result.lo ≡ r * 4 ^ 36 → result.hi ≡ result.lo }
        ensures next { natural result.lo * natural result.lo < r * 4 ^ 36 → result.hi ≡ pos (natural result.lo + 1) }
    {
        let square = r as u128 * 4_722_366_482_869_645_213_696;
        let low = square.isqrt();
        let high = if low * low == square { low } else { low + 1 };
        Span::new(tick_of(low), tick_of(high))
    }

    /// `num` by `den`, rounded down and up to a tick.
    pub fn of_fraction(num: u128, den: u128) -> Span
        requires some { 0 < den }
        requires den { den ≤ 2 ^ 90 }
        requires num { num ≤ 2 ^ 126 }
        requires quotient { num ≤ den * 2 ^ 80 }
        ensures low { result.lo ≡ pos (num * 2 ^ 36 / den) }
        ensures high { result.hi ≡ pos (div_ceil (num * 2 ^ 36) den) }
    {
        // num * 2^36 need not fit 128 bits, so the whole part and the rest are taken apart
        let whole = num / den * TICKS_IN_ONE;
        let rest = num % den * TICKS_IN_ONE;
        Span::new(
            tick_of(whole + rest / den),
            tick_of(whole + rest.div_ceil(den)),
        )
    }
}
