//! Intensities between two ends, in whole ticks.
ghost use Rattle.std.specs.Prelude.{◌≡◌, ◌+◌, ◌*◌, ◌/◌, ◌^◌, ◌<◌, ◌≤◌, min, max};
ghost use Rattle.std.specs.Int.{div_ceil};
ghost use Rattle.fx_base.specs.Units.{natural};
ghost use Rattle.photo_table.specs.Kept.{IsIntensity};

use fx_base::{Span, magnitude};

/// An intensity between two ends in ticks of 2^-36 cd.
#[derive(Clone, Copy, Debug)]
pub struct Part {
    pub lo: u128,
    pub hi: u128,
}

/// No light.
pub const DARK: Part = Part { lo: 0, hi: 0 };

/// The ends of a span.
#[tactic(auto, using(fx_base::proofs::Rounding::natural_rule))]
pub fn part_of(span: &Span) -> Part
    requires { IsIntensity span.now }
    ensures low { result.lo ≡ natural span.now.lo }
    ensures high { result.hi ≡ natural span.now.hi }
    ensures in_order { result.lo ≤ result.hi }
    ensures most { result.hi ≤ 687194767360000000 }
{
    Part {
        lo: magnitude(span.lo()),
        hi: magnitude(span.hi()),
    }
}

/// What holds both.
pub fn joined(a: Part, b: Part) -> Part
    ensures low { result.lo ≡ min a.lo b.lo }
    ensures high { result.hi ≡ max a.hi b.hi }
{
    Part {
        lo: a.lo.min(b.lo),
        hi: a.hi.max(b.hi),
    }
}

/// The sum of `u` times what lies ahead and `v` times what lies behind, by which a value on the line from u to v is divided out.
#[tactic(auto, using(crate::proofs::Corner::weighed_fits))]
pub fn weighed(u: u128, ahead: u64, v: u128, behind: u64) -> u128
    requires first { u ≤ 2 ^ 90 }
    requires second { v ≤ 2 ^ 90 }
    requires ahead { ahead ≤ 2 ^ 29 }
    requires behind { behind ≤ 2 ^ 29 }
    ensures { result ≡ u * ahead + v * behind }
{
    u * ahead as u128 + v * behind as u128
}

/// From `low / area` rounded down to `high / area` rounded up.
pub fn rounded(low: u128, high: u128, area: u128) -> Part
    requires { 0 < area }
    ensures low { result.lo ≡ low / area }
    ensures high { result.hi ≡ div_ceil high area }
{
    Part {
        lo: low / area,
        hi: high.div_ceil(area),
    }
}
