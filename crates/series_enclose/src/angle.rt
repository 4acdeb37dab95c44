//! Sines and cosines as spans.
ghost use Rattle.std.specs.Prelude.{◌≤ℤ◌, pos};
ghost use Rattle.fx_base.specs.Units.{natural};
ghost use Rattle.series_enclose.specs.Enclosed.{IsSine, IsCosine};

use crate::arc::{cosine_bounds, sine_bounds};
use fx_base::{Micro, Span, tick_of};

/// The sine of an angle in millionths of a degree, from its series.
#[inline(always)]
pub fn sin_span(angle: Micro) -> Span
    requires low { pos 0 ≤ℤ angle.0 }
    requires high { angle.0 ≤ℤ pos 45000000 }
    ensures { IsSine (natural angle.0) result }
{
    let sine = sine_bounds(angle.0 as u64);
    Span::new(tick_of(sine.lo as u128), tick_of(sine.hi as u128))
}

/// The cosine of an angle in millionths of a degree, from its series.
#[inline(always)]
pub fn cos_span(angle: Micro) -> Span
    requires low { pos 0 ≤ℤ angle.0 }
    requires high { angle.0 ≤ℤ pos 45000000 }
    ensures { IsCosine (natural angle.0) result }
{
    let cosine = cosine_bounds(angle.0 as u64);
    Span::new(tick_of(cosine.lo as u128), tick_of(cosine.hi as u128))
}
