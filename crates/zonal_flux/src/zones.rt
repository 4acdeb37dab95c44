//! The constants of the zones.
ghost use Rattle.std.specs.Prelude.{◌≡◌, ◌-◌, ◌<◌, ◌≤◌, ◌≤ℤ◌, pos};
ghost use Rattle.fx_base.specs.Units.{natural};
ghost use Rattle.zonal_flux.specs.Steps.{IsCosineAt, IsTwoPi};
ghost use Rattle.zonal_flux.specs.Zones.{IsConstant};

use fx_base::{MICROS_IN_DEGREE, Span, magnitude, tick_of};
use series_enclose::{TangentTable, pi_span};

/// How many zones lie below the level plane, and as many above it.
pub const ZONES_BELOW: u32 = 18;

/// How many zones there are in all.
const ZONES: u32 = 2 * ZONES_BELOW;

/// How many degrees of gamma a zone has.
const DEGREES_IN_ZONE: u32 = 5;

/// How many rows of the table a degree has.
const ROWS_IN_DEGREE: u32 = MICROS_IN_DEGREE / TangentTable::STEP;

/// The cosine of so many degrees. The table ends at 45, beyond which it is the sine of what is left to 90.
fn cosine_at(table: &TangentTable, degrees: u32) -> Span
    requires { degrees ≤ 90 }
    ensures { IsCosineAt degrees result }
{
    if degrees <= 45 {
        table.cos((degrees * ROWS_IN_DEGREE) as usize)
    } else {
        table.sin(((90 - degrees) * ROWS_IN_DEGREE) as usize)
    }
}

/// Twice pi.
fn two_pi() -> Span
    ensures { IsTwoPi result }
{
    let pi = pi_span();
    let lo = 2 * magnitude(pi.lo());
    let hi = 2 * magnitude(pi.hi());
    Span::new(tick_of(lo), tick_of(hi))
}

/// How far `a` lies above `b`, with 0 in place of an end below 0.
fn difference(a: Span, b: Span) -> Span
    requires low { pos 0 ≤ℤ a.lo }
    requires other_low { pos 0 ≤ℤ b.lo }
    ensures low { result.lo ≡ pos (natural a.lo - natural b.hi) }
    ensures high { result.hi ≡ pos (natural a.hi - natural b.lo) }
    ensures in_order { result.lo ≤ℤ result.hi }
{
    let lo = magnitude(a.lo()).saturating_sub(magnitude(b.hi()));
    let hi = magnitude(a.hi()).saturating_sub(magnitude(b.lo()));
    Span::new(tick_of(lo), tick_of(hi))
}

/// The solid angle of zone k, counted from straight down, in ticks of a steradian: the zones 18 to 35 lie above the level plane as
/// the zones 17 to 0 lie below it.
pub fn zone_constant(table: &TangentTable, k: u32) -> Span
    requires { k < 36 }
    ensures constant { IsConstant k result }
{
    let below = if k < ZONES_BELOW { k } else { ZONES - 1 - k };
    let inner = cosine_at(table, DEGREES_IN_ZONE * below);
    let outer = cosine_at(table, DEGREES_IN_ZONE * below + DEGREES_IN_ZONE);
    two_pi().mul(difference(inner, outer))
}
