//! The uniformity of the values at task points.
ghost use Rattle.std.specs.Prelude.{◌≡◌, ℕ, ◌*◌, ◌^◌, ◌<◌, ◌≤◌, pos, min, All, length, IfSome, IfNone};
ghost use Rattle.std.specs.Int.{div_ceil};
ghost use Rattle.scene_system.specs.Sums.{open_total, average_high, average_low, lower_end, upper_end, IsValue};
ghost use Rattle.grid_report.specs.Uniformities.{lesser_open, IsLeast, IsUniformity};

use crate::ratio::Ratio;
use fx_base::{Span, magnitude};
use scene_system::{PointValue, average};

/// 2^102 ticks, which no end of a value is above.
const GREATEST_END: u128 = 5_070_602_400_912_917_605_986_812_821_504;

/// The least lower and the least upper end over the points that no box covers, in ticks.
#[derive(Clone, Copy)]
struct LeastEnds {
    low: u128,
    high: u128,
}

/// The lesser ends, with one more point.
fn with_point(least: LeastEnds, point: &PointValue) -> LeastEnds
    requires { IsValue point.now }
    ensures low { result.low ≡ lesser_open point.now.covered least.low (lower_end point.now) }
    ensures high { result.high ≡ lesser_open point.now.covered least.high (upper_end point.now) }
{
    if point.covered {
        return least;
    }
    LeastEnds {
        low: least.low.min(magnitude(point.value.lo())),
        high: least.high.min(magnitude(point.value.hi())),
    }
}

fn least_ends(values: &[PointValue]) -> LeastEnds
    requires some { 0 < open_total values.now }
    requires values { All IsValue values.now }
    ensures low { IsLeast lower_end values.now result.low }
    ensures high { IsLeast upper_end values.now result.high }
    ensures order { result.low ≤ result.high }
    ensures low_most { result.low ≤ 2 ^ 102 }
    ensures high_most { result.high ≤ 2 ^ 102 }
{
    let mut least = LeastEnds {
        low: GREATEST_END,
        high: GREATEST_END,
    };
    for point in values {
        least = with_point(least, point);
    }
    least
}

/// The least value by the average, in millionths, rounded outward and at most 1,000,000; none where the average's lower end is 0.
pub(crate) fn uniformity_by(values: &[PointValue], mean: Span) -> Option<Ratio>
    requires some { 0 < open_total values.now }
    requires values { All IsValue values.now }
    requires low { mean.lo ≡ pos (average_low values.now) }
    requires high { mean.hi ≡ pos (average_high values.now) }
    requires order { average_low values.now ≤ average_high values.now }
    ensures none { IfNone result (average_low values.now ≡ 0) }
    ensures some { IfSome result (λ u. IsUniformity values.now u.lo u.hi) }
    ensures order { IfSome result (λ u. u.lo ≤ u.hi) }
    ensures most { IfSome result (λ u. u.hi ≤ 1000000) }
{
    let below = magnitude(mean.lo());
    let above = magnitude(mean.hi());
    if below == 0 {
        return None;
    }
    let least = least_ends(values);
    let lo = (least.low * 1_000_000 / above).min(1_000_000);
    let hi = (least.high * 1_000_000).div_ceil(below).min(1_000_000);
    Some(Ratio {
        lo: lo as u32,
        hi: hi as u32,
    })
}

/// The least value by the average, in millionths, rounded outward and at most 1,000,000; none where the average's lower end is 0.
pub fn uniformity(values: &[PointValue]) -> Option<Ratio>
    requires some { 0 < open_total values.now }
    requires few { length values.now ≤ 1024 }
    requires values { All IsValue values.now }
    ensures none { IfNone result (average_low values.now ≡ 0) }
    ensures some { IfSome result (λ u. IsUniformity values.now u.lo u.hi) }
{
    uniformity_by(values, average(values))
}
