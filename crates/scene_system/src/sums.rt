//! The average of the values at task points.
ghost use Rattle.std.specs.Prelude.{◌≡◌, ◌^◌, ◌<◌, ◌≤◌, pos, All, length};
ghost use Rattle.fx_base.specs.Units.{natural};
ghost use Rattle.scene_system.specs.Sums.{high_total, low_total, open_total, average_high, average_low, IsValue};

use crate::value::PointValue;
use fx_base::{Span, magnitude, tick_of};

/// Sums over the points that no box covers, in ticks, and how many these are.
#[derive(Clone, Copy)]
struct Totals {
    low: u128,
    high: u128,
    count: u64,
}

fn totals_of(values: &[PointValue]) -> Totals
    requires few { length values.now ≤ 1024 }
    requires values { All IsValue values.now }
    ensures low { result.low ≡ low_total values.now }
    ensures high { result.high ≡ high_total values.now }
    ensures count { result.count ≡ open_total values.now }
    ensures order { result.low ≤ result.high }
    ensures most { result.high ≤ 2 ^ 112 }
{
    let mut totals = Totals {
        low: 0,
        high: 0,
        count: 0,
    };
    for value in values {
        if !value.covered {
            totals.low += magnitude(value.value.lo());
            totals.high += magnitude(value.value.hi());
            totals.count += 1;
        }
    }
    totals
}

/// The average over the points that no box covers, rounded outward to a tick.
pub fn average(values: &[PointValue]) -> Span
    requires some { 0 < open_total values.now }
    requires few { length values.now ≤ 1024 }
    requires values { All IsValue values.now }
    ensures low { result.lo ≡ pos (average_low values.now) }
    ensures high { result.hi ≡ pos (average_high values.now) }
    ensures order { average_low values.now ≤ average_high values.now }
    ensures most { natural result.hi ≤ 2 ^ 113 }
{
    let totals = totals_of(values);
    let count = totals.count as u128;
    Span::new(
        tick_of(totals.low / count),
        tick_of(totals.high.div_ceil(count)),
    )
}
