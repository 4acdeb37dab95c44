//! The values at the task points of a scene.
ghost use Rattle.std.specs.Prelude.{◌≡◌, ◌+◌, ◌*◌, ◌^◌, ◌<◌, ◌≤◌, ◌≤ℤ◌, ℕ, pos, true, false, All, IfOk, length};
ghost use Rattle.fx_base.specs.Ends.{Ends};
ghost use Rattle.fx_base.specs.Units.{natural};
ghost use Rattle.interval_system.specs.Sent.{sent_high, sent_low};
ghost use Rattle.interval_system.specs.System.{no_light, IsDirectLight};
ghost use Rattle.radiosity_solve.specs.Bounds.{IsEnd, tick_at};
ghost use Rattle.scene_system.specs.Assembled.{numbers, open_points, IsWellFormed};
ghost use Rattle.scene_system.specs.PointValues.{AreValuesOf, IsValueOf};
ghost use Rattle.scene_system.specs.Sums.{open_total, IsValue};

use crate::scene::Scene;
use crate::value::PointValue;
use fx_base::{Memory, Span, Tick, magnitude, tick_of};
use interval_system::Row;
use radiosity_solve::Bounds;
use std::alloc::Global;

/// How many ticks the ends of direct light are.
#[tactic(auto, using(radiosity_solve::proofs::Steps::light_small))]
fn size_of_light(end: Tick) -> u128
    requires low { pos 0 ≤ℤ end.0 }
    requires most { end.0 ≤ℤ pos (2 ^ 82) }
    ensures size { result ≡ natural end.0 }
    ensures most { result ≤ 2 ^ 82 }
{
    magnitude(end)
}

/// The value at a point that isn't covered: its direct light and what the patches send.
fn open_value(row: &Row, direct: &Span, lower: &[Tick], upper: &[Tick]) -> PointValue
    requires lower_size { length lower.now ≡ length row.now }
    requires upper_size { length upper.now ≡ length row.now }
    requires lower_ends { All IsEnd lower.now }
    requires upper_ends { All IsEnd upper.now }
    requires in_order { (j : ℕ) → j < length row.now → tick_at lower.now j ≤ tick_at upper.now j }
    requires direct { IsDirectLight direct.now }
    ensures uncovered { result.covered ≡ false }
    ensures low { result.value.lo ≡ pos (natural direct.now.lo + sent_low row.now lower.now (length row.now)) }
    ensures high { result.value.hi ≡ pos (natural direct.now.hi + sent_high row.now upper.now (length row.now)) }
    ensures value { IsValue result }
{
    let _size = row.len();
    let low = size_of_light(direct.lo()) + row.sent_below(lower);
    let high = size_of_light(direct.hi()) + row.sent_above(upper);
    PointValue {
        covered: false,
        value: Span::new(tick_of(low), tick_of(high)),
    }
}

/// The value at a point, by its number.
fn value_at(scene: &Scene, bounds: &Bounds, g: usize) -> PointValue
    requires formed { IsWellFormed (numbers scene.now) }
    requires lower_size { length bounds.now.lower.items ≡ length scene.now.patches.items }
    requires upper_size { length bounds.now.upper.items ≡ length scene.now.patches.items }
    requires lower_ends { All IsEnd bounds.now.lower.items }
    requires upper_ends { All IsEnd bounds.now.upper.items }
    requires in_order { (i : ℕ) → i < length scene.now.patches.items → tick_at bounds.now.lower.items i ≤ tick_at bounds.now.upper.items i }
    requires inside { g < length scene.now.points.items }
    ensures value { IsValueOf (numbers scene.now) bounds.now.lower.items bounds.now.upper.items g result }
    ensures fits { IsValue result }
{
    if scene.points[g].covered {
        return PointValue {
            covered: true,
            value: Span::whole(0),
        };
    }
    open_value(
        &scene.point_rows[g],
        &scene.point_direct[g],
        bounds.lower.as_slice(),
        bounds.upper.as_slice(),
    )
}

/// The illuminance at each task point: the light of the lamps there and what the patches send, with each product of a weight and the
/// light of its patch rounded outward. Covered points have the value 0.
pub fn points(alloc: Global, scene: &Scene, bounds: &Bounds) -> Result<Vec<PointValue>, Memory>
    requires formed { IsWellFormed (numbers scene.now) }
    requires lower_size { length bounds.now.lower.items ≡ length scene.now.patches.items }
    requires upper_size { length bounds.now.upper.items ≡ length scene.now.patches.items }
    requires lower_ends { All IsEnd bounds.now.lower.items }
    requires upper_ends { All IsEnd bounds.now.upper.items }
    requires in_order { (i : ℕ) → i < length scene.now.patches.items → tick_at bounds.now.lower.items i ≤ tick_at bounds.now.upper.items i }
    ensures values { IfOk result (λ v. AreValuesOf (numbers scene.now) bounds.now.lower.items bounds.now.upper.items v.items) }
    ensures each { IfOk result (λ v. All IsValue v.items) }
    ensures open { IfOk result (λ v. open_total v.items ≡ open_points scene.now.points.items) }
{
    let mut values = Vec::new(alloc);
    for g in 0..scene.points.len() {
        values.push(value_at(scene, bounds, g))?;
    }
    Ok(values)
}
