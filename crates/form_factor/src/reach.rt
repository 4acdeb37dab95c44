//! The coefficient of a patch at another patch or at a point.
ghost use Rattle.std.specs.Prelude.{ℕ, ◌≤◌};
ghost use Rattle.fx_base.specs.Interval.{LiesIn, Meets};
ghost use Rattle.room_layout.specs.Place.{place_of};
ghost use Rattle.room_layout.specs.declared.geometry.Face.TheVariants.{Up};
ghost use Rattle.patch_mesh.specs.Bounds.{IsPatchIn, IsPointIn, largest_room};
ghost use Rattle.form_factor.specs.Coefficient.{coefficient, loose_coefficient};
ghost use Rattle.fx_base.specs.Units.{of_weight};
ghost use Rattle.form_factor.specs.Weights.{IsCoefficient};

use crate::position::fronts;
use crate::weigh::weigh;
use fx_base::Weight;
use patch_mesh::Patch;
use room_layout::{Face, Point, position_of, squared_distance};

/// The coefficient of a patch at a point with this face.
fn factor_at(at: Point, face: Face, patch: &Patch, clear: bool) -> Weight
    requires at { IsPointIn largest_room at }
    requires patch { IsPatchIn largest_room patch.now }
    ensures { IsCoefficient (place_of at) face patch.now clear result }
{
    let here = position_of(at);
    let there = position_of(patch.centre);
    let front = fronts(&here, face, &there, patch.face);
    if front == 0 {
        return Weight::NONE;
    }
    if !clear {
        return Weight::NONE;
    }
    let squared = squared_distance(&here, &there);
    weigh(patch.reflect, front, squared, 4 * patch.area)
}

/// What share of the illuminance of patch `b` reaches patch `a`: `reflect / 1000 * (d e / R) * A / (pi R + A)`, the form factor
/// between centres times the reflectance of `b`, with d and e the distances of each centre in front of the other's plane, R the
/// square of the distance between the centres and A the area of `b`. It is 0 where d or e isn't positive, or where the way
/// between the centres isn't `clear`.
pub fn factor(a: &Patch, b: &Patch, clear: bool) -> Weight
    requires a { IsPatchIn largest_room a.now }
    requires b { IsPatchIn largest_room b.now }
    ensures meets { (n : ℕ) → Meets (of_weight result) (coefficient n (place_of a.now.centre) a.now.face b.now clear) }
    ensures close { (n : ℕ) → LiesIn (of_weight result) (loose_coefficient n (place_of a.now.centre) a.now.face b.now clear) }
    ensures weight { IsCoefficient (place_of a.now.centre) a.now.face b.now clear result }
{
    factor_at(a.centre, a.face, b, clear)
}

/// The same at a point that faces up.
pub fn point_factor(at: Point, b: &Patch, clear: bool) -> Weight
    requires at { IsPointIn largest_room at }
    requires b { IsPatchIn largest_room b.now }
    ensures meets { (n : ℕ) → Meets (of_weight result) (coefficient n (place_of at) Up b.now clear) }
    ensures close { (n : ℕ) → LiesIn (of_weight result) (loose_coefficient n (place_of at) Up b.now clear) }
    ensures weight { IsCoefficient (place_of at) Up b.now clear result }
{
    factor_at(at, Face::Up, b, clear)
}
