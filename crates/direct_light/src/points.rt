//! The points that stand for the rectangle from which a lamp shines.
ghost use Rattle.std.specs.Prelude.{◌≡◌, ◌<◌, pos, All, IfOk};
ghost use Rattle.room_layout.specs.Place.{point_of};
ghost use Rattle.room_layout.specs.Positions.{IsCoordinate, IsInReach};
ghost use Rattle.direct_light.specs.Lamps.{IsLamp, IsPart, lamp_place, lamp_points, middle_round, part_count};

use fx_base::Memory;
use room_layout::{Lamp, Point};
use std::alloc::Global;

/// The middle, in half mm, of part `i` of an edge of `size` mm round `at`, that is cut into equal parts, rounded down.
#[tactic(auto, using(crate::proofs::PointLists::middles))]
fn coordinate(at: u32, size: u32, parts: u32, i: u32) -> i32
    requires { IsPart at size parts i }
    ensures middle { result ≡ pos (middle_round at size parts i) }
    ensures within { IsCoordinate result }
{
    (2 * at + (2 * i + 1) * size / parts - size) as i32
}

/// Point `k` of a lamp, counted row by row along the first axis across its aim.
fn lamp_point(lamp: &Lamp, k: u32) -> Point
    requires lamp { IsLamp lamp.now }
    requires part { k < part_count lamp.now }
    ensures point { result ≡ point_of (lamp_place lamp.now k) }
    ensures within { IsInReach result }
{
    let extent = lamp.aim.across(lamp.size_x, lamp.size_y, 0);
    let parts = lamp.aim.across(lamp.split_x, lamp.split_y, 1);
    let part = lamp.aim.across(k % lamp.split_x, k / lamp.split_x, 0);
    Point {
        x: coordinate(lamp.at.x, extent.x, parts.x, part.x),
        y: coordinate(lamp.at.y, extent.y, parts.y, part.y),
        z: coordinate(lamp.at.z, extent.z, parts.z, part.z),
    }
}

/// The points of a lamp, in half mm, row by row along the first axis across its aim. Its rectangle lies across the aim. It is cut into
/// equal parts along the axes of the room, whatever its turn, and a point stands in the middle of each, rounded down to half a
/// millimetre.
pub fn lamp_points(alloc: Global, lamp: &Lamp) -> Result<Vec<Point>, Memory>
    requires lamp { IsLamp lamp.now }
    ensures points { IfOk result (λ v. v.items ≡ lamp_points lamp.now) }
    ensures within { IfOk result (λ v. All IsInReach v.items) }
{
    let mut points = Vec::new(alloc);
    for k in 0..lamp.split_x * lamp.split_y {
        points.push(lamp_point(lamp, k))?;
    }
    Ok(points)
}
