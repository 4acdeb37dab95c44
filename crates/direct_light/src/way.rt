//! The way of light from a lamp's point to a plane.
ghost use Rattle.std.specs.Prelude.{MatchOption};
ghost use Rattle.room_layout.specs.Place.{place_of};
ghost use Rattle.room_layout.specs.Positions.{IsInReach};
ghost use Rattle.direct_light.specs.Ways.{IsDark, IsWay};

use room_layout::{Face, Point, in_front, position_of, squared_distance};

/// How far a lamp's point is in front of a plane, and the square of its distance, in half mm.
#[derive(Clone, Copy)]
pub struct Way {
    pub ahead: u64,
    pub squared: u64,
}

/// The way from a lamp's point to the plane at a place that faces so. There is none where the point isn't in front of the plane, or
/// something stands between.
pub fn way_to(from: Point, at: Point, face: Face, clear: bool) -> Option<Way>
    requires from { IsInReach from }
    requires at { IsInReach at }
    ensures { MatchOption result (IsDark (place_of from) (place_of at) face clear) (λ w. IsWay (place_of from) (place_of at) face clear w) }
{
    if !clear {
        return None;
    }
    let here = position_of(at);
    let there = position_of(from);
    let ahead = in_front(face, &here, &there);
    if ahead == 0 {
        return None;
    }
    let squared = squared_distance(&here, &there);
    Some(Way { ahead, squared })
}
