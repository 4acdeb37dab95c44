//! The step from a lamp's point to a place, along the axes of the room and in the frame of the lamp.
ghost use Rattle.std.specs.Prelude.{◌≡◌, ◌≤◌, unsigned_abs};
ghost use Rattle.room_layout.specs.Place.{place_of};
ghost use Rattle.room_layout.specs.Positions.{IsInReach};
ghost use Rattle.direct_light.specs.Directions.{framed, step_from};
ghost use Rattle.direct_light.specs.Ways.{step_of};

use room_layout::{Face, Point};

/// A step in half mm.
#[derive(Clone, Copy)]
pub struct Step {
    pub x: i32,
    pub y: i32,
    pub z: i32,
}

/// The step from a lamp's point to a place, along the axes of the room.
#[tactic(auto, using(crate::proofs::Steps::steps), unfolding(crate::specs::Directions::step_from))]
pub fn step_from(from: Point, at: Point) -> Step
    requires from { IsInReach from }
    requires at { IsInReach at }
    ensures x { result.x ≡ (step_from (place_of from) (place_of at)).x }
    ensures y { result.y ≡ (step_from (place_of from) (place_of at)).y }
    ensures z { result.z ≡ (step_from (place_of from) (place_of at)).z }
    ensures x_small { unsigned_abs result.x ≤ 200000 }
    ensures y_small { unsigned_abs result.y ≤ 200000 }
    ensures z_small { unsigned_abs result.z ≤ 200000 }
{
    Step {
        x: at.x - from.x,
        y: at.y - from.y,
        z: at.z - from.z,
    }
}

/// A step in the frame of a lamp with this aim: x towards its half-plane C 0, y to where C grows, and z against the aim.
#[tactic(auto, using(crate::proofs::Frames::turns), unfolding(crate::specs::Directions::framed))]
pub fn framed(aim: Face, step: Step) -> Step
    requires x_small { unsigned_abs step.x ≤ 200000 }
    requires y_small { unsigned_abs step.y ≤ 200000 }
    requires z_small { unsigned_abs step.z ≤ 200000 }
    ensures x { result.x ≡ (framed aim (step_of step)).x }
    ensures y { result.y ≡ (framed aim (step_of step)).y }
    ensures z { result.z ≡ (framed aim (step_of step)).z }
    ensures x_small { unsigned_abs result.x ≤ 200000 }
    ensures y_small { unsigned_abs result.y ≤ 200000 }
    ensures z_small { unsigned_abs result.z ≤ 200000 }
{
    match aim {
        Face::Down => step,
        Face::Up => Step {
            x: step.x,
            y: -step.y,
            z: -step.z,
        },
        Face::East => Step {
            x: step.y,
            y: -step.z,
            z: -step.x,
        },
        Face::West => Step {
            x: step.y,
            y: step.z,
            z: step.x,
        },
        Face::North => Step {
            x: step.x,
            y: step.z,
            z: -step.y,
        },
        Face::South => Step {
            x: step.x,
            y: -step.z,
            z: step.y,
        },
    }
}
