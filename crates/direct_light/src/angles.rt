//! The angles at which light leaves a lamp's point.
ghost use Rattle.std.specs.Prelude.{◌<◌};
ghost use Rattle.room_layout.specs.Place.{place_of, squared_distance};
ghost use Rattle.room_layout.specs.Positions.{IsInReach};
ghost use Rattle.direct_light.specs.Lamps.{IsLamp};
ghost use Rattle.direct_light.specs.Ways.{AreAngles};

use crate::step::{framed, step_from};
use angle_bracket::{gamma, turn_angle};
use fx_base::Bracket;
use room_layout::{Lamp, Point};
use series_enclose::TangentTable;

/// C round the lamp's aim from its half-plane C 0, and gamma from the aim.
#[derive(Clone, Copy)]
pub struct Angles {
    pub c: Bracket,
    pub gamma: Bracket,
}

/// The angles at which light leaves a lamp's point for a place apart from it.
pub fn angles_towards(table: &TangentTable, lamp: &Lamp, from: Point, at: Point) -> Angles
    requires lamp { IsLamp lamp.now }
    requires from { IsInReach from }
    requires at { IsInReach at }
    requires apart { 0 < squared_distance (place_of at) (place_of from) }
    ensures { AreAngles lamp.now (place_of from) (place_of at) result }
{
    let step = framed(lamp.aim, step_from(from, at));
    Angles {
        c: turn_angle(table, step.x, step.y, lamp.turn),
        gamma: gamma(table, step.x, step.y, step.z),
    }
}
