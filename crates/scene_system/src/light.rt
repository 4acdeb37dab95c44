//! The light that lamps give at a place.
ghost use Rattle.std.specs.Prelude.{◌≡◌, ◌^◌, ◌≤◌, true, length};
ghost use Rattle.fx_base.specs.Units.{natural};
ghost use Rattle.room_layout.specs.Accepted.{IsLampIn};
ghost use Rattle.room_layout.specs.Place.{place_of};
ghost use Rattle.room_layout.specs.Positions.{IsInReach};
ghost use Rattle.sight_index.specs.Vantages.{IsVantage};
ghost use Rattle.interval_system.specs.System.{IsDirectLight};
ghost use Rattle.direct_light.specs.Lamps.{lamp_points};
ghost use Rattle.sight_line.specs.Sight.{is_clear};
ghost use Rattle.scene_system.specs.Parts.{IsDirectFor};
ghost use Rattle.scene_system.specs.Positions.{IsLampLight, IsShare};
ghost use Rattle.scene_system.specs.Sight.{AreVantagesOf};
ghost use Rattle.scene_system.specs.Sources.{AreSources};

use crate::sight::is_clear;
use crate::sources::Sources;
use direct_light::{direct, even_light, together};
use fx_base::Span;
use room_layout::{Face, Lamp, Point, Shine, in_front, position_of};
use sight_index::Vantage;

/// The light of a lamp's point `from` on a plane with this face at a point, where no box stands between.
fn open_light(sources: &Sources, lamp: &Lamp, from: Point, at: Point, face: Face) -> Span
    requires sources { AreSources sources.now }
    requires lamp { IsLampIn sources.now.room.now.size (length sources.now.room.now.files) lamp.now }
    requires from { IsInReach from }
    requires at { IsInReach at }
    ensures light { IsShare sources.now.photos.now lamp.now (place_of from) (place_of at) face true result }
{
    match lamp.shine {
        Shine::Even(candela) => even_light(candela, lamp, from, at, face, true),
        Shine::File(number) => {
            let file = number as usize;
            direct(
                sources.table,
                &sources.photos[file],
                lamp,
                from,
                at,
                face,
                true,
            )
        }
    }
}

/// The light of a lamp's point `from` on a plane with this face at a point: none where it isn't in front of the plane, or a box
/// stands between.
fn light_of_point(sources: &Sources, lamp: &Lamp, from: &Vantage, at: &Vantage, face: Face) -> Span
    requires sources { AreSources sources.now }
    requires lamp { IsLampIn sources.now.room.now.size (length sources.now.room.now.files) lamp.now }
    requires from { IsVantage sources.now.index.now from.now }
    requires at { IsVantage sources.now.index.now at.now }
    ensures light { IsShare sources.now.photos.now lamp.now (place_of from.now.at) (place_of at.now.at) face (is_clear sources.now.room.now (place_of from.now.at) (place_of at.now.at)) result }
{
    let here = position_of(at.at);
    let there = position_of(from.at);
    if in_front(face, &here, &there) == 0 {
        return Span::whole(0);
    }
    if !is_clear(sources.room, sources.index, from, at) {
        return Span::whole(0);
    }
    open_light(sources, lamp, from.at, at.at, face)
}

/// The light of all points of a lamp on a plane with this face at a point.
fn light_of_lamp(
    sources: &Sources,
    lamp: &Lamp,
    points: &[Vantage],
    at: &Vantage,
    face: Face,
) -> Span
    requires sources { AreSources sources.now }
    requires lamp { IsLampIn sources.now.room.now.size (length sources.now.room.now.files) lamp.now }
    requires points { AreVantagesOf sources.now.index.now (lamp_points lamp.now) points.now }
    requires at { IsVantage sources.now.index.now at.now }
    ensures light { IsLampLight sources.now.photos.now sources.now.room.now (place_of at.now.at) face lamp.now result }
    ensures high { natural result.hi ≤ 2 ^ 82 }
{
    let mut light = Span::whole(0);
    for i in 0..points.len() {
        let share = light_of_point(sources, lamp, &points[i], at, face);
        light = together(light, share);
    }
    light
}

/// The light of all lamps on a plane with this face at a point, in the order of the lamps.
pub fn light_at(sources: &Sources, at: &Vantage, face: Face) -> Span
    requires sources { AreSources sources.now }
    requires at { IsVantage sources.now.index.now at.now }
    ensures direct { IsDirectFor sources.now.photos.now sources.now.room.now (place_of at.now.at) face result }
    ensures light { IsDirectLight result }
{
    let mut light = Span::whole(0);
    let lamps = sources.room.lamps.as_slice();
    for k in 0..sources.lamps.len() {
        let points = sources.lamps[k].points.as_slice();
        let one = light_of_lamp(sources, &lamps[k], points, at, face);
        light = together(light, one);
    }
    // its ends are in order
    let _lower = light.lo();
    light
}
