//! The light that marked lamps give at a point of a route, where `photos` are the tables of the room's files.
ghost use Rattle.std.specs.Prelude.{◌≡◌, ◌<◌, ◌≤◌, ◌^◌, All, IfOk, length};
ghost use Rattle.fx_base.specs.Units.{natural};
ghost use Rattle.room_layout.specs.Accepted.{IsAccepted, IsLampIn};
ghost use Rattle.room_layout.specs.Place.{place_of};
ghost use Rattle.room_layout.specs.Positions.{IsInReach};
ghost use Rattle.room_layout.specs.declared.geometry.Face.TheVariants.{Up};
ghost use Rattle.sight_line.specs.Sight.{is_clear};
ghost use Rattle.direct_light.specs.Found.{greatest_intensity, IsLampLight, IsShare};
ghost use Rattle.direct_light.specs.Lamps.{lamp_points};
ghost use Rattle.escape_route.specs.Found.{IsMarkedLight};

use direct_light::{direct, even_light, lamp_points, together};
use fx_base::{Memory, Span};
use photo_table::PhotoTable;
use room_layout::{Face, Lamp, Point, Room, Shine};
use series_enclose::TangentTable;
use sight_line::blocked_by;
use std::alloc::Global;

/// Whether no box of the room stands between two of its points.
fn is_clear(room: &Room, from: Point, to: Point) -> bool
    requires from { IsInReach from }
    requires to { IsInReach to }
    ensures { result ≡ is_clear room.now (place_of from) (place_of to) }
{
    blocked_by(room.blocks.as_slice(), from, to).is_none()
}

/// The light of a lamp's point `from` on the floor at a point: none where it isn't above the floor, or a box stands between.
fn light_of_point(
    table: &TangentTable,
    room: &Room,
    photos: &[PhotoTable],
    lamp: &Lamp,
    from: Point,
    at: Point,
) -> Span
    requires accepted { IsAccepted room.now }
    requires photos { length photos.now ≡ length room.now.files }
    requires lamp { IsLampIn room.now.size (length room.now.files) lamp.now }
    requires from { IsInReach from }
    requires at { IsInReach at }
    ensures light { IsShare photos.now greatest_intensity lamp.now (place_of from) (place_of at) Up (is_clear room.now (place_of from) (place_of at)) result }
{
    let clear = is_clear(room, from, at);
    match lamp.shine {
        Shine::Even(candela) => even_light(candela, lamp, from, at, Face::Up, clear),
        Shine::File(number) => {
            let file = number as usize;
            direct(table, &photos[file], lamp, from, at, Face::Up, clear)
        }
    }
}

/// The light of all points of a lamp on the floor at a point.
fn light_of_points(
    table: &TangentTable,
    room: &Room,
    photos: &[PhotoTable],
    lamp: &Lamp,
    points: &[Point],
    at: Point,
) -> Span
    requires accepted { IsAccepted room.now }
    requires photos { length photos.now ≡ length room.now.files }
    requires lamp { IsLampIn room.now.size (length room.now.files) lamp.now }
    requires points { points.now ≡ lamp_points lamp.now }
    requires within { All IsInReach points.now }
    requires at { IsInReach at }
    ensures light { IsLampLight photos.now greatest_intensity room.now (place_of at) Up lamp.now result }
    ensures high { natural result.hi ≤ 2 ^ 82 }
{
    let mut light = Span::whole(0);
    for i in 0..points.len() {
        let share = light_of_point(table, room, photos, lamp, points[i], at);
        light = together(light, share);
    }
    light
}

/// The light of a lamp on the floor at a point.
fn light_of_lamp(
    alloc: Global,
    table: &TangentTable,
    room: &Room,
    photos: &[PhotoTable],
    lamp: &Lamp,
    at: Point,
) -> Result<Span, Memory>
    requires accepted { IsAccepted room.now }
    requires photos { length photos.now ≡ length room.now.files }
    requires lamp { IsLampIn room.now.size (length room.now.files) lamp.now }
    requires at { IsInReach at }
    ensures light { IfOk result (λ d. IsLampLight photos.now greatest_intensity room.now (place_of at) Up lamp.now d) }
    ensures high { IfOk result (λ d. natural d.hi ≤ 2 ^ 82) }
{
    let points = lamp_points(alloc, lamp)?;
    let light = light_of_points(table, room, photos, lamp, points.as_slice(), at);
    Ok(light)
}

/// The light of the lamps with these numbers on the floor at a point.
pub fn light_at(
    alloc: Global,
    table: &TangentTable,
    room: &Room,
    photos: &[PhotoTable],
    lamps: &[u32],
    at: Point,
) -> Result<Span, Memory>
    requires accepted { IsAccepted room.now }
    requires photos { length photos.now ≡ length room.now.files }
    requires marked { All (λ k. k < length room.now.lamps) lamps.now }
    requires few { length lamps.now ≤ 16 }
    requires at { IsInReach at }
    ensures light { IfOk result (λ d. IsMarkedLight photos.now room.now lamps.now (place_of at) d) }
{
    let mut light = Span::whole(0);
    for i in 0..lamps.len() {
        let lamp = &room.lamps.as_slice()[lamps[i] as usize];
        let one = light_of_lamp(alloc, table, room, photos, lamp, at)?;
        light = together(light, one);
    }
    // its ends are in order
    let _lower = light.lo();
    Ok(light)
}
