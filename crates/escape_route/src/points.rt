//! The points of a route.
ghost use Rattle.std.specs.Prelude.{◌≡◌, ◌<◌, ◌≤◌, pos, All, IfErr, IfOk, IsTrue, length, MatchOption, ◌↔◌};
ghost use Rattle.room_layout.specs.Place.{point_of};
ghost use Rattle.room_layout.specs.Positions.{IsCoordinate, IsInReach};
ghost use Rattle.escape_route.specs.Routes.{point_count, route_length, route_place, towards, AreRoutePoints, IsFirstMissing, IsLineIn, IsRouteCause, IsRouteIn, IsWithinReach};

use crate::route::{Route, RouteFault};
use fx_base::Memory;
use room_layout::{Point, Room, Size};
use std::alloc::Global;

/// How far two points of a route lie apart, in mm.
const STEP: u32 = 500;

/// Whether the line lies along an axis, and its ends in a room of this size.
fn is_line_in(size: &Size, route: &Route) -> bool
    ensures { IsTrue result ↔ IsLineIn size.now route.now }
{
    let along = route.x0 == route.x1 || route.y0 == route.y1;
    let x_in = route.x0 <= size.x && route.x1 <= size.x;
    let y_in = route.y0 <= size.y && route.y1 <= size.y;
    along && x_in && y_in
}

/// The first of these numbers that isn't below `count`.
fn first_missing(lamps: &[u32], count: usize) -> Option<u32>
    ensures { MatchOption result (All (λ k. k < count) lamps.now) (λ k. IsFirstMissing count lamps.now k) }
{
    for k in lamps {
        if *k as usize >= count {
            return Some(*k);
        }
    }
    None
}

/// The coordinate, in half mm, that lies so many mm from one end towards the other, and no further than that.
fn towards(from: u32, to: u32, along: u32) -> i32
    requires from { from ≤ 100000 }
    requires to { to ≤ 100000 }
    ensures at { result ≡ pos (towards from to along) }
    ensures within { IsCoordinate result }
{
    let step = along.min(from.abs_diff(to));
    let at = if from <= to { from + step } else { from - step };
    (2 * at) as i32
}

/// Point `k` of a route.
fn point_at(route: &Route, k: u32) -> Point
    requires route { IsWithinReach route.now }
    requires few { k ≤ 400 }
    ensures point { result ≡ point_of (route_place route.now k) }
    ensures within { IsInReach result }
{
    let along = k * STEP;
    Point {
        x: towards(route.x0, route.x1, along),
        y: towards(route.y0, route.y1, along),
        z: 0,
    }
}

/// How many points a route has.
fn point_count(route: &Route) -> u32
    requires route { IsWithinReach route.now }
    ensures count { result ≡ point_count route.now }
    ensures few { result ≤ 401 }
{
    let length = route.x0.abs_diff(route.x1) + route.y0.abs_diff(route.y1);
    length.div_ceil(STEP) + 1
}

/// All points of a route, in their order.
fn all_points(alloc: Global, route: &Route) -> Result<Vec<Point>, Memory>
    requires route { IsWithinReach route.now }
    ensures points { IfOk result (λ v. AreRoutePoints route.now v.items) }
    ensures within { IfOk result (λ v. All IsInReach v.items) }
{
    let mut points = Vec::new(alloc);
    for k in 0..point_count(route) {
        points.push(point_at(route, k))?;
    }
    Ok(points)
}

/// The points of a route through a room, on the floor: every 500 mm from its first end on, and its second end. `lamps` are the numbers
/// of the marked lamps. Line exactly where the line lies along neither axis, or an end of it outside of the room; Lamp exactly for
/// the first number that isn't below the number of the room's lamps.
pub fn route_points(
    alloc: Global,
    room: &Room,
    route: &Route,
    lamps: &[u32],
) -> Result<Vec<Point>, RouteFault>
    requires route { IsWithinReach route.now }
    ensures points { IfOk result (λ v. AreRoutePoints route.now v.items) }
    ensures within { IfOk result (λ v. All IsInReach v.items) }
    ensures served { IfOk result (λ _. IsRouteIn room.now route.now lamps.now) }
    ensures refused { IfErr result (λ fault. IsRouteCause room.now route.now lamps.now fault) }
{
    if !is_line_in(&room.size, route) {
        return Err(RouteFault::Line);
    }
    if let Some(k) = first_missing(lamps, room.lamps.len()) {
        return Err(RouteFault::Lamp(k));
    }
    let points = all_points(alloc, route)?;
    Ok(points)
}
