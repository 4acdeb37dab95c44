//! What is asked of an escape route through a room.
ghost use Rattle.std.specs.Prelude.{◌≡◌, ◌≢◌, ◌≤◌, ◌++◌, All, codes, IfOk, IfSome, length, List, Option, string_bytes, ℕ};
ghost use Rattle.decimal_text.specs.Lines.{line};
ghost use Rattle.escape_route.specs.Routes.{AreRoutePoints, IsRouteIn, IsWithinReach};
ghost use Rattle.photo_table.specs.Table.{Table};
ghost use Rattle.room_layout.specs.Accepted.{IsAccepted};
ghost use Rattle.room_layout.specs.Positions.{IsInReach};
ghost use Rattle.direct_light.specs.Tables.{AreTablesOf};
ghost use Rattle.lux_core.specs.Escapes.{route_fault_text, IsEscapeAnswer, IsRouteTold};
ghost use Rattle.lux_core.specs.Runs.{run};

use crate::lamp_files::read_lamp_files;
use crate::reply::{Halt, Reply};
use crate::spelling::status_of;
use escape_route::laws::route_text_is_right;
use escape_route::{Route, RouteFault, RouteLimits, extremes, route_points, route_report};
use fx_base::Memory;
use lux_io::Shelf;
use photo_table::PhotoTable;
use room_layout::{Point, Room};
use series_enclose::TangentTable;
use std::alloc::Global;

/// The line of a route that isn't served.
fn refused_route(alloc: Global, fault: RouteFault) -> Result<String, Memory>
    ensures want { IfOk result (λ _. fault ≢ RouteFault.Memory) }
    ensures text { IfOk result (λ s. string_bytes s ≡ line (codes "refused escape " ++ route_fault_text fault)) }
{
    match fault {
        RouteFault::Line => {
            let text = String::from_str(alloc, "refused escape 1 Line\n")?;
            Ok(text)
        }
        RouteFault::Lamp(k) => {
            let text = format!(in alloc; "refused escape 2 Lamp {k}\n")?;
            Ok(text)
        }
        RouteFault::Memory => Err(Memory),
    }
}

/// What is told of the points of a route, by the tables of the room's files.
fn reply_by_points(
    alloc: Global,
    room: &Room,
    photos: &[PhotoTable],
    route: &Route,
    limits: &RouteLimits,
    points: &[Point],
    marked: &[u32],
) -> Result<Reply, Memory>
    requires accepted { IsAccepted room.now }
    requires photos { length photos.now ≡ length room.now.files }
    requires points { AreRoutePoints route.now points.now }
    requires within { All IsInReach points.now }
    requires served { IsRouteIn room.now route.now marked.now }
    requires few { length marked.now ≤ 16 }
    ensures { (tables : List Table) → AreTablesOf photos.now tables → IfOk result (λ r. IsRouteTold route.now limits.now marked.now tables room.now r.status r.text.items) }
{
    route_text_is_right();
    let sines = TangentTable::build(alloc)?;
    let found = extremes(alloc, &sines, room, photos, points, marked)?;
    let report = route_report(alloc, points.len(), &found, limits)?;
    Ok(Reply::new(status_of(report.verdict), report.text))
}

/// What is told of a route that is served, with these points. The files of the room's lamps are read first, each once, in order.
fn reply_of_points<S: Shelf>(
    alloc: Global,
    room: &Room,
    route: &Route,
    limits: &RouteLimits,
    points: &[Point],
    marked: &[u32],
    shelf: &mut S,
) -> Result<Reply, Memory>
    requires accepted { IsAccepted room.now }
    requires points { AreRoutePoints route.now points.now }
    requires within { All IsInReach points.now }
    requires served { IsRouteIn room.now route.now marked.now }
    requires few { length marked.now ≤ 16 }
    ensures files { S.files shelf.new ≡ S.files shelf.old }
    ensures answered { IfOk result (λ r. (before : Option (List ℕ)) → IfSome before (λ bytes. S.taken shelf.old ≡ length bytes) → IsEscapeAnswer route.now limits.now marked.now
        (run (S.files shelf.old) (S.absences shelf.old) (S.absences shelf.new)
        (S.faults shelf.old) (S.faults shelf.new) (S.taken shelf.new)) before room.now r.status r.text.items) }
{
    match read_lamp_files(alloc, room.files.as_slice(), shelf) {
        Ok(photos) => {
            let tables = photos.as_slice();
            let reply = reply_by_points(alloc, room, tables, route, limits, points, marked)?;
            Ok(reply)
        }
        Err(Halt::Said(reply)) => Ok(reply),
        Err(Halt::Memory) => Err(Memory),
    }
}

/// What is told of a route by the light of the marked lamps, whose numbers are these, or why it isn't.
pub fn reply_of_escape<S: Shelf>(
    alloc: Global,
    room: &Room,
    route: &Route,
    limits: &RouteLimits,
    marked: &[u32],
    shelf: &mut S,
) -> Result<Reply, Memory>
    requires accepted { IsAccepted room.now }
    requires route { IsWithinReach route.now }
    requires few { length marked.now ≤ 16 }
    ensures files { S.files shelf.new ≡ S.files shelf.old }
    ensures answered { IfOk result (λ r. (before : Option (List ℕ)) → IfSome before (λ bytes. S.taken shelf.old ≡ length bytes) → IsEscapeAnswer route.now limits.now marked.now
        (run (S.files shelf.old) (S.absences shelf.old) (S.absences shelf.new)
        (S.faults shelf.old) (S.faults shelf.new) (S.taken shelf.new)) before room.now r.status r.text.items) }
{
    match route_points(alloc, room, route, marked) {
        Ok(points) => {
            let places = points.as_slice();
            let reply = reply_of_points(alloc, room, route, limits, places, marked, shelf)?;
            Ok(reply)
        }
        Err(fault) => {
            let text = refused_route(alloc, fault)?;
            Ok(Reply::refused(text))
        }
    }
}
