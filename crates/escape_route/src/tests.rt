//! Routes through a room of 6 m by 6 m by 3 m. The values are those that expected/route.py prints.
ghost use Rattle.std.specs.Prelude.{◌≡◌, ◌≤◌, length, IfOk};
ghost use Rattle.room_layout.specs.Accepted.{IsAccepted};
ghost use Rattle.escape_route.specs.Ratios.{IsLight};
ghost use Rattle.escape_route.specs.Routes.{IsWithinReach};

use crate::{
    Extremes, Route, RouteFault, RouteLimits, extremes, judge_most, ratio, route_points,
    route_report,
};
use fx_base::Span;
use limit_verdict::Verdict;
use room_layout::{Room, read_room};
use series_enclose::TangentTable;
use std::alloc::Global;
use std::test::Fail;

/// Two lamps of 905 cd, under the ceiling.
const ROOM: &str =
    "version = 1\n[room]\nsize = [6000, 6000, 3000]\n[[lamp]]\nat = [3000, 3000, 3000]\ncandela = 905\n[[lamp]]\nat = [1000, 3000, 3000]\ncandela = 905\n[task]\nfrom = [0, 0]\nto = [6000, 6000]\nheight = 0\npoints = [1, 1]\n";

fn route(x0: u32, y0: u32, x1: u32, y1: u32) -> Route
    requires x0 { x0 ≤ 100000 }
    requires y0 { y0 ≤ 100000 }
    requires x1 { x1 ≤ 100000 }
    requires y1 { y1 ≤ 100000 }
    ensures { IsWithinReach result }
{
    Route { x0, y0, x1, y1 }
}

#[test]
fn a_point_stands_every_500_mm_and_at_the_end(rt: HostRuntime) -> Result<(), Fail> {
    let alloc = rt.alloc();
    let room = read_room(alloc, ROOM.as_bytes()).ok().ok_or("room")?;
    for (to, count, before_last, last) in [
        (3000, 1, 6000, 6000),
        (3499, 2, 6000, 6998),
        (3500, 2, 6000, 7000),
        (3501, 3, 7000, 7002),
        (2499, 3, 5000, 4998),
        (6000, 7, 11_000, 12_000),
        (0, 7, 1000, 0),
    ] {
        for along_x in [true, false] {
            let line = if along_x {
                route(3000, 1000, to, 1000)
            } else {
                route(1000, 3000, 1000, to)
            };
            let points = route_points(alloc, &room, &line, &[0]).ok().ok_or("route")?;
            assert_eq!(rt; points.len(), count, "{to}");
            let end = points[points.len() - 1];
            let near = points[points.len().saturating_sub(2)];
            let (at, before, across) = if along_x {
                (end.x, near.x, end.y)
            } else {
                (end.y, near.y, end.x)
            };
            assert_eq!(rt; at, last, "{to}");
            assert_eq!(rt; before, before_last, "{to}");
            assert_eq!(rt; across, 2000, "{to}");
            assert_eq!(rt; end.z, 0, "{to}");
        }
    }
    Ok(())
}

#[test]
fn a_route_is_refused_by_its_line_first(rt: HostRuntime) -> Result<(), Fail> {
    let alloc = rt.alloc();
    let room = read_room(alloc, ROOM.as_bytes()).ok().ok_or("room")?;
    let straight = route(2000, 3000, 4000, 3000);
    for (line, lamps, wanted) in [
        (straight, [0, 1], None),
        (straight, [1, 2], Some(RouteFault::Lamp(2))),
        (straight, [7, 9], Some(RouteFault::Lamp(7))),
        (
            route(2000, 3000, 4000, 3500),
            [7, 9],
            Some(RouteFault::Line),
        ),
        (
            route(6001, 3000, 2000, 3000),
            [0, 1],
            Some(RouteFault::Line),
        ),
        (
            route(2000, 3000, 2000, 6001),
            [0, 1],
            Some(RouteFault::Line),
        ),
        (route(0, 6000, 6000, 6000), [0, 1], None),
    ] {
        let fault = route_points(alloc, &room, &line, lamps.as_slice()).err();
        assert_eq!(rt; fault, wanted);
    }
    Ok(())
}

/// The room above. Its lamps use no files.
fn lit_room(alloc: Global) -> Result<Room, Fail>
    ensures accepted { IfOk result IsAccepted }
    ensures even { IfOk result (λ r. length r.files ≡ 0) }
{
    let Ok(room) = read_room(alloc, ROOM.as_bytes()) else {
        return Err("room".into());
    };
    if room.files.len() != 0 {
        return Err("files".into());
    }
    Ok(room)
}

/// The lines of a route by the light of these lamps, held against 1 lux and a ratio of 40.
fn lines(alloc: Global, line: Route, lamps: &[u32]) -> Result<String, Fail>
    requires { IsWithinReach line }
{
    if lamps.len() > 16 {
        return Err("lamps".into());
    }
    let room = lit_room(alloc)?;
    let sines = TangentTable::build(alloc).ok().ok_or("memory")?;
    let points = route_points(alloc, &room, &line, lamps)
        .ok()
        .ok_or("route")?;
    let found = extremes(alloc, &sines, &room, &[], points.as_slice(), lamps);
    let found = found.ok().ok_or("memory")?;
    let limits = RouteLimits {
        least: 1000,
        ratio: 40,
    };
    let report = route_report(alloc, points.len(), &found, &limits);
    let report = report.ok().ok_or("memory")?;
    Ok(report.text)
}

#[test]
fn only_the_marked_lamps_count(rt: HostRuntime) -> Result<(), Fail> {
    let line = route(2000, 3000, 4000, 3000);
    let end = "limit least 1.000 met\nlimit ratio 40.000 met\n";
    let one = "points 5\nleast 85.85 85.86\ngreatest 100.55 100.56\nratio 1.171 1.172\n";
    let other = "points 5\nleast 35.55 35.56\ngreatest 85.85 85.86\nratio 2.414 2.415\n";
    let both = "points 5\nleast 121.40 121.41\ngreatest 171.71 171.72\nratio 1.414 1.415\n";
    let alloc = rt.alloc();
    assert_eq!(rt; lines(alloc, line, &[0])?, format!(in alloc; "{one}{end}")?);
    assert_eq!(rt;
        lines(alloc, line, &[1])?,
        format!(in alloc; "{other}{end}")?
    );
    assert_eq!(rt;
        lines(alloc, line, &[0, 1])?,
        format!(in alloc; "{both}{end}")?
    );
    Ok(())
}

/// A least and a greatest light of whole lux.
fn of_whole_lux(least: u64, greatest: u64) -> Extremes
    requires least { least ≤ 1000000 }
    requires greatest { greatest ≤ 1000000 }
    ensures least { IsLight result.least }
    ensures greatest { IsLight result.greatest }
{
    let (least, greatest) = (Span::whole(least), Span::whole(greatest));
    // the ends of each are in order
    let _least = least.lo();
    let _greatest = greatest.lo();
    Extremes { least, greatest }
}

#[test]
fn a_ratio_is_rounded_outward(rt: HostRuntime) {
    assert_eq!(rt; ratio(&of_whole_lux(3, 10)), Some((3333, 3334)));
    assert_eq!(rt; ratio(&of_whole_lux(4, 10)), Some((2500, 2500)));
    assert_eq!(rt;
        ratio(&of_whole_lux(1, 1_000_000)),
        Some((1_000_000_000, 1_000_000_000))
    );
    assert_eq!(rt; ratio(&of_whole_lux(0, 10)), None);
    assert_eq!(rt; ratio(&of_whole_lux(0, 0)), None);
}

#[test]
fn a_verdict_on_a_most_turns_at_the_limit_itself(rt: HostRuntime) {
    for (most, lo, hi, wanted) in [
        (40_000, 39_998, 39_999, Verdict::Met),
        (40_000, 39_999, 40_000, Verdict::Met),
        (40_000, 40_000, 40_000, Verdict::Met),
        (40_000, 39_999, 40_001, Verdict::Undecided),
        (40_000, 40_000, 40_001, Verdict::Undecided),
        (40_000, 40_001, 40_001, Verdict::Missed),
        (40_000, 40_001, 40_002, Verdict::Missed),
        (0, 0, 0, Verdict::Met),
    ] {
        assert_eq!(rt; judge_most(most, lo, hi), wanted, "{lo} {hi}");
    }
}
