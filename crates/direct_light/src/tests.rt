//! Points of lamps and shares at some places. The shares are those that expected/shares.py prints.
ghost use Rattle.std.specs.Prelude.{◌≡◌, ◌≤◌};
ghost use Rattle.room_layout.specs.Accepted.{IsBetween};
ghost use Rattle.room_layout.specs.Positions.{IsInReach};
ghost use Rattle.direct_light.specs.Lamps.{IsLamp};

mod aims;

use crate::{direct, even_light, lamp_points};
use fx_base::{Micro, Span};
use photo_table::PhotoTable;
use room_layout::{Face, Lamp, Point, Shine, Size};
use series_enclose::TangentTable;
use std::alloc::{AllocError, Global};
use std::test::Fail;

/// A thousandth of a lux, in ticks.
const THOUSANDTH: i128 = 68_719_477;

/// A lamp in the middle of a room of 6 m by 6 m by 6 m, with this aim, turn, maintenance, size and split.
fn lamp(aim: Face, turn: u16, maintenance: u16, size: (u32, u32), split: (u32, u32)) -> Lamp
    requires turn { turn ≤ 359 }
    requires maintenance { maintenance ≤ 1000 }
    requires size_x { size.0 ≤ 600 }
    requires size_y { size.1 ≤ 600 }
    requires split_x { IsBetween 1 8 split.0 }
    requires split_y { IsBetween 1 8 split.1 }
    ensures { IsLamp result }
{
    Lamp {
        at: Size {
            x: 3000,
            y: 3000,
            z: 3000,
        },
        shine: Shine::File(0),
        turn,
        maintenance,
        size_x: size.0,
        size_y: size.1,
        split_x: split.0,
        split_y: split.1,
        aim,
    }
}

/// A point in half mm.
fn point(x: i32, y: i32, z: i32) -> Point
    requires { IsInReach (record { x = x; y = y; z = z }) }
    ensures { result ≡ record { x = x; y = y; z = z } }
{
    Point { x, y, z }
}

/// The middle of the room.
fn middle() -> Point
    ensures { IsInReach result }
{
    Point {
        x: 6000,
        y: 6000,
        z: 6000,
    }
}

/// Four planes that differ from one another, with intensities that fall from gamma 0 to gamma 120.
fn uneven(alloc: Global) -> Result<PhotoTable, AllocError> {
    let planes = vec![in alloc;
        Micro(0),
        Micro(90_000_000),
        Micro(180_000_000),
        Micro(270_000_000),
    ]?;
    let gammas = vec![in alloc; Micro(0), Micro(60_000_000), Micro(120_000_000)]?;
    let values = vec![in alloc;
        Span::whole(1000),
        Span::whole(600),
        Span::whole(200),
        Span::whole(1000),
        Span::whole(500),
        Span::whole(100),
        Span::whole(1000),
        Span::whole(300),
        Span::whole(50),
        Span::whole(1000),
        Span::whole(800),
        Span::whole(400),
    ]?;
    Ok(PhotoTable::new(planes, gammas, values))
}

/// 90 cd up to gamma 135, all round, and nothing beyond.
fn cut(alloc: Global) -> Result<PhotoTable, AllocError> {
    let planes = vec![in alloc; Micro(0)]?;
    let gammas = vec![in alloc; Micro(0), Micro(135_000_000)]?;
    let values = vec![in alloc; Span::whole(90), Span::whole(90)]?;
    Ok(PhotoTable::new(planes, gammas, values))
}

/// The span holds a light of this many ticks, rounded down, and is at most so many wide.
fn holds(light: Span, ticks: i128, width: i128) -> bool {
    let (lo, hi) = (light.lo().0, light.hi().0);
    lo <= ticks && ticks <= hi && hi.saturating_sub(lo) <= width
}

#[test]
fn a_lamp_of_two_parts_has_a_point_in_the_middle_of_each(rt: HostRuntime) -> Result<(), Fail> {
    let points = lamp_points(rt.alloc(), &lamp(Face::Down, 0, 1000, (600, 0), (2, 1)))?;
    assert_eq!(rt; points.len(), 2);
    assert_eq!(rt;
        points.get(0),
        Some(&Point {
            x: 5700,
            y: 6000,
            z: 6000
        })
    );
    assert_eq!(rt;
        points.get(1),
        Some(&Point {
            x: 6300,
            y: 6000,
            z: 6000
        })
    );
    Ok(())
}

#[test]
fn points_go_row_by_row_along_x(rt: HostRuntime) -> Result<(), Fail> {
    let points = lamp_points(rt.alloc(), &lamp(Face::Down, 0, 1000, (600, 401), (3, 2)))?;
    assert_eq!(rt; points.len(), 6);
    assert_eq!(rt;
        points.get(1),
        Some(&Point {
            x: 6000,
            y: 5799,
            z: 6000
        })
    );
    assert_eq!(rt;
        points.get(2),
        Some(&Point {
            x: 6400,
            y: 5799,
            z: 6000
        })
    );
    assert_eq!(rt;
        points.get(3),
        Some(&Point {
            x: 5600,
            y: 6200,
            z: 6000
        })
    );
    Ok(())
}

#[test]
fn each_of_two_parts_gives_a_half(rt: HostRuntime) -> Result<(), Fail> {
    let lamp = lamp(Face::Down, 0, 1000, (600, 0), (2, 1));
    let at = point(6000, 6000, 0);
    let first = even_light(5050, &lamp, point(5700, 6000, 6000), at, Face::Up, true);
    let second = even_light(5050, &lamp, point(6300, 6000, 6000), at, Face::Up, true);
    assert!(rt; holds(first, 19_207_557_633_058, 4));
    assert!(rt; holds(second, 19_207_557_633_058, 4));
    Ok(())
}

#[test]
fn an_even_lamp_is_kept_to_its_maintenance_and_has_no_turn(rt: HostRuntime) -> Result<(), Fail> {
    let at = point(8000, 7000, 0);
    let light = even_light(
        1000,
        &lamp(Face::Down, 123, 800, (0, 0), (1, 1)),
        middle(),
        at,
        Face::Up,
        true,
    );
    assert!(rt; holds(light, 5_025_800_989_757, 4));
    Ok(())
}

#[test]
fn what_is_hidden_or_behind_is_dark(rt: HostRuntime) -> Result<(), Fail> {
    let tangents = TangentTable::build(rt.alloc())?;
    let photo = uneven(rt.alloc())?;
    let lamp = lamp(Face::Down, 0, 1000, (0, 0), (1, 1));
    let at = point(8000, 7000, 0);
    let hidden = direct(&tangents, &photo, &lamp, middle(), at, Face::Up, false);
    assert_eq!(rt; (hidden.lo().0, hidden.hi().0), (0, 0));
    let behind = direct(&tangents, &photo, &lamp, middle(), at, Face::Down, true);
    assert_eq!(rt; (behind.lo().0, behind.hi().0), (0, 0));
    let here = even_light(1000, &lamp, middle(), middle(), Face::Up, true);
    assert_eq!(rt; (here.lo().0, here.hi().0), (0, 0));
    let hidden_too = even_light(1000, &lamp, middle(), at, Face::Up, false);
    assert_eq!(rt; (hidden_too.lo().0, hidden_too.hi().0), (0, 0));
    Ok(())
}

#[test]
fn a_lamp_with_a_turn_maintenance_and_parts(rt: HostRuntime) -> Result<(), Fail> {
    let tangents = TangentTable::build(rt.alloc())?;
    let photo = uneven(rt.alloc())?;
    let at = point(8000, 7000, 0);
    let turned = direct(
        &tangents,
        &photo,
        &lamp(Face::Down, 30, 800, (600, 0), (2, 1)),
        middle(),
        at,
        Face::Up,
        true,
    );
    assert!(rt; holds(turned, 2_177_021_640_012, THOUSANDTH));
    let straight = direct(
        &tangents,
        &photo,
        &lamp(Face::Down, 0, 800, (600, 0), (2, 1)),
        middle(),
        at,
        Face::Up,
        true,
    );
    assert!(rt; holds(straight, 2_145_220_068_159, THOUSANDTH));
    Ok(())
}

#[test]
fn walls_see_a_lamp_from_the_side(rt: HostRuntime) -> Result<(), Fail> {
    let tangents = TangentTable::build(rt.alloc())?;
    let photo = uneven(rt.alloc())?;
    let wall = point(0, 7000, 3000);
    let light = direct(
        &tangents,
        &photo,
        &lamp(Face::Down, 200, 1000, (0, 0), (1, 1)),
        middle(),
        wall,
        Face::East,
        true,
    );
    assert!(rt; holds(light, 3_385_829_664_893, THOUSANDTH));
    let far_wall = point(5000, 9000, 4000);
    let other = direct(
        &tangents,
        &photo,
        &lamp(Face::Down, 359, 1000, (0, 0), (1, 1)),
        middle(),
        far_wall,
        Face::South,
        true,
    );
    assert!(rt; holds(other, 7_520_707_676_570, THOUSANDTH));
    Ok(())
}

#[test]
fn straight_below_there_is_no_turn(rt: HostRuntime) -> Result<(), Fail> {
    let tangents = TangentTable::build(rt.alloc())?;
    let photo = uneven(rt.alloc())?;
    let below = point(6000, 6000, 0);
    let light = direct(
        &tangents,
        &photo,
        &lamp(Face::Down, 77, 1000, (0, 0), (1, 1)),
        middle(),
        below,
        Face::Up,
        true,
    );
    assert!(rt; holds(light, 7_635_497_415_111, THOUSANDTH));
    Ok(())
}

#[test]
fn past_the_last_gamma_there_is_no_light(rt: HostRuntime) -> Result<(), Fail> {
    let tangents = TangentTable::build(rt.alloc())?;
    let photo = uneven(rt.alloc())?;
    let above = point(8000, 7000, 9000);
    let light = direct(
        &tangents,
        &photo,
        &lamp(Face::Down, 0, 1000, (0, 0), (1, 1)),
        middle(),
        above,
        Face::Down,
        true,
    );
    assert_eq!(rt; (light.lo().0, light.hi().0), (0, 0));
    Ok(())
}

/// At the last gamma the intensity jumps from 90 cd to nothing: the span holds both, and below that gamma it holds only the one.
#[test]
fn at_the_last_gamma_the_span_holds_both_sides(rt: HostRuntime) -> Result<(), Fail> {
    let tangents = TangentTable::build(rt.alloc())?;
    let photo = cut(rt.alloc())?;
    let lamp = lamp(Face::Down, 0, 1000, (0, 0), (1, 1));
    let at = direct(
        &tangents,
        &photo,
        &lamp,
        middle(),
        point(8000, 6000, 8000),
        Face::Down,
        true,
    );
    assert_eq!(rt; at.lo().0, 0);
    assert!(rt; holds(at, 2_186_640_359_982, 2_186_640_359_990));
    let before = direct(
        &tangents,
        &photo,
        &lamp,
        middle(),
        point(8000, 6000, 7999),
        Face::Down,
        true,
    );
    assert!(rt; holds(before, 2_187_186_814_853, 4));
    Ok(())
}
