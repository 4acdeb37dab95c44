//! Lamps aimed along each axis in turn: their points, and their light in each octant round them. The shares are those that
//! expected/shares.py prints.
ghost use Rattle.room_layout.specs.Positions.{IsCoordinate};

use super::{THOUSANDTH, holds, lamp, middle};
use crate::{direct, lamp_points};
use fx_base::{Memory, Micro, Span};
use photo_table::PhotoTable;
use room_layout::{Face, Point};
use series_enclose::TangentTable;
use std::alloc::{AllocError, Global};
use std::test::Fail;

/// Four planes that differ from one another, with intensities that fall from gamma 0 to gamma 180.
fn all_round(alloc: Global) -> Result<PhotoTable, AllocError> {
    let planes = vec![in alloc;
        Micro(0),
        Micro(90_000_000),
        Micro(180_000_000),
        Micro(270_000_000),
    ]?;
    let gammas = vec![in alloc; Micro(0), Micro(60_000_000), Micro(180_000_000)]?;
    let values = vec![in alloc;
        Span::whole(1000),
        Span::whole(600),
        Span::whole(20),
        Span::whole(1000),
        Span::whole(500),
        Span::whole(20),
        Span::whole(1000),
        Span::whole(300),
        Span::whole(20),
        Span::whole(1000),
        Span::whole(800),
        Span::whole(20),
    ]?;
    Ok(PhotoTable::new(planes, gammas, values))
}

/// One of two coordinates.
fn either(side: bool, high: i32, low: i32) -> i32
    requires high { IsCoordinate high }
    requires low { IsCoordinate low }
    ensures { IsCoordinate result }
{
    if side { high } else { low }
}

/// The light on a plane that faces along x, or against it, to the lamp: at corner 0 to 7 of a block round the middle of the room. Each
/// corner lies in another octant of the lamp's frame.
fn light_at_corner(tangents: &TangentTable, photo: &PhotoTable, aim: Face, corner: usize) -> Span {
    let east = corner % 2 == 1;
    let at = Point {
        x: either(east, 7700, 4300),
        y: either(corner / 2 % 2 == 1, 8300, 3700),
        z: either(corner / 4 == 1, 7100, 4900),
    };
    let face = if east { Face::West } else { Face::East };
    let lamp = lamp(aim, 30, 800, (0, 0), (1, 1));
    direct(tangents, photo, &lamp, middle(), at, face, true)
}

/// Whether a lamp with this aim gives so many ticks at each corner.
fn gives(alloc: Global, aim: Face, expected: [i128; 8]) -> Result<bool, Fail> {
    let tangents = TangentTable::build(alloc)?;
    let photo = all_round(alloc)?;
    let mut all = true;
    for corner in 0..8 {
        let light = light_at_corner(&tangents, &photo, aim, corner);
        all = all && holds(light, expected[corner], THOUSANDTH);
    }
    Ok(all)
}

#[test]
fn a_lamp_aimed_down_is_seen_from_all_round(rt: HostRuntime) -> Result<(), Fail> {
    let expected = [
        5_197_485_639_930,
        9_463_967_151_070,
        5_857_447_970_178,
        6_918_134_653_858,
        3_326_517_163_449,
        5_976_346_286_787,
        3_736_406_998_534,
        4_395_178_976_759,
    ];
    assert!(rt; gives(rt.alloc(), Face::Down, expected)?);
    Ok(())
}

#[test]
fn a_lamp_aimed_up_is_seen_from_all_round(rt: HostRuntime) -> Result<(), Fail> {
    let expected = [
        3_736_406_998_534,
        4_395_178_976_759,
        3_326_517_163_449,
        5_976_346_286_787,
        5_857_447_970_178,
        6_918_134_653_858,
        5_197_485_639_930,
        9_463_967_151_070,
    ];
    assert!(rt; gives(rt.alloc(), Face::Up, expected)?);
    Ok(())
}

#[test]
fn a_lamp_aimed_along_x_is_seen_from_all_round(rt: HostRuntime) -> Result<(), Fail> {
    let expected = [
        2_719_374_586_905,
        5_963_035_559_271,
        3_855_669_773_475,
        8_235_625_932_412,
        2_026_870_026_223,
        4_578_026_437_908,
        4_548_174_334_157,
        9_620_635_053_775,
    ];
    assert!(rt; gives(rt.alloc(), Face::East, expected)?);
    Ok(())
}

#[test]
fn a_lamp_aimed_against_x_is_seen_from_all_round(rt: HostRuntime) -> Result<(), Fail> {
    let expected = [
        4_578_026_437_908,
        2_026_870_026_223,
        9_620_635_053_775,
        4_548_174_334_157,
        5_963_035_559_271,
        2_719_374_586_905,
        8_235_625_932_412,
        3_855_669_773_475,
    ];
    assert!(rt; gives(rt.alloc(), Face::West, expected)?);
    Ok(())
}

#[test]
fn a_lamp_aimed_along_y_is_seen_from_all_round(rt: HostRuntime) -> Result<(), Fail> {
    let expected = [
        1_585_933_701_394,
        3_482_999_175_552,
        6_867_596_838_400,
        10_661_727_786_716,
        2_139_624_384_956,
        2_842_578_934_139,
        7_974_978_205_523,
        9_380_887_303_891,
    ];
    assert!(rt; gives(rt.alloc(), Face::North, expected)?);
    Ok(())
}

#[test]
fn a_lamp_aimed_against_y_is_seen_from_all_round(rt: HostRuntime) -> Result<(), Fail> {
    let expected = [
        7_974_978_205_523,
        9_380_887_303_891,
        2_139_624_384_956,
        2_842_578_934_139,
        6_867_596_838_400,
        10_661_727_786_716,
        1_585_933_701_394,
        3_482_999_175_552,
    ];
    assert!(rt; gives(rt.alloc(), Face::South, expected)?);
    Ok(())
}

/// The last of three by two points of a lamp of 600 by 400 mm.
fn last_point(alloc: Global, aim: Face) -> Result<Option<Point>, Memory> {
    let points = lamp_points(alloc, &lamp(aim, 45, 1000, (600, 400), (3, 2)))?;
    let last = points.get(5).copied();
    Ok(last)
}

#[test]
fn the_points_of_a_lamp_lie_across_its_aim(rt: HostRuntime) -> Result<(), Fail> {
    let across_z = Some(Point {
        x: 6400,
        y: 6200,
        z: 6000,
    });
    let across_x = Some(Point {
        x: 6000,
        y: 6400,
        z: 6200,
    });
    let across_y = Some(Point {
        x: 6400,
        y: 6000,
        z: 6200,
    });
    assert_eq!(rt; last_point(rt.alloc(), Face::Up)?, across_z);
    assert_eq!(rt; last_point(rt.alloc(), Face::Down)?, across_z);
    assert_eq!(rt; last_point(rt.alloc(), Face::East)?, across_x);
    assert_eq!(rt; last_point(rt.alloc(), Face::West)?, across_x);
    assert_eq!(rt; last_point(rt.alloc(), Face::North)?, across_y);
    assert_eq!(rt; last_point(rt.alloc(), Face::South)?, across_y);
    Ok(())
}
