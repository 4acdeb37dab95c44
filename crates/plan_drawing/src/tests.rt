//! The figures of two rooms, and the steps. The text that is expected is that of expected/drawing.py.
ghost use Rattle.std.specs.Prelude.{◌≡◌, ◌<◌, ◌≤◌, length};
ghost use Rattle.room_layout.specs.Accepted.{IsAccepted};

mod rooms;

use crate::steps::step;
use crate::{numbers_fit, push_light, push_things};
use report_form::{Points, Printed, Report};
use room_layout::{Room, read_room};
use rooms::{HALL, HALL_LIGHT, HALL_THINGS, STUDY, STUDY_LIGHT, STUDY_THINGS};
use std::alloc::Global;
use std::test::Fail;

/// An interval in hundredths of a lux.
fn ends(lo: u128, hi: u128) -> Option<Printed> {
    Some(Printed { lo, hi })
}

/// The report of these points. What it says of their average isn't drawn.
fn report(columns: u32, points: Vec<Option<Printed>>) -> Report
    ensures columns { result.columns ≡ columns }
    ensures points { result.points ≡ points.items }
{
    Report {
        columns,
        points: Points::from_vec(points),
        average: Printed { lo: 0, hi: 1 },
        uniformity: None,
    }
}

/// The light in a room.
fn light(alloc: Global, room: &Room, report: &Report) -> Result<String, Fail>
    requires accepted { IsAccepted room.now }
    requires columns { 0 < report.now.columns }
    requires few { length report.now.points ≤ 1024 }
{
    let mut text = String::new(alloc);
    push_light(&mut text, room, report).ok().ok_or("memory")?;
    Ok(text)
}

/// The things in a room.
fn things(alloc: Global, room: &Room) -> Result<String, Fail>
    requires accepted { IsAccepted room.now }
{
    let mut text = String::new(alloc);
    push_things(&mut text, room).ok().ok_or("memory")?;
    Ok(text)
}

#[test]
fn a_study_has_a_covered_point_boxes_and_aimed_lamps(rt: HostRuntime) -> Result<(), Fail> {
    let alloc = rt.alloc();
    let Ok(room) = read_room(alloc, STUDY.as_bytes()) else {
        return Err("room".into());
    };
    let points = vec![in alloc;
        ends(499, 501),
        None,
        ends(14_999, 15_000),
        ends(500_000, 500_001),
    ]?;
    let light = light(alloc, &room, &report(2, points))?;
    assert_eq!(rt; light.as_str(), STUDY_LIGHT);
    assert_eq!(rt; things(alloc, &room)?.as_str(), STUDY_THINGS);
    assert!(rt; numbers_fit(&room));
    Ok(())
}

#[test]
fn a_hall_of_100_m_has_no_numbers_in_its_cells(rt: HostRuntime) -> Result<(), Fail> {
    let alloc = rt.alloc();
    let Ok(room) = read_room(alloc, HALL.as_bytes()) else {
        return Err("room".into());
    };
    let points = vec![in alloc;
        ends(0, 1),
        ends(1000, 1001),
        ends(1999, 2000),
        ends(7499, 7501),
        ends(7500, 7500),
        ends(299_999, 300_000),
    ]?;
    let light = light(alloc, &room, &report(3, points))?;
    assert_eq!(rt; light.as_str(), HALL_LIGHT);
    assert_eq!(rt; things(alloc, &room)?.as_str(), HALL_THINGS);
    assert!(rt; !numbers_fit(&room));
    Ok(())
}

#[test]
fn a_step_begins_at_its_limit(rt: HostRuntime) {
    let wanted = [
        (0, 0),
        (499, 0),
        (500, 1),
        (999, 1),
        (14_999, 7),
        (15_000, 8),
        (499_999, 16),
        (500_000, 17),
        (u128::MAX, 17),
    ];
    for (cents, step_wanted) in wanted {
        assert_eq!(rt; step(cents), step_wanted, "{cents}");
    }
}
