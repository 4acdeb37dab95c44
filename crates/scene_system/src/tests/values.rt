//! The values at task points and their average. What is expected is worked out with Python's fractions: sums over the points that
//! aren't covered, and quotients rounded outward.
ghost use Rattle.std.specs.Prelude.{◌≡◌, ◌^◌, ◌≤◌, true, false, IfOk, length};
ghost use Rattle.interval_system.specs.System.{IsRow};
ghost use Rattle.scene_system.specs.Sums.{IsValue};

use crate::{PointValue, Scene, average, points};
use fx_base::{Memory, Span, Tick, Weight, tick_of};
use interval_system::{IntervalSystem, Row};
use patch_mesh::{Patch, TaskPoint};
use radiosity_solve::Bounds;
use room_layout::{Face, Point};
use std::alloc::Global;
use std::test::Fail;

/// The value at a point that isn't covered, in ticks.
fn lit(low: u128, high: u128) -> PointValue
    requires order { low ≤ high }
    requires most { high ≤ 2 ^ 102 }
    ensures uncovered { result.covered ≡ false }
    ensures value { IsValue result }
{
    PointValue {
        covered: false,
        value: Span::new(tick_of(low), tick_of(high)),
    }
}

/// The value at a covered point.
fn dark() -> PointValue
    ensures covered { result.covered ≡ true }
    ensures value { IsValue result }
{
    PointValue {
        covered: true,
        value: Span::whole(0),
    }
}

const FLOOR: Patch = Patch {
    centre: Point { x: 2, y: 2, z: 0 },
    face: Face::Up,
    area: 4,
    reflect: 500,
};

fn task_point(covered: bool) -> TaskPoint
    ensures { result.covered ≡ covered }
{
    TaskPoint {
        at: Point { x: 2, y: 2, z: 1 },
        covered,
    }
}

/// One weight of a half, up to a tick.
fn half(alloc: Global) -> Result<Row, Memory>
    ensures size { IfOk result (λ row. length row ≡ 1) }
    ensures row { IfOk result IsRow }
{
    let mut row = Row::new(alloc, 1)?;
    row.put(
        0,
        Weight {
            lo: 34_359_738_368,
            hi: 34_359_738_369,
        },
    );
    let _size = row.len();
    Ok(row)
}

// 1000 ticks and half of 7 ticks, and 1001 and half of 9, each half rounded outward
#[test]
fn points_have_the_light_of_lamps_and_patches(rt: HostRuntime) -> Result<(), Fail> {
    let alloc = rt.alloc();
    let direct = Span::new(Tick(1000), Tick(1001));
    let scene = Scene {
        patches: vec![in alloc; FLOOR]?,
        points: vec![in alloc; task_point(false), task_point(true)]?,
        system: IntervalSystem::new(alloc, 1)?,
        point_rows: vec![in alloc; half(alloc)?, half(alloc)?]?,
        point_direct: vec![in alloc; direct, direct]?,
    };
    let bounds = Bounds {
        lower: vec![in alloc; Tick(7)]?,
        upper: vec![in alloc; Tick(9)]?,
    };
    let values = points(alloc, &scene, &bounds)?;
    assert_eq!(rt; values.len(), 2);
    assert_eq!(rt; values[0].value.lo(), Tick(1003));
    assert_eq!(rt; values[0].value.hi(), Tick(1006));
    assert!(rt; values[1].covered);
    assert_eq!(rt; values[1].value.hi(), Tick(0));
    Ok(())
}

#[test]
fn averages_are_over_the_points_that_are_not_covered(rt: HostRuntime) -> Result<(), Fail> {
    let mean = average(&[lit(1000, 1003), dark(), lit(2000, 2006), lit(10, 12)]);
    assert_eq!(rt; mean.lo(), Tick(1003));
    assert_eq!(rt; mean.hi(), Tick(1007));
    Ok(())
}

#[test]
fn averages_are_rounded_outward(rt: HostRuntime) -> Result<(), Fail> {
    let mean = average(&[lit(0, 50), lit(1, 60)]);
    assert_eq!(rt; mean.lo(), Tick(0));
    assert_eq!(rt; mean.hi(), Tick(55));
    Ok(())
}
