//! Averages of groups of lamps, and the plans of least power of a room. What is expected is what `expected/half_lamps.py` prints.
ghost use Rattle.std.specs.Prelude.{◌≡◌, ◌≤◌, IfOk, length};
ghost use Rattle.radiosity_solve.specs.Bounds.{IsInOrder, IsLowerAnswer, IsUpperAnswer};
ghost use Rattle.room_layout.specs.Accepted.{IsAccepted, IsLampIn};
ghost use Rattle.scene_system.specs.Assembled.{numbers, IsWellFormed};

use crate::{Found, GroupFault, PlanLamp, PowerBracket, group_average, power_bracket};
use fork_rows::OpenGate;
use fx_base::{Memory, Span, Tick};
use radiosity_solve::{Bounds, solve};
use room_layout::{
    Blocks, Face, FileUses, Lamp, Lamps, Limits, Reflects, Room, Shine, Size, TaskGrid,
};
use scene_system::{Scene, SceneFault, assemble, average, points};
use series_enclose::TangentTable;
use std::alloc::{AllocError, Global};
use std::test::Fail;
use std::thread::Threads;

/// 1/10,000 lux and a tick, in ticks.
const NEAR: i128 = 6_871_948;

/// A lamp in the middle of the ceiling of a hall of 6 by 6 by 3 m.
#[tactic(auto, unfolding(room_layout::specs::Across::across))]
fn lamp(candela: u32) -> Lamp
    requires { candela ≤ 10000000 }
    ensures { IsLampIn (record { x = 6000; y = 6000; z = 3000 }) 0 result }
{
    Lamp {
        at: Size {
            x: 3000,
            y: 3000,
            z: 3000,
        },
        shine: Shine::Even(candela),
        turn: 0,
        maintenance: 1000,
        size_x: 0,
        size_y: 0,
        split_x: 1,
        split_y: 1,
        aim: Face::Down,
    }
}

/// The black hall with two such lamps, and one task point in the middle of its floor.
fn hall(alloc: Global, candela: u32) -> Result<Room, AllocError>
    requires { candela ≤ 10000000 }
    ensures accepted { IfOk result (λ room. IsAccepted room) }
    ensures files { IfOk result (λ room. length room.files ≡ 0) }
    ensures lamps { IfOk result (λ room. length room.lamps ≡ 2) }
{
    Ok(Room {
        size: Size {
            x: 6000,
            y: 6000,
            z: 3000,
        },
        reflect: Reflects {
            floor: 0,
            ceiling: 0,
            x0: 0,
            x1: 0,
            y0: 0,
            y1: 0,
        },
        patch: 3000,
        blocks: Blocks::from_vec(Vec::new(alloc)),
        lamps: Lamps::from_vec(vec![in alloc; lamp(candela), lamp(candela)]?),
        files: FileUses::from_vec(Vec::new(alloc)),
        task: TaskGrid {
            from_x: 0,
            from_y: 0,
            to_x: 6000,
            to_y: 6000,
            height: 0,
            nx: 1,
            ny: 1,
        },
        limits: Limits {
            average: None,
            uniformity: None,
        },
    })
}

/// The average of a hall with the lamps that are kept.
fn average_in<R: Threads + Sync>(
    rt: &R,
    alloc: Global,
    room: &Room,
    keep: &[bool],
) -> Result<Span, Fail>
    requires accepted { IsAccepted room.now }
    requires files { length room.now.files ≡ 0 }
    requires lamps { length keep.now ≡ length room.now.lamps }
{
    let table = TangentTable::build(alloc)?;
    let span = group_average(rt, alloc, &table, room, &[], keep, &OpenGate)
        .ok()
        .ok_or("average")?;
    Ok(span)
}

/// The average of a scene, from bounds of the light of its patches.
fn average_by(alloc: Global, scene: &Scene, bounds: &Bounds) -> Result<Span, Memory>
    requires formed { IsWellFormed (numbers scene.now) }
    requires lower { IsLowerAnswer scene.now.system bounds.now.lower.items }
    requires upper { IsUpperAnswer scene.now.system bounds.now.upper.items }
    requires in_order { IsInOrder scene.now.system bounds.now.lower.items bounds.now.upper.items }
{
    let values = points(alloc, scene, bounds)?;
    let mean = average(values.as_slice());
    Ok(mean)
}

/// The average of a scene.
fn average_of<R: Threads + Sync>(rt: &R, alloc: Global, scene: &Scene) -> Result<Span, Fail>
    requires formed { IsWellFormed (numbers scene.now) }
{
    let bounds = solve(rt, alloc, &scene.system, &OpenGate)
        .ok()
        .ok_or("bounds")?;
    let mean = average_by(alloc, scene, &bounds)?;
    Ok(mean)
}

/// The average of a hall with all of its lamps, as it is reported.
fn average_of_room<R: Threads + Sync>(rt: &R, alloc: Global, room: &Room) -> Result<Span, Fail>
    requires accepted { IsAccepted room.now }
    requires files { length room.now.files ≡ 0 }
{
    let table = TangentTable::build(alloc)?;
    let scene = assemble(rt, alloc, &table, room, &[], &OpenGate)
        .ok()
        .ok_or("scene")?;
    let mean = average_of(rt, alloc, &scene)?;
    Ok(mean)
}

#[test]
fn each_half_lamp_gives_half_of_the_average(rt: HostRuntime) -> Result<(), Fail> {
    let alloc = rt.alloc();
    let room = hall(alloc, 2500)?;
    for keep in [[false, true], [true, false]] {
        let span = average_in(&rt, alloc, &room, &keep)?;
        assert!(rt; span.lo() <= Tick(19_088_743_537_777));
        assert!(rt; span.hi() >= Tick(19_088_743_537_778));
        assert!(rt; span.lo() >= Tick(19_088_743_537_777 - NEAR));
        assert!(rt; span.hi() <= Tick(19_088_743_537_778 + NEAR));
    }
    Ok(())
}

#[test]
fn all_lamps_give_the_average_of_the_room(rt: HostRuntime) -> Result<(), Fail> {
    let alloc = rt.alloc();
    let room = hall(alloc, 2500)?;
    let span = average_in(&rt, alloc, &room, &[true, true])?;
    assert!(rt; span.lo() <= Tick(38_177_487_075_555));
    assert!(rt; span.hi() >= Tick(38_177_487_075_556));
    let whole = average_of_room(&rt, alloc, &room)?;
    assert_eq!(rt; span.lo(), whole.lo());
    assert_eq!(rt; span.hi(), whole.hi());
    Ok(())
}

#[test]
fn no_lamps_give_nothing(rt: HostRuntime) -> Result<(), Fail> {
    let alloc = rt.alloc();
    let room = hall(alloc, 2500)?;
    let span = average_in(&rt, alloc, &room, &[false, false])?;
    assert_eq!(rt; span.lo(), Tick(0));
    assert_eq!(rt; span.hi(), Tick(0));
    Ok(())
}

// 10^7 cd are the most that is served
#[test]
fn two_lamps_may_be_too_bright_where_each_is_served(rt: HostRuntime) -> Result<(), Fail> {
    let alloc = rt.alloc();
    let room = hall(alloc, 10_000_000)?;
    let table = TangentTable::build(alloc)?;
    let both = group_average(&rt, alloc, &table, &room, &[], &[true, true], &OpenGate);
    assert_eq!(rt;
        both.err(),
        Some(GroupFault::Scene(SceneFault::TotalIntensity))
    );
    let one = group_average(&rt, alloc, &table, &room, &[], &[true, false], &OpenGate);
    assert!(rt; one.is_ok());
    Ok(())
}

/// The plans of least power of a hall whose first lamp takes 50 W and whose second one, in the next group, takes 40 W.
fn plans_of<R: Threads + Sync>(
    rt: &R,
    alloc: Global,
    room: &Room,
    least: u64,
) -> Result<PowerBracket, Fail>
    requires accepted { IsAccepted room.now }
    requires files { length room.now.files ≡ 0 }
    requires lamps { length room.now.lamps ≡ 2 }
{
    let table = TangentTable::build(alloc)?;
    let plan = [
        PlanLamp {
            group: 0,
            watts: 50,
        },
        PlanLamp {
            group: 1,
            watts: 40,
        },
    ];
    let found = power_bracket(rt, alloc, &table, room, &[], &plan, least, &OpenGate)
        .ok()
        .ok_or("plans")?;
    Ok(found)
}

#[test]
fn the_lamp_of_fewer_watts_is_lit_first(rt: HostRuntime) -> Result<(), Fail> {
    let alloc = rt.alloc();
    let room = hall(alloc, 2500)?;
    let eleven_tenths = Some(Found {
        tenths: 450,
        steps: [1, 10, 0, 0, 0, 0],
    });
    let found = plans_of(&rt, alloc, &room, 300_000)?;
    assert_eq!(rt; found.met, eleven_tenths);
    assert_eq!(rt; found.possible, eleven_tenths);
    let beyond = plans_of(&rt, alloc, &room, 600_000)?;
    assert_eq!(rt; beyond.met, None);
    assert_eq!(rt; beyond.possible, None);
    Ok(())
}
