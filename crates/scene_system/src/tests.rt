//! Scenes of small rooms. Weights were computed with Python's mpmath; the light of even lamps is intensity by the squared distance, at
//! 1 m, and that of the lamp of a file is what expected/light.py prints.
ghost use Rattle.std.specs.Prelude.{◌≡◌, ◌<◌, ◌≤◌, ◌≤ℤ◌, pos, All, IfOk, length};
ghost use Rattle.room_layout.specs.Accepted.{IsAccepted, IsBlockIn, IsBetween, IsFileUse, IsLampIn, IsRoomSize, IsTaskIn};

mod meeting;
mod values;

use crate::{Scene, SceneFault, assemble};
use fork_rows::OpenGate;
use fx_base::{Micro, Span, Tick, Weight};
use photo_table::PhotoTable;
use room_layout::{
    Block, Blocks, Face, FileUse, FileUses, Lamp, Lamps, Limits, Name, Reflects, Room, Shine, Size,
    TaskGrid,
};
use series_enclose::TangentTable;
use std::alloc::{AllocError, Global};
use std::test::Fail;
use std::thread::Threads;

/// 200 lux, in ticks.
const TWO_HUNDRED: i128 = 13_743_895_347_200;

const CUBE: Size = Size {
    x: 2000,
    y: 2000,
    z: 2000,
};

const HALL: Size = Size {
    x: 50_000,
    y: 50_000,
    z: 50_000,
};

/// A box of 200 mm on each edge, in the middle of the cube's floor and 400 mm above it.
const LOW_BOX: Block = Block {
    lo: Size {
        x: 900,
        y: 900,
        z: 400,
    },
    hi: Size {
        x: 1100,
        y: 1100,
        z: 600,
    },
    reflect: 500,
};

/// A box of 1 m on each edge, with the task point of a height of 1 m in its middle.
const COVER: Block = Block {
    lo: Size {
        x: 500,
        y: 500,
        z: 500,
    },
    hi: Size {
        x: 1500,
        y: 1500,
        z: 1500,
    },
    reflect: 500,
};

#[tactic(auto, unfolding(room_layout::specs::Across::across))]
fn lamp(candela: u32) -> Lamp
    requires { candela ≤ 10000000 }
    ensures within { IsLampIn (record { x = 2000; y = 2000; z = 2000 }) 0 result }
    ensures within_filed { IsLampIn (record { x = 2000; y = 2000; z = 2000 }) 2 result }
    ensures within_hall { IsLampIn (record { x = 50000; y = 50000; z = 50000 }) 0 result }
{
    Lamp {
        at: Size {
            x: 1000,
            y: 1000,
            z: 1000,
        },
        shine: Shine::Even(candela),
        turn: 0,
        maintenance: 1000,
        size_x: 0,
        size_y: 0,
        split_x: 1,
        split_y: 1,
        aim: Face::Down,
    }
}

/// A lamp of the second of two files at the same place, a fifth of whose light is lost, 400 mm wide and split in two along x.
#[tactic(auto, unfolding(room_layout::specs::Across::across))]
fn file_lamp(turn: u16) -> Lamp
    requires { turn ≤ 359 }
    ensures { IsLampIn (record { x = 2000; y = 2000; z = 2000 }) 2 result }
{
    Lamp {
        at: Size {
            x: 1000,
            y: 1000,
            z: 1000,
        },
        shine: Shine::File(1),
        turn,
        maintenance: 800,
        size_x: 400,
        size_y: 0,
        split_x: 2,
        split_y: 1,
        aim: Face::Down,
    }
}

/// Two files.
fn two_files(alloc: Global) -> Result<Vec<FileUse>, AllocError>
    ensures count { IfOk result (λ v. length v.items ≡ 2) }
    ensures each { IfOk result (λ v. All IsFileUse v.items) }
{
    let first = FileUse {
        name: Name::from_text(alloc, "a.ldt")?,
        set: 1,
    };
    let second = FileUse {
        name: Name::from_text(alloc, "b.ies")?,
        set: 1,
    };
    Ok(vec![in alloc; first, second]?)
}

/// 1,000 cd straight down, and at gamma 120 in each half-plane less than in the one before it.
fn uneven(alloc: Global) -> Result<PhotoTable, AllocError> {
    let planes = vec![in alloc;
        Micro(0),
        Micro(90_000_000),
        Micro(180_000_000),
        Micro(270_000_000),
    ]?;
    let gammas = vec![in alloc; Micro(0), Micro(120_000_000)]?;
    let values = vec![in alloc;
        Span::whole(1000),
        Span::whole(800),
        Span::whole(1000),
        Span::whole(600),
        Span::whole(1000),
        Span::whole(400),
        Span::whole(1000),
        Span::whole(200),
    ]?;
    Ok(PhotoTable::new(planes, gammas, values))
}

/// At most so many ticks of a candela all round, and one tick less at the lower ends.
fn at_most(alloc: Global, ticks: i128) -> Result<PhotoTable, AllocError>
    requires low { pos 1 ≤ℤ ticks }
    requires high { ticks ≤ℤ pos 687194767360000000 }
{
    let planes = vec![in alloc; Micro(0)]?;
    let gammas = vec![in alloc; Micro(0), Micro(180_000_000)]?;
    let value = Span::new(Tick(ticks - 1), Tick(ticks));
    let values = vec![in alloc; value, value]?;
    Ok(PhotoTable::new(planes, gammas, values))
}

/// A room with one task point, in the middle of the first 2 m by 2 m.
fn room_of(
    size: Size,
    patch: u32,
    height: u32,
    blocks: Vec<Block>,
    files: Vec<FileUse>,
    lamps: Vec<Lamp>,
) -> Room
    requires size { IsRoomSize size }
    requires wide { (2000 ≤ size.x) × (2000 ≤ size.y) × (height ≤ size.z) }
    requires patch { IsBetween 50 50000 patch }
    requires few { length blocks.items ≤ 64 }
    requires blocks { All (IsBlockIn size) blocks.items }
    requires few_lamps { length lamps.items ≤ 256 }
    requires lamps { All (IsLampIn size (length files.items)) lamps.items }
    requires few_files { length files.items ≤ 16 }
    requires files { All IsFileUse files.items }
    ensures accepted { IsAccepted result }
    ensures files { length result.files ≡ length files.items }
{
    Room {
        size,
        reflect: Reflects {
            floor: 500,
            ceiling: 500,
            x0: 500,
            x1: 500,
            y0: 500,
            y1: 500,
        },
        patch,
        blocks: Blocks::from_vec(blocks),
        lamps: Lamps::from_vec(lamps),
        files: FileUses::from_vec(files),
        task: TaskGrid {
            from_x: 0,
            from_y: 0,
            to_x: 2000,
            to_y: 2000,
            height,
            nx: 1,
            ny: 1,
        },
        limits: Limits {
            average: None,
            uniformity: None,
        },
    }
}

fn weight(scene: &Scene, i: usize, j: usize) -> Option<Weight> {
    let size = scene.system.size();
    if i < size && j < size {
        return Some(scene.system.weight(i, j));
    }
    None
}

fn point_weight(scene: &Scene, j: usize) -> Option<Weight> {
    let row = scene.point_rows.first()?;
    if j < row.len() {
        return Some(row.weight(j));
    }
    None
}

fn direct(scene: &Scene, i: usize) -> Option<Span> {
    if i < scene.system.size() {
        return Some(scene.system.direct(i));
    }
    None
}

/// Whether the weight lies around a number between two neighbouring ticks.
fn is_around(weight: Option<Weight>, below: u64, above: u64) -> bool {
    match weight {
        Some(w) => w.lo <= below && above <= w.hi,
        None => false,
    }
}

/// Whether the light is exactly so many ticks.
fn is_exactly(light: Option<&Span>, ticks: i128) -> bool {
    match light {
        Some(light) => light.lo().0 == ticks && light.hi().0 == ticks,
        None => false,
    }
}

#[test]
fn a_cube_with_a_lamp_in_its_middle(rt: HostRuntime) -> Result<(), Fail> {
    let lamps = vec![in rt.alloc(); lamp(200)]?;
    let room = room_of(
        CUBE,
        2000,
        0,
        Vec::new(rt.alloc()),
        Vec::new(rt.alloc()),
        lamps,
    );
    let table = TangentTable::build(rt.alloc())?;
    let scene = assemble(&rt, rt.alloc(), &table, &room, &[], &OpenGate)
        .ok()
        .ok_or("scene")?;
    assert_eq!(rt; scene.patches.len(), 6);
    for i in 0..6 {
        assert!(rt; is_exactly(direct(&scene, i).as_ref(), TWO_HUNDRED));
    }
    assert!(rt; is_exactly(scene.point_direct.first(), TWO_HUNDRED));
    // 0.5 / (pi + 1) and 0.5 / (pi + 2), in ticks rounded down and up
    assert!(rt; is_around(weight(&scene, 0, 1), 8_296_262_148, 8_296_262_149));
    assert!(rt; is_around(weight(&scene, 0, 2), 6_682_703_333, 6_682_703_334));
    assert!(rt; is_around(point_weight(&scene, 1), 8_296_262_148, 8_296_262_149));
    Ok(())
}

#[test]
fn a_box_keeps_light_off(rt: HostRuntime) -> Result<(), Fail> {
    let lamps = vec![in rt.alloc(); lamp(200)]?;
    let boxes = vec![in rt.alloc(); LOW_BOX]?;
    let room = room_of(CUBE, 2000, 0, boxes, Vec::new(rt.alloc()), lamps);
    let table = TangentTable::build(rt.alloc())?;
    let scene = assemble(&rt, rt.alloc(), &table, &room, &[], &OpenGate)
        .ok()
        .ok_or("scene")?;
    let nothing = Some(Weight { lo: 0, hi: 0 });
    assert_eq!(rt; scene.patches.len(), 12);
    assert!(rt; is_exactly(direct(&scene, 0).as_ref(), 0));
    assert!(rt; is_exactly(direct(&scene, 1).as_ref(), TWO_HUNDRED));
    assert!(rt; is_exactly(scene.point_direct.first(), 0));
    assert_eq!(rt; weight(&scene, 0, 1), nothing);
    assert_eq!(rt; point_weight(&scene, 1), nothing);
    Ok(())
}

/// Why a room whose only task point is covered has no scene: patches of 1 m at most, and two lamps.
fn fault_of<R: Threads + Sync>(
    rt: &R,
    alloc: Global,
    size: Size,
    candela: u32,
) -> Result<Option<SceneFault>, Fail>
    requires size { IsRoomSize size }
    requires wide { (2000 ≤ size.x) × (2000 ≤ size.y) × (2000 ≤ size.z) }
    requires candela { candela ≤ 10000000 }
{
    let lamps = vec![in alloc; lamp(candela), lamp(candela)]?;
    let boxes = vec![in alloc; COVER]?;
    let room = room_of(size, 1000, 1000, boxes, Vec::new(alloc), lamps);
    let table = TangentTable::build(alloc)?;
    Ok(assemble(rt, alloc, &table, &room, &[], &OpenGate).err())
}

#[test]
fn of_two_causes_the_first_is_named(rt: HostRuntime) -> Result<(), Fail> {
    let bright = fault_of(&rt, rt.alloc(), HALL, 5_000_001)?;
    assert_eq!(rt; bright, Some(SceneFault::TotalIntensity));
    // six surfaces of 50 by 50 patches, and the box's six patches
    let large = fault_of(&rt, rt.alloc(), HALL, 5_000_000)?;
    assert_eq!(rt; large, Some(SceneFault::TooManyPatches(15_006)));
    let covered = fault_of(&rt, rt.alloc(), CUBE, 5_000_000)?;
    assert_eq!(rt; covered, Some(SceneFault::NoTaskPoint));
    Ok(())
}

/// The light lies around a number of ticks, rounded down, within a hundredth of a lux.
fn is_near(light: Option<&Span>, ticks: i128) -> bool {
    match light {
        Some(light) => {
            let (lo, hi) = (light.lo().0, light.hi().0);
            lo <= ticks && ticks < hi && hi.saturating_sub(lo) <= 687_194_767
        }
        None => false,
    }
}

#[test]
fn a_turned_lamp_of_a_file_lights_from_both_of_its_points(rt: HostRuntime) -> Result<(), Fail> {
    let alloc = rt.alloc();
    let lamps = vec![in alloc; file_lamp(90)]?;
    let room = room_of(CUBE, 2000, 0, Vec::new(alloc), two_files(alloc)?, lamps);
    let photos = vec![in alloc; at_most(alloc, 1)?, uneven(alloc)?]?;
    let table = TangentTable::build(alloc)?;
    let scene = assemble(&rt, alloc, &table, &room, &photos, &OpenGate)
        .ok()
        .ok_or("scene")?;
    // the floor and its task point, the walls at the start of x and at the end of y, and the ceiling, which is past the last gamma
    assert!(rt; is_near(direct(&scene, 0).as_ref(), 52_614_675_591_692));
    assert!(rt; is_near(scene.point_direct.first(), 52_614_675_591_692));
    assert!(rt; is_near(direct(&scene, 2).as_ref(), 39_656_908_521_458));
    assert!(rt; is_near(direct(&scene, 5).as_ref(), 45_005_992_117_035));
    assert!(rt; is_exactly(direct(&scene, 1).as_ref(), 0));
    Ok(())
}

/// Why a room whose only task point is covered has no scene, where the upper end of its file's table is so many ticks and another lamp
/// has 5,000,000 cd.
fn filed_fault<R: Threads + Sync>(
    rt: &R,
    alloc: Global,
    ticks: i128,
) -> Result<Option<SceneFault>, Fail>
    requires low { pos 1 ≤ℤ ticks }
    requires high { ticks ≤ℤ pos 687194767360000000 }
{
    let lamps = vec![in alloc; file_lamp(0), lamp(5_000_000)]?;
    let boxes = vec![in alloc; COVER]?;
    let room = room_of(CUBE, 1000, 1000, boxes, two_files(alloc)?, lamps);
    let photos = vec![in alloc; uneven(alloc)?, at_most(alloc, ticks)?]?;
    let table = TangentTable::build(alloc)?;
    Ok(assemble(rt, alloc, &table, &room, &photos, &OpenGate).err())
}

// 5,000,000 cd in ticks, and one more
#[test]
fn one_tick_too_much_is_too_bright(rt: HostRuntime) -> Result<(), Fail> {
    let just = filed_fault(&rt, rt.alloc(), 343_597_383_680_000_000)?;
    assert_eq!(rt; just, Some(SceneFault::NoTaskPoint));
    let more = filed_fault(&rt, rt.alloc(), 343_597_383_680_000_001)?;
    assert_eq!(rt; more, Some(SceneFault::TotalIntensity));
    Ok(())
}
