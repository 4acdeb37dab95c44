//! Rooms cut into patches. What is expected is worked out by hand.
ghost use Rattle.std.specs.Prelude.{◌≡◌, ◌<◌, ◌≤◌, All, IfOk, [], length};
ghost use Rattle.room_layout.specs.Accepted.{IsAccepted, IsBlockIn, IsBetween, IsRoomSize, IsTaskIn};

use crate::{MeshFault, Patch, TaskPoint, mesh, task_points};
use room_layout::{
    Block, Blocks, Face, FileUses, Lamps, Limits, Point, Reflects, Room, Size, TaskGrid,
};
use std::alloc::Global;
use std::test::Fail;

const REFLECTS: Reflects = Reflects {
    floor: 510,
    ceiling: 520,
    x0: 530,
    x1: 540,
    y0: 550,
    y1: 560,
};

/// A place in mm.
fn at(x: u32, y: u32, z: u32) -> Size
    ensures { result ≡ record { x = x; y = y; z = z } }
{
    Size { x, y, z }
}

/// A box that reflects 70 thousandths.
fn block(lo: Size, hi: Size) -> Block
    ensures { result ≡ record { lo = lo; hi = hi; reflect = 70 } }
{
    Block {
        lo,
        hi,
        reflect: 70,
    }
}

/// So many task points along x and along y, on a rectangle at so many mm of height.
fn grid(from: (u32, u32), to: (u32, u32), height: u32, points: (u32, u32)) -> TaskGrid
    ensures { result ≡ record { from_x = from.0; from_y = from.1; to_x = to.0; to_y = to.1; height = height; nx = points.0; ny = points.1 } }
{
    TaskGrid {
        from_x: from.0,
        from_y: from.1,
        to_x: to.0,
        to_y: to.1,
        height,
        nx: points.0,
        ny: points.1,
    }
}

/// A room without lamps whose edges are cut into parts of at most `patch` mm.
fn room_of(alloc: Global, size: Size, patch: u32, blocks: Vec<Block>, task: TaskGrid) -> Room
    requires size { IsRoomSize size }
    requires patch { IsBetween 50 50000 patch }
    requires few { length blocks.items ≤ 64 }
    requires blocks { All (IsBlockIn size) blocks.items }
    requires task { IsTaskIn size task }
    ensures accepted { IsAccepted result }
    ensures blocks { result.blocks ≡ blocks.items }
{
    Room {
        size,
        reflect: REFLECTS,
        patch,
        blocks: Blocks::from_vec(blocks),
        lamps: Lamps::from_vec(Vec::new(alloc)),
        files: FileUses::from_vec(Vec::new(alloc)),
        task,
        limits: Limits {
            average: None,
            uniformity: None,
        },
    }
}

/// How many patches there are, or would be, in a bare room of these edges.
fn count(alloc: Global, x: u32, y: u32, z: u32, patch: u32) -> u64
    requires size { IsRoomSize (record { x = x; y = y; z = z }) }
    requires patch { IsBetween 50 50000 patch }
{
    let task = grid((0, 0), (x, y), 0, (1, 1));
    let room = room_of(alloc, at(x, y, z), patch, Vec::new(alloc), task);
    match mesh(alloc, &room) {
        Ok(patches) => patches.len() as u64,
        Err(MeshFault::TooManyPatches(count)) => count,
        Err(MeshFault::Memory) => 0,
    }
}

#[test]
fn fine_channel_has_672_patches_and_the_50_m_cube_is_refused(rt: HostRuntime) {
    assert_eq!(rt; count(rt.alloc(), 10_000, 1_000, 1_000, 250), 672);
    assert_eq!(rt; count(rt.alloc(), 50_000, 50_000, 50_000, 1_000), 15_000);
}

// Of the cube of 100 m each surface has 2 * 2 patches of 50 m, or 2,000 * 2,000 of 50 mm. An edge of 50,001 mm has two parts.
#[test]
fn rooms_of_100_m_have_two_patches_of_50_m_along_each_edge(rt: HostRuntime) {
    assert_eq!(rt; count(rt.alloc(), 100_000, 100_000, 100_000, 50_000), 24);
    assert_eq!(rt;
        count(rt.alloc(), 100_000, 100_000, 100_000, 50),
        24_000_000
    );
    assert_eq!(rt; count(rt.alloc(), 50_001, 50_000, 500, 50_000), 10);
}

/// Centres in half mm, areas in square mm and reflectances of patches, with where they face.
fn is_list(patches: &[Patch], wanted: &[(i32, i32, i32, Face, u64, u16)]) -> bool {
    patches.len() == wanted.len()
        && patches.iter().zip(wanted).all(|(p, (x, y, z, face, area, reflect))| {
            *p == Patch {
                centre: Point {
                    x: *x,
                    y: *y,
                    z: *z,
                },
                face: *face,
                area: *area,
                reflect: *reflect,
            }
        })
}

/// A bare cube of 2,000 mm, each surface of which is one patch, with three columns and two rows of task points.
fn cube(alloc: Global) -> Room
    ensures { IsAccepted result }
{
    let task = grid((0, 500), (2000, 1000), 750, (3, 2));
    room_of(alloc, at(2000, 2000, 2000), 2000, Vec::new(alloc), task)
}

#[test]
fn a_cube_has_one_patch_in_the_middle_of_each_surface(rt: HostRuntime) -> Result<(), Fail> {
    let patches = mesh(rt.alloc(), &cube(rt.alloc())).ok().ok_or("mesh")?;
    let wanted = [
        (2000, 2000, 0, Face::Up, 4_000_000, 510),
        (2000, 2000, 4000, Face::Down, 4_000_000, 520),
        (0, 2000, 2000, Face::East, 4_000_000, 530),
        (4000, 2000, 2000, Face::West, 4_000_000, 540),
        (2000, 0, 2000, Face::North, 4_000_000, 550),
        (2000, 4000, 2000, Face::South, 4_000_000, 560),
    ];
    assert!(rt; is_list(&patches, &wanted));
    Ok(())
}

/// Places in half mm of task points that are not covered.
fn are_open_points(points: &[TaskPoint], wanted: &[(i32, i32, i32)]) -> bool {
    points.len() == wanted.len()
        && points.iter().zip(wanted).all(|(p, (x, y, z))| {
            *p == TaskPoint {
                at: Point {
                    x: *x,
                    y: *y,
                    z: *z,
                },
                covered: false,
            }
        })
}

// (2 i + 1) * 2000 / 3 and 1000 + (2 j + 1) * 500 / 2, rounded down
#[test]
fn task_points_go_by_row_then_by_column(rt: HostRuntime) -> Result<(), Fail> {
    let points = task_points(rt.alloc(), &cube(rt.alloc()))
        .ok()
        .ok_or("points")?;
    let wanted = [
        (666, 1250, 1500),
        (2000, 1250, 1500),
        (3333, 1250, 1500),
        (666, 1750, 1500),
        (2000, 1750, 1500),
        (3333, 1750, 1500),
    ];
    assert!(rt; are_open_points(&points, &wanted));
    Ok(())
}

/// A room of 100 m along x and y and 50,001 mm along z at the longest patch edge, with its task points in one row at its far end.
fn widest_room(alloc: Global) -> Room
    ensures { IsAccepted result }
{
    let task = grid((0, 99_998), (100_000, 100_000), 50_001, (1024, 1));
    room_of(
        alloc,
        at(100_000, 100_000, 50_001),
        50_000,
        Vec::new(alloc),
        task,
    )
}

#[test]
fn the_patches_of_a_room_of_100_m(rt: HostRuntime) -> Result<(), Fail> {
    let patches = mesh(rt.alloc(), &widest_room(rt.alloc()))
        .ok()
        .ok_or("mesh")?;
    let ceiling = [
        (50_000, 50_000, 100_002, Face::Down, 2_500_000_000, 520),
        (150_000, 50_000, 100_002, Face::Down, 2_500_000_000, 520),
        (50_000, 150_000, 100_002, Face::Down, 2_500_000_000, 520),
        (150_000, 150_000, 100_002, Face::Down, 2_500_000_000, 520),
    ];
    // 50,001 mm in parts of 25,000 and 25,001
    let south = [
        (50_000, 200_000, 25_000, Face::South, 1_250_000_000, 560),
        (150_000, 200_000, 25_000, Face::South, 1_250_000_000, 560),
        (50_000, 200_000, 75_001, Face::South, 1_250_050_000, 560),
        (150_000, 200_000, 75_001, Face::South, 1_250_050_000, 560),
    ];
    assert_eq!(rt; patches.len(), 24);
    assert!(rt; is_list(&patches[4..8], &ceiling));
    assert!(rt; is_list(&patches[20..], &south));
    Ok(())
}

// (2 i + 1) * 100,000 / 1,024, rounded down
#[test]
fn the_task_points_of_a_room_of_100_m(rt: HostRuntime) -> Result<(), Fail> {
    let points = task_points(rt.alloc(), &widest_room(rt.alloc()))
        .ok()
        .ok_or("points")?;
    let last = [(199_707, 199_998, 100_002), (199_902, 199_998, 100_002)];
    assert_eq!(rt; points.len(), 1024);
    assert!(rt; are_open_points(&points[1022..], &last));
    Ok(())
}

/// A room of 1,000 by 700 by 500 mm at a patch edge of 300: the floor's four columns of 250 and three rows of 233, 233 and 234.
/// Its box has one patch on each side but two on the sides of 400 mm height.
fn uneven_room(alloc: Global) -> Result<Room, Fail>
    ensures { IfOk result IsAccepted }
{
    let blocks = vec![in alloc; block(at(100, 200, 0), at(300, 500, 400))]?;
    let task = grid((0, 0), (1000, 700), 0, (1, 1));
    Ok(room_of(alloc, at(1000, 700, 500), 300, blocks, task))
}

#[test]
fn an_uneven_floor_part_by_part(rt: HostRuntime) -> Result<(), Fail> {
    let patches = mesh(rt.alloc(), &uneven_room(rt.alloc())?)
        .ok()
        .ok_or("mesh")?;
    let wanted = [
        (250, 233, 0, Face::Up, 58_250, 510),
        (750, 233, 0, Face::Up, 58_250, 510),
        (1250, 233, 0, Face::Up, 58_250, 510),
        (1750, 233, 0, Face::Up, 58_250, 510),
        (250, 699, 0, Face::Up, 58_250, 510),
        (750, 699, 0, Face::Up, 58_250, 510),
        (1250, 699, 0, Face::Up, 58_250, 510),
        (1750, 699, 0, Face::Up, 58_250, 510),
        (250, 1166, 0, Face::Up, 58_500, 510),
        (750, 1166, 0, Face::Up, 58_500, 510),
        (1250, 1166, 0, Face::Up, 58_500, 510),
        (1750, 1166, 0, Face::Up, 58_500, 510),
    ];
    // 12 on the floor and the ceiling, 3 * 2 on each x wall, 4 * 2 on each y wall, and 10 on the box
    assert_eq!(rt; patches.len(), 52 + 10);
    assert!(rt; is_list(&patches[..12], &wanted));
    Ok(())
}

#[test]
fn the_sides_of_a_box_part_by_part(rt: HostRuntime) -> Result<(), Fail> {
    let patches = mesh(rt.alloc(), &uneven_room(rt.alloc())?)
        .ok()
        .ok_or("mesh")?;
    let wanted = [
        (400, 700, 0, Face::Down, 60_000, 70),
        (400, 700, 800, Face::Up, 60_000, 70),
        (200, 700, 200, Face::West, 60_000, 70),
        (200, 700, 600, Face::West, 60_000, 70),
        (600, 700, 200, Face::East, 60_000, 70),
        (600, 700, 600, Face::East, 60_000, 70),
        (400, 400, 200, Face::South, 40_000, 70),
        (400, 400, 600, Face::South, 40_000, 70),
        (400, 1000, 200, Face::North, 40_000, 70),
        (400, 1000, 600, Face::North, 40_000, 70),
    ];
    assert_eq!(rt; patches.len(), 52 + 10);
    assert!(rt; is_list(&patches[52..], &wanted));
    Ok(())
}

/// Whether just the wanted task points are covered in a room of 3,000 mm on each edge.
fn are_covered(
    alloc: Global,
    blocks: Vec<Block>,
    task: TaskGrid,
    wanted: &[bool],
) -> Result<bool, Fail>
    requires few { length blocks.items ≤ 64 }
    requires blocks { All (IsBlockIn (record { x = 3000; y = 3000; z = 3000 })) blocks.items }
    requires task { IsTaskIn (record { x = 3000; y = 3000; z = 3000 }) task }
{
    let room = room_of(alloc, at(3000, 3000, 3000), 3000, blocks, task);
    let points = task_points(alloc, &room).ok().ok_or("points")?;
    Ok(
        points.len() == wanted.len()
            && points
                .iter()
                .zip(wanted)
                .all(|(point, covered)| point.covered == *covered),
    )
}

/// The box from 1,000 to 2,000 mm along each axis.
fn middle_block() -> Block
    ensures { result ≡ record { lo = record { x = 1000; y = 1000; z = 1000 }; hi = record { x = 2000; y = 2000; z = 2000 }; reflect = 70 } }
{
    block(at(1000, 1000, 1000), at(2000, 2000, 2000))
}

// at 500, 1,500 and 2,500 mm along x, and 1,500 mm along y and z
#[test]
fn a_point_inside_a_box_is_covered(rt: HostRuntime) -> Result<(), Fail> {
    let blocks = vec![in rt.alloc(); middle_block()]?;
    let task = grid((0, 0), (3000, 3000), 1500, (3, 1));
    assert!(rt; are_covered(rt.alloc(), blocks, task, &[false, true, false])?);
    Ok(())
}

/// Whether the point at 1,500 mm along x and y is covered by the box in the middle, at a height in mm.
fn is_covered_at(alloc: Global, height: u32) -> Result<bool, Fail>
    requires { height ≤ 3000 }
{
    let blocks = vec![in alloc; middle_block()]?;
    let task = grid((1000, 1000), (2000, 2000), height, (1, 1));
    are_covered(alloc, blocks, task, &[true])
}

#[test]
fn a_point_on_the_top_or_the_bottom_of_a_box_is_open(rt: HostRuntime) -> Result<(), Fail> {
    assert!(rt; is_covered_at(rt.alloc(), 1500)?);
    assert!(rt; is_covered_at(rt.alloc(), 1001)?);
    assert!(rt; is_covered_at(rt.alloc(), 1999)?);
    assert!(rt; !is_covered_at(rt.alloc(), 1000)?);
    assert!(rt; !is_covered_at(rt.alloc(), 2000)?);
    Ok(())
}

// The point is at 1,500 mm along x, in the face that both boxes have.
#[test]
fn a_point_between_boxes_that_touch_is_open(rt: HostRuntime) -> Result<(), Fail> {
    let left = block(at(1000, 1000, 1000), at(1500, 2000, 2000));
    let right = block(at(1500, 1000, 1000), at(2000, 2000, 2000));
    let blocks = vec![in rt.alloc(); left, right]?;
    let task = grid((1000, 1000), (2000, 2000), 1500, (1, 1));
    assert!(rt; are_covered(rt.alloc(), blocks, task, &[false])?);
    Ok(())
}

// The points are at 1,100 to 2,100 mm along x, two of them in the first box alone, one in both, two in the second alone.
#[test]
fn overlapping_boxes_cover_what_either_does(rt: HostRuntime) -> Result<(), Fail> {
    let left = block(at(1000, 1000, 1000), at(1600, 2000, 2000));
    let right = block(at(1400, 1000, 1000), at(2000, 2000, 2000));
    let blocks = vec![in rt.alloc(); left, right]?;
    let task = grid((1000, 1000), (2200, 2000), 1500, (6, 1));
    let wanted = [true, true, true, true, true, false];
    assert!(rt; are_covered(rt.alloc(), blocks, task, &wanted)?);
    Ok(())
}
