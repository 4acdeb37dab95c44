//! The task points of a room.
ghost use Rattle.std.specs.Prelude.{◌≡◌, ◌+◌, ◌*◌, ◌/◌, ◌<◌, ◌≤◌, ◌++◌, All, IfOk, OnOk, map, vec_len};
ghost use Rattle.std.specs.List.{list_any};
ghost use Rattle.room_layout.specs.Accepted.{IsAccepted, IsBlockIn};
ghost use Rattle.room_layout.specs.Place.{middle_of_part};
ghost use Rattle.patch_mesh.specs.Bounds.{IsTaskPointIn, largest_room};
ghost use Rattle.patch_mesh.specs.Cuts.{below};
ghost use Rattle.patch_mesh.specs.TaskPoints.{is_between, is_inside, task_point, task_points};

use crate::patch::TaskPoint;
use fx_base::Memory;
use room_layout::{Block, Point, Room};
use std::alloc::Global;

/// The middle, in half mm, of part `i` of an edge in mm that is cut into equal parts.
#[tactic(auto, using(crate::proofs::CutLaws::middles))]
fn middle_of(from: u32, to: u32, parts: u32, i: u32) -> u32
    requires edge { from ≤ to }
    requires most { to ≤ 100000 }
    requires parts { parts ≤ 1024 }
    requires part { i < parts }
    ensures middle { result ≡ middle_of_part from to parts i }
    ensures within { result ≤ 2 * to }
{
    2 * from + (2 * i + 1) * (to - from) / parts
}

/// Whether a coordinate in half mm lies between two in mm, and at neither.
fn is_between(lo: u32, hi: u32, n: u32) -> bool
    requires low { lo ≤ 100000 }
    requires high { hi ≤ 100000 }
    ensures { result ≡ is_between lo hi n }
{
    2 * lo < n && n < 2 * hi
}

/// Whether a place in half mm lies in the open inside of a box.
fn is_inside(block: &Block, x: u32, y: u32, z: u32) -> bool
    requires { IsBlockIn largest_room block.now }
    ensures { result ≡ is_inside (record { x = x; y = y; z = z }) block.now }
{
    let lo = block.lo;
    let hi = block.hi;
    is_between(lo.x, hi.x, x) && is_between(lo.y, hi.y, y) && is_between(lo.z, hi.z, z)
}

/// Whether a place in half mm lies in the open inside of one of these boxes.
fn is_covered(blocks: &[Block], x: u32, y: u32, z: u32) -> bool
    requires { All (IsBlockIn largest_room) blocks.now }
    ensures { result ≡ list_any (is_inside (record { x = x; y = y; z = z })) blocks.now }
{
    blocks.iter().any(|block| is_inside(block, x, y, z))
}

/// The task point in column `i` of row `j`.
#[tactic(auto, using(crate::proofs::CutLaws::grids), unfolding(crate::specs::TaskPoints::task_point, room_layout::specs::Place::task_place))]
fn task_point(room: &Room, j: u32, i: u32) -> TaskPoint
    requires accepted { IsAccepted room.now }
    requires row { j < room.now.task.ny }
    requires column { i < room.now.task.nx }
    ensures { result ≡ task_point room.now j i }
{
    let task = room.task;
    let x = middle_of(task.from_x, task.to_x, task.nx, i);
    let y = middle_of(task.from_y, task.to_y, task.ny, j);
    let z = 2 * task.height;
    TaskPoint {
        at: Point {
            x: x as i32,
            y: y as i32,
            z: z as i32,
        },
        covered: is_covered(room.blocks.as_slice(), x, y, z),
    }
}

/// Puts the points of row `j` at the end of the list.
fn put_row(points: &mut Vec<TaskPoint>, room: &Room, j: u32) -> Result<(), Memory>
    requires accepted { IsAccepted room.now }
    requires row { j < room.now.task.ny }
    ensures { OnOk result (points.new.items ≡ points.old.items ++ map (task_point room.now j) (below room.now.task.nx)) }
{
    for i in 0..room.task.nx {
        points.push(task_point(room, j, i))?;
    }
    Ok(())
}

/// The task points of a room, by row, then by column: each in the middle of its part of the task rectangle, rounded down to half
/// a millimetre, and facing up. A point is covered where it lies in the open inside of a box.
pub fn task_points(alloc: Global, room: &Room) -> Result<Vec<TaskPoint>, Memory>
    requires accepted { IsAccepted room.now }
    ensures points { IfOk result (λ v. v.items ≡ task_points room.now) }
    ensures count { IfOk result (λ v. vec_len v ≡ room.now.task.nx * room.now.task.ny) }
    ensures each { IfOk result (λ v. All (IsTaskPointIn room.now.size) v.items) }
    ensures reach { IfOk result (λ v. All (IsTaskPointIn largest_room) v.items) }
{
    let mut points = Vec::new(alloc);
    for j in 0..room.task.ny {
        put_row(&mut points, room, j)?;
    }
    Ok(points)
}
