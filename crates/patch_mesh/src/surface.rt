//! The surfaces of a room and of its boxes.
ghost use Rattle.std.specs.Prelude.{◌≡◌, ◌*◌, ◌≤◌, All};
ghost use Rattle.room_layout.specs.Accepted.{IsAccepted, IsBlockIn};
ghost use Rattle.room_layout.specs.Place.{place_of_size, point_of};
ghost use Rattle.patch_mesh.specs.Surfaces.{block_surfaces, first_edge, moved_along, room_surfaces, second_edge};
ghost use Rattle.patch_mesh.specs.Bounds.{IsSurfaceIn, largest_room};

use room_layout::{Block, Face, Point, Room, Size};

/// A rectangle parallel to two of the room's axes, from its lowest to its highest corner in mm, with its reflectance in
/// thousandths. The corners have the same coordinate on the axis along which it faces.
#[derive(Clone, Copy, Debug, PartialEq, Eq)]
pub struct Surface {
    pub face: Face,
    pub lo: Size,
    pub hi: Size,
    pub reflect: u16,
}

fn facing(face: Face, lo: Size, hi: Size, reflect: u16) -> Surface
    ensures { result ≡ record { face = face; lo = lo; hi = hi; reflect = reflect } }
{
    Surface {
        face,
        lo,
        hi,
        reflect,
    }
}

/// The surfaces of the room itself, which face inward.
pub fn room_surfaces(room: &Room) -> [Surface; 6]
    requires { IsAccepted room.now }
    ensures surfaces { result ≡ room_surfaces room.now }
    ensures each { All (IsSurfaceIn largest_room) result }
{
    let Size { x, y, z } = room.size;
    let reflect = room.reflect;
    let near = Size { x: 0, y: 0, z: 0 };
    let far = room.size;
    [
        facing(Face::Up, near, Size { z: 0, ..far }, reflect.floor),
        facing(Face::Down, Size { z, ..near }, far, reflect.ceiling),
        facing(Face::East, near, Size { x: 0, ..far }, reflect.x0),
        facing(Face::West, Size { x, ..near }, far, reflect.x1),
        facing(Face::North, near, Size { y: 0, ..far }, reflect.y0),
        facing(Face::South, Size { y, ..near }, far, reflect.y1),
    ]
}

/// The surfaces of a box, which face outward.
pub fn block_surfaces(block: &Block) -> [Surface; 6]
    requires { IsBlockIn largest_room block.now }
    ensures surfaces { result ≡ block_surfaces block.now }
    ensures each { All (IsSurfaceIn largest_room) result }
{
    let Block { lo, hi, reflect } = *block;
    [
        facing(Face::Down, lo, Size { z: lo.z, ..hi }, reflect),
        facing(Face::Up, Size { z: hi.z, ..lo }, hi, reflect),
        facing(Face::West, lo, Size { x: lo.x, ..hi }, reflect),
        facing(Face::East, Size { x: hi.x, ..lo }, hi, reflect),
        facing(Face::South, lo, Size { y: lo.y, ..hi }, reflect),
        facing(Face::North, Size { y: hi.y, ..lo }, hi, reflect),
    ]
}

/// The edge along the surface's first axis: x, or y for a surface that faces East or West.
pub fn first_edge(s: &Surface) -> u32
    requires { IsSurfaceIn largest_room s.now }
    ensures { result ≡ first_edge s.now }
{
    match s.face {
        Face::Up | Face::Down | Face::North | Face::South => s.hi.x - s.lo.x,
        Face::East | Face::West => s.hi.y - s.lo.y,
    }
}

/// The edge along its second axis: z, or y for a surface that faces Up or Down.
pub fn second_edge(s: &Surface) -> u32
    requires { IsSurfaceIn largest_room s.now }
    ensures { result ≡ second_edge s.now }
{
    match s.face {
        Face::Up | Face::Down => s.hi.y - s.lo.y,
        Face::East | Face::West | Face::North | Face::South => s.hi.z - s.lo.z,
    }
}

/// The point that lies so many half mm from the surface's lowest corner along its two axes.
#[tactic(auto, unfolding(room_layout::specs::Across::across))]
pub fn point_along(s: &Surface, first: u32, second: u32) -> Point
    requires surface { IsSurfaceIn largest_room s.now }
    requires first { first ≤ 2 * first_edge s.now }
    requires second { second ≤ 2 * second_edge s.now }
    ensures { result ≡ point_of (moved_along s.now.face (place_of_size s.now.lo) first second) }
{
    let Size { x, y, z } = s.lo;
    match s.face {
        Face::Up | Face::Down => Point {
            x: (2 * x + first) as i32,
            y: (2 * y + second) as i32,
            z: (2 * z) as i32,
        },
        Face::East | Face::West => Point {
            x: (2 * x) as i32,
            y: (2 * y + first) as i32,
            z: (2 * z + second) as i32,
        },
        Face::North | Face::South => Point {
            x: (2 * x + first) as i32,
            y: (2 * y) as i32,
            z: (2 * z + second) as i32,
        },
    }
}
