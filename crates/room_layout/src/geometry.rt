//! Points, sizes and faces. A face is parallel to two axes of the room.
ghost use Rattle.std.specs.Prelude.{◌≡◌, ◌≤◌};
ghost use Rattle.room_layout.specs.Across.{across};

/// A point in the room, in half millimetres from the corner where floor, wall x = 0 and wall y = 0 meet.
#[derive(Clone, Copy, Debug, PartialEq, Eq)]
pub struct Point {
    pub x: i32,
    pub y: i32,
    pub z: i32,
}

/// A place in half mm from the corner where floor, wall x = 0 and wall y = 0 meet. It lies within 200,000 half mm, which is 100 m,
/// of that corner along each axis, so that products of two distances fit 64 bits.
#[derive(Clone, Copy)]
pub struct Position {
    pub x: u64,
    pub y: u64,
    pub z: u64,
    pub ghost x_in_reach: { x ≤ 200000 },
    pub ghost y_in_reach: { y ≤ 200000 },
    pub ghost z_in_reach: { z ≤ 200000 },
}

/// A room's edges, or a place in a room, in millimetres.
#[derive(Clone, Copy, Debug, PartialEq, Eq)]
pub struct Size {
    pub x: u32,
    pub y: u32,
    pub z: u32,
}

/// Where a surface faces, by the axis along its normal: +z, -z, +x, -x, +y and -y.
#[derive(Clone, Copy, Debug, PartialEq, Eq)]
pub enum Face {
    Up,
    Down,
    East,
    West,
    North,
    South,
}

impl Face {
    /// What a rectangle that faces so measures along x, y and z, or into how many parts it is cut there: `first` and `second` along
    /// the two axes across the normal, in the order x, y, z, and `along` along the normal.
    #[tactic(auto, unfolding(crate::specs::Across::across))]
    pub fn across(self, first: u32, second: u32, along: u32) -> Size
        ensures { result ≡ across self first second along }
    {
        let (x, y, z) = match self {
            Face::Up | Face::Down => (first, second, along),
            Face::East | Face::West => (along, first, second),
            Face::North | Face::South => (first, along, second),
        };
        Size { x, y, z }
    }
}
