//! The axes of a room.
ghost use Rattle.std.specs.Prelude.{◌≡◌};
ghost use Rattle.sight_index.specs.Slabs.{along};

use room_layout::Size;

/// An axis of the room.
#[derive(Clone, Copy)]
pub enum Axis {
    X,
    Y,
    Z,
}

impl Axis {
    /// What a size has along this axis.
    pub fn of(self, size: Size) -> u32
        ensures { result ≡ along self size }
    {
        match self {
            Axis::X => size.x,
            Axis::Y => size.y,
            Axis::Z => size.z,
        }
    }
}
