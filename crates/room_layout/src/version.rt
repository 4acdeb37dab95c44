//! The versions of the layout.
ghost use Rattle.std.specs.Prelude.{◌≡◌};
ghost use Rattle.room_layout.specs.Layout.{longest_edge};

/// A version of the layout. In version 2 a room's edges are up to 100 m, and a lamp may shine along any axis.
#[derive(Clone, Copy, Debug, PartialEq, Eq)]
pub enum Version {
    One,
    Two,
}

impl Version {
    /// The longest edge of a room, in millimetres, and so the greatest coordinate.
    pub fn longest_edge(self) -> u32
        ensures { result ≡ longest_edge self }
    {
        match self {
            Version::One => 50_000,
            Version::Two => 100_000,
        }
    }
}
