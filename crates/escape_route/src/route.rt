//! A route, and why it isn't served.
use fx_base::Memory;

/// A line on the floor from one end to the other, in mm from the corner of the room.
#[derive(Clone, Copy, Debug, PartialEq, Eq)]
pub struct Route {
    pub x0: u32,
    pub y0: u32,
    pub x1: u32,
    pub y1: u32,
}

/// Why a route isn't served.
#[derive(Clone, Copy, Debug, PartialEq, Eq)]
pub enum RouteFault {
    /// The line lies along neither axis, or an end of it outside of the room.
    Line,
    /// The first number of a marked lamp that isn't below the number of the room's lamps.
    Lamp(u32),
    /// No memory was left.
    Memory,
}

impl From<Memory> for RouteFault {
    ghost use Rattle.std.specs.Prelude.{◌≡◌};
    ghost use Rattle.escape_route.specs.declared.route.RouteFault.TheVariants.{Memory};

    ghost from_gives = { λ _ fault. fault ≡ Memory };

    fn from(_: Memory) -> RouteFault {
        RouteFault::Memory
    }
}
