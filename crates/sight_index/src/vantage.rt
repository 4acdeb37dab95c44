//! What is kept of a place from which sight is asked.
use crate::sides::Sides;
use room_layout::Point;

/// A place in the room of an index, with its masks along each axis. It is made once for each place, by `SightIndex::vantage`.
#[derive(Clone, Copy)]
pub struct Vantage {
    /// The place, in half millimetres.
    pub at: Point,
    pub(crate) x: Sides,
    pub(crate) y: Sides,
    pub(crate) z: Sides,
}
