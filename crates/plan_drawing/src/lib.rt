//! Two plans of a room as figures of an HTML page that are well-formed XML as well: the light at the task points, and the boxes, the
//! lamps and the task area. `pieces` has what writes a text of many pieces.
#![tactic(auto)]

mod captions;
mod figures;
mod frame;
mod lamps;
mod light;
mod metres;
mod pieces;
mod sizes;
mod steps;
mod things;

pub use figures::{push_light, push_things};
pub use metres::{Area, Metres};
pub use pieces::{Pieces, push_pieces};
pub use sizes::numbers_fit;

#[cfg(test)]
mod tests;
