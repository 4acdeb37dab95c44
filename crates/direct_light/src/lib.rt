//! The light that one point of a lamp gives on a plane at a place: by how the lamp shines in that direction, how far away the place is
//! and how the plane lies. A lamp is aimed along an axis of the room: its rectangle lies across the aim, and its directions are those of
//! its own frame.
#![tactic(auto)]

mod angles;
pub mod laws;
mod light;
mod points;
mod share;
mod step;
mod sum;
mod way;

pub use light::{direct, even_light};
pub use points::lamp_points;
pub use sum::together;

#[cfg(test)]
mod tests;
