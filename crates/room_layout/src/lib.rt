//! The layout of a room as TOML text: its size, its surfaces, its boxes, its lamps, its task grid and the limits asked of it.
//! `read_room` gives the room that a text describes, or the first fault in the order of checking.
#![tactic(auto)]

mod blocks;
mod check;
mod fault;
mod geometry;
mod lamps;
pub mod laws;
mod parts;
mod position;
mod read;
mod room;
mod selection;
mod sizes;
#[cfg(test)]
mod tests;
mod version;

pub use check::is_printable;
pub use fault::{Key, RoomFault, Spot};
pub use geometry::{Face, Point, Position, Size};
pub use position::{in_front, position_of, squared_distance};
pub use read::read_room;
pub use room::{
    Block, Blocks, FileUse, FileUses, Lamp, Lamps, Limits, Listed, Name, Reflects, Room, Shine,
    TaskGrid,
};
