//! Numbers of known error: ticks of 2^-36, spans of two ticks that hold an exact value between them, and the roundings outward
//! that keep it there. `specs/` has the fractions and intervals in which every theorem of Lux is stated.
#![tactic(auto)]

mod cents;
pub mod laws;
mod memory;
mod micro;
mod share;
mod span;
#[cfg(test)]
mod tests;
mod tick;
mod weight;

pub use cents::{ceil_cent, ceil_thousandth, floor_cent};
pub use memory::Memory;
pub use micro::{Bracket, MICROS_IN_DEGREE, MICROS_IN_TURN, Micro};
pub use share::{end_ticks, share_above, share_below};
pub use span::Span;
pub use tick::{TICKS_IN_ONE, Tick, magnitude, tick_of};
pub use weight::Weight;
