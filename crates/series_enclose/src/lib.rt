//! Pi, sines and cosines as spans of ticks. The definitions in `specs/` enclose each of them at every depth n by the first terms
//! of its series, and the angle of a slope by multiples of 2^-n degrees; each span meets its enclosure at every depth. `laws` says
//! that the enclosures nest and narrow, and that their ends are sums in which nothing is cut at 0.
#![tactic(auto)]

mod angle;
mod arc;
mod bounds;
pub mod laws;
mod pi;
mod table;
mod turns;

pub use angle::{cos_span, sin_span};
pub use pi::pi_span;
pub use table::TangentTable;

#[cfg(test)]
mod tests;
