//! How much of a patch's light reaches another patch or a point: coefficients as weights in ticks that meet, at every depth,
//! what the enclosures of pi give.
#![tactic(auto)]

pub mod laws;
mod pi_ends;
mod position;
mod quotient;
mod reach;
mod weigh;

pub use reach::{factor, point_factor};
pub use room_layout::{Position, in_front, position_of, squared_distance};

#[cfg(test)]
mod tests;
