//! The angles in which a lamp is seen, in millionths of a degree: of a slope, of a horizontal direction less a lamp's turn, and of
//! a direction from straight down. Each is a bracket that meets the enclosures of the exact angle at every depth. `specs/` has the
//! two angles of a direction, and `laws` says that their enclosures have ends in order.
#![tactic(auto)]

mod arc;
mod direction;
pub mod laws;
mod search;

pub use direction::{gamma, turn_angle};
pub use search::slant;

#[cfg(test)]
mod tests;
