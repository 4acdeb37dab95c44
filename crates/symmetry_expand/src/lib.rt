//! Symmetry of photometric files: which half-planes C a file stores, and the table of all half-planes that the measured ones stand
//! for.
#![tactic(auto)]

mod expansion;
pub mod laws;
mod steps;
mod symmetry;
mod turn;

pub use expansion::{expand, planes_run};
pub use symmetry::{ExpandFault, Measured, Stored, Symmetry, stored_planes};

#[cfg(test)]
mod tests;
