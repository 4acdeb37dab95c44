//! Intensities of a lamp by direction: a table of spans of candela over half-planes C and gammas, interpolated in straight lines,
//! and the hull of its intensities over a bracket of C and one of gamma.
#![tactic(auto)]

mod even;
mod grid;
pub mod laws;
mod part;
mod search;
mod summary;
mod table;

pub use summary::summary_text;
pub use table::PhotoTable;

#[cfg(test)]
mod tests;
