//! Segments against boxes: a sight line is blocked exactly where some point of it lies in the open inside of a box, so a segment along
//! a face, or one that touches an edge or a corner, is clear.
#![tactic(auto)]

mod clip;
pub mod laws;
mod sight;
#[cfg(test)]
mod tests;
mod window;

pub use sight::{blocked_by, meets_block};
