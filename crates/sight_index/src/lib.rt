//! Sight lines through cells: the boxes of a room, kept by 16 by 16 by 16 cells, so that a sight line asks only the boxes near it. A box
//! is near where its bounds and those of the segment touch a common cell.
//!
//! Cells are products of slabs, 16 along each axis, and nearness is one too. So an index keeps masks of slabs, a place has its own masks,
//! made once, and the boxes near a segment are found from the masks of its two ends without a look at any cell.
#![tactic(auto)]

mod axis;
mod index;
pub mod laws;
mod look;
mod probe;
mod sides;
mod slabs;
mod vantage;

pub use index::SightIndex;
pub use probe::{BlockProbe, Probe};
pub use vantage::Vantage;

#[cfg(test)]
mod tests;
