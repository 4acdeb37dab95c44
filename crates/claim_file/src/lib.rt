//! Claims on the light of the patches as CSV: the text of bounds, and bounds read from a text that anyone may have written.
#![tactic(auto)]

mod entry;
mod fault;
mod field;
pub mod laws;
mod read;
mod rows;
#[cfg(test)]
mod tests;
mod write;

pub use entry::number_in;
pub use fault::ClaimFault;
pub use read::read_claim;
pub use rows::{Taken, take_record};
pub use write::claim_text;
