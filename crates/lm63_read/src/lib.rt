//! IES LM-63 files with type C photometry, read to intensity tables.
#![tactic(auto)]

mod angles;
mod fault;
mod head;
mod items;
pub mod laws;
mod numbers;
mod read;
mod sizes;
mod table;
#[cfg(test)]
mod tests;
mod values;

pub use fault::IesFault;
pub use read::read_ies;
