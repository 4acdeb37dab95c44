//! Fork and join over rows: a job fills each row of a list by its index, by as many threads as the rows are cut into, and what stands
//! in a row afterwards is what the job's relation says of it alone.
#![tactic(auto)]

mod fill;
mod gate;
mod job;
#[cfg(test)]
mod tests;

pub use fill::fill_rows;
pub use gate::{Gate, OpenGate};
pub use job::RowJob;
