//! What a report of a room's task points says, as a value, and how it is spelled: as lines, and as a grid of comma-separated values.
#![tactic(auto)]

mod grid;
mod judged;
pub mod laws;
mod lines;
mod report;
#[cfg(test)]
mod tests;

pub use grid::grid_text;
pub use judged::Ends;
pub use lines::{overall_text, report_text};
pub use report::{Points, Printed, Report};
