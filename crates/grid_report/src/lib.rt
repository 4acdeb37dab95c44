//! The uniformity of the values at task points, and the report of them.
#![tactic(auto)]

mod evenness;
pub mod laws;
mod ratio;
mod results;
#[cfg(test)]
mod tests;
mod text;

pub use evenness::uniformity;
pub use ratio::Ratio;
pub use report_form::{Ends, Points, Printed, Report};
pub use results::{ends, report};
pub use scene_system::{PointValue, average, points};
pub use text::{grid_text, report_text};
