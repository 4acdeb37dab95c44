//! Whether the limits on the average and the uniformity of a room's task points are met, by the printed ends alone.
#![tactic(auto)]

pub mod laws;
mod limits;
#[cfg(test)]
mod tests;
mod text;
mod verdict;

pub use limits::verdicts;
pub use text::verdict_text;
pub use verdict::{Verdict, Verdicts, judge};
