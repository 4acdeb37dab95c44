//! The radiosity equations of a scene in intervals of ticks, and the definitions of what their numbers mean.
#![tactic(auto)]

mod row;
mod sent;
mod system;

pub use row::Row;
pub use system::{Heavy, IntervalSystem};

#[cfg(test)]
mod tests;
