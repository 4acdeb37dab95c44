//! Bounds of the solution of an interval system, each shown by one multiplication. An unproved guide leads to them in a few turns;
//! where it doesn't, iterations from 0 upward and from 2^90 ticks downward do.
#![tactic(auto)]

mod bounds;
mod claim;
mod fault;
mod guide;
pub mod laws;
mod narrow;
mod numbers;
mod side;
mod trial;
mod turn;

pub use bounds::{Bounds, solve};
pub use claim::holds;
pub use fault::SolveFault;

#[cfg(test)]
mod fork_tests;
#[cfg(test)]
mod tests;
#[cfg(test)]
mod trial_tests;
