//! A room as a system of radiosity equations in intervals: its patches, its task points, the weights between them and the light that
//! falls on each from the lamps. And what bounds of the light of the patches make of it: the values at the task points, and their average.
#![tactic(auto)]

mod assembly;
mod direct;
mod fault;
mod grid;
mod lamps;
pub mod laws;
mod light;
mod limits;
mod lists;
mod receiver;
mod scene;
mod sight;
mod sources;
mod sums;
mod value;
mod weights;

pub use assembly::assemble;
pub use fault::SceneFault;
pub use grid::points;
pub use scene::Scene;
pub use sums::average;
pub use value::PointValue;

#[cfg(test)]
mod tests;
