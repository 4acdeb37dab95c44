//! The surfaces of a room cut into patches, and the task points at which light is asked for. `mesh` and `task_points` give
//! them in the order in which reports and claims count them.
#![tactic(auto)]

mod cut;
mod grid;
pub mod laws;
mod make;
mod patch;
mod surface;
mod tiling;

pub use grid::task_points;
pub use make::mesh;
pub use patch::{MeshFault, Patch, TaskPoint};

#[cfg(test)]
mod tests;
