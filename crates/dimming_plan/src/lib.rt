//! Dimming plans: lamps in up to six groups, each at a step of 0 to 10 tenths, and the plans of least power that reach an average.
#![tactic(auto)]

mod entry;
mod fault;
mod file;
mod groups;
mod lamps;
pub mod laws;
mod lines;
mod plans;
mod power;
mod rooms;
#[cfg(test)]
mod tests;

pub use entry::PlanLamp;
pub use fault::PlanFault;
pub use file::read_plan;
pub use groups::{GroupFault, group_average};
pub use lamps::{group_watts, members};
pub use lines::plan_text;
pub use power::{Found, Group, PowerBracket, least_power};
pub use rooms::power_bracket;
