//! Escape routes: the least and the greatest direct light that some lamps give along a line on the floor, and the ratio of the two.
//! `laws` says what holds of the lines that are printed of it.
#![tactic(auto)]

mod ends;
pub mod laws;
mod light;
mod lines;
mod most;
mod outermost;
mod points;
mod quotient;
mod route;

pub use ends::Extremes;
pub use lines::{RouteLimits, RouteReport, route_report};
pub use most::judge_most;
pub use outermost::extremes;
pub use points::route_points;
pub use quotient::ratio;
pub use route::{Route, RouteFault};

#[cfg(test)]
mod tests;
