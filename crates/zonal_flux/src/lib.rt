//! The luminous flux that the intensities of a table send downward, upward and in all, by the method of zonal lumens: in each of 36
//! zones of gamma, 5 degrees wide, the mean intensity round the vertical times the zone's solid angle. `laws` says what holds of the
//! lines that are printed of it.
#![tactic(auto)]

mod fluxes;
pub mod laws;
mod lines;
mod means;
mod zones;

pub use fluxes::{Flux, zonal};
pub use lines::flux_text;
pub use zones::zone_constant;

#[cfg(test)]
mod tests;
