//! The report of a room as one page of HTML that stands alone: no script, font or picture from elsewhere. `laws` says what holds of
//! text from outside in it.
#![tactic(auto)]

mod account;
mod cards;
mod escape;
mod files;
mod fixed;
mod lamps;
pub mod laws;
mod opening;
mod page;
mod points;
mod style;
mod surfaces;
#[cfg(test)]
mod tests;

pub use account::KIT;
pub use page::page_text;
