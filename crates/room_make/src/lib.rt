//! Rooms made by number, for trials of a stated size.
#![tactic(auto)]

mod make;
mod numbers;
#[cfg(test)]
mod tests;

pub use make::make_room;
