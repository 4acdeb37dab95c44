//! The numbers of photometric files, read exactly, and whole numbers of hundredths and of thousandths, spelled as decimals.
#![tactic(auto)]

mod decimals;
mod number;
#[cfg(test)]
mod tests;

pub use decimals::{Hundredths, Thousandths, cents_text, milli_text};
pub use number::{Mark, NumberFault, read_number};
