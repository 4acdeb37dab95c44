//! A uniformity.

/// The least illuminance by the average, in millionths, at most 1,000,000; rounded outward.
#[derive(Clone, Copy, Debug, PartialEq, Eq)]
pub struct Ratio {
    pub lo: u32,
    pub hi: u32,
}
