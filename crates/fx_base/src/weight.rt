//! Weights: shares of light.

/// The share of light that one patch hands on to a place, between two ends in ticks of 2^-36.
#[derive(Clone, Copy, Debug, PartialEq, Eq)]
pub struct Weight {
    pub lo: u64,
    pub hi: u64,
}

impl Weight {
    /// No light at all: the weight of a patch that isn't seen from the place.
    pub const NONE: Weight = Weight { lo: 0, hi: 0 };
}
