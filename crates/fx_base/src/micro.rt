//! Angles in millionths of a degree.

/// A number of millionths, of a degree where it is an angle.
#[derive(Clone, Copy, Debug, PartialEq, Eq, PartialOrd, Ord)]
pub struct Micro(pub i64);

/// How many millionths of a degree a degree has.
pub const MICROS_IN_DEGREE: u32 = 1_000_000;

/// How many millionths of a degree a whole turn has.
pub const MICROS_IN_TURN: u32 = 360 * MICROS_IN_DEGREE;

/// An angle between two ends in millionths of a degree.
#[derive(Clone, Copy, Debug, PartialEq, Eq)]
pub struct Bracket {
    pub lo: Micro,
    pub hi: Micro,
}
