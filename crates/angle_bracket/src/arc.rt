//! Angles between two ends in whole millionths of a degree.
ghost use Rattle.std.specs.Prelude.{◌≡◌, ◌+◌, ◌-◌, ◌*◌, ◌≤◌, pos};

use fx_base::{Bracket, Micro};

/// The millionths in a degree.
pub const DEGREE: u32 = 1_000_000;

/// An angle between two ends in millionths of a degree.
#[derive(Clone, Copy)]
pub struct Arc {
    pub lo: u32,
    pub hi: u32,
}

/// What the angle leaves of so many degrees: its ends change places.
pub fn taken_from(degrees: u32, angle: Arc) -> Arc
    requires degrees { degrees ≤ 360 }
    requires order { angle.lo ≤ angle.hi }
    requires within { angle.hi ≤ degrees * 1000000 }
    ensures low { result.lo ≡ degrees * 1000000 - angle.hi }
    ensures high { result.hi ≡ degrees * 1000000 - angle.lo }
{
    Arc {
        lo: degrees * DEGREE - angle.hi,
        hi: degrees * DEGREE - angle.lo,
    }
}

/// The angle as a bracket.
pub fn bracket_of(angle: Arc) -> Bracket
    ensures low { result.lo.0 ≡ pos angle.lo }
    ensures high { result.hi.0 ≡ pos angle.hi }
{
    Bracket {
        lo: Micro(angle.lo as i64),
        hi: Micro(angle.hi as i64),
    }
}
