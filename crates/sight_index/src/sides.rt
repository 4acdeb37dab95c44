//! Two masks of boxes along an axis.
ghost use Rattle.std.specs.Prelude.{◌≡◌};
ghost use Rattle.sight_index.specs.Slabs.{near_sides};

/// The boxes that have begun at one place of an axis and those that haven't ended at another: bit b of a mask is box b's.
#[derive(Clone, Copy)]
pub struct Sides {
    pub begun: u64,
    pub unended: u64,
}

impl Sides {
    /// The boxes near both places or between them.
    pub fn near(self, other: Sides) -> u64
        ensures { result ≡ near_sides self other }
    {
        (self.begun | other.begun) & (self.unended | other.unended)
    }
}
