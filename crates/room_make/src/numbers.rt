//! Numbers, spelled as the arrays of a layout.
ghost use Rattle.std.specs.Prelude.{Some};
ghost use Rattle.room_make.specs.Room.{pair, triple};

use std::fmt;

/// Two numbers, as `[3, 2]`.
#[derive(Clone, Copy, Debug)]
pub struct Pair(pub u32, pub u32);

/// Three numbers, as `[2800, 2600, 2500]`.
#[derive(Clone, Copy, Debug)]
pub struct Triple(pub u32, pub u32, pub u32);

impl fmt::Display for Pair {
    ghost output = { λ p. Some (pair p.0 p.1) };

    #[tactic(auto, unfolding(crate::specs::Room::pair))]
    fn fmt<W: fmt::Write>(&self, f: &mut fmt::Formatter<W>) -> fmt::Result {
        write!(f, "[{}, {}]", self.0, self.1)
    }
}

impl fmt::Display for Triple {
    ghost output = { λ t. Some (triple t.0 t.1 t.2) };

    #[tactic(auto, unfolding(crate::specs::Room::triple))]
    fn fmt<W: fmt::Write>(&self, f: &mut fmt::Formatter<W>) -> fmt::Result {
        write!(f, "[{}, {}, {}]", self.0, self.1, self.2)
    }
}
