//! How far two places lie in front of each other.
ghost use Rattle.std.specs.Prelude.{◌≡◌};
ghost use Rattle.room_layout.specs.Positions.{place_at};
ghost use Rattle.form_factor.specs.Coefficient.{fronts};

use room_layout::{Face, Position, in_front};

/// The distances of two places in front of each other's planes, multiplied: 0 where one of them isn't in front.
#[tactic(auto, using(crate::proofs::Apart::products), unfolding(crate::specs::Coefficient::fronts))]
pub fn fronts(p: &Position, f: Face, q: &Position, g: Face) -> u64
    ensures { result ≡ fronts (place_at p.now) f (place_at q.now) g }
{
    in_front(f, p, q) * in_front(g, q, p)
}
