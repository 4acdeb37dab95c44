//! Places in half mm, as whole numbers, and how they lie to one another.
ghost use Rattle.std.specs.Prelude.{◌≡◌, ◌*◌, ◌≤◌, ◌≤ℤ◌, nat_abs, pos};
ghost use Rattle.room_layout.specs.Place.{apart, in_front, place_of, squared_distance};
ghost use Rattle.room_layout.specs.Positions.{IsInReach, place_at};

use crate::geometry::{Face, Point, Position};

fn coordinate(c: i32) -> u64
    requires { pos 0 ≤ℤ c }
    ensures { result ≡ nat_abs c }
{
    c as u64
}

/// The place of a point.
pub fn position_of(p: Point) -> Position
    requires { IsInReach p }
    ensures place { place_at result ≡ place_of p }
{
    Position {
        x: coordinate(p.x),
        y: coordinate(p.y),
        z: coordinate(p.z),
    }
}

/// How far `q` lies in front of the plane through `p` with this face, in half mm, and 0 where it doesn't.
#[tactic(auto, unfolding(crate::specs::Place::in_front))]
pub fn in_front(face: Face, p: &Position, q: &Position) -> u64
    ensures front { result ≡ in_front face (place_at p.now) (place_at q.now) }
    ensures most { result ≤ 200000 }
{
    match face {
        Face::Up => q.z.saturating_sub(p.z),
        Face::Down => p.z.saturating_sub(q.z),
        Face::East => q.x.saturating_sub(p.x),
        Face::West => p.x.saturating_sub(q.x),
        Face::North => q.y.saturating_sub(p.y),
        Face::South => p.y.saturating_sub(q.y),
    }
}

/// The square of the difference of two coordinates.
#[tactic(auto, using(crate::proofs::Apart::squares))]
fn squared(a: u64, b: u64) -> u64
    requires a { a ≤ 200000 }
    requires b { b ≤ 200000 }
    ensures square { result ≡ apart a b * apart a b }
    ensures most { result ≤ 40000000000 }
{
    let apart = a.abs_diff(b);
    apart * apart
}

/// The square of the distance, in square half mm.
#[tactic(auto, unfolding(crate::specs::Place::squared_distance))]
pub fn squared_distance(p: &Position, q: &Position) -> u64
    ensures square { result ≡ squared_distance (place_at p.now) (place_at q.now) }
    ensures most { result ≤ 120000000000 }
{
    squared(p.x, q.x) + squared(p.y, q.y) + squared(p.z, q.z)
}
