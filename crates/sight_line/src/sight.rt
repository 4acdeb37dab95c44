//! The sight line between two points.
ghost use Rattle.std.specs.Prelude.{ℕ, ◌≡◌, ◌<◌, ◌↔◌, IsTrue, MatchOption, is_some};
ghost use Rattle.room_layout.specs.Place.{place_of};
ghost use Rattle.room_layout.specs.Positions.{IsInReach, place_at};
ghost use Rattle.sight_line.specs.Sight.{MeetsBox, NoneMet, IsFirstMet, meets_box, is_blocked};

use crate::clip::{clipped, is_open};
use room_layout::{Block, Point, Position, position_of};

/// Whether the segment between two points meets a box.
fn is_met(block: &Block, from: Position, to: Position) -> bool
    ensures met { IsTrue result ↔ MeetsBox (place_at from) (place_at to) block.now }
    ensures test { result ≡ meets_box (place_at from) (place_at to) block.now }
{
    match clipped(block, from, to) {
        Some(window) => is_open(window),
        None => false,
    }
}

/// Whether some point of the closed segment from `from` to `to` lies in the open inside of the box.
pub fn meets_block(block: &Block, from: Point, to: Point) -> bool
    requires from { IsInReach from }
    requires to { IsInReach to }
    ensures met { IsTrue result ↔ MeetsBox (place_of from) (place_of to) block.now }
    ensures test { result ≡ meets_box (place_of from) (place_of to) block.now }
{
    is_met(block, position_of(from), position_of(to))
}

/// The index of the first box whose open inside holds a point of the closed segment from `from` to `to`; None exactly where there is
/// none. Each box is asked at most once. The coordinates of both points are at most 200,000 half millimetres.
pub fn blocked_by(blocks: &[Block], from: Point, to: Point) -> Option<usize>
    requires from { IsInReach from }
    requires to { IsInReach to }
    ensures first { MatchOption result
        (NoneMet blocks.now (place_of from) (place_of to))
        (λ k. IsFirstMet blocks.now (place_of from) (place_of to) k) }
    ensures test { is_some result ≡ is_blocked blocks.now (place_of from) (place_of to) }
{
    let from = position_of(from);
    let to = position_of(to);
    for (k, block) in blocks.iter().enumerate() {
        if is_met(block, from, to) {
            return Some(k);
        }
    }
    None
}
