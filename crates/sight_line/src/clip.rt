//! How a segment is clipped by the planes of a box.
ghost use Rattle.std.specs.Prelude.{ℕ, ◌+◌, ◌*◌, ◌<◌, ◌≤◌, ◌↔◌, IsTrue};
ghost use Rattle.room_layout.specs.Positions.{place_at};
ghost use Rattle.sight_line.specs.Sight.{DividesWithin};
ghost use Rattle.sight_line.specs.Clip.{IsInside, Narrows, IsOpen, IsLeft, IsWithin};

use crate::window::{Side, WHOLE, WeightRatio, Window};
use room_layout::{Block, Position};

fn is_less(a: WeightRatio, b: WeightRatio) -> bool
    ensures { IsTrue result ↔ (a.over * b.under < b.over * a.under) }
{
    a.over * b.under < b.over * a.under
}

/// The greater of two bounds from below, of which the second has a ratio.
fn greater(bound: WeightRatio, other: WeightRatio) -> WeightRatio
    requires { 0 < other.under }
    ensures { (r s : ℕ) → (r * result.over < s * result.under)
        ↔ ((r * bound.over < s * bound.under) × (r * other.over < s * other.under)) }
{
    if is_less(bound, other) { other } else { bound }
}

/// The lesser of two bounds from above, of which the second isn't 0.
fn lesser(bound: WeightRatio, other: WeightRatio) -> WeightRatio
    requires { 0 < other.over }
    ensures { (r s : ℕ) → (s * result.under < r * result.over)
        ↔ ((s * bound.under < r * bound.over) × (s * other.under < r * other.over)) }
{
    if is_less(other, bound) { other } else { bound }
}

/// What is left of a window inside a face; None where neither end of the segment lies inside it.
fn inside(window: Window, side: Side) -> Option<Window>
    ensures { Narrows window result (λ r s. IsInside side r s) }
{
    if side.from_in > 0 {
        if side.to_in > 0 {
            Some(window)
        } else {
            let leaving = WeightRatio {
                over: side.from_in,
                under: side.to_out,
            };
            Some(Window {
                above: window.above,
                below: lesser(window.below, leaving),
            })
        }
    } else if side.to_in > 0 {
        let entering = WeightRatio {
            over: side.from_out,
            under: side.to_in,
        };
        Some(Window {
            above: greater(window.above, entering),
            below: window.below,
        })
    } else {
        None
    }
}

/// The face at `plane`, in half millimetres, of a box that lies above it.
fn low_side(from: u64, to: u64, plane: u64) -> Side
    requires from { from ≤ 200000 }
    requires to { to ≤ 200000 }
    ensures { (r s : ℕ) → IsInside result r s ↔ ((r + s) * plane < r * from + s * to) }
{
    Side {
        from_in: from.saturating_sub(plane),
        from_out: plane.saturating_sub(from),
        to_in: to.saturating_sub(plane),
        to_out: plane.saturating_sub(to),
    }
}

/// The face at `plane`, in half millimetres, of a box that lies below it.
fn high_side(from: u64, to: u64, plane: u64) -> Side
    requires from { from ≤ 200000 }
    requires to { to ≤ 200000 }
    ensures { (r s : ℕ) → IsInside result r s ↔ (r * from + s * to < (r + s) * plane) }
{
    Side {
        from_in: plane.saturating_sub(from),
        from_out: from.saturating_sub(plane),
        to_in: plane.saturating_sub(to),
        to_out: to.saturating_sub(plane),
    }
}

/// What is left of a window between two planes of one axis, at `lo` and `hi` millimetres.
fn between_planes(window: Window, from: u64, to: u64, lo: u32, hi: u32) -> Option<Window>
    requires from { from ≤ 200000 }
    requires to { to ≤ 200000 }
    ensures { Narrows window result (λ r s. DividesWithin r s from to lo hi) }
{
    let above_low = inside(window, low_side(from, to, 2 * u64::from(lo)))?;
    inside(above_low, high_side(from, to, 2 * u64::from(hi)))
}

/// What of the segment without its ends lies in the open inside of a box; None where both ends lie outside one face, or on it.
pub fn clipped(block: &Block, from: Position, to: Position) -> Option<Window>
    ensures { (r s : ℕ) → IsLeft result r s ↔ IsWithin (place_at from) (place_at to) block.now r s }
{
    let x = between_planes(WHOLE, from.x, to.x, block.lo.x, block.hi.x)?;
    let y = between_planes(x, from.y, to.y, block.lo.y, block.hi.y)?;
    between_planes(y, from.z, to.z, block.lo.z, block.hi.z)
}

/// Whether a point is left.
pub fn is_open(window: Window) -> bool
    ensures { IsTrue result ↔ IsOpen window }
{
    is_less(window.above, window.below)
}
