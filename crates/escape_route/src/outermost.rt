//! The least and the greatest light of several points.
ghost use Rattle.std.specs.Prelude.{◌≡◌, ◌<◌, ◌≤◌, All, IfOk, length, max, min};
ghost use Rattle.fx_base.specs.Units.{natural};
ghost use Rattle.room_layout.specs.Accepted.{IsAccepted};
ghost use Rattle.room_layout.specs.Positions.{IsInReach};
ghost use Rattle.escape_route.specs.Found.{AreExtremes};
ghost use Rattle.escape_route.specs.Ratios.{IsLight};

use crate::ends::Extremes;
use crate::light::light_at;
use fx_base::{Memory, Span, magnitude, tick_of};
use photo_table::PhotoTable;
use room_layout::{Point, Room};
use series_enclose::TangentTable;
use std::alloc::Global;

/// From the lesser of the lower ends to the lesser of the upper ends.
fn lesser(a: Span, b: Span) -> Span
    requires a { IsLight a }
    requires b { IsLight b }
    ensures low { natural result.lo ≡ min (natural a.lo) (natural b.lo) }
    ensures high { natural result.hi ≡ min (natural a.hi) (natural b.hi) }
    ensures light { IsLight result }
{
    let lo = magnitude(a.lo()).min(magnitude(b.lo()));
    let hi = magnitude(a.hi()).min(magnitude(b.hi()));
    Span::new(tick_of(lo), tick_of(hi))
}

/// From the greater of the lower ends to the greater of the upper ends.
fn greater(a: Span, b: Span) -> Span
    requires a { IsLight a }
    requires b { IsLight b }
    ensures low { natural result.lo ≡ max (natural a.lo) (natural b.lo) }
    ensures high { natural result.hi ≡ max (natural a.hi) (natural b.hi) }
    ensures light { IsLight result }
{
    let lo = magnitude(a.lo()).max(magnitude(b.lo()));
    let hi = magnitude(a.hi()).max(magnitude(b.hi()));
    Span::new(tick_of(lo), tick_of(hi))
}

/// The least and the greatest direct light of the lamps with these numbers at the points, on the floor that faces up, where `photos`
/// are the tables of the room's files, in their order. They meet the exact ones at every depth, whichever exact tables were rounded to
/// `photos`, and lie in the loose ones. Memory: none was left.
pub fn extremes(
    alloc: Global,
    table: &TangentTable,
    room: &Room,
    photos: &[PhotoTable],
    points: &[Point],
    lamps: &[u32],
) -> Result<Extremes, Memory>
    requires accepted { IsAccepted room.now }
    requires photos { length photos.now ≡ length room.now.files }
    requires some { 0 < length points.now }
    requires points { All IsInReach points.now }
    requires marked { All (λ k. k < length room.now.lamps) lamps.now }
    requires few { length lamps.now ≤ 16 }
    ensures extremes { IfOk result (λ e. AreExtremes photos.now room.now lamps.now points.now e) }
    ensures least { IfOk result (λ e. IsLight e.least) }
    ensures greatest { IfOk result (λ e. IsLight e.greatest) }
{
    let mut least = light_at(alloc, table, room, photos, lamps, points[0])?;
    let mut greatest = least;
    for k in 1..points.len() {
        let light = light_at(alloc, table, room, photos, lamps, points[k])?;
        least = lesser(least, light);
        greatest = greater(greatest, light);
    }
    Ok(Extremes { least, greatest })
}
