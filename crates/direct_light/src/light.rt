//! The light that one point of a lamp gives on a plane.
ghost use Rattle.std.specs.Prelude.{◌≡◌, ℕ, ◌+◌, ◌*◌, ◌<◌, ◌≤◌, ◌≤ℤ◌, pos};
ghost use Rattle.fx_base.specs.Fraction.{half_power, whole};
ghost use Rattle.fx_base.specs.Interval.{Meets, LiesIn, exact, outward};
ghost use Rattle.fx_base.specs.Units.{natural, of_span, ticks};
ghost use Rattle.room_layout.specs.Place.{place_of};
ghost use Rattle.room_layout.specs.Positions.{IsInReach};
ghost use Rattle.photo_table.specs.Kept.{IsGreatest};
ghost use Rattle.photo_table.specs.Laws.{StandsFor};
ghost use Rattle.photo_table.specs.Table.{Table, upper};
ghost use Rattle.direct_light.specs.Directions.{loose_seen, seen};
ghost use Rattle.direct_light.specs.Found.{greatest_intensity, most_light};
ghost use Rattle.direct_light.specs.Lamps.{IsLamp, part_count};
ghost use Rattle.direct_light.specs.Shares.{loosened, share_of};
ghost use Rattle.direct_light.specs.Ways.{IsDark};

use crate::angles::angles_towards;
use crate::share::share;
use crate::way::way_to;
use fx_base::Span;
use photo_table::PhotoTable;
use room_layout::{Face, Lamp, Point};
use series_enclose::TangentTable;

/// The points of a lamp.
#[tactic(auto, using(crate::proofs::PointLists::counts))]
fn part_count(lamp: &Lamp) -> u64
    requires lamp { IsLamp lamp.now }
    ensures count { result ≡ part_count lamp.now }
    ensures some { 0 < result }
    ensures few { result ≤ 64 }
{
    lamp.split_x as u64 * lamp.split_y as u64
}

/// The light, in ticks of a lux, that one point of a lamp gives on the plane at a place that faces so, where the lamp shines with so
/// many candela in every direction: 0 where the point isn't in front of the plane, or the way to it isn't clear.
pub fn even_light(
    candela: u32,
    lamp: &Lamp,
    from: Point,
    at: Point,
    face: Face,
    clear: bool,
) -> Span
    requires candela { candela ≤ 10000000 }
    requires lamp { IsLamp lamp.now }
    requires from { IsInReach from }
    requires at { IsInReach at }
    ensures meets { (n : ℕ) → Meets (of_span result) (share_of n (exact (whole candela)) lamp.now (place_of from) (place_of at) face clear) }
    ensures near { (n : ℕ) → LiesIn (of_span result) (loosened (share_of n (outward (half_power 30) (exact (whole candela))) lamp.now (place_of from) (place_of at) face clear)) }
    ensures dark { IsDark (place_of from) (place_of at) face clear → (result.lo ≡ pos 0) × (result.hi ≡ pos 0) }
    ensures low { pos 0 ≤ℤ result.lo }
    ensures most { natural result.hi * part_count lamp.now ≤ candela * 68719476736 * 4000000 + 2 * part_count lamp.now }
{
    match way_to(from, at, face, clear) {
        None => Span::whole(0),
        Some(way) => {
            let intensity = Span::whole(candela as u64);
            share(
                intensity,
                lamp.maintenance,
                way.ahead,
                way.squared,
                part_count(lamp),
            )
        }
    }
}

/// The light, in ticks of a lux, that one point of a lamp gives on the plane at a place that faces so, where the lamp shines as the
/// table of its file says: 0 where the point isn't in front of the plane, or the way to it isn't clear.
pub fn direct(
    table: &TangentTable,
    photo: &PhotoTable,
    lamp: &Lamp,
    from: Point,
    at: Point,
    face: Face,
    clear: bool,
) -> Span
    requires lamp { IsLamp lamp.now }
    requires from { IsInReach from }
    requires at { IsInReach at }
    ensures meets { (t : Table) → StandsFor photo.now t → (n : ℕ) → Meets (of_span result) (share_of n (seen n t lamp.now (place_of from) (place_of at)) lamp.now (place_of from) (place_of at) face clear) }
    ensures near { (t : Table) → StandsFor photo.now t → (n : ℕ) → LiesIn (of_span result) (loosened (share_of n (loose_seen n t lamp.now (place_of from) (place_of at)) lamp.now (place_of from) (place_of at) face clear)) }
    ensures dark { IsDark (place_of from) (place_of at) face clear → (result.lo ≡ pos 0) × (result.hi ≡ pos 0) }
    ensures low { pos 0 ≤ℤ result.lo }
    ensures most { (m : ℕ) → IsGreatest upper photo.now (ticks m) → natural result.hi * part_count lamp.now ≤ (m + 1) * 4000000 + 2 * part_count lamp.now }
    ensures bright { natural result.hi * part_count lamp.now ≤ most_light greatest_intensity (part_count lamp.now) }
{
    let Some(way) = way_to(from, at, face, clear) else {
        return Span::whole(0);
    };
    let angles = angles_towards(table, lamp, from, at);
    let intensity = photo.hull(angles.c, angles.gamma);
    share(
        intensity,
        lamp.maintenance,
        way.ahead,
        way.squared,
        part_count(lamp),
    )
}
