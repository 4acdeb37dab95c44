//! The angles C and gamma of a direction, by octants and quarters from the angle of a slope.
ghost use Rattle.std.specs.Prelude.{◌≡◌, ℕ, ◌+◌, ◌*◌, ◌^◌, ◌<◌, ◌≤◌, ◌+ℤ◌, ◌≤ℤ◌, ◌<ℤ◌, pos, IsTrue, unsigned_abs};
ghost use Rattle.fx_base.specs.Interval.{Interval, Meets, MeetsOnCircle};
ghost use Rattle.fx_base.specs.Units.{of_bracket, micros_between};
ghost use Rattle.angle_bracket.specs.Direction.{square as square_of, quarter_angle as quarter_angle_of, in_quarter as in_quarter_of, less_turn, brought, direction_c, direction_gamma};

use crate::arc::{Arc, DEGREE, bracket_of, taken_from};
use crate::search::slope_angle;
use fx_base::Bracket;
use series_enclose::TangentTable;

/// A whole turn, in millionths of a degree.
const TURN: u32 = 360 * DEGREE;

/// The square of a coordinate.
fn square(d: i32) -> u64
    requires { unsigned_abs d ≤ 200000 }
    ensures value { result ≡ square_of d }
    ensures below { result ≤ 40000000000 }
{
    let size = d.unsigned_abs() as u64;
    size * size
}

/// The angle, 0 to 90 degrees, whose squared tangent is `y / x`.
fn quarter_angle(table: &TangentTable, x: u64, y: u64) -> Arc
    requires some { 0 < x + y }
    requires x { x < 2 ^ 40 }
    requires y { y < 2 ^ 40 }
    ensures meets { (n : ℕ) → Meets (micros_between result.lo result.hi) (quarter_angle_of n x y) }
    ensures narrow { result.hi ≤ result.lo + 250 }
    ensures order { result.lo ≤ result.hi }
    ensures within { result.hi ≤ 90000000 }
    ensures positive { 0 < y → 0 < result.hi }
{
    if y <= x {
        slope_angle(table, x, y)
    } else {
        taken_from(90, slope_angle(table, y, x))
    }
}

/// The angle from the x axis towards y of a direction that has this angle with the x axis; `west` is whether its x is negative,
/// `south` whether its y is.
fn in_quarter(west: bool, south: bool, angle: Arc) -> Arc
    requires narrow { angle.hi ≤ angle.lo + 250 }
    requires order { angle.lo ≤ angle.hi }
    requires within { angle.hi ≤ 90000000 }
    requires south { IsTrue south → 0 < angle.hi }
    ensures meets { (t : Interval) → Meets (micros_between angle.lo angle.hi) t → Meets (micros_between result.lo result.hi) (in_quarter_of west south t) }
    ensures narrow { result.hi ≤ result.lo + 250 }
    ensures order { result.lo ≤ result.hi }
    ensures below { result.lo < 360000000 }
{
    if south {
        if west {
            Arc {
                lo: 180 * DEGREE + angle.lo,
                hi: 180 * DEGREE + angle.hi,
            }
        } else {
            taken_from(360, angle)
        }
    } else if west {
        taken_from(180, angle)
    } else {
        angle
    }
}

/// The angle less a turn, the lower end brought into 0 to below 360 degrees.
fn turned_back(angle: Arc, turn: u16) -> Arc
    requires turn { turn < 360 }
    requires narrow { angle.hi ≤ angle.lo + 250 }
    requires order { angle.lo ≤ angle.hi }
    requires below { angle.lo < 360000000 }
    ensures meets { (t : Interval) → Meets (micros_between angle.lo angle.hi) t → MeetsOnCircle (micros_between result.lo result.hi) (brought (less_turn turn t)) }
    ensures narrow { result.hi ≤ result.lo + 250 }
    ensures order { result.lo ≤ result.hi }
    ensures below { result.lo < 360000000 }
{
    let rest = (360 - turn as u32) * DEGREE;
    let lo = angle.lo + rest;
    let hi = angle.hi + rest;
    if lo < TURN {
        Arc { lo, hi }
    } else {
        Arc {
            lo: lo - TURN,
            hi: hi - TURN,
        }
    }
}

/// The angle C of a horizontal direction, from the x axis towards y, less the lamp's turn in degrees. The upper end may pass 360
/// degrees and then continues at 0.
pub fn turn_angle(table: &TangentTable, dx: i32, dy: i32, turn: u16) -> Bracket
    requires dx { unsigned_abs dx ≤ 200000 }
    requires dy { unsigned_abs dy ≤ 200000 }
    requires turn { turn < 360 }
    ensures meets { (n : ℕ) → MeetsOnCircle (of_bracket result) (direction_c n dx dy turn) }
    ensures narrow { result.hi.0 ≤ℤ (result.lo.0 +ℤ pos 250) }
    ensures natural { pos 0 ≤ℤ result.lo.0 }
    ensures below { result.lo.0 <ℤ pos 360000000 }
    ensures in_order { result.lo.0 ≤ℤ result.hi.0 }
    ensures nowhere { dx ≡ pos 0 → dy ≡ pos 0 → (result.lo.0 ≡ pos 0) × (result.hi.0 ≡ pos 0) }
{
    let east = square(dx);
    let north = square(dy);
    if east + north == 0 {
        return bracket_of(Arc { lo: 0, hi: 0 });
    }
    let angle = in_quarter(dx < 0, dy < 0, quarter_angle(table, east, north));
    bracket_of(turned_back(angle, turn))
}

/// The angle of a direction from straight down, 0 to 180 degrees.
pub fn gamma(table: &TangentTable, dx: i32, dy: i32, dz: i32) -> Bracket
    requires dx { unsigned_abs dx ≤ 200000 }
    requires dy { unsigned_abs dy ≤ 200000 }
    requires dz { unsigned_abs dz ≤ 200000 }
    requires some { 0 < unsigned_abs dx + unsigned_abs dy + unsigned_abs dz }
    ensures meets { (n : ℕ) → Meets (of_bracket result) (direction_gamma n dx dy dz) }
    ensures narrow { result.hi.0 ≤ℤ (result.lo.0 +ℤ pos 250) }
    ensures natural { pos 0 ≤ℤ result.lo.0 }
    ensures within { result.hi.0 ≤ℤ pos 180000000 }
    ensures in_order { result.lo.0 ≤ℤ result.hi.0 }
{
    let angle = quarter_angle(table, square(dz), square(dx) + square(dy));
    if dz > 0 {
        bracket_of(taken_from(180, angle))
    } else {
        bracket_of(angle)
    }
}
