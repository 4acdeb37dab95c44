//! The angle of a slope: its row is found in the table of sines, and its step of 125 millionths of a degree within the row.
ghost use Rattle.std.specs.Prelude.{◌≡◌, ℕ, ◌+◌, ◌-◌, ◌*◌, ◌^◌, ◌<◌, ◌≤◌, ◌+ℤ◌, ◌≤ℤ◌, ◌<ℤ◌, pos, IsTrue, IsFalse};
ghost use Rattle.fx_base.specs.Interval.{Meets};
ghost use Rattle.fx_base.specs.Units.{natural, of_bracket, micros_between};
ghost use Rattle.series_enclose.specs.Enclosed.{IsCosine, IsSine};
ghost use Rattle.series_enclose.specs.Slant.{slant as slant_of};
ghost use Rattle.angle_bracket.specs.Angles.{IsStepAngle};
ghost use Rattle.angle_bracket.specs.Found.{IsBefore, IsBelow, IsFound};

use crate::arc::{Arc, bracket_of};
use fx_base::{Bracket, Micro, Span, magnitude};
use series_enclose::{TangentTable, cos_span, sin_span};

/// The row of 45 degrees.
const LAST_ROW: u32 = 2_880;

/// The millionths of a degree from one step to the next.
const STEP: u32 = 125;

/// The steps from one row to the next.
const STEPS_IN_ROW: u32 = 125;

/// The step of 45 degrees.
const LAST_STEP: u32 = 360_000;

/// Two steps, or two rows, between which a slope's angle is looked for.
#[derive(Clone, Copy)]
struct Between {
    low: u32,
    high: u32,
}

/// The two sides that are compared: the squared sine times x, by the upper end, and the squared cosine times y, by the lower end.
#[derive(Clone, Copy)]
struct Sides {
    sine: u128,
    cosine: u128,
}

fn sides_of(sine: Span, cosine: Span, x: u64, y: u64) -> Sides
    requires sine_low { pos 0 ≤ℤ sine.lo }
    requires sine_high { natural sine.hi ≤ 68719476752 }
    requires cosine_low { pos 0 ≤ℤ cosine.lo }
    requires cosine_high { natural cosine.hi ≤ 68719476752 }
    requires x { x < 2 ^ 40 }
    requires y { y ≤ x }
    ensures sine { result.sine ≡ natural sine.hi * natural sine.hi * x }
    ensures cosine { result.cosine ≡ natural cosine.lo * natural cosine.lo * y }
{
    let opposite = magnitude(sine.hi());
    let adjacent = magnitude(cosine.lo());
    Sides {
        sine: opposite * opposite * x as u128,
        cosine: adjacent * adjacent * y as u128,
    }
}

/// Whether the tangent of an angle with these sine and cosine is at most the root of `y / x`, by the outer ends. Where it isn't, the
/// angle of that slope is below any later angle.
fn is_below(sine: Span, cosine: Span, x: u64, y: u64) -> bool
    requires sine_low { pos 0 ≤ℤ sine.lo }
    requires sine_high { natural sine.hi ≤ 68719476752 }
    requires cosine_low { pos 0 ≤ℤ cosine.lo }
    requires cosine_high { natural cosine.hi ≤ 68719476752 }
    requires some { 0 < x }
    requires x { x < 2 ^ 40 }
    requires y { y ≤ x }
    ensures below { IsTrue result → (m : ℕ) → m ≤ 45000000 → IsSine m sine → IsCosine m cosine → IsBelow x y m }
    ensures above { IsFalse result → (m : ℕ) → IsSine m sine → IsCosine m cosine → IsBefore x y m }
{
    let sides = sides_of(sine, cosine, x, y);
    sides.sine <= sides.cosine
}

/// The last row but the one of 45 degrees that is found to be below the slope `y / x`, and row 0 where there is none.
fn last_row_below(table: &TangentTable, x: u64, y: u64) -> u32
    requires some { 0 < x }
    requires x { x < 2 ^ 40 }
    requires y { y ≤ x }
    ensures { IsFound x y 15625 result (result + 1) }
{
    let mut low = 0;
    let mut high = LAST_ROW;
    while high - low > 1 {
        let middle = low + (high - low) / 2;
        let row = middle as usize;
        if is_below(table.sin(row), table.cos(row), x, y) {
            low = middle;
        } else {
            high = middle;
        }
    }
    low
}

/// The angle of a step.
fn angle_of(step: u32) -> Micro
    requires { step ≤ 360000 }
    ensures { result.0 ≡ pos (step * 125) }
{
    Micro((step * STEP) as i64)
}

/// What is left between two steps once this one is tested; one that isn't between them changes nothing.
#[inline(never)]
fn narrowed(found: Between, step: u32, x: u64, y: u64) -> Between
    requires some { 0 < x }
    requires x { x < 2 ^ 40 }
    requires y { y ≤ x }
    requires found { IsFound x y 125 found.low found.high }
    ensures found { IsFound x y 125 result.low result.high }
    ensures narrower { found.low < step → step < found.high → result.high - result.low < found.high - found.low }
{
    if step <= found.low || found.high <= step {
        return found;
    }
    let angle = angle_of(step);
    if is_below(sin_span(angle), cos_span(angle), x, y) {
        Between {
            low: step,
            high: found.high,
        }
    } else {
        Between {
            low: found.low,
            high: step,
        }
    }
}

/// The steps from the row to the slope's angle, by a straight line between the two sides at this row and at the next one that is bent
/// as squares of angles are. It saves tests, and nothing is claimed of it.
fn likely_step(table: &TangentTable, row: u32, x: u64, y: u64) -> u32
    requires row { row < 2880 }
    requires x { x < 2 ^ 40 }
    requires y { y ≤ x }
    ensures { result ≤ 400000 }
{
    let here = row as usize;
    let at = sides_of(table.sin(here), table.cos(here), x, y);
    let next = sides_of(table.sin(here + 1), table.cos(here + 1), x, y);
    // 2^-16 of the way, both parts without their last bits so that they fit
    let below = at.cosine.saturating_sub(at.sine) >> 20;
    let above = next.sine.saturating_sub(next.cosine) >> 20;
    let way = below.saturating_add(above).max(1);
    let part = (below.wrapping_mul(65_536) / way).min(65_536) as u32;
    let bend = part * (65_536 - part) / 65_536 / (2 * row + 1);
    row * STEPS_IN_ROW + (part + bend) * STEPS_IN_ROW / 65_536
}

/// The last step but the one of 45 degrees in this row that is found to be below the slope `y / x`.
fn last_step_below(table: &TangentTable, row: u32, x: u64, y: u64) -> u32
    requires some { 0 < x }
    requires x { x < 2 ^ 40 }
    requires y { y ≤ x }
    requires row { IsFound x y 15625 row (row + 1) }
    ensures { IsFound x y 125 result (result + 1) }
{
    let begin = row * STEPS_IN_ROW;
    let mut found = Between {
        low: begin,
        high: begin + STEPS_IN_ROW,
    };
    let likely = likely_step(table, row, x, y);
    found = narrowed(found, likely, x, y);
    found = narrowed(found, likely + 1, x, y);
    while found.high - found.low > 1 {
        let middle = found.low + (found.high - found.low) / 2;
        found = narrowed(found, middle, x, y);
    }
    found.low
}

/// The angle whose tangent is the root of `y / x`: from the last step that is found to be below it to the second one after that.
pub fn slope_angle(table: &TangentTable, x: u64, y: u64) -> Arc
    requires some { 0 < x }
    requires x { x < 2 ^ 40 }
    requires y { y ≤ x }
    ensures meets { (n : ℕ) → Meets (micros_between result.lo result.hi) (slant_of n x y) }
    ensures narrow { result.hi ≤ result.lo + 250 }
    ensures low_step { IsStepAngle (pos result.lo) }
    ensures high_step { IsStepAngle (pos result.hi) }
    ensures order { result.lo ≤ result.hi }
    ensures within { result.hi ≤ 45000000 }
    ensures positive { 0 < y → 0 < result.hi }
{
    let row = last_row_below(table, x, y);
    let step = last_step_below(table, row, x, y);
    let next = (step + 2).min(LAST_STEP);
    Arc {
        lo: step * STEP,
        hi: next * STEP,
    }
}

/// The angle whose tangent is the root of `y / x`, by the sines and cosines of multiples of 125 millionths of a degree.
pub fn slant(table: &TangentTable, x: u64, y: u64) -> Bracket
    requires some { 0 < x }
    requires x { x < 2 ^ 40 }
    requires y { y ≤ x }
    ensures meets { (n : ℕ) → Meets (of_bracket result) (slant_of n x y) }
    ensures narrow { result.hi.0 ≤ℤ (result.lo.0 +ℤ pos 250) }
    ensures low_step { IsStepAngle result.lo.0 }
    ensures high_step { IsStepAngle result.hi.0 }
    ensures in_order { result.lo.0 ≤ℤ result.hi.0 }
    ensures positive { 0 < y → pos 0 <ℤ result.hi.0 }
{
    bracket_of(slope_angle(table, x, y))
}
