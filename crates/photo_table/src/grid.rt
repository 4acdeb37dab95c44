//! A table as its lists, and the hull of its intensities in whole millionths of a degree.
ghost use Rattle.photo_table.specs.Kept.{IsKept};

use crate::part::{DARK, Part, joined, part_of, rounded, weighed};
use crate::search::{angle, angle_at, count_up_to};
use fx_base::{Bracket, Micro, Span, tick_of};

/// A whole turn.
const TURN: u64 = 360_000_000;

/// A table's lists: planes, gammas, and a span of candela for each plane and gamma, plane by plane. Its methods take and give
/// angles in whole millionths of a degree. Those of C are meant a turn later than they are, so that none lies below the first
/// plane; the planes of number 0, 1, 2 .. go on past the last one with the first one a turn later.
#[derive(Debug, Drop)]
pub struct Grid {
    pub planes: Vec<Micro>,
    pub gammas: Vec<Micro>,
    pub values: Vec<Span>,
    ghost kept: { IsKept planes.items gammas.items values.items },
}

impl Grid {
    ghost use Rattle.std.specs.Prelude.{◌≡◌, ℕ, ◌+◌, ◌-◌, ◌*◌, ◌^◌, ◌<◌, ◌≤◌, ◌≤ℤ◌, pos, length};
    ghost use Rattle.fx_base.specs.Fraction.{◌≈ᶠ◌, ratio, lesser, greater};
    ghost use Rattle.fx_base.specs.Units.{natural, ticks, millionths, of_bracket, micros_between};
    ghost use Rattle.photo_table.specs.Axis.{between};
    ghost use Rattle.photo_table.specs.Table.{plane, gamma, value, lower, upper, end_at};
    ghost use Rattle.photo_table.specs.Hull.{gamma_extreme, plane_extreme, hull as hull_of};
    ghost use Rattle.photo_table.specs.Kept.{Rounds, IsGreatest};
    ghost use Rattle.photo_table.specs.Grid.{table_in};

    /// The plane of number i.
    fn plane_at(&self, i: usize) -> u64
        requires { i < 4 * length self.now.planes.items }
        ensures { result ≡ plane (table_in self.now) i }
    {
        let count = self.planes.len();
        angle_at(&self.planes, i % count) + TURN * (i / count) as u64
    }

    /// The plane of number k, within the first turn.
    pub fn plane_of_turn(&self, k: usize) -> Micro
        requires { k < length self.now.planes.items }
        ensures angle { natural result.0 ≡ plane (table_in self.now) k }
        ensures not_negative { pos 0 ≤ℤ result.0 }
        ensures below { natural result.0 < 360000000 }
    {
        self.planes[k]
    }

    /// The gamma of number j.
    fn gamma_at(&self, j: usize) -> u64
        requires { j < length self.now.gammas.items }
        ensures at { result ≡ gamma (table_in self.now) j }
        ensures up_to { result ≤ 180000000 }
    {
        angle_at(&self.gammas, j)
    }

    /// The intensity in plane i at gamma j.
    fn value_at(&self, i: usize, j: usize) -> Part
        requires { j < length self.now.gammas.items }
        ensures low { lower (value (table_in self.now) i j) ≡ ticks result.lo }
        ensures high { upper (value (table_in self.now) i j) ≡ ticks result.hi }
        ensures in_order { result.lo ≤ result.hi }
        ensures most { result.hi ≤ 687194767360000000 }
    {
        let place = i % self.planes.len() * self.gammas.len() + j;
        part_of(&self.values[place])
    }

    /// The number of the last plane that isn't above x.
    fn piece(&self, x: u64) -> usize
        requires turn { 360000000 ≤ x }
        requires turns { x < 1080000000 }
        ensures few { result < 3 * length self.now.planes.items }
        ensures low { plane (table_in self.now) result ≤ x }
        ensures high { x < plane (table_in self.now) (result + 1) }
    {
        let turns = (x / TURN) as usize;
        self.planes.len() * turns + count_up_to(&self.planes, x % TURN) - 1
    }

    /// The intensity in plane i at y, between gamma j and the next one, times the way between the two.
    fn weighed_row(&self, i: usize, j: usize, y: u64) -> Part
        requires within { j + 1 < length self.now.gammas.items }
        requires low { gamma (table_in self.now) j ≤ y }
        requires high { y ≤ gamma (table_in self.now) (j + 1) }
        ensures low { between (millionths y) (gamma (table_in self.now) j) (lower (value (table_in self.now) i j)) (gamma (table_in self.now) (j + 1)) (lower (value (table_in self.now) i (j + 1))) ≈ᶠ ratio result.lo (68719476736 * (gamma (table_in self.now) (j + 1) - gamma (table_in self.now) j)) }
        ensures high { between (millionths y) (gamma (table_in self.now) j) (upper (value (table_in self.now) i j)) (gamma (table_in self.now) (j + 1)) (upper (value (table_in self.now) i (j + 1))) ≈ᶠ ratio result.hi (68719476736 * (gamma (table_in self.now) (j + 1) - gamma (table_in self.now) j)) }
        ensures in_order { result.lo ≤ result.hi }
        ensures small { result.hi ≤ 2 ^ 90 }
    {
        let ahead = self.gamma_at(j + 1) - y;
        let behind = y - self.gamma_at(j);
        let near = self.value_at(i, j);
        let far = self.value_at(i, j + 1);
        let lo = weighed(near.lo, ahead, far.lo, behind);
        let hi = weighed(near.hi, ahead, far.hi, behind);
        Part { lo, hi }
    }

    /// The intensity at x and y, between plane i and the next one and between gamma j and the next one.
    fn corner(&self, i: usize, j: usize, x: u64, y: u64) -> Part
        requires few { i < 3 * length self.now.planes.items }
        requires left { plane (table_in self.now) i ≤ x }
        requires right { x ≤ plane (table_in self.now) (i + 1) }
        requires within { j + 1 < length self.now.gammas.items }
        requires low { gamma (table_in self.now) j ≤ y }
        requires high { y ≤ gamma (table_in self.now) (j + 1) }
        ensures rounds { Rounds (end_at lower (table_in self.now) (millionths x) (millionths y)) (end_at upper (table_in self.now) (millionths x) (millionths y)) result.lo result.hi }
    {
        let left = self.plane_at(i);
        let right = self.plane_at(i + 1);
        let depth = self.gamma_at(j + 1) - self.gamma_at(j);
        let first = self.weighed_row(i, j, y);
        let second = self.weighed_row(i + 1, j, y);
        let low = weighed(first.lo, right - x, second.lo, x - left);
        let high = weighed(first.hi, right - x, second.hi, x - left);
        rounded(low, high, (right - left) as u128 * depth as u128)
    }

    /// The intensity at x and y, between plane i and the next one.
    fn at(&self, i: usize, x: u64, y: u64) -> Part
        requires few { i < 3 * length self.now.planes.items }
        requires left { plane (table_in self.now) i ≤ x }
        requires right { x ≤ plane (table_in self.now) (i + 1) }
        ensures rounds { Rounds (end_at lower (table_in self.now) (millionths x) (millionths y)) (end_at upper (table_in self.now) (millionths x) (millionths y)) result.lo result.hi }
    {
        let last = self.gammas.len() - 1;
        if y < self.gamma_at(0) || self.gamma_at(last) < y {
            return DARK;
        }
        let count = count_up_to(&self.gammas, y);
        self.corner(i, count.min(last) - 1, x, y)
    }

    /// The hull at x, between plane i and the next one, over the gammas from `low` to `high`.
    fn row(&self, i: usize, x: u64, low: u64, high: u64) -> Part
        requires few { i < 3 * length self.now.planes.items }
        requires left { plane (table_in self.now) i ≤ x }
        requires right { x ≤ plane (table_in self.now) (i + 1) }
        requires in_order { low ≤ high }
        ensures rounds { Rounds (gamma_extreme lesser lower (table_in self.now) (micros_between low high) (millionths x)) (gamma_extreme greater upper (table_in self.now) (micros_between low high) (millionths x)) result.lo result.hi }
    {
        let mut part = joined(self.at(i, x, low), self.at(i, x, high));
        let first = count_up_to(&self.gammas, low);
        let last = count_up_to(&self.gammas, high);
        for j in first..last {
            part = joined(part, self.at(i, x, self.gamma_at(j)));
        }
        part
    }

    /// The hull over the planes from `left` to `right` and the gammas from `low` to `high`.
    fn sweep(&self, left: u64, right: u64, low: u64, high: u64) -> Part
        requires turn { 360000000 ≤ left }
        requires round { left ≤ right }
        requires turns { right < 1080000000 }
        requires in_order { low ≤ high }
        ensures rounds { Rounds (plane_extreme lesser lower (table_in self.now) (micros_between left right) (micros_between low high)) (plane_extreme greater upper (table_in self.now) (micros_between left right) (micros_between low high)) result.lo result.hi }
    {
        let first = self.piece(left);
        let last = self.piece(right);
        let mut part = joined(
            self.row(first, left, low, high),
            self.row(last, right, low, high),
        );
        for i in first + 1..last + 1 {
            part = joined(part, self.row(i, self.plane_at(i), low, high));
        }
        part
    }

    /// The hull over two brackets.
    #[tactic(auto, using(fx_base::proofs::Rounding::natural_rule))]
    pub fn hull(&self, c: Bracket, g: Bracket) -> Span
        requires c_not_negative { pos 0 ≤ℤ c.lo.0 }
        requires c_below { natural c.lo.0 < 360000000 }
        requires c_in_order { c.lo.0 ≤ℤ c.hi.0 }
        requires c_narrow { natural c.hi.0 ≤ natural c.lo.0 + 1000000 }
        requires g_not_negative { pos 0 ≤ℤ g.lo.0 }
        requires g_in_order { g.lo.0 ≤ℤ g.hi.0 }
        ensures rounds { Rounds (hull_of (table_in self.now) (of_bracket c) (of_bracket g)).lo (hull_of (table_in self.now) (of_bracket c) (of_bracket g)).hi (natural result.lo) (natural result.hi) }
        ensures not_negative { pos 0 ≤ℤ result.lo }
        ensures most { (m : ℕ) → IsGreatest upper (table_in self.now) (ticks m) → natural result.hi ≤ m + 1 }
        ensures bright { natural result.hi ≤ 687194767360000001 }
    {
        let left = angle(c.lo) + TURN;
        let right = angle(c.hi) + TURN;
        let low = angle(g.lo);
        let high = angle(g.hi);
        let part = self.sweep(left, right, low, high);
        Span::new(tick_of(part.lo), tick_of(part.hi))
    }

    /// The greatest lower and the greatest upper end.
    pub fn greatest_ends(&self) -> Part
        ensures low { IsGreatest lower (table_in self.now) (ticks result.lo) }
        ensures high { IsGreatest upper (table_in self.now) (ticks result.hi) }
        ensures low_most { result.lo ≤ 687194767360000000 }
        ensures high_most { result.hi ≤ 687194767360000000 }
    {
        let mut greatest = part_of(&self.values[0]);
        for span in &self.values {
            let part = part_of(span);
            greatest = Part {
                lo: greatest.lo.max(part.lo),
                hi: greatest.hi.max(part.hi),
            };
        }
        greatest
    }
}
