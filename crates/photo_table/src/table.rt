//! The table of intensities that other crates see.
ghost use Rattle.photo_table.specs.Kept.{AreInOrder};

use crate::even::even_grid;
use crate::grid::Grid;
use fx_base::{Bracket, Memory, Micro, Span, Tick, tick_of};
use std::alloc::Global;
use std::marker::Model;

/// A table of intensities: half-planes C that rise from 0 to below 360 degrees, gammas that rise from 0, straight down, to 180,
/// straight up, and for each pair a span of 0 to 10^7 candela. Between these directions the intensity runs in straight lines
/// of C and of gamma, after the last plane to the first one a turn later; outside the gammas it is 0.
#[derive(Debug, Drop)]
pub struct PhotoTable {
    grid: Grid,
}

/// Each span's lower end is at most its upper one. The type of a span keeps that, and tells it span by span; nothing is computed.
fn spans_are_in_order(values: &[Span])
    ensures { AreInOrder values.now }
{
    for span in values {
        let _ = span.lo();
    }
}

impl Model for PhotoTable {
    ghost use Rattle.photo_table.specs.Table.{Table};
    ghost use Rattle.photo_table.specs.Grid.{table_in};

    ghost Value = { Table };

    ghost view = { λ t. table_in t.grid };
}

impl PhotoTable {
    ghost use Rattle.std.specs.Prelude.{◌≡◌, ℕ, ◌+◌, ◌*◌, ◌^◌, ◌<◌, ◌≤◌, ◌≤ℤ◌, pos, length, IfOk};
    ghost use Rattle.fx_base.specs.Fraction.{Fraction};
    ghost use Rattle.fx_base.specs.Interval.{Contains, LiesIn};
    ghost use Rattle.fx_base.specs.Units.{natural, ticks, of_span, of_bracket};
    ghost use Rattle.photo_table.specs.Table.{bilinear, lower, plane, upper};
    ghost use Rattle.photo_table.specs.Exact.{IsIntensityTable};
    ghost use Rattle.photo_table.specs.Hull.{hull as hull_of};
    ghost use Rattle.photo_table.specs.Kept.{ArePlanes, AreGammas, AreIntensities, IsGreatest, Rounds, even_table, table_of};

    /// The table of these planes and gammas, and of these values, plane by plane.
    pub fn new(planes: Vec<Micro>, gammas: Vec<Micro>, values: Vec<Span>) -> PhotoTable
        requires planes { ArePlanes planes.items }
        requires gammas { AreGammas gammas.items }
        requires values { AreIntensities values.items }
        requires all { length values.items ≡ length planes.items * length gammas.items }
        ensures { result ≡ table_of planes.items gammas.items values.items }
    {
        spans_are_in_order(&values);
        PhotoTable {
            grid: Grid {
                planes,
                gammas,
                values,
            },
        }
    }

    /// The table of `candela` in all directions: one plane, and gammas 0 and 180.
    pub fn even(alloc: Global, candela: u32) -> Result<PhotoTable, Memory>
        requires { candela ≤ 10000000 }
        ensures { IfOk result (λ t. t ≡ even_table candela) }
    {
        let grid = even_grid(alloc, candela)?;
        Ok(PhotoTable { grid })
    }

    /// The hull of the intensities over a bracket of C, which may run over the end of a turn, and one of gamma: it contains the
    /// intensity in each of these directions, and each of its ends is at most a tick of 2^-36 cd outside of the exact one.
    #[tactic(auto, using(crate::proofs::Intensities::kept_is))]
    pub fn hull(&self, c: Bracket, g: Bracket) -> Span
        requires c_not_negative { pos 0 ≤ℤ c.lo.0 }
        requires c_below { natural c.lo.0 < 360000000 }
        requires c_in_order { c.lo.0 ≤ℤ c.hi.0 }
        requires c_narrow { natural c.hi.0 ≤ natural c.lo.0 + 1000000 }
        requires g_not_negative { pos 0 ≤ℤ g.lo.0 }
        requires g_up_to { natural g.hi.0 ≤ 180000000 }
        requires g_in_order { g.lo.0 ≤ℤ g.hi.0 }
        requires g_narrow { natural g.hi.0 ≤ natural g.lo.0 + 1000000 }
        ensures contains { (x y : Fraction) → Contains (of_bracket c) x → Contains (of_bracket g) y → LiesIn (bilinear self.now x y) (of_span result) }
        ensures close { Rounds (hull_of self.now (of_bracket c) (of_bracket g)).lo (hull_of self.now (of_bracket c) (of_bracket g)).hi (natural result.lo) (natural result.hi) }
        ensures not_negative { pos 0 ≤ℤ result.lo }
        ensures below_the_greatest { (m : ℕ) → IsGreatest upper self.now (ticks m) → natural result.hi ≤ m + 1 }
        ensures bright { natural result.hi ≤ 687194767360000001 }
        ensures kept { IsIntensityTable self.now }
    {
        self.grid.hull(c, g)
    }

    /// The greatest upper end.
    #[tactic(auto, using(crate::proofs::Intensities::kept_is))]
    pub fn greatest(&self) -> Tick
        ensures greatest { IsGreatest upper self.now (ticks (natural result.0)) }
        ensures not_negative { pos 0 ≤ℤ result.0 }
        ensures bright { natural result.0 ≤ 687194767360000000 }
        ensures kept { IsIntensityTable self.now }
    {
        tick_of(self.grid.greatest_ends().hi)
    }

    /// The greatest lower end.
    pub(crate) fn greatest_lower(&self) -> Tick
        ensures greatest { IsGreatest lower self.now (ticks (natural result.0)) }
        ensures not_negative { pos 0 ≤ℤ result.0 }
        ensures bright { natural result.0 ≤ 687194767360000000 }
    {
        tick_of(self.grid.greatest_ends().lo)
    }

    /// How many planes there are.
    #[tactic(auto, using(crate::proofs::Intensities::kept_is))]
    pub fn planes(&self) -> usize
        ensures planes { result ≡ length self.now.planes }
        ensures kept { IsIntensityTable self.now }
    {
        self.grid.planes.len()
    }

    /// The plane of number k, in millionths of a degree from 0 to below 360,000,000.
    #[tactic(auto, using(crate::proofs::Intensities::kept_is))]
    pub fn plane_angle(&self, k: usize) -> Micro
        requires { k < length self.now.planes }
        ensures angle { natural result.0 ≡ plane self.now k }
        ensures not_negative { pos 0 ≤ℤ result.0 }
        ensures below { natural result.0 < 360000000 }
        ensures kept { IsIntensityTable self.now }
    {
        self.grid.plane_of_turn(k)
    }

    /// How many gammas there are.
    #[tactic(auto, using(crate::proofs::Intensities::kept_is))]
    pub fn gammas(&self) -> usize
        ensures gammas { result ≡ length self.now.gammas }
        ensures kept { IsIntensityTable self.now }
    {
        self.grid.gammas.len()
    }
}
