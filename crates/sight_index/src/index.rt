//! The index of a room's boxes.
ghost use Rattle.std.specs.Prelude.{◌≤◌};
ghost use Rattle.sight_index.specs.Slabs.{AreOfBoxes};

use crate::axis::Axis;
use crate::look::first_met;
use crate::slabs::Slabs;
use crate::{Probe, Vantage};
use fx_base::Memory;
use room_layout::{Block, Point, Size};
use std::alloc::Global;

/// The boxes of a room by its 16 by 16 by 16 cells. Cell k of an edge of l millimetres goes from floor (k l / 16) to
/// floor ((k + 1) l / 16), and has each box whose closed bounds touch it.
#[derive(Drop)]
pub struct SightIndex {
    x: Slabs,
    y: Slabs,
    z: Slabs,
    count: usize,
    ghost few: { count ≤ 64 },
    ghost only: { AreOfBoxes count x.kept.items },
}

impl SightIndex {
    ghost use Rattle.std.specs.Prelude.{◌≡◌, ℕ, ◌≤◌, ◌↔◌, All, IfOk, length};
    ghost use Rattle.room_layout.specs.Accepted.{IsBlockIn};
    ghost use Rattle.sight_index.specs.Cells.{IsCell, IsPointIn};
    ghost use Rattle.sight_index.specs.Index.{IsIndexOf, IsNear, count_of, mask_at, size_of};
    ghost use Rattle.sight_index.specs.Masks.{HasBit};
    ghost use Rattle.sight_index.specs.Probes.{AsksNearAlone, IsAnswer};
    ghost use Rattle.sight_index.specs.Vantages.{IsVantage};

    /// The index of at most 64 boxes that lie in a room of this size. Memory: none was left for its slabs.
    pub fn build(alloc: Global, size: Size, blocks: &[Block]) -> Result<SightIndex, Memory>
        requires few { length blocks.now ≤ 64 }
        requires blocks { All (IsBlockIn size) blocks.now }
        ensures index { IfOk result (λ index. IsIndexOf size blocks.now index) }
    {
        Ok(SightIndex {
            x: Slabs::build(alloc, Axis::X, size, blocks)?,
            y: Slabs::build(alloc, Axis::Y, size, blocks)?,
            z: Slabs::build(alloc, Axis::Z, size, blocks)?,
            count: blocks.len(),
        })
    }

    /// The mask of cell (i, j, k): bit b is set exactly where box b touches the cell.
    pub fn cell(&self, i: usize, j: usize, k: usize) -> u64
        requires { IsCell i j k }
        ensures { result ≡ mask_at self.now i j k }
    {
        self.x.mask(i) & self.y.mask(j) & self.z.mask(k)
    }

    /// What is kept of a point of the room, so that sight lines from it and to it are asked quickly.
    pub fn vantage(&self, at: Point) -> Vantage
        requires { IsPointIn (size_of self.now) at }
        ensures at { result.at ≡ at }
        ensures vantage { IsVantage self.now result }
    {
        Vantage {
            at,
            x: self.x.sides(at.x),
            y: self.y.sides(at.y),
            z: self.z.sides(at.z),
        }
    }

    /// The boxes near the segment between two vantages.
    fn near(&self, from: &Vantage, to: &Vantage) -> u64
        requires from { IsVantage self.now from.now }
        requires to { IsVantage self.now to.now }
        ensures { (b : ℕ) → HasBit result b ↔ IsNear self.now from.now.at to.now.at b }
    {
        from.x.near(to.x) & from.y.near(to.y) & from.z.near(to.z)
    }

    /// The least box near the segment between two vantages of which the probe says yes. The probe is asked about near boxes alone. With
    /// a `BlockProbe` of the same boxes and points this is the first box that the segment meets (`laws::answers_agree`).
    pub fn blocked_between<P: Probe>(
        &self,
        from: &Vantage,
        to: &Vantage,
        probe: &mut P,
    ) -> Option<usize>
        requires from { IsVantage self.now from.now }
        requires to { IsVantage self.now to.now }
        requires probe { length (P.truths probe.old) ≡ count_of self.now }
        ensures answer { IsAnswer (IsNear self.now from.now.at to.now.at) (P.truths probe.old) result }
        ensures same { P.truths probe.new ≡ P.truths probe.old }
        ensures asked { AsksNearAlone (IsNear self.now from.now.at to.now.at) (P.asked probe.old) (P.asked probe.new) }
    {
        first_met(self.near(from, to), probe)
    }

    /// The same between two points of the room.
    pub fn blocked_by<P: Probe>(&self, from: Point, to: Point, probe: &mut P) -> Option<usize>
        requires from { IsPointIn (size_of self.now) from }
        requires to { IsPointIn (size_of self.now) to }
        requires probe { length (P.truths probe.old) ≡ count_of self.now }
        ensures answer { IsAnswer (IsNear self.now from to) (P.truths probe.old) result }
        ensures same { P.truths probe.new ≡ P.truths probe.old }
        ensures asked { AsksNearAlone (IsNear self.now from to) (P.asked probe.old) (P.asked probe.new) }
    {
        let from = self.vantage(from);
        let to = self.vantage(to);
        self.blocked_between(&from, &to, probe)
    }
}
