//! The sixteen slabs of a room along one axis.
ghost use Rattle.std.specs.Prelude.{◌≡◌, ℕ, ◌+◌, ◌<◌, ◌≤◌, All, IfOk, length, nat_abs};
ghost use Rattle.room_layout.specs.Accepted.{IsBlockIn};
ghost use Rattle.sight_index.specs.Cells.{begins};
ghost use Rattle.sight_index.specs.Masks.{IsMaskOf};
ghost use Rattle.sight_index.specs.Slabs.{along, slab_mask, AreSides, AreSlabs, AreSlabsOf, HaveBegun, HaveNotEnded, IsSlabOf};

use crate::axis::Axis;
use crate::sides::Sides;
use fx_base::Memory;
use room_layout::{Block, Size};
use std::alloc::Global;

/// Where slab k of an edge begins, in millimetres, and the one before it ends.
fn begins(edge: u32, k: usize) -> u64
    requires { k ≤ 16 }
    ensures { result ≡ begins edge k }
{
    k as u64 * u64::from(edge) / 16
}

/// The boxes that have begun at so many millimetres along an axis.
fn begun_at(axis: Axis, place: u64, blocks: &[Block]) -> u64
    requires { length blocks.now ≤ 64 }
    ensures { IsMaskOf (λ b. along axis b.lo ≤ place) blocks.now result }
{
    let mut mask = 0;
    for (b, block) in blocks.iter().enumerate() {
        if u64::from(axis.of(block.lo)) <= place {
            mask |= 1 << b;
        }
    }
    mask
}

/// The boxes that haven't ended at so many millimetres along an axis.
fn unended_at(axis: Axis, place: u64, blocks: &[Block]) -> u64
    requires { length blocks.now ≤ 64 }
    ensures { IsMaskOf (λ b. place ≤ along axis b.hi) blocks.now result }
{
    let mut mask = 0;
    for (b, block) in blocks.iter().enumerate() {
        if place <= u64::from(axis.of(block.hi)) {
            mask |= 1 << b;
        }
    }
    mask
}

/// The masks of slab k.
fn slab(axis: Axis, edge: u32, k: usize, blocks: &[Block]) -> Sides
    requires k { k < 16 }
    requires few { length blocks.now ≤ 64 }
    ensures { IsSlabOf axis edge k blocks.now result }
{
    Sides {
        begun: begun_at(axis, begins(edge, k + 1), blocks),
        unended: unended_at(axis, begins(edge, k), blocks),
    }
}

/// The slabs along one axis, of which each has the boxes that have begun at its end and those that haven't ended at its beginning.
/// `edge` is the room's, in millimetres.
#[derive(Drop)]
pub struct Slabs {
    pub edge: u32,
    pub kept: Vec<Sides>,
    ghost fit: { AreSlabs kept.items },
}

impl Slabs {
    /// The slabs of a room of this size. Memory: none was left for them.
    pub fn build(alloc: Global, axis: Axis, size: Size, blocks: &[Block]) -> Result<Slabs, Memory>
        requires few { length blocks.now ≤ 64 }
        requires blocks { All (IsBlockIn size) blocks.now }
        ensures edge { IfOk result (λ slabs. slabs.edge ≡ along axis size) }
        ensures slabs { IfOk result (λ slabs. AreSlabsOf axis slabs.edge blocks.now slabs.kept.items) }
    {
        let edge = axis.of(size);
        let mut kept = Vec::new(alloc);
        for k in 0..16 {
            kept.push(slab(axis, edge, k, blocks))?;
        }
        Ok(Slabs { edge, kept })
    }

    /// The boxes that slab k touches.
    pub fn mask(&self, k: usize) -> u64
        requires { k < 16 }
        ensures { result ≡ slab_mask self.now.kept.items k }
    {
        let slab = self.kept[k];
        slab.begun & slab.unended
    }

    /// The boxes that have begun at the end of some slab that doesn't begin behind so many half millimetres.
    fn begun(&self, at: u64) -> u64
        ensures { HaveBegun self.now.edge self.now.kept.items at result }
    {
        let mut mask = 0;
        for k in 0..16 {
            if 2 * begins(self.edge, k) <= at {
                mask |= self.kept[k].begun;
            }
        }
        mask
    }

    /// The boxes that haven't ended at the beginning of some slab that doesn't end before so many half millimetres.
    fn unended(&self, at: u64) -> u64
        ensures { HaveNotEnded self.now.edge self.now.kept.items at result }
    {
        let mut mask = 0;
        for k in 0..16 {
            if at <= 2 * begins(self.edge, k + 1) {
                mask |= self.kept[k].unended;
            }
        }
        mask
    }

    /// The masks of a place with this coordinate, in half millimetres.
    pub fn sides(&self, coordinate: i32) -> Sides
        ensures { AreSides self.now.edge self.now.kept.items (nat_abs coordinate) result }
    {
        let at = u64::from(coordinate.unsigned_abs());
        Sides {
            begun: self.begun(at),
            unended: self.unended(at),
        }
    }
}
