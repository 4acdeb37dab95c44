//! What a sight line asks of boxes.
ghost use Rattle.std.specs.Prelude.{◌≡◌, ℕ, ◌^◌, ◌<◌, ◌≤◌, Bool, List, Some, length, slice_get, bit_or};
ghost use Rattle.room_layout.specs.Positions.{IsInReach};

use room_layout::{Block, Point};
use sight_line::meets_block;

/// Says of each box whether something meets it, and keeps which boxes it was asked about.
pub trait Probe {
    /// What it says of each box. This never changes.
    ghost truths: { Self → List Bool };

    /// The boxes it was asked about, as a mask of 64 bits.
    ghost asked: { Self → ℕ };

    /// What it says of the box at `index`.
    fn meets(&mut self, index: usize) -> bool
        requires { index < length (truths self.old) }
        ensures answer { slice_get (truths self.old) index ≡ Some result }
        ensures same { truths self.new ≡ truths self.old }
        ensures asked { asked self.new ≡ bit_or (asked self.old) (2 ^ index) };
}

/// Says which of at most 64 boxes the segment between two points meets, by the rule of `sight_line::blocked_by`.
#[derive(Drop)]
pub struct BlockProbe<'a> {
    blocks: &'a [Block],
    from: Point,
    to: Point,
    asked: u64,
    ghost few: { length blocks.now ≤ 64 },
    ghost from_near: { IsInReach from },
    ghost to_near: { IsInReach to },
}

impl<'a> BlockProbe<'a> {
    ghost use Rattle.sight_index.specs.Probes.{meetings};

    /// A probe that was asked about no box yet. The coordinates of both points are at most 200,000 half millimetres.
    pub fn new(blocks: &'a [Block], from: Point, to: Point) -> BlockProbe<'a>
        requires few { length blocks.now ≤ 64 }
        requires from { IsInReach from }
        requires to { IsInReach to }
        ensures truths { ⟦<BlockProbe<'a> as Probe>⟧.truths result ≡ meetings blocks.now from to }
        ensures asked { ⟦<BlockProbe<'a> as Probe>⟧.asked result ≡ 0 }
    {
        BlockProbe {
            blocks,
            from,
            to,
            asked: 0,
        }
    }
}

impl<'a> Probe for BlockProbe<'a> {
    ghost use Rattle.sight_index.specs.Probes.{meetings};

    ghost truths = { λ probe. meetings probe.blocks.now probe.from probe.to };

    ghost asked = { λ probe. probe.asked };

    fn meets(&mut self, index: usize) -> bool {
        self.asked |= 1 << index;
        meets_block(&self.blocks[index], self.from, self.to)
    }
}
