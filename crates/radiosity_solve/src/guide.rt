//! The guide: it looks for light that a turn changes evenly, by conjugate residuals with one remembered direction (Orthomin) over a
//! copy of the weights in 32 bits. What it finds is tried by a turn, so that the only thing proved of it is that its ends are ends.
ghost use Rattle.std.specs.Prelude.{◌<◌, ◌≤◌, All, length};
ghost use Rattle.fx_base.specs.Bound.{IsEnd};

use crate::narrow::{NarrowRow, take};
use crate::numbers::{cut, excess, greatest_size, product, quotient, take_off, times, turn_from};
use fork_rows::Gate;
use fx_base::Tick;
use std::alloc::{AllocError, Global};
use std::thread::Threads;

/// The greatest end, 2^90 ticks.
const TOP: i128 = 1_237_940_039_285_380_274_899_124_224;

/// The most steps towards a list before it is tried.
const MOST_STEPS: u32 = 64;

/// A step goes on while a change is more ticks than that off its aim.
const SMALL_REST: u64 = 4_096;

/// The weights, and room for lists of as many numbers as there are patches.
#[derive(Drop)]
pub(crate) struct Guide {
    rows: Vec<NarrowRow>,
    parts: Vec<u32>,
    /// What is left between the changes and their aim, in parts of a power of two of ticks.
    rest: Vec<i64>,
    /// What the equations take of the rest.
    taken_of_rest: Vec<i64>,
    /// The direction of the last step, and what the equations take of it.
    way: Vec<i64>,
    taken: Vec<i64>,
}

/// What a change lacks of its aim. No light falls below 0.
fn gap(before: Tick, after: Tick, aim: i128) -> i128 {
    let gap = after.0.wrapping_sub(before.0).wrapping_sub(aim);
    if before.0 <= 0 && gap < 0 { 0 } else { gap }
}

/// The greatest size of such a gap.
fn greatest_gap(near: &[Tick], made: &[Tick], aim: i128) -> u128 {
    let mut greatest = 0u128;
    for i in 0..near.len().min(made.len()) {
        greatest = greatest.max(gap(near[i], made[i], aim).unsigned_abs());
    }
    greatest
}

/// The gaps in 52 bits, shortened by so many.
fn measure(near: &[Tick], made: &[Tick], aim: i128, by: u32, rest: &mut [i64])
    requires { by ≤ 127 }
{
    for i in 0..near.len().min(made.len()).min(rest.len()) {
        rest[i] = cut(gap(near[i], made[i], aim) >> by);
    }
}

/// A light moved by a step, within the ends.
fn moved(light: Tick, step: i128) -> Tick
    ensures { IsEnd result }
{
    Tick(light.0.wrapping_add(step).clamp(0, TOP))
}

/// Moves the light by `share` times the way, which is shortened by so many bits.
fn go(near: &mut [Tick], share: i64, way: &[i64], by: u32)
    requires by { by ≤ 127 }
    requires ends { All IsEnd near.old }
    ensures { All IsEnd near.new }
{
    for i in 0..near.len().min(way.len()) {
        let step = times(share, way[i]).wrapping_shl(by);
        near[i] = moved(near[i], step);
    }
}

impl Guide {
    /// The guide of a system with these weights.
    pub(crate) fn new(alloc: Global, rows: Vec<NarrowRow>) -> Result<Guide, AllocError> {
        let size = rows.len();
        Ok(Guide {
            rows,
            parts: vec![in alloc; 0; size]?,
            rest: vec![in alloc; 0; size]?,
            taken_of_rest: vec![in alloc; 0; size]?,
            way: vec![in alloc; 0; size]?,
            taken: vec![in alloc; 0; size]?,
        })
    }

    /// Moves `near`, of which a turn has made `made`, so that a turn changes it by about `aim` ticks everywhere.
    pub(crate) fn approach<R: Threads + Sync, G: Gate + Sync>(
        &mut self,
        rt: &R,
        near: &mut [Tick],
        made: &[Tick],
        aim: i128,
        gate: &G,
    )
        requires { All IsEnd near.old }
        ensures { All IsEnd near.new }
    {
        let by = excess(greatest_gap(near, made, aim), 52).min(127);
        measure(near, made, aim, by, self.rest.as_mut_slice());
        let enough = (greatest_size(self.rest.as_slice()) >> 28).max(SMALL_REST >> by.min(63));
        turn_from(self.rest.as_slice(), 0, self.way.as_mut_slice());
        take(
            rt,
            self.rows.as_slice(),
            self.way.as_slice(),
            self.parts.as_mut_slice(),
            self.taken.as_mut_slice(),
            gate,
        );
        for _ in 0..MOST_STEPS {
            let size = product(self.taken.as_slice(), self.taken.as_slice());
            let share = quotient(product(self.rest.as_slice(), self.taken.as_slice()), size);
            go(near, share, self.way.as_slice(), by);
            take_off(self.rest.as_mut_slice(), share, self.taken.as_slice());
            if greatest_size(self.rest.as_slice()) <= enough {
                return;
            }
            take(
                rt,
                self.rows.as_slice(),
                self.rest.as_slice(),
                self.parts.as_mut_slice(),
                self.taken_of_rest.as_mut_slice(),
                gate,
            );
            let back = quotient(
                product(self.taken_of_rest.as_slice(), self.taken.as_slice()),
                size,
            );
            turn_from(self.rest.as_slice(), back, self.way.as_mut_slice());
            turn_from(
                self.taken_of_rest.as_slice(),
                back,
                self.taken.as_mut_slice(),
            );
        }
    }
}
