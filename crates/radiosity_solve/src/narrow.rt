//! The rows of a system made ready, each gone through once: its weights in 32 bits, for the guide, and the sum of its upper ends, which
//! says whether it is heavy. Of the weights in 32 bits and of what they send nothing is claimed.
ghost use Rattle.std.specs.Prelude.{◌≡◌, ℕ, ◌<◌, ◌≤◌, length, IfOk, MatchOption};
ghost use Rattle.interval_system.specs.System.{NoneHeavy, IsFirstHeavy};
ghost use Rattle.radiosity_solve.specs.Narrow.{HaveSums};

use crate::numbers::{cut, narrow_product, shorten};
use crate::turn::GRAIN;
use fork_rows::{Gate, RowJob, fill_rows};
use fx_base::Weight;
use interval_system::{Heavy, IntervalSystem, Row};
use std::alloc::{AllocError, Global};
use std::thread::Threads;

/// The greatest sum of the upper ends of a row that isn't heavy: 255/256, in ticks.
const GREATEST_ROW_SUM: u64 = 68_451_041_280;

/// A row of a system.
#[derive(Drop)]
pub(crate) struct NarrowRow {
    /// The weights in parts of 2^-32.
    weights: Vec<u32>,
    /// What the row has with 2^31 for each part of a list.
    middle: u64,
    /// The sum of the upper ends of its weights, in ticks.
    sum: u64,
}

/// A weight in parts of 2^-32: the middle of its ends, so that it serves both sides.
fn narrow_weight(weight: Weight) -> u32 {
    (weight.lo.wrapping_add(weight.hi).wrapping_add(16) >> 5).min(u32::MAX as u64) as u32
}

/// Puts the weights into the room that is kept for them, and gives what they have with 2^31 for each part of a list.
fn narrow(wide: &Row, weights: &mut Vec<u32>) -> u64 {
    let mut sum = 0u64;
    for j in 0..wide.len() {
        let weight = narrow_weight(wide.weight(j));
        sum = sum.wrapping_add(weight as u64);
        if weights.len() < weights.capacity() {
            weights.push_reserved(weight);
        }
    }
    sum << 31
}

/// Makes the rows of a system ready, in the room that is kept for them.
#[derive(Drop)]
struct Narrowing<'a> {
    system: &'a IntervalSystem,
}

impl<'a> RowJob<NarrowRow> for Narrowing<'a> {
    ghost use Rattle.std.specs.Prelude.{◌≡◌, ◌<◌, [], length, slice_index_or};
    ghost use Rattle.interval_system.specs.System.{upper_total};

    ghost takes = { λ job i _. i < length job.system.now.rows };

    ghost makes = { λ job i _ row. row.sum ≡ upper_total (slice_index_or job.system.now.rows i []) };

    fn run(&self, index: usize, row: &mut NarrowRow) {
        let wide = self.system.row(index);
        row.sum = wide.sum();
        row.middle = narrow(wide, &mut row.weights);
    }
}

/// Fills the rows that are reserved.
fn fill_narrow<R: Threads + Sync, G: Gate + Sync>(
    rt: &R,
    system: &IntervalSystem,
    rows: &mut [NarrowRow],
    gate: &G,
)
    requires { length rows.old ≡ length system.now.rows }
    ensures { HaveSums system.now rows.new }
{
    fill_rows(rt, rows, &Narrowing { system }, gate, GRAIN);
}

/// The rows of a system, with their weights in 32 bits and their sums. All memory is taken before the first of them is filled.
pub(crate) fn narrow_rows<R: Threads + Sync, G: Gate + Sync>(
    rt: &R,
    alloc: Global,
    system: &IntervalSystem,
    gate: &G,
) -> Result<Vec<NarrowRow>, AllocError>
    ensures { IfOk result (λ rows. HaveSums system.now rows.items) }
{
    let size = system.size();
    let mut rows = Vec::with_capacity(alloc, size)?;
    for _ in 0..size {
        let weights = Vec::with_capacity(alloc, size)?;
        rows.push(NarrowRow {
            weights,
            middle: 0,
            sum: 0,
        })?;
    }
    fill_narrow(rt, system, rows.as_mut_slice(), gate);
    Ok(rows)
}

/// The first row whose upper ends add up to more than 255/256.
pub(crate) fn first_heavy(system: &IntervalSystem, rows: &[NarrowRow]) -> Option<Heavy>
    requires { HaveSums system.now rows.now }
    ensures { MatchOption result (NoneHeavy system.now.rows) (λ h. IsFirstHeavy system.now.rows h.row h.upper) }
{
    let _size = system.size();
    for i in 0..rows.len() {
        let upper = rows[i].sum;
        if upper > GREATEST_ROW_SUM {
            return Some(Heavy {
                row: i as u32,
                upper,
            });
        }
    }
    None
}

/// What the equations take of a list: each number less what the others send there.
#[derive(Drop)]
struct Taking<'a> {
    rows: &'a [NarrowRow],
    list: &'a [i64],
    /// The numbers of the list in 32 bits.
    parts: &'a [u32],
    /// By how many bits a sum of weights and parts is more than the numbers of the list.
    more: u32,
}

impl<'a> RowJob<i64> for Taking<'a> {
    ghost takes = { λ _ _ _. Unit {0} };

    ghost makes = { λ _ _ _ _. Unit {0} };

    fn run(&self, index: usize, row: &mut i64) {
        if index < self.rows.len() && index < self.list.len() {
            let weights = &self.rows[index];
            let sent = narrow_product(weights.weights.as_slice(), self.parts)
                .wrapping_sub(weights.middle)
                .cast_signed();
            let left = (self.list[index] as i128).wrapping_sub((sent >> self.more.min(63)) as i128);
            *row = cut(left);
        }
    }
}

/// What the equations take of the list. `parts` is room for its numbers in 32 bits.
pub(crate) fn take<R: Threads + Sync, G: Gate + Sync>(
    rt: &R,
    rows: &[NarrowRow],
    list: &[i64],
    parts: &mut [u32],
    into: &mut [i64],
    gate: &G,
) {
    let more = 32u32.saturating_sub(shorten(list, parts));
    let job = Taking {
        rows,
        list,
        parts,
        more,
    };
    fill_rows(rt, into, &job, gate, GRAIN);
}
