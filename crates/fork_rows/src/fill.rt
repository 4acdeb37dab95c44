//! Rows filled by a job, cut in halves that are filled side by side.
ghost use Rattle.std.specs.Prelude.{◌≡◌, ℕ, ◌+◌, ◌*◌, ◌^◌, ◌<◌, ◌≤◌, length, slice_index_or};
ghost use Rattle.std.specs.Thread.{IsSync, IsSend};
ghost use Rattle.fork_rows.specs.Rows.{EachRow, EachChange};

use crate::gate::Gate;
use crate::job::RowJob;
use std::thread::{Threads, join_mut};

/// Runs the job on each row. Rows are cut into the first half, rounded down, and the rest, until at most `grain` are left; halves run
/// side by side, where a thread can be started for one of them, and otherwise after one another. The gate is told of each row before
/// the job begins on it.
pub fn fill_rows<R: Threads + Sync, T: Send, J: RowJob<T> + Sync, G: Gate + Sync>(
    rt: &R,
    rows: &mut [T],
    job: &J,
    gate: &G,
    grain: usize,
)
    requires positive { 0 < grain }
    requires takes { (k : ℕ) (d : T) → k < length rows.old → J.takes job.now k (slice_index_or rows.old k d) }
    ensures makes { (k : ℕ) (d : T) → k < length rows.old → J.makes job.now k (slice_index_or rows.old k d) (slice_index_or rows.new k d) }
{
    fill_from(rt, job, gate, 0, grain, rows.len(), rows);
}

/// The same for `count` rows of a longer list, the first of which has the index `base` there. The rows come last, since the borrow
/// checker covers no closure that reads a captured `&` after it lends a captured `&mut`.
#[cycle(halves)]
fn fill_from<R: Threads + Sync, T: Send, J: RowJob<T> + Sync, G: Gate + Sync>(
    rt: &R,
    job: &J,
    gate: &G,
    base: usize,
    grain: usize,
    count: usize,
    rows: &mut [T],
)
    requires positive { 0 < grain }
    requires takes { EachRow (J.takes job.now) base count rows.old }
    ensures { EachChange (J.makes job.now) base rows.old rows.new }
{
    if count <= grain {
        in_turn(job, gate, base, rows);
        return;
    }
    let low = count / 2;
    let (front, back) = rows.split_at_mut(low);
    both_halves(
        rt,
        job,
        gate,
        grain,
        base,
        low,
        front,
        base + low,
        count - low,
        back,
    );
}

/// Fills two halves side by side: `low` rows from the index `base` on, and `high` rows from the index `up` on.
#[cycle(halves)]
fn both_halves<R: Threads + Sync, T: Send, J: RowJob<T> + Sync, G: Gate + Sync>(
    rt: &R,
    job: &J,
    gate: &G,
    grain: usize,
    base: usize,
    low: usize,
    a: &mut [T],
    up: usize,
    high: usize,
    b: &mut [T],
)
    requires positive { 0 < grain }
    requires some_low { 0 < low }
    requires some_high { 0 < high }
    requires front { EachRow (J.takes job.now) base low a.old }
    requires back { EachRow (J.takes job.now) up high b.old }
    ensures front { EachChange (J.makes job.now) base a.old a.new }
    ensures back { EachChange (J.makes job.now) up b.old b.new }
{
    let mut front = ||
        requires { IsSync R.row × IsSync J.row × IsSync G.row × IsSend T.row × (0 < grain) × EachRow (J.takes job.now) base low a.now }
        ensures { EachChange (J.makes job.entry.now) base a.entry.now a.exit.now }
    { fill_from(rt, job, gate, base, grain, low, a) };
    let mut back = ||
        requires { IsSync R.row × IsSync J.row × IsSync G.row × IsSend T.row × (0 < grain) × EachRow (J.takes job.now) up high b.now }
        ensures { EachChange (J.makes job.entry.now) up b.entry.now b.exit.now }
    { fill_from(rt, job, gate, up, grain, high, b) };
    join_mut(rt, &mut front, &mut back);
}

/// Fills the rows one after another, the first of which has the index `base`.
fn in_turn<T, J: RowJob<T>, G: Gate>(job: &J, gate: &G, base: usize, rows: &mut [T])
    requires room { base + length rows.old < 2 ^ 64 }
    requires takes { (k : ℕ) (d : T) → k < length rows.old → J.takes job.now (base + k) (slice_index_or rows.old k d) }
    ensures { (k : ℕ) (d : T) → k < length rows.old → J.makes job.now (base + k) (slice_index_or rows.old k d) (slice_index_or rows.new k d) }
{
    for k in 0..rows.len() {
        gate.enter(base + k);
        at_one(job, base + k, &mut rows[k]);
    }
}

/// The job on one row.
fn at_one<T, J: RowJob<T>>(job: &J, index: usize, row: &mut T)
    requires { J.takes job.now index row.old }
    ensures { J.makes job.now index row.old row.new }
{
    job.run(index, row);
}
