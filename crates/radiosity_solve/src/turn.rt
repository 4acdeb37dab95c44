//! One turn of the solver: the light that a list of ticks gives to each patch, all of the lower ends or all of the upper ends, each
//! product rounded outward to a tick. A turn fills a list that is there already, its rows side by side.
ghost use Rattle.std.specs.Prelude.{◌≡◌, ℕ, ◌+◌, ◌*◌, ◌^◌, ◌<◌, ◌≤◌, length, All};
ghost use Rattle.interval_system.specs.System.{low_direct, high_direct};
ghost use Rattle.radiosity_solve.specs.Bounds.{IsEnd};
ghost use Rattle.radiosity_solve.specs.Turn.{next_low, next_high, IsLowerTurn, IsUpperTurn, IsChangedBy};

use fork_rows::{Gate, RowJob, fill_rows};
use fx_base::{Tick, end_ticks, magnitude, tick_of};
use interval_system::IntervalSystem;
use std::thread::Threads;

/// The most rows that are filled one after another: a thread costs more than the work on so few.
pub(crate) const GRAIN: usize = 512;

/// The lower end of the direct light of patch i, in ticks.
#[tactic(auto, using(crate::proofs::Steps::light_small))]
fn least_direct(system: &IntervalSystem, i: usize) -> u128
    requires { i < length system.now.rows }
    ensures light { result ≡ low_direct system.now i }
    ensures most { result ≤ 2 ^ 82 }
{
    magnitude(system.direct(i).lo())
}

/// The upper end of it.
#[tactic(auto, using(crate::proofs::Steps::light_small))]
fn greatest_direct(system: &IntervalSystem, i: usize) -> u128
    requires { i < length system.now.rows }
    ensures light { result ≡ high_direct system.now i }
    ensures most { result ≤ 2 ^ 82 }
{
    magnitude(system.direct(i).hi())
}

/// The light that `from` gives to patch i by the lower ends, each product rounded down.
#[tactic(auto, using(crate::proofs::Steps::rows))]
pub(crate) fn lower_row(system: &IntervalSystem, from: &[Tick], i: usize) -> u128
    requires row { i < length system.now.rows }
    requires size { length from.now ≡ length system.now.rows }
    requires ends { All IsEnd from.now }
    ensures light { result ≡ next_low system.now from.now i }
    ensures most { result ≤ 2 ^ 103 }
{
    least_direct(system, i) + system.row(i).sent_below(from)
}

/// The light that `from` gives to patch i by the upper ends, each product rounded up.
#[tactic(auto, using(crate::proofs::Steps::rows))]
pub(crate) fn upper_row(system: &IntervalSystem, from: &[Tick], i: usize) -> u128
    requires row { i < length system.now.rows }
    requires size { length from.now ≡ length system.now.rows }
    requires ends { All IsEnd from.now }
    ensures light { result ≡ next_high system.now from.now i }
    ensures most { result ≤ 2 ^ 103 }
{
    greatest_direct(system, i) + system.row(i).sent_above(from)
}

/// The light that `from` gives to a patch by the lower ends.
#[derive(Drop)]
struct LowerLight<'a> {
    system: &'a IntervalSystem,
    from: &'a [Tick],
}

impl<'a> RowJob<Tick> for LowerLight<'a> {
    ghost use Rattle.std.specs.Prelude.{◌≡◌, ◌<◌, pos, length, All};
    ghost use Rattle.fx_base.specs.Bound.{IsEnd};
    ghost use Rattle.radiosity_solve.specs.Turn.{next_low};

    ghost takes = { λ job i _. (i < length job.system.now.rows) × (length job.from.now ≡ length job.system.now.rows) × All IsEnd job.from.now };

    ghost makes = { λ job i _ light. light ≡ record { 0 = pos (next_low job.system.now job.from.now i) } };

    fn run(&self, index: usize, row: &mut Tick) {
        *row = tick_of(lower_row(self.system, self.from, index));
    }
}

/// The light that `from` gives to a patch by the upper ends.
#[derive(Drop)]
struct UpperLight<'a> {
    system: &'a IntervalSystem,
    from: &'a [Tick],
}

impl<'a> RowJob<Tick> for UpperLight<'a> {
    ghost use Rattle.std.specs.Prelude.{◌≡◌, ◌<◌, pos, length, All};
    ghost use Rattle.fx_base.specs.Bound.{IsEnd};
    ghost use Rattle.radiosity_solve.specs.Turn.{next_high};

    ghost takes = { λ job i _. (i < length job.system.now.rows) × (length job.from.now ≡ length job.system.now.rows) × All IsEnd job.from.now };

    ghost makes = { λ job i _ light. light ≡ record { 0 = pos (next_high job.system.now job.from.now i) } };

    fn run(&self, index: usize, row: &mut Tick) {
        *row = tick_of(upper_row(self.system, self.from, index));
    }
}

/// A turn from below.
pub(crate) fn lower_turn<R: Threads + Sync, G: Gate + Sync>(
    rt: &R,
    system: &IntervalSystem,
    from: &[Tick],
    into: &mut [Tick],
    gate: &G,
)
    requires size { length from.now ≡ length system.now.rows }
    requires room { length into.old ≡ length system.now.rows }
    requires ends { All IsEnd from.now }
    ensures { IsLowerTurn system.now from.now into.new }
{
    fill_rows(rt, into, &LowerLight { system, from }, gate, GRAIN);
}

/// A turn from above.
pub(crate) fn upper_turn<R: Threads + Sync, G: Gate + Sync>(
    rt: &R,
    system: &IntervalSystem,
    from: &[Tick],
    into: &mut [Tick],
    gate: &G,
)
    requires size { length from.now ≡ length system.now.rows }
    requires room { length into.old ≡ length system.now.rows }
    requires ends { All IsEnd from.now }
    ensures { IsUpperTurn system.now from.now into.new }
{
    fill_rows(rt, into, &UpperLight { system, from }, gate, GRAIN);
}

/// By how many ticks an end changed most.
pub(crate) fn greatest_change(from: &[Tick], into: &[Tick]) -> u128
    requires size { length from.now ≡ length into.now }
    requires from { All IsEnd from.now }
    requires into { All IsEnd into.now }
    ensures { IsChangedBy result from.now into.now }
{
    let mut most = 0;
    for i in 0..from.len() {
        let before = end_ticks(from[i]);
        let after = end_ticks(into[i]);
        let change = if before < after {
            after - before
        } else {
            before - after
        };
        if most < change {
            most = change;
        }
    }
    most
}
