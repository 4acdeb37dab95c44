//! Bounds of the light of each patch.
ghost use Rattle.std.specs.Prelude.{◌≡◌, ◌^◌, All, IfOk, IfErr, length, pos, replicate};
ghost use Rattle.fx_base.specs.Bound.{IsEnd};
ghost use Rattle.interval_system.specs.System.{NoneHeavy};
ghost use Rattle.radiosity_solve.specs.Bounds.{IsLowerAnswer, IsUpperAnswer, IsInOrder, IsUniquelySolved};
ghost use Rattle.radiosity_solve.specs.SolveFault.{IsCause};

use crate::fault::SolveFault;
use crate::guide::Guide;
use crate::narrow::{first_heavy, narrow_rows};
use crate::side::{lower_side, upper_side};
use crate::trial::{lower_tried, upper_tried};
use fork_rows::Gate;
use fx_base::Tick;
use interval_system::IntervalSystem;
use std::alloc::Global;
use std::thread::Threads;

/// 2^90 ticks, 256 times the greatest direct light.
const TOP: i128 = 1_237_940_039_285_380_274_899_124_224;

/// A lower and an upper bound for the light of each patch, in ticks of 2^-36 lux.
#[derive(Debug, Drop)]
pub struct Bounds {
    pub lower: Vec<Tick>,
    pub upper: Vec<Tick>,
}

/// The lower bounds: what the trial found, led from `near`, or else what the iteration from 0 gives. `spare` is room for turns.
fn lower_bounds<R: Threads + Sync, G: Gate + Sync>(
    rt: &R,
    system: &IntervalSystem,
    guide: &mut Guide,
    near: &mut [Tick],
    zeros: Vec<Tick>,
    mut spare: Vec<Tick>,
    gate: &G,
) -> Vec<Tick>
    requires none_heavy { NoneHeavy system.now.rows }
    requires size { length near.old ≡ length system.now.rows }
    requires ends { All IsEnd near.old }
    requires start { zeros.items ≡ replicate (length system.now.rows) (record { 0 = pos 0 }) }
    requires room { length spare.items ≡ length system.now.rows }
    ensures answer { IsLowerAnswer system.now result.items }
    ensures ends { All IsEnd near.new }
{
    if lower_tried(rt, system, guide, near, spare.as_mut_slice(), gate) {
        return spare;
    }
    lower_side(rt, system, zeros, spare, gate)
}

/// The upper bounds: what the trial found, led from `near`, or else what the iteration from 2^90 ticks gives.
fn upper_bounds<R: Threads + Sync, G: Gate + Sync>(
    rt: &R,
    system: &IntervalSystem,
    guide: &mut Guide,
    near: &mut [Tick],
    tops: Vec<Tick>,
    mut spare: Vec<Tick>,
    gate: &G,
) -> Vec<Tick>
    requires none_heavy { NoneHeavy system.now.rows }
    requires size { length near.old ≡ length system.now.rows }
    requires ends { All IsEnd near.old }
    requires start { tops.items ≡ replicate (length system.now.rows) (record { 0 = pos (2 ^ 90) }) }
    requires room { length spare.items ≡ length system.now.rows }
    ensures { IsUpperAnswer system.now result.items }
{
    if upper_tried(rt, system, guide, near, spare.as_mut_slice(), gate) {
        return spare;
    }
    upper_side(rt, system, tops, spare, gate)
}

/// Bounds that hold every solution of every system in the intervals, each within 1/10,000 lux of the solution of all lower ends, or
/// of all upper ends, on its side. All memory is taken before the first turn.
pub fn solve<R: Threads + Sync, G: Gate + Sync>(
    rt: &R,
    alloc: Global,
    system: &IntervalSystem,
    gate: &G,
) -> Result<Bounds, SolveFault>
    ensures none_heavy { IfOk result (λ _. NoneHeavy system.now.rows) }
    ensures lower { IfOk result (λ bounds. IsLowerAnswer system.now bounds.lower.items) }
    ensures upper { IfOk result (λ bounds. IsUpperAnswer system.now bounds.upper.items) }
    ensures in_order { IfOk result (λ bounds. IsInOrder system.now bounds.lower.items bounds.upper.items) }
    ensures one_solution { IfOk result (λ _. IsUniquelySolved system.now) }
    ensures refused { IfErr result (λ fault. IsCause system.now fault) }
{
    let rows = narrow_rows(rt, alloc, system, gate)?;
    if let Some(heavy) = first_heavy(system, rows.as_slice()) {
        return Err(SolveFault::RowSum(heavy));
    }
    let size = system.size();
    let mut guide = Guide::new(alloc, rows)?;
    let mut near = vec![in alloc; Tick(0); size]?;
    let zeros = vec![in alloc; Tick(0); size]?;
    let spare_below = vec![in alloc; Tick(0); size]?;
    let tops = vec![in alloc; Tick(TOP); size]?;
    let spare_above = vec![in alloc; Tick(0); size]?;
    let lower = lower_bounds(
        rt,
        system,
        &mut guide,
        near.as_mut_slice(),
        zeros,
        spare_below,
        gate,
    );
    let upper = upper_bounds(
        rt,
        system,
        &mut guide,
        near.as_mut_slice(),
        tops,
        spare_above,
        gate,
    );
    Ok(Bounds { lower, upper })
}
