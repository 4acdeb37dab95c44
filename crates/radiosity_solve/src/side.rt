//! The iteration of one side, from 0 upward or from 2^90 ticks downward, until a turn changes no value by more than 16,384 ticks or
//! 16,384 turns are made. Either way each value is then within 1/10,000 lux of the solution on its side.
ghost use Rattle.std.specs.Prelude.{◌≡◌, ℕ, ◌+◌, ◌*◌, ◌^◌, ◌<◌, ◌≤◌, length, All, replicate, pos};
ghost use Rattle.interval_system.specs.System.{NoneHeavy, low_weight, high_weight, low_direct, high_direct};
ghost use Rattle.radiosity_solve.specs.Bounds.{IsEnd, tick_at, IsLowerAnswer, IsUpperAnswer};
ghost use Rattle.radiosity_solve.specs.Shown.{IsShownLower, IsShownUpper};
ghost use Rattle.radiosity_solve.specs.Turn.{IsLowerTurn, IsUpperTurn, IsChangedBy};

use crate::turn::{greatest_change, lower_turn, upper_turn};
use fork_rows::Gate;
use fx_base::Tick;
use interval_system::IntervalSystem;
use std::mem::swap;
use std::thread::Threads;

const MOST_TURNS: u32 = 16_384;

/// A change, in ticks, after which no further turn is made.
const SMALL_CHANGE: u128 = 16_384;

/// A turn from below, and by how much it changed most.
fn rise<R: Threads + Sync, G: Gate + Sync>(
    rt: &R,
    system: &IntervalSystem,
    from: &[Tick],
    into: &mut [Tick],
    gate: &G,
) -> u128
    requires none_heavy { NoneHeavy system.now.rows }
    requires size { length from.now ≡ length system.now.rows }
    requires room { length into.old ≡ length system.now.rows }
    requires ends { All IsEnd from.now }
    ensures turn { IsLowerTurn system.now from.now into.new }
    ensures ends { All IsEnd into.new }
    ensures change { IsChangedBy result from.now into.new }
{
    let _size = system.size();
    lower_turn(rt, system, from, into, gate);
    greatest_change(from, into)
}

/// A turn from above, and by how much it changed most.
fn fall<R: Threads + Sync, G: Gate + Sync>(
    rt: &R,
    system: &IntervalSystem,
    from: &[Tick],
    into: &mut [Tick],
    gate: &G,
) -> u128
    requires none_heavy { NoneHeavy system.now.rows }
    requires size { length from.now ≡ length system.now.rows }
    requires room { length into.old ≡ length system.now.rows }
    requires ends { All IsEnd from.now }
    ensures turn { IsUpperTurn system.now from.now into.new }
    ensures ends { All IsEnd into.new }
    ensures change { IsChangedBy result from.now into.new }
{
    let _size = system.size();
    upper_turn(rt, system, from, into, gate);
    greatest_change(from, into)
}

/// The lower bounds. `spare` is room for the turns.
pub(crate) fn lower_side<R: Threads + Sync, G: Gate + Sync>(
    rt: &R,
    system: &IntervalSystem,
    zeros: Vec<Tick>,
    spare: Vec<Tick>,
    gate: &G,
) -> Vec<Tick>
    requires none_heavy { NoneHeavy system.now.rows }
    requires start { zeros.items ≡ replicate (length system.now.rows) (record { 0 = pos 0 }) }
    requires room { length spare.items ≡ length system.now.rows }
    ensures { IsLowerAnswer system.now result.items }
{
    let _size = system.size();
    let mut x = zeros;
    let mut y = spare;
    for turn in 0..MOST_TURNS {
        let change = rise(rt, system, x.as_slice(), y.as_mut_slice(), gate);
        swap(&mut x, &mut y);
        if change <= SMALL_CHANGE {
            return x;
        }
    }
    x
}

/// The upper bounds. `spare` is room for the turns.
pub(crate) fn upper_side<R: Threads + Sync, G: Gate + Sync>(
    rt: &R,
    system: &IntervalSystem,
    tops: Vec<Tick>,
    spare: Vec<Tick>,
    gate: &G,
) -> Vec<Tick>
    requires none_heavy { NoneHeavy system.now.rows }
    requires start { tops.items ≡ replicate (length system.now.rows) (record { 0 = pos (2 ^ 90) }) }
    requires room { length spare.items ≡ length system.now.rows }
    ensures { IsUpperAnswer system.now result.items }
{
    let _size = system.size();
    let mut x = tops;
    let mut y = spare;
    for turn in 0..MOST_TURNS {
        let change = fall(rt, system, x.as_slice(), y.as_mut_slice(), gate);
        swap(&mut x, &mut y);
        if change <= SMALL_CHANGE {
            return x;
        }
    }
    x
}
