//! Bounds that the guide leads to: a list that a turn raises by little everywhere makes lower bounds of what the turn makes of it, and
//! a list that a turn lowers by little makes upper bounds.
ghost use Rattle.std.specs.Prelude.{◌≡◌, ℕ, ◌<◌, ◌≤◌, All, IsTrue, length};
ghost use Rattle.fx_base.specs.Bound.{IsEnd};
ghost use Rattle.interval_system.specs.System.{NoneHeavy};
ghost use Rattle.radiosity_solve.specs.Bounds.{IsLowerAnswer, IsUpperAnswer};
ghost use Rattle.radiosity_solve.specs.Turn.{IsRiseBy};

use crate::guide::Guide;
use crate::turn::{lower_turn, upper_turn};
use fork_rows::Gate;
use fx_base::{Tick, end_ticks};
use interval_system::IntervalSystem;
use std::thread::Threads;

/// The most turns on a side; the iteration from 0 or from 2^90 ticks serves where they don't do.
const MOST_TRIALS: u32 = 16;

/// The greatest rise, in ticks, after which no further turn is made.
const SMALL_RISE: u128 = 16_384;

/// By how many ticks the guide lets a turn change a list: half of that, so that no change goes the wrong way.
const AIM: i128 = 8_192;

/// Whether each number of `high` is at least that of `low`, and by little above it.
pub(crate) fn rises_little(low: &[Tick], high: &[Tick]) -> bool
    requires size { length low.now ≡ length high.now }
    requires low_ends { All IsEnd low.now }
    requires high_ends { All IsEnd high.now }
    ensures { IsTrue result → IsRiseBy 16384 low.now high.now }
{
    for i in 0..low.len() {
        let from = end_ticks(low[i]);
        let to = end_ticks(high[i]);
        if to < from || to - from > SMALL_RISE {
            return false;
        }
    }
    true
}

/// Tries turns from `near`, led by the guide. Where this answers true, `made` holds lower bounds.
pub(crate) fn lower_tried<R: Threads + Sync, G: Gate + Sync>(
    rt: &R,
    system: &IntervalSystem,
    guide: &mut Guide,
    near: &mut [Tick],
    made: &mut [Tick],
    gate: &G,
) -> bool
    requires none_heavy { NoneHeavy system.now.rows }
    requires size { length near.old ≡ length system.now.rows }
    requires room { length made.old ≡ length system.now.rows }
    requires ends { All IsEnd near.old }
    ensures found { IsTrue result → IsLowerAnswer system.now made.new }
    ensures ends { All IsEnd near.new }
{
    let _size = system.size();
    for _ in 0..MOST_TRIALS {
        lower_turn(rt, system, near, made, gate);
        if rises_little(near, made) {
            return true;
        }
        guide.approach(rt, near, made, AIM, gate);
    }
    false
}

/// The same from above: where this answers true, `made` holds upper bounds.
pub(crate) fn upper_tried<R: Threads + Sync, G: Gate + Sync>(
    rt: &R,
    system: &IntervalSystem,
    guide: &mut Guide,
    near: &mut [Tick],
    made: &mut [Tick],
    gate: &G,
) -> bool
    requires none_heavy { NoneHeavy system.now.rows }
    requires size { length near.old ≡ length system.now.rows }
    requires room { length made.old ≡ length system.now.rows }
    requires ends { All IsEnd near.old }
    ensures found { IsTrue result → IsUpperAnswer system.now made.new }
    ensures ends { All IsEnd near.new }
{
    let _size = system.size();
    for _ in 0..MOST_TRIALS {
        upper_turn(rt, system, near, made, gate);
        if rises_little(made, near) {
            return true;
        }
        guide.approach(rt, near, made, -AIM, gate);
    }
    false
}
