//! Claims on the light of the patches, whoever made them, and whether one multiplication shows them.
ghost use Rattle.std.specs.Prelude.{◌≡◌, ◌<◌, ◌≤◌, ◌↔◌, All, IfErr, IfOk, IsTrue, length};
ghost use Rattle.interval_system.specs.System.{NoneHeavy};
ghost use Rattle.radiosity_solve.specs.Bounds.{IsEnd, tick_at};
ghost use Rattle.radiosity_solve.specs.Claim.{IsFirstNotShown, IsShown};
ghost use Rattle.radiosity_solve.specs.Turn.{next_low, next_high};

use crate::bounds::Bounds;
use crate::turn::{lower_row, upper_row};
use fx_base::{Tick, end_ticks};
use interval_system::IntervalSystem;

/// Whether the lower bound of patch i is at most the light that the lower bounds give there.
fn shows_lower(system: &IntervalSystem, lower: &[Tick], i: usize) -> bool
    requires row { i < length system.now.rows }
    requires size { length lower.now ≡ length system.now.rows }
    requires ends { All IsEnd lower.now }
    ensures { IsTrue result ↔ (tick_at lower.now i ≤ next_low system.now lower.now i) }
{
    end_ticks(lower[i]) <= lower_row(system, lower, i)
}

/// Whether the upper bound of patch i is at least the light that the upper bounds give there.
fn shows_upper(system: &IntervalSystem, upper: &[Tick], i: usize) -> bool
    requires row { i < length system.now.rows }
    requires size { length upper.now ≡ length system.now.rows }
    requires ends { All IsEnd upper.now }
    ensures { IsTrue result ↔ (next_high system.now upper.now i ≤ tick_at upper.now i) }
{
    upper_row(system, upper, i) <= end_ticks(upper[i])
}

/// Whether the system shows the claim, by one multiplication of each side. The error is the first row, counted from 0, at which it
/// isn't shown.
pub fn holds(system: &IntervalSystem, bounds: &Bounds) -> Result<(), usize>
    requires none_heavy { NoneHeavy system.now.rows }
    requires lower_size { length bounds.now.lower.items ≡ length system.now.rows }
    requires upper_size { length bounds.now.upper.items ≡ length system.now.rows }
    requires lower_ends { All IsEnd bounds.now.lower.items }
    requires upper_ends { All IsEnd bounds.now.upper.items }
    ensures shown { IfOk result (λ _. IsShown system.now bounds.now.lower.items bounds.now.upper.items) }
    ensures first { IfErr result (λ i. IsFirstNotShown system.now bounds.now.lower.items bounds.now.upper.items i) }
{
    let lower = bounds.lower.as_slice();
    let upper = bounds.upper.as_slice();
    for i in 0..system.size() {
        if !shows_lower(system, lower, i) || !shows_upper(system, upper, i) {
            return Err(i);
        }
    }
    Ok(())
}
