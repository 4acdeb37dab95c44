//! A system of more rows than one thread fills: its turns and the guide's products go through the gate, half of the rows in a thread
//! of their own.
ghost use Rattle.std.specs.Prelude.{◌≡◌, ℕ, ◌+◌, ◌*◌, ◌<◌, ◌≤◌, ◌^◌, length, IfOk};

use crate::{Bounds, solve};
use fork_rows::Gate;
use fx_base::{Memory, Span, Weight, tick_of};
use interval_system::IntervalSystem;
use std::alloc::Global;
use std::sync::atomic::{AtomicU64, Ordering};
use std::test::Fail;

const ROWS: usize = 672;

/// The whole ticks in 1/10,000 lux.
const NEAR: i128 = 6_871_947;

/// The most turns for which a row waits for the other.
const MOST_WAITS: u32 = 1 << 30;

/// Lets neither the first row nor the first of the second half go on before the other is entered, and counts both.
#[derive(Drop)]
struct Halves {
    first: AtomicU64,
    second: AtomicU64,
    misses: AtomicU64,
}

impl Halves {
    /// Counts this row, and waits until the other was entered as often. After a miss nothing is waited for.
    fn wait(&self, own: &AtomicU64, other: &AtomicU64) {
        let times = own.fetch_add(1, Ordering::SeqCst).wrapping_add(1);
        for _ in 0..MOST_WAITS {
            if other.load(Ordering::SeqCst) >= times || self.misses.load(Ordering::SeqCst) > 0 {
                return;
            }
        }
        self.misses.fetch_add(1, Ordering::SeqCst);
    }
}

impl Gate for Halves {
    fn enter(&self, index: usize) {
        if index == 0 {
            self.wait(&self.first, &self.second);
        } else if index == ROWS / 2 {
            self.wait(&self.second, &self.first);
        }
    }
}

/// 672 patches: 212,720 to 212,727 times 1 to 672 for weights, so that each row of upper ends adds up to 0.7, and direct light from
/// 100 + i to 101 + i lux.
fn many(alloc: Global) -> Result<IntervalSystem, Memory> {
    let mut system = IntervalSystem::new(alloc, ROWS)?;
    for i in 0..ROWS {
        for j in 0..ROWS {
            let share = ((5 * i + 7 * j) % 672 + 1) as u64;
            let weight = Weight {
                lo: 212_720 * share,
                hi: 212_727 * share,
            };
            system.set_weight(i, j, weight);
        }
        let least = (100 + i) as u128 * 68_719_476_736;
        let light = Span::new(tick_of(least), tick_of(least + 68_719_476_736));
        system.set_direct(i, light);
    }
    Ok(system)
}

/// Whether the bounds of patch i lie on either side of the solutions that are given in ticks, rounded down and up, each near it.
fn encloses(bounds: &Bounds, i: usize, low: i128, high: i128) -> bool {
    match (bounds.lower.get(i), bounds.upper.get(i)) {
        (Some(lower), Some(upper)) => {
            lower.0 <= low
                && low.saturating_sub(NEAR) <= lower.0
                && high <= upper.0
                && upper.0 <= high.saturating_add(NEAR)
        }
        _ => false,
    }
}

// The solutions of all lower and of all upper ends are from Python's whole numbers, in parts of 2^-64 of a tick, by turns from below
// and from above until both round to the same tick:
//
//     def solve(unit, light, n=672):
//         k = [[unit * ((5 * i + 7 * j) % n + 1) for j in range(n)] for i in range(n)]
//         d = [light + i << 100 for i in range(n)]
//         low, high = [0] * n, [1 << 124] * n
//         for _ in range(170):
//             low = [d[i] + (sum(map(int.__mul__, k[i], low)) >> 36) for i in range(n)]
//             high = [d[i] - (-sum(map(int.__mul__, k[i], high)) >> 36) for i in range(n)]
//         assert all(a >> 64 == b >> 64 for a, b in zip(low, high))
//         return low, high
//     least, most = solve(212720, 100)[0], solve(212727, 101)[1]
//     for i in (0, 335, 336, 671): print(least[i] >> 64, -(-most[i] >> 64))
#[test]
fn both_halves_of_672_rows_meet_in_each_turn(rt: HostRuntime) -> Result<(), Fail> {
    let system = many(rt.alloc())?;
    let gate = Halves {
        first: AtomicU64::new(0),
        second: AtomicU64::new(0),
        misses: AtomicU64::new(0),
    };
    let bounds = solve(&rt, rt.alloc(), &system, &gate)?;
    assert!(rt; encloses(&bounds, 0, 76_839_876_549_689, 77_075_126_594_139));
    assert!(rt; encloses(&bounds, 335, 99_124_004_619_809, 99_360_215_302_778));
    assert!(rt; encloses(&bounds, 336, 98_777_288_789_043, 99_012_500_926_719));
    assert!(rt; encloses(&bounds, 671, 123_318_349_799_751, 123_554_596_828_656));
    let times = gate.first.load(Ordering::SeqCst);
    assert_eq!(rt; gate.misses.load(Ordering::SeqCst), 0);
    assert_eq!(rt; gate.second.load(Ordering::SeqCst), times);
    assert!(rt; times >= 10);
    Ok(())
}
