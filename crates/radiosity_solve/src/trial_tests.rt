//! Systems to whose bounds the guide leads on both sides, and one to which it doesn't, which is answered all the same.
ghost use Rattle.std.specs.Prelude.{◌≡◌, ℕ, ◌+◌, ◌*◌, ◌<◌, ◌≤◌, ◌^◌, length, IfOk};
ghost use Rattle.interval_system.specs.System.{IsWeight};

use crate::guide::Guide;
use crate::narrow::narrow_rows;
use crate::solve;
use crate::trial::{lower_tried, rises_little, upper_tried};
use fork_rows::OpenGate;
use fx_base::{Memory, Span, Tick, Weight};
use interval_system::IntervalSystem;
use std::alloc::{AllocError, Global};
use std::test::Fail;
use std::thread::Threads;

/// The whole ticks in 1/10,000 lux.
const NEAR: i128 = 6_871_947;

/// The share and the direct light of a system of 24 patches.
#[derive(Clone, Copy)]
struct Kind {
    /// Patch j sends to patch i this weight times a number from 1 to 24, which are different in each row: in all 300 times as much.
    unit: u64,
    /// By how much each lower end is below the upper one, in thousandths of it.
    width: u64,
    /// The direct light of patch 0, in lux; patch i has 1/(i + 1) of it.
    light: u64,
    /// The first so many patches have no direct light, and nothing is sent there.
    dark: usize,
}

/// `hi` less `width` thousandths of it, to `hi`, at most 1.
fn weight_of(hi: u64, width: u64) -> Weight
    ensures { IsWeight result }
{
    let hi = hi.min(68_719_476_736);
    Weight {
        lo: hi - hi / 1000 * width.min(1000),
        hi,
    }
}

fn system_of(alloc: Global, kind: Kind) -> Result<IntervalSystem, Memory> {
    let mut system = IntervalSystem::new(alloc, 24)?;
    for i in kind.dark..24usize {
        for j in 0..24usize {
            let share = ((5 * i + 7 * j) % 24 + 1) as u64;
            system.set_weight(i, j, weight_of(kind.unit.min(1 << 36) * share, kind.width));
        }
        system.set_direct(i, Span::whole(kind.light.min(1 << 46) / (i as u64 + 1)));
    }
    Ok(system)
}

/// Whether the guide leads to lower bounds, and to upper bounds.
fn found<R: Threads + Sync>(
    rt: &R,
    alloc: Global,
    system: &IntervalSystem,
) -> Result<(bool, bool), AllocError> {
    if let Some(_heavy) = system.heavy_row() {
        return Ok((false, false));
    }
    let size = system.size();
    let mut guide = Guide::new(alloc, narrow_rows(rt, alloc, system, &OpenGate)?)?;
    let mut near = vec![in alloc; Tick(0); size]?;
    let mut made = vec![in alloc; Tick(0); size]?;
    let lower = lower_tried(
        rt,
        system,
        &mut guide,
        near.as_mut_slice(),
        made.as_mut_slice(),
        &OpenGate,
    );
    let upper = upper_tried(
        rt,
        system,
        &mut guide,
        near.as_mut_slice(),
        made.as_mut_slice(),
        &OpenGate,
    );
    Ok((lower, upper))
}

/// Whether the bounds of patch i are near the solutions that are given in ticks, rounded down and up, on either side.
fn encloses<R: Threads + Sync>(
    rt: &R,
    alloc: Global,
    system: &IntervalSystem,
    i: usize,
    low: i128,
    high: i128,
) -> bool {
    let Ok(bounds) = solve(rt, alloc, system, &OpenGate) else {
        return false;
    };
    match (bounds.lower.get(i), bounds.upper.get(i)) {
        (Some(lower), Some(upper)) => {
            lower.0 <= low
                && low.saturating_sub(NEAR) <= lower.0
                && high <= upper.0
                && upper.0 <= high.saturating_add(NEAR)
        }
        _ => false,
    }
}

// The solutions of all lower and of all upper ends at patch 23 are from Python's fractions, by Gauss's elimination of
//
//     lo = hi - hi // 1000 * width, hi = unit * ((5 * i + 7 * j) % 24 + 1), light // (i + 1), and nothing where i < dark,
//
// floor and ceil of 2^36 times each.

#[test]
fn a_row_sum_of_a_half(rt: HostRuntime) -> Result<(), Fail> {
    let kind = Kind {
        unit: 114_532_461,
        width: 0,
        light: 100,
        dark: 0,
    };
    let system = system_of(rt.alloc(), kind)?;
    assert_eq!(rt; found(&rt, rt.alloc(), &system)?, (true, true));
    assert!(rt;
        encloses(
            &rt,
            rt.alloc(),
            &system,
            23,
            1_381_934_505_860,
            1_381_934_505_861
        )
    );
    Ok(())
}

#[test]
fn a_row_sum_of_nine_tenths(rt: HostRuntime) -> Result<(), Fail> {
    let kind = Kind {
        unit: 206_158_430,
        width: 0,
        light: 1_000,
        dark: 0,
    };
    let system = system_of(rt.alloc(), kind)?;
    assert_eq!(rt; found(&rt, rt.alloc(), &system)?, (true, true));
    assert!(rt;
        encloses(
            &rt,
            rt.alloc(),
            &system,
            23,
            100_743_602_990_002,
            100_743_602_990_003
        )
    );
    Ok(())
}

#[test]
fn a_row_sum_of_255_by_256(rt: HostRuntime) -> Result<(), Fail> {
    let kind = Kind {
        unit: 228_170_137,
        width: 0,
        light: 1_000,
        dark: 0,
    };
    let system = system_of(rt.alloc(), kind)?;
    assert_eq!(rt; found(&rt, rt.alloc(), &system)?, (true, true));
    assert!(rt;
        encloses(
            &rt,
            rt.alloc(),
            &system,
            23,
            2_753_512_870_533_302,
            2_753_512_870_533_303
        )
    );
    Ok(())
}

#[test]
fn half_of_the_patches_dark(rt: HostRuntime) -> Result<(), Fail> {
    let kind = Kind {
        unit: 206_158_430,
        width: 0,
        light: 1_000,
        dark: 12,
    };
    let system = system_of(rt.alloc(), kind)?;
    assert_eq!(rt; found(&rt, rt.alloc(), &system)?, (true, true));
    assert!(rt;
        encloses(
            &rt,
            rt.alloc(),
            &system,
            23,
            5_902_178_883_514,
            5_902_178_883_515
        )
    );
    Ok(())
}

#[test]
fn light_of_70_million_million_lux(rt: HostRuntime) -> Result<(), Fail> {
    let kind = Kind {
        unit: 160_345_446,
        width: 0,
        light: 70_368_744_177_664,
        dark: 0,
    };
    let system = system_of(rt.alloc(), kind)?;
    assert_eq!(rt; found(&rt, rt.alloc(), &system)?, (true, true));
    assert!(rt;
        encloses(
            &rt,
            rt.alloc(),
            &system,
            23,
            2_024_404_988_817_036_728_549_295,
            2_024_404_988_817_036_728_549_296
        )
    );
    Ok(())
}

#[test]
fn weights_that_are_a_per_cent_wide(rt: HostRuntime) -> Result<(), Fail> {
    let kind = Kind {
        unit: 206_158_430,
        width: 10,
        light: 1_000,
        dark: 0,
    };
    let system = system_of(rt.alloc(), kind)?;
    assert_eq!(rt; found(&rt, rt.alloc(), &system)?, (true, true));
    assert!(rt;
        encloses(
            &rt,
            rt.alloc(),
            &system,
            23,
            91_831_029_081_968,
            100_743_602_990_003
        )
    );
    Ok(())
}

#[test]
fn weights_a_fifth_wide_are_left_to_the_iteration(rt: HostRuntime) -> Result<(), Fail> {
    let kind = Kind {
        unit: 217_611_676,
        width: 200,
        light: 1_000,
        dark: 0,
    };
    let system = system_of(rt.alloc(), kind)?;
    assert_eq!(rt; found(&rt, rt.alloc(), &system)?, (false, false));
    assert!(rt;
        encloses(
            &rt,
            rt.alloc(),
            &system,
            23,
            37_702_042_752_762,
            208_625_927_868_008
        )
    );
    Ok(())
}

#[test]
fn a_rise_is_little_up_to_16_384_ticks(rt: HostRuntime) {
    let low = [Tick(5), Tick(7)];
    assert!(rt; rises_little(&low, &[Tick(5), Tick(16_391)]));
    assert!(rt; !rises_little(&low, &[Tick(5), Tick(16_392)]));
    assert!(rt; !rises_little(&low, &[Tick(4), Tick(8)]));
}
