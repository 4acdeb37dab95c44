//! Bounds of small systems, against their solutions worked out by hand.
ghost use Rattle.std.specs.Prelude.{◌≡◌, ℕ, ◌+◌, ◌<◌, ◌≤◌, ◌^◌, length, All, IfOk};
ghost use Rattle.fx_base.specs.Bound.{IsEnd};
ghost use Rattle.interval_system.specs.System.{IsWeight};

use crate::{Bounds, SolveFault, holds, solve};
use fork_rows::OpenGate;
use fx_base::{Memory, Span, Tick, Weight, tick_of};
use interval_system::{Heavy, IntervalSystem};
use std::alloc::Global;
use std::test::Fail;

const ONE: i128 = 68_719_476_736;

/// The whole ticks in 1/10,000 lux.
const NEAR: i128 = 6_871_947;

fn exactly(weight: u64) -> Weight
    requires { weight ≤ 2 ^ 36 }
    ensures { IsWeight result }
{
    Weight {
        lo: weight,
        hi: weight,
    }
}

/// One row that sends itself `weight`, with a direct light of 1 lux.
fn one_row(alloc: Global, weight: u64) -> Result<IntervalSystem, Memory>
    requires { weight ≤ 2 ^ 36 }
{
    let mut system = IntervalSystem::new(alloc, 1)?;
    system.set_weight(0, 0, exactly(weight));
    system.set_direct(0, Span::whole(1));
    Ok(system)
}

/// Whether the bounds of patch i lie on either side of the solutions that are given in ticks, rounded down and up, each near it.
fn encloses(bounds: &Bounds, i: usize, low: i128, high: i128) -> bool {
    match (bounds.lower.get(i), bounds.upper.get(i)) {
        (Some(lower), Some(upper)) => {
            lower.0 <= low
                && low.saturating_sub(NEAR) <= lower.0
                && high <= upper.0
                && upper.0 <= high.saturating_add(NEAR)
        }
        _ => false,
    }
}

#[test]
fn no_row_has_no_bounds(rt: HostRuntime) -> Result<(), Fail> {
    let system = IntervalSystem::new(rt.alloc(), 0)?;
    let bounds = solve(&rt, rt.alloc(), &system, &OpenGate)?;
    assert_eq!(rt; bounds.lower.len(), 0);
    assert_eq!(rt; bounds.upper.len(), 0);
    Ok(())
}

// h = 1 + h / 2
#[test]
fn a_patch_that_sends_itself_a_half_has_twice_its_direct_light(
    rt: HostRuntime,
) -> Result<(), Fail> {
    let system = one_row(rt.alloc(), 34_359_738_368)?;
    let bounds = solve(&rt, rt.alloc(), &system, &OpenGate)?;
    assert!(rt; encloses(&bounds, 0, 2 * ONE, 2 * ONE));
    Ok(())
}

// h0 = 1 + h1 / 2 and h1 = h0 / 4: 8/7 and 2/7
#[test]
fn two_patches_light_each_other(rt: HostRuntime) -> Result<(), Fail> {
    let mut system = IntervalSystem::new(rt.alloc(), 2)?;
    system.set_weight(0, 1, exactly(34_359_738_368));
    system.set_weight(1, 0, exactly(17_179_869_184));
    system.set_direct(0, Span::whole(1));
    let bounds = solve(&rt, rt.alloc(), &system, &OpenGate)?;
    assert!(rt; encloses(&bounds, 0, 8 * ONE / 7, 8 * ONE / 7 + 1));
    assert!(rt; encloses(&bounds, 1, 2 * ONE / 7, 2 * ONE / 7 + 1));
    Ok(())
}

// h = 1 + 255/256 h
#[test]
fn the_greatest_row_is_solved(rt: HostRuntime) -> Result<(), Fail> {
    let system = one_row(rt.alloc(), 68_451_041_280)?;
    let bounds = solve(&rt, rt.alloc(), &system, &OpenGate)?;
    assert!(rt; encloses(&bounds, 0, 256 * ONE, 256 * ONE));
    Ok(())
}

#[test]
fn a_row_of_one_tick_more_is_refused(rt: HostRuntime) -> Result<(), Fail> {
    let system = one_row(rt.alloc(), 68_451_041_281)?;
    let heavy = Heavy {
        row: 0,
        upper: 68_451_041_281,
    };
    assert_eq!(rt;
        solve(&rt, rt.alloc(), &system, &OpenGate).err(),
        Some(SolveFault::RowSum(heavy))
    );
    Ok(())
}

/// 50 patches: 48,507,000 to 48,507,865 times 1 to 50 for weights, so that each row of upper ends adds up to 0.9, and direct light
/// from 100 + i to 101 + i lux.
fn fifty(alloc: Global) -> Result<IntervalSystem, Memory> {
    let mut system = IntervalSystem::new(alloc, 50)?;
    for i in 0..50usize {
        for j in 0..50usize {
            let share = ((i + j) % 50 + 1) as u64;
            let weight = Weight {
                lo: 48_507_000 * share,
                hi: 48_507_865 * share,
            };
            system.set_weight(i, j, weight);
        }
        let least = (100 + i) as u128 * 68_719_476_736;
        let light = Span::new(tick_of(least), tick_of(least + 68_719_476_736));
        system.set_direct(i, light);
    }
    Ok(system)
}

// The solutions of all lower and of all upper ends are from Python's fractions, by Gauss's elimination:
//
//     from fractions import Fraction as F
//     def solve(unit, light, n=50, one=2**36):
//         a = [[(1 if i == j else 0) - F(unit * (1 + (i + j) % n), one) for j in range(n)] + [F(light + i)] for i in range(n)]
//         for p in range(n):
//             a[p] = [x / a[p][p] for x in a[p]]
//             for i in range(n):
//                 if i != p: a[i] = [x - a[i][p] * y for x, y in zip(a[i], a[p])]
//         return [row[n] * one for row in a]
//     for i in (0, 17, 49): print(floor(solve(48507000, 100)[i]), ceil(solve(48507865, 101)[i]))
#[test]
fn fifty_patches_have_the_solutions_of_an_exact_elimination(rt: HostRuntime) -> Result<(), Fail> {
    let system = fifty(rt.alloc())?;
    let bounds = solve(&rt, rt.alloc(), &system, &OpenGate)?;
    assert!(rt; encloses(&bounds, 0, 84_382_489_518_876, 85_083_423_008_705));
    assert!(rt; encloses(&bounds, 17, 84_770_086_669_770, 85_471_003_351_787));
    assert!(rt; encloses(&bounds, 49, 87_708_820_527_775, 88_409_753_649_798));
    Ok(())
}

/// Two patches: h0 = 1 + h1 / 2 and h1 = h0 / 4, with weights whose upper ends are a tick more.
fn two_patches(alloc: Global) -> Result<IntervalSystem, Memory>
    ensures { IfOk result (λ system. length system.rows ≡ 2) }
{
    let mut system = IntervalSystem::new(alloc, 2)?;
    let half = Weight {
        lo: 34_359_738_368,
        hi: 34_359_738_369,
    };
    let quarter = Weight {
        lo: 17_179_869_184,
        hi: 17_179_869_185,
    };
    system.set_weight(0, 1, half);
    system.set_weight(1, 0, quarter);
    system.set_direct(0, Span::whole(1));
    Ok(system)
}

/// The light of two patches, in ticks.
fn light(alloc: Global, first: u128, second: u128) -> Result<Vec<Tick>, Memory>
    requires first { first ≤ 2 ^ 90 }
    requires second { second ≤ 2 ^ 90 }
    ensures size { IfOk result (λ light. length light.items ≡ 2) }
    ensures ends { IfOk result (λ light. All IsEnd light.items) }
{
    let mut light = Vec::new(alloc);
    light.push(tick_of(first))?;
    light.push(tick_of(second))?;
    Ok(light)
}

// what the claims send, from Python's fractions:
//
//     half, quarter, lux = 2**35, 2**34, 2**36
//     def from_below(h): return lux + floor(F(half * h[1], lux)), floor(F(quarter * h[0], lux))
//     def from_above(h): return lux + ceil(F((half + 1) * h[1], lux)), ceil(F((quarter + 1) * h[0], lux))
//     print(from_below([78536544841, 19634136210]), from_above([78536544843, 19634136212]))
#[test]
fn a_claim_is_shown_up_to_the_first_row_with_a_tick_too_much_or_too_little(
    rt: HostRuntime,
) -> Result<(), Fail> {
    let system = two_patches(rt.alloc())?;
    if system.heavy_row().is_none() {
        let mut claim = Bounds {
            lower: light(rt.alloc(), 78_536_544_841, 19_634_136_210)?,
            upper: light(rt.alloc(), 78_536_544_843, 19_634_136_212)?,
        };
        assert_eq!(rt; holds(&system, &claim), Ok(()));
        claim.upper = light(rt.alloc(), 78_536_544_843, 19_634_136_211)?;
        assert_eq!(rt; holds(&system, &claim), Err(1));
        claim.upper = light(rt.alloc(), 78_536_544_842, 19_634_136_212)?;
        assert_eq!(rt; holds(&system, &claim), Err(0));
        claim.lower = light(rt.alloc(), 78_536_544_841, 19_634_136_211)?;
        claim.upper = light(rt.alloc(), 78_536_544_843, 19_634_136_212)?;
        assert_eq!(rt; holds(&system, &claim), Err(1));
    }
    Ok(())
}
