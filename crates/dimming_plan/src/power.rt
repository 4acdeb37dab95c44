//! The plan of least power that reaches a limit: by what the groups give at least, and by what they give at most.
ghost use Rattle.std.specs.Prelude.{◌≡◌, ◌≤◌, ◌<◌, ◌+◌, ◌^◌, All, IfNone, IfSome, IsTrue};
ghost use Rattle.dimming_plan.specs.Search.{SoFar};
ghost use Rattle.dimming_plan.specs.Steps.{high_light, low_light, watts_of, weighed, IsGroup, IsLeastPlan, NoPlan};

use crate::plans::{PLANS, plan_at, power_of, reaches};
use fx_base::{Span, magnitude};

/// A group of lamps: the average of the room lit by it alone and in full, in ticks of 2^-36 lux, and what it takes in watts.
#[derive(Clone, Copy, Debug)]
pub struct Group {
    pub average: Span,
    pub watts: u32,
}

/// A plan that was found: a step of 0 to 10 tenths for each group, and its power in tenths of a watt.
#[derive(Clone, Copy, Debug, PartialEq, Eq)]
pub struct Found {
    pub tenths: u64,
    pub steps: [u8; 6],
}

/// The plans of least power: `met` among those that are shown to reach the limit, by the lower ends of the averages, and `possible`
/// among those that aren't shown to miss it, by the upper ends.
#[derive(Clone, Copy, Debug, PartialEq, Eq)]
pub struct PowerBracket {
    pub met: Option<Found>,
    pub possible: Option<Found>,
}

/// Whether a plan of this power takes less than the best one so far.
fn is_less(best: Option<Found>, tenths: u64) -> bool
    ensures yes { IsTrue result → IfSome best (λ f. tenths < f.tenths) }
    ensures no { IfSome best (λ f. tenths < f.tenths) → IsTrue result }
{
    match best {
        None => true,
        Some(found) => tenths < found.tenths,
    }
}

/// The best of the plans up to this number, from the best of those before it. What the groups give is in ticks, what is asked in
/// thousandths of a lux.
fn with_plan(
    best: Option<Found>,
    number: u32,
    light: &[u128; 6],
    watts: &[u64; 6],
    least: u64,
) -> Option<Found>
    requires number { number < 1771561 }
    requires light { All (λ n. n ≤ 2 ^ 105) light.now }
    requires watts { All (λ w. w ≤ 2560000) watts.now }
    requires before { SoFar light.now watts.now least number best }
    ensures { SoFar light.now watts.now least (number + 1) result }
{
    let steps = plan_at(number);
    let tenths = power_of(&steps, watts);
    if !is_less(best, tenths) {
        return best;
    }
    if !reaches(&steps, light, least) {
        return best;
    }
    Some(Found { tenths, steps })
}

/// The plan of least power that reaches the limit, the first of those that take as much.
fn least_plan(light: &[u128; 6], watts: &[u64; 6], least: u64) -> Option<Found>
    requires light { All (λ n. n ≤ 2 ^ 105) light.now }
    requires watts { All (λ w. w ≤ 2560000) watts.now }
    ensures none { IfNone result (NoPlan light.now least) }
    ensures some { IfSome result (IsLeastPlan light.now watts.now least) }
{
    let mut best = None;
    for number in 0..PLANS {
        best = with_plan(best, number, light, watts, least);
    }
    best
}

/// What the groups give at least, in ticks.
fn low_light(groups: &[Group; 6]) -> [u128; 6]
    requires { All IsGroup groups.now }
    ensures { result ≡ low_light groups.now }
{
    [
        magnitude(groups[0].average.lo()),
        magnitude(groups[1].average.lo()),
        magnitude(groups[2].average.lo()),
        magnitude(groups[3].average.lo()),
        magnitude(groups[4].average.lo()),
        magnitude(groups[5].average.lo()),
    ]
}

/// What they give at most, in ticks.
fn high_light(groups: &[Group; 6]) -> [u128; 6]
    requires { All IsGroup groups.now }
    ensures { result ≡ high_light groups.now }
{
    [
        magnitude(groups[0].average.hi()),
        magnitude(groups[1].average.hi()),
        magnitude(groups[2].average.hi()),
        magnitude(groups[3].average.hi()),
        magnitude(groups[4].average.hi()),
        magnitude(groups[5].average.hi()),
    ]
}

/// What they take, in watts.
fn watts_of(groups: &[Group; 6]) -> [u64; 6]
    requires { All IsGroup groups.now }
    ensures { result ≡ watts_of groups.now }
{
    [
        u64::from(groups[0].watts),
        u64::from(groups[1].watts),
        u64::from(groups[2].watts),
        u64::from(groups[3].watts),
        u64::from(groups[4].watts),
        u64::from(groups[5].watts),
    ]
}

/// The plans of least power for a limit in thousandths of a lux, the first of those that take as much: one that reaches it by the lower
/// ends of the averages, and one by their upper ends. None where no plan does.
pub fn least_power(groups: &[Group; 6], least: u64) -> PowerBracket
    requires groups { All IsGroup groups.now }
    ensures none_met { IfNone result.met (NoPlan (low_light groups.now) least) }
    ensures met { IfSome result.met (IsLeastPlan (low_light groups.now) (watts_of groups.now) least) }
    ensures none_possible { IfNone result.possible (NoPlan (high_light groups.now) least) }
    ensures possible { IfSome result.possible (IsLeastPlan (high_light groups.now) (watts_of groups.now) least) }
{
    let watts = watts_of(groups);
    let low = low_light(groups);
    let high = high_light(groups);
    PowerBracket {
        met: least_plan(&low, &watts, least),
        possible: least_plan(&high, &watts, least),
    }
}
