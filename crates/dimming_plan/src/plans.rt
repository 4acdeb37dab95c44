//! Plans by number: their six steps are its digits to the base 11.
ghost use Rattle.std.specs.Prelude.{◌≡◌, ◌≤◌, ◌<◌, ◌*◌, ◌^◌, All, IfSome, IsTrue};
ghost use Rattle.dimming_plan.specs.Search.{plan_at, IsStep};
ghost use Rattle.dimming_plan.specs.Steps.{weighed, Reaches};

/// How many plans there are: eleven steps for each of six groups.
pub(crate) const PLANS: u32 = 1_771_561;

/// The steps of the plan of this number. A lesser number comes before a greater one by the first step that differs.
#[tactic(auto, unfolding(crate::specs::Search::plan_at))]
pub(crate) fn plan_at(number: u32) -> [u8; 6]
    requires { number < 1771561 }
    ensures plan { result ≡ plan_at number }
    ensures steps { All IsStep result }
{
    let fifth = number / 11;
    let fourth = fifth / 11;
    let third = fourth / 11;
    let second = third / 11;
    let first = second / 11;
    [
        first as u8,
        (second % 11) as u8,
        (third % 11) as u8,
        (fourth % 11) as u8,
        (fifth % 11) as u8,
        (number % 11) as u8,
    ]
}

/// The power of a plan in tenths of a watt, by the watts of the groups.
#[tactic(auto, unfolding(crate::specs::Steps::weighed))]
pub(crate) fn power_of(steps: &[u8; 6], watts: &[u64; 6]) -> u64
    requires steps { All IsStep steps.now }
    requires watts { All (λ w. w ≤ 2560000) watts.now }
    ensures { result ≡ weighed steps.now watts.now }
{
    u64::from(steps[0]) * watts[0]
        + u64::from(steps[1]) * watts[1]
        + u64::from(steps[2]) * watts[2]
        + u64::from(steps[3]) * watts[3]
        + u64::from(steps[4]) * watts[4]
        + u64::from(steps[5]) * watts[5]
}

/// Tenths of the light of a plan in ticks, by what each group gives in full.
#[tactic(auto, unfolding(crate::specs::Steps::weighed))]
fn light_of(steps: &[u8; 6], light: &[u128; 6]) -> u128
    requires steps { All IsStep steps.now }
    requires light { All (λ n. n ≤ 2 ^ 105) light.now }
    ensures { result ≡ weighed steps.now light.now }
{
    u128::from(steps[0]) * light[0]
        + u128::from(steps[1]) * light[1]
        + u128::from(steps[2]) * light[2]
        + u128::from(steps[3]) * light[3]
        + u128::from(steps[4]) * light[4]
        + u128::from(steps[5]) * light[5]
}

/// The same, with its bound.
fn bounded_light(steps: &[u8; 6], light: &[u128; 6]) -> u128
    requires steps { All IsStep steps.now }
    requires light { All (λ n. n ≤ 2 ^ 105) light.now }
    ensures sum { result ≡ weighed steps.now light.now }
    ensures most { result ≤ 60 * 2 ^ 105 }
{
    light_of(steps, light)
}

/// Whether a plan gives so many thousandths of a lux.
pub(crate) fn reaches(steps: &[u8; 6], light: &[u128; 6], least: u64) -> bool
    requires steps { All IsStep steps.now }
    requires light { All (λ n. n ≤ 2 ^ 105) light.now }
    ensures yes { IsTrue result → Reaches light.now least steps.now }
    ensures no { Reaches light.now least steps.now → IsTrue result }
{
    u128::from(least) * 68_719_476_736 <= bounded_light(steps, light) * 100
}
