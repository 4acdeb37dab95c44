//! What the patches of a row send to its place: the innermost loops of the solver and of the values at points. A list is read once,
//! and a weight takes 16 bytes.
ghost use Rattle.std.specs.Prelude.{◌≡◌, ℕ, ◌+◌, ◌*◌, ◌^◌, ◌<◌, ◌≤◌, All, length};
ghost use Rattle.fx_base.specs.Bound.{IsEnd};
ghost use Rattle.interval_system.specs.Sent.{sent_low, sent_high};
ghost use Rattle.interval_system.specs.System.{IsRow};

use fx_base::{Tick, Weight, end_ticks, share_above, share_below};

/// By the lower ends, each product rounded down.
#[tactic(auto, using(crate::proofs::SentSteps::sums))]
pub(crate) fn low_sum(weights: &[Weight], light: &[Tick]) -> u128
    requires row { IsRow weights.now }
    requires size { length light.now ≡ length weights.now }
    requires ends { All IsEnd light.now }
    ensures sent { result ≡ sent_low weights.now light.now (length weights.now) }
    ensures most { result ≤ 2 ^ 101 }
{
    let mut sum = 0;
    for j in 0..weights.len() {
        sum += share_below(weights[j].lo, end_ticks(light[j]));
    }
    sum
}

/// By the upper ends, each product rounded up.
#[tactic(auto, using(crate::proofs::SentSteps::sums))]
pub(crate) fn high_sum(weights: &[Weight], light: &[Tick]) -> u128
    requires row { IsRow weights.now }
    requires size { length light.now ≡ length weights.now }
    requires ends { All IsEnd light.now }
    ensures sent { result ≡ sent_high weights.now light.now (length weights.now) }
    ensures most { result ≤ 2 ^ 101 }
{
    let mut sum = 0;
    for j in 0..weights.len() {
        sum += share_above(weights[j].hi, end_ticks(light[j]));
    }
    sum
}
