//! The verdict on a value of which a most is asked.
ghost use Rattle.std.specs.Prelude.{◌≡◌, ◌<◌, ◌≤◌, ◌↔◌};
ghost use Rattle.escape_route.specs.Ratios.{most_verdict};

use limit_verdict::Verdict;

/// The verdict on a value between two printed ends that is asked to be `most` at most, all three in the same unit.
pub fn judge_most(most: u128, lo: u128, hi: u128) -> Verdict
    requires in_order { lo ≤ hi }
    ensures verdict { result ≡ most_verdict most lo hi }
    ensures met { (result ≡ Verdict.Met) ↔ (hi ≤ most) }
    ensures missed { (result ≡ Verdict.Missed) ↔ (most < lo) }
    ensures undecided { (result ≡ Verdict.Undecided) ↔ (lo ≤ most × most < hi) }
{
    if hi <= most {
        Verdict::Met
    } else if lo > most {
        Verdict::Missed
    } else {
        Verdict::Undecided
    }
}
