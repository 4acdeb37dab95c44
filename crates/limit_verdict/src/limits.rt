//! The verdicts on the limits of a room.
ghost use Rattle.std.specs.Prelude.{◌≡◌, ◌≤◌, IfSome};
ghost use Rattle.limit_verdict.specs.Verdicts.{uniformity_verdict, verdicts_of};

use crate::verdict::{Verdict, Verdicts, judge};
use room_layout::Limits;

/// The verdict on a uniformity of which at least `least` is asked, in thousandths. Where none is printed nothing is decided.
fn judge_uniformity(least: u32, uniformity: Option<(u32, u32)>) -> Verdict
    requires in_order { IfSome uniformity (λ e. e.0 ≤ e.1) }
    ensures { result ≡ uniformity_verdict least uniformity }
{
    let Some((lo, hi)) = uniformity else {
        return Verdict::Undecided;
    };
    judge(least as u128, lo as u128, hi as u128)
}

/// The verdicts on the limits of a room, by the printed ends of its average in thousandths of a lux, and of its uniformity in
/// thousandths, where one is printed.
pub fn verdicts(
    limits: &Limits,
    average_lo: u128,
    average_hi: u128,
    uniformity: Option<(u32, u32)>,
) -> Verdicts
    requires average_in_order { average_lo ≤ average_hi }
    requires uniformity_in_order { IfSome uniformity (λ e. e.0 ≤ e.1) }
    ensures verdicts { result ≡ verdicts_of limits.now average_lo average_hi uniformity }
{
    Verdicts {
        average: limits
            .average
            .map(|least| judge(least as u128, average_lo, average_hi)),
        uniformity: limits
            .uniformity
            .map(|least| judge_uniformity(least, uniformity)),
    }
}
