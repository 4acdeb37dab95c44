//! The ratio of the greatest to the least light of a route.
ghost use Rattle.std.specs.Prelude.{◌≡◌, IfSome, MatchOption};
ghost use Rattle.fx_base.specs.Units.{natural};
ghost use Rattle.escape_route.specs.Ratios.{IsLight, IsRatio, RatioHolds};

use crate::ends::Extremes;
use fx_base::magnitude;

/// The greatest light by the least, in thousandths: the greatest's lower end by the least's upper end, rounded down, and the greatest's
/// upper end by the least's lower end, rounded up. None exactly where the lower end of the least is 0.
pub fn ratio(e: &Extremes) -> Option<(u128, u128)>
    requires least { IsLight e.now.least }
    requires greatest { IsLight e.now.greatest }
    ensures ends { MatchOption result (natural e.now.least.lo ≡ 0) (λ r. IsRatio e.now.least e.now.greatest r.0 r.1) }
    ensures holds { IfSome result (λ r. RatioHolds e.now.least e.now.greatest r.0 r.1) }
{
    let least = magnitude(e.least.lo());
    if least == 0 {
        return None;
    }
    let lo = magnitude(e.greatest.lo()) * 1000 / magnitude(e.least.hi());
    let hi = (magnitude(e.greatest.hi()) * 1000).div_ceil(least);
    Some((lo, hi))
}
