//! The light of one point of a lamp, of its intensity and the lengths that it falls over.
ghost use Rattle.std.specs.Prelude.{ℕ, ◌+◌, ◌*◌, ◌<◌, ◌≤◌, ◌≤ℤ◌, pos};
ghost use Rattle.fx_base.specs.Interval.{Interval, Meets, LiesIn};
ghost use Rattle.fx_base.specs.Units.{natural, of_span};
ghost use Rattle.direct_light.specs.Shares.{fallen, loosened};

use fx_base::Span;

/// The light, in ticks of a lux, that one of `parts` points gives on a plane: of a lamp's intensity in ticks of a candela, what is kept
/// of it in thousandths, how far the point is in front of the plane, and the square of its distance, in half mm. A lux is a candela at
/// one metre, which is 2,000 half mm.
pub fn share(candela: Span, maintenance: u16, ahead: u64, squared: u64, parts: u64) -> Span
    requires not_negative { pos 0 ≤ℤ candela.lo }
    requires bright { natural candela.hi ≤ 687194767360000001 }
    requires kept { maintenance ≤ 1000 }
    requires within { ahead ≤ 200000 }
    requires near { ahead ≤ squared }
    requires apart { 0 < squared }
    requires far { squared ≤ 120000000000 }
    requires some { 0 < parts }
    requires few { parts ≤ 64 }
    ensures meets { (n : ℕ) (i : Interval) → Meets (of_span candela) i → Meets (of_span result) (fallen n maintenance parts ahead squared i) }
    ensures close { (n : ℕ) (i : Interval) → LiesIn (of_span candela) i → LiesIn (of_span result) (loosened (fallen n maintenance parts ahead squared i)) }
    ensures low { pos 0 ≤ℤ result.lo }
    ensures most { natural result.hi * parts ≤ natural candela.hi * 4000000 + 2 * parts }
{
    let distance = Span::root(squared);
    let weight = maintenance as u64 * ahead * 4_000;
    let spread = candela.scale_div(weight, squared * parts);
    let light = spread.div(distance);
    light
}
