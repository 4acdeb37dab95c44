//! Lights together.
ghost use Rattle.std.specs.Prelude.{◌≡◌, ◌+◌, ◌^◌, ◌≤◌, ◌≤ℤ◌, pos};
ghost use Rattle.fx_base.specs.Units.{natural};

use fx_base::Span;

/// Two lights together.
pub fn together(a: Span, b: Span) -> Span
    requires a { pos 0 ≤ℤ a.lo }
    requires b { pos 0 ≤ℤ b.lo }
    requires a_high { natural a.hi ≤ 2 ^ 100 }
    requires b_high { natural b.hi ≤ 2 ^ 100 }
    ensures low { result.lo ≡ pos (natural a.lo + natural b.lo) }
    ensures high { result.hi ≡ pos (natural a.hi + natural b.hi) }
{
    // the ends of each are in order
    let _first = a.lo();
    let _second = b.lo();
    a.add(b)
}
