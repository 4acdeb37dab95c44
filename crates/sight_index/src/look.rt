//! The look-up over a mask.
ghost use Rattle.std.specs.Prelude.{◌≡◌, ℕ, ◌<◌, length};
ghost use Rattle.sight_index.specs.Masks.{HasBit};
ghost use Rattle.sight_index.specs.Probes.{AsksNearAlone, IsAnswer};

use crate::Probe;

/// The least box of a mask of which the probe says yes. It asks the boxes of the mask alone, in rising order.
pub fn first_met<P: Probe>(mask: u64, probe: &mut P) -> Option<usize>
    requires { (b : ℕ) → HasBit mask b → b < length (P.truths probe.old) }
    ensures answer { IsAnswer (HasBit mask) (P.truths probe.old) result }
    ensures same { P.truths probe.new ≡ P.truths probe.old }
    ensures asked { AsksNearAlone (HasBit mask) (P.asked probe.old) (P.asked probe.new) }
{
    let mut left = mask;
    while left != 0 {
        let index = left.trailing_zeros();
        if probe.meets(index as usize) {
            return Some(index as usize);
        }
        left &= !(1u64 << index);
    }
    None
}
