//! The way to and fro between the first measured plane and the last, in whole millionths of a degree.
ghost use Rattle.std.specs.Prelude.{◌≡◌, ◌+◌, ◌*◌, ◌^◌, ◌<◌, ◌≤◌, ◌≤ℤ◌, ◌-ℤ◌, length, slice_index_or};
ghost use Rattle.fx_base.specs.Units.{natural};
ghost use Rattle.symmetry_expand.specs.Measured.{RiseWithinTurn, first_angle, in_turn, lifted};
ghost use Rattle.symmetry_expand.specs.Steps.{last_place, source as source_of, start_of, zigzag};

use fx_base::Micro;

/// How far it is from one angle to a later one.
#[tactic(auto, using(crate::proofs::Planes::way_rule))]
fn distance(from: Micro, to: Micro) -> u64
    requires { from.0 ≤ℤ to.0 }
    ensures { result ≡ natural (to.0 -ℤ from.0) }
{
    to.0.abs_diff(from.0)
}

/// The angle of plane k, where the first one lies at `first` in its turn.
pub fn lifted_at(planes: &[Micro], first: u64, k: usize) -> u64
    requires rise { RiseWithinTurn planes.now }
    requires first { first ≡ in_turn (first_angle planes.now) }
    requires k { k < length planes.now }
    ensures at { result ≡ slice_index_or (lifted planes.now) k 0 }
    ensures most { result ≤ 720000000 }
{
    first + distance(planes[0], planes[k])
}

/// The angle of step i.
pub fn step(planes: &[Micro], first: u64, i: usize) -> u64
    requires rise { RiseWithinTurn planes.now }
    requires first { first ≡ in_turn (first_angle planes.now) }
    requires two { 2 ≤ length planes.now }
    requires few { i ≤ 4 * (2 * last_place (lifted planes.now)) }
    ensures at { result ≡ zigzag (lifted planes.now) i }
    ensures most { result ≤ 2 ^ 36 }
{
    let n = planes.len() - 1;
    let last = lifted_at(planes, first, n);
    let r = i % (2 * n);
    let trips = 2 * (last - first) * (i / (2 * n)) as u64;
    if r <= n {
        trips + lifted_at(planes, first, r)
    } else {
        trips + 2 * last - lifted_at(planes, first, 2 * n - r)
    }
}

/// Of n + 1 planes the number of the one that step i mirrors.
pub fn source(n: usize, i: usize) -> usize
    requires some { 1 ≤ n }
    requires few { n < 2 ^ 32 }
    ensures source { result ≡ source_of n i }
    ensures within { result ≤ n }
{
    let r = i % (2 * n);
    if r <= n { r } else { 2 * n - r }
}

/// The first step that isn't before `base`.
pub fn start(planes: &[Micro], first: u64, base: u64) -> usize
    requires rise { RiseWithinTurn planes.now }
    requires first { first ≡ in_turn (first_angle planes.now) }
    requires two { 2 ≤ length planes.now }
    requires reached { base ≤ zigzag (lifted planes.now) (2 * last_place (lifted planes.now)) }
    ensures start { result ≡ start_of (lifted planes.now) base }
    ensures early { result ≤ 2 * last_place (lifted planes.now) }
{
    let steps = 2 * (planes.len() - 1);
    let mut i = 0;
    while i < steps && step(planes, first, i) < base {
        i += 1;
    }
    i
}
