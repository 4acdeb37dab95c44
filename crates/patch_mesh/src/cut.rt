//! How an edge is cut into parts.
ghost use Rattle.std.specs.Prelude.{◌≡◌, ◌+◌, ◌<◌, ◌≤◌, ◌^◌};
ghost use Rattle.patch_mesh.specs.Cuts.{cut, parts};

/// In how many parts an edge is cut so that none is longer than `longest`.
#[tactic(auto, using(crate::proofs::CutLaws::cuts))]
pub fn parts_of(longest: u32, edge: u32) -> u32
    requires longest { 1 ≤ longest }
    requires edge { 1 ≤ edge }
    requires fits { edge + longest < 2 ^ 32 }
    ensures parts { result ≡ parts longest edge }
    ensures few { result ≤ edge }
{
    (edge + (longest - 1)) / longest
}

/// Where part `i` of an edge in `k` parts begins.
#[tactic(auto, using(crate::proofs::CutLaws::cuts))]
pub fn cut_at(edge: u32, k: u32, i: u32) -> u32
    requires part { i ≤ k }
    requires some { 1 ≤ k }
    ensures cut { result ≡ cut edge k i }
    ensures within { result ≤ edge }
{
    (i as u64 * edge as u64 / k as u64) as u32
}
