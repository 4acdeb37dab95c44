//! The lists of a whole turn.
ghost use Rattle.std.specs.Prelude.{◌≡◌, ◌+◌, ◌-◌, ◌*◌, ◌^◌, ◌<◌, ◌≤◌, [], ◌∷◌, pos, length, IfOk};
ghost use Rattle.symmetry_expand.specs.Measured.{RiseWithinTurn, first_angle, in_turn, lifted, micro};
ghost use Rattle.symmetry_expand.specs.Steps.{last_place, source as source_of, zigzag};
ghost use Rattle.symmetry_expand.specs.AllRound.{joined, row_of};

use crate::steps::{source, step};
use fx_base::{Micro, Span};
use std::alloc::{AllocError, Global};

/// So many millionths of a degree.
fn micro_of(angle: u64) -> Micro
    requires { angle ≤ 2 ^ 36 }
    ensures { result ≡ micro angle }
{
    Micro(angle as i64)
}

/// The angles of `count` steps from `start` on, less `base`.
pub fn turn_planes(
    alloc: Global,
    planes: &[Micro],
    first: u64,
    start: usize,
    count: usize,
    base: u64,
) -> Result<Vec<Micro>, AllocError>
    requires rise { RiseWithinTurn planes.now }
    requires first { first ≡ in_turn (first_angle planes.now) }
    requires two { 2 ≤ length planes.now }
    requires early { start ≤ 2 * last_place (lifted planes.now) }
    requires few { count ≤ 2 * (2 * last_place (lifted planes.now)) }
    ensures { IfOk result (λ v. v.items ≡ joined (λ i. micro (zigzag (lifted planes.now) (start + i) - base) ∷ []) count) }
{
    let mut all = Vec::with_capacity(alloc, count)?;
    for i in 0..count {
        let angle = step(planes, first, start + i).saturating_sub(base);
        all.push(micro_of(angle))?;
    }
    Ok(all)
}

/// The rows of the planes that `count` steps from `start` on mirror, of n + 1 rows of so many gammas.
pub fn turn_values(
    alloc: Global,
    values: &[Span],
    n: usize,
    gammas: usize,
    start: usize,
    count: usize,
) -> Result<Vec<Span>, AllocError>
    requires some { 1 ≤ n }
    requires few_planes { n < 2 ^ 29 }
    requires few_gammas { gammas < 2 ^ 28 }
    requires all { length values.now ≡ (n + 1) * gammas }
    requires early { start ≤ 2 * n }
    requires few { count ≤ 2 * (2 * n) }
    ensures { IfOk result (λ v. v.items ≡ joined (λ i. row_of gammas (source_of n (start + i)) values.now) count) }
{
    let mut all = Vec::with_capacity(alloc, count * gammas)?;
    for i in 0..count {
        let row = source(n, start + i);
        all.extend_from_slice(&values[row * gammas..(row + 1) * gammas])?;
    }
    Ok(all)
}
