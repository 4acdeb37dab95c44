//! The angles of a file.
ghost use Rattle.std.specs.Prelude.{◌≡◌, ◌+◌, ◌-◌, ◌*◌, ◌<◌, ◌≤◌, [], MatchResult, IfOk, Ok, Err, length};
ghost use Rattle.lm63_read.specs.Items.{items_of};
ghost use Rattle.lm63_read.specs.Angles.{angles_at, first_of, fits, is_degrees, last_of, rises, symmetry_of};
ghost use Rattle.lm63_read.specs.Cursors.{IsAt, IsAfter, IsRefused};

use crate::fault::IesFault;
use crate::items::Cursor;
use crate::numbers::number_in;
use fx_base::Micro;
use std::alloc::Global;
use symmetry_expand::Symmetry;

/// Which of a file's angles.
#[derive(Clone, Copy, Debug, PartialEq, Eq)]
pub enum AngleKind {
    /// Those from straight down, called gamma.
    Vertical,
    /// Those of the half-planes, called C.
    Horizontal,
}

/// Whether an angle is so many degrees.
pub fn is_degrees(degrees: u16, angle: Micro) -> bool
    ensures { result ≡ is_degrees degrees angle.0 }
{
    angle.0 == i64::from(degrees) * 1_000_000
}

/// What so many horizontal angles from the first to the last stand for.
pub fn symmetry_of(count: usize, first: Micro, last: Micro) -> Option<Symmetry>
    ensures { result ≡ symmetry_of count first.0 last.0 }
{
    if count == 1 {
        return if is_degrees(0, first) {
            Some(Symmetry::Axis)
        } else {
            None
        };
    }
    if is_degrees(0, first) {
        if is_degrees(90, last) {
            Some(Symmetry::Both)
        } else if is_degrees(180, last) {
            Some(Symmetry::Plane0)
        } else if 180_000_000 < last.0 && last.0 <= 360_000_000 {
            Some(Symmetry::None)
        } else {
            None
        }
    } else if is_degrees(90, first) && is_degrees(270, last) {
        Some(Symmetry::Plane90)
    } else {
        None
    }
}

/// Whether the first angle is 0 or 90, or another one is above the one before it.
fn rises(front: &[Micro], angle: Micro) -> bool
    ensures { result ≡ rises front.now angle.0 }
{
    if front.is_empty() {
        is_degrees(0, angle) || is_degrees(90, angle)
    } else {
        front[front.len() - 1].0 < angle.0
    }
}

/// Whether an angle may follow those in front of it, so many of them being still to come.
#[tactic(auto, unfolding(crate::specs::Angles::fits))]
fn fits(kind: AngleKind, front: &[Micro], angle: Micro, left: u32) -> bool
    requires { length front.now < 1000 }
    ensures { result ≡ fits kind front.now angle.0 left }
{
    if !rises(front, angle) {
        return false;
    }
    if left > 0 {
        return true;
    }
    match kind {
        AngleKind::Vertical => is_degrees(90, angle) || is_degrees(180, angle),
        AngleKind::Horizontal => {
            let first = if front.is_empty() { angle } else { front[0] };
            symmetry_of(front.len() + 1, first, angle).is_some()
        }
    }
}

/// The n angles from item k on.
pub fn angles_in(
    alloc: Global,
    bytes: &[u8],
    cursor: &mut Cursor,
    kind: AngleKind,
    k: u32,
    n: u32,
) -> Result<Vec<Micro>, IesFault>
    requires at { IsAt bytes.now cursor.old }
    requires ahead { cursor.old.count < k }
    requires few { k ≤ 500000 }
    requires some { 0 < n }
    requires angles { n ≤ 721 }
    ensures angles { MatchResult result (λ v. angles_at kind (items_of bytes.now) k [] n ≡ Ok v.items) (λ e. IsRefused e (angles_at kind (items_of bytes.now) k [] n)) }
    ensures after { IfOk result (λ _. IsAfter bytes.now cursor.new (k + n - 1)) }
{
    let mut angles = Vec::with_capacity(alloc, n as usize)?;
    for i in 0..n {
        let angle = number_in(bytes, cursor, k + i)?;
        if !fits(kind, &angles, angle, n - 1 - i) {
            return Err(IesFault::Angles(k + i));
        }
        angles.push(angle)?;
    }
    Ok(angles)
}
