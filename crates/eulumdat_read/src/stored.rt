//! The angles C of a file, and those whose half-planes it stores.
ghost use Rattle.std.specs.Prelude.{◌≡◌, ◌+◌, ◌<◌, ◌≤◌, length, IfOk, MatchResult, Ok, ◌≤ℤ◌, pos};
ghost use Rattle.eulumdat_read.specs.Cursors.{IsAt, IsRefused};
ghost use Rattle.eulumdat_read.specs.Heads.{IsHead, head_in};
ghost use Rattle.eulumdat_read.specs.Ldt.{handed_on, gammas_line, planes_at, planes_line, stored_angles};
ghost use Rattle.eulumdat_read.specs.Lines.{lines_of};
ghost use Rattle.eulumdat_read.specs.Runs.{AreAngles, AreStoredPlanes};

use crate::angles::read_angles;
use crate::fault::LdtFault;
use crate::head::Head;
use crate::line::Cursor;
use fx_base::{MICROS_IN_TURN, Micro};
use std::alloc::{AllocError, Global};
use symmetry_expand::{ExpandFault, Symmetry, planes_run};

/// An angle as it is handed on: for the mirror at 90 those above 180 degrees are less a turn.
fn hand_on(symmetry: Symmetry, angle: Micro) -> Micro
    requires { pos 0 ≤ℤ angle.0 }
    ensures { result ≡ handed_on symmetry angle }
{
    if symmetry == Symmetry::Plane90 && angle.0 > 180_000_000 {
        Micro(angle.0 - i64::from(MICROS_IN_TURN))
    } else {
        angle
    }
}

/// The stored planes of all angles C, from the first one on past the last.
fn stored_of(alloc: Global, head: Head, angles: &[Micro]) -> Result<Vec<Micro>, AllocError>
    requires head { IsHead head }
    requires angles { AreAngles head.planes 360000000 angles.now }
    ensures { IfOk result (λ v. v.items ≡ stored_angles head.symmetry head.planes angles.now) }
{
    let mut planes = Vec::with_capacity(alloc, head.stored.count as usize)?;
    let first = head.stored.first as usize - 1;
    for p in 0..head.stored.count as usize {
        let place = (first + p) % angles.len();
        planes.push(hand_on(head.symmetry, angles[place]))?;
    }
    Ok(planes)
}

/// Reads the angles C: the planes that the file stores, which run as its symmetry asks.
#[tactic(auto, unfolding(crate::specs::Ldt::planes_at))]
pub fn read_planes(
    alloc: Global,
    bytes: &[u8],
    cursor: &mut Cursor,
    head: Head,
) -> Result<Vec<Micro>, LdtFault>
    requires at { IsAt bytes.now cursor.old }
    requires size { length bytes.now ≤ 16777216 }
    requires head { IsHead head }
    requires line { cursor.old.line < planes_line (head_in head) }
    ensures { MatchResult result
        (λ v. (planes_at (lines_of bytes.now) (head_in head) ≡ Ok v.items) × (IsAt bytes.now cursor.new × ((cursor.new.line + 1 ≡ gammas_line (head_in head)) × AreStoredPlanes head.symmetry head.stored.count v.items)))
        (λ e. IsRefused e (planes_at (lines_of bytes.now) (head_in head))) }
{
    let first = 37 + 6 * head.sets;
    let angles = read_angles(alloc, bytes, cursor, first, 359_999_999, head.planes)?;
    let planes = stored_of(alloc, head, &angles)?;
    if !planes_run(&planes, head.symmetry) {
        return Err(LdtFault::Expand(ExpandFault::PlaneAngle));
    }
    Ok(planes)
}
