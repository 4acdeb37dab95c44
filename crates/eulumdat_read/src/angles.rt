//! Runs of rising angles.
ghost use Rattle.std.specs.Prelude.{◌≡◌, ◌+◌, ◌<◌, ◌≤◌, [], length, MatchResult, Ok};
ghost use Rattle.eulumdat_read.specs.Cursors.{IsAt, IsRefused};
ghost use Rattle.eulumdat_read.specs.Items.{angles_at};
ghost use Rattle.eulumdat_read.specs.Lines.{lines_of};
ghost use Rattle.eulumdat_read.specs.Runs.{AreAngles};
ghost use Rattle.symmetry_expand.specs.Measured.{micro};

use crate::fault::LdtFault;
use crate::items::read_measured;
use crate::line::Cursor;
use fx_base::Micro;
use std::alloc::Global;

/// So many millionths of a degree.
fn micro_of(angle: u64) -> Micro
    requires { angle ≤ 359999999 }
    ensures { result ≡ micro angle }
{
    Micro(angle as i64)
}

/// The n angles from line k on, each above the one before and at most `most`.
pub fn read_angles(
    alloc: Global,
    bytes: &[u8],
    cursor: &mut Cursor,
    k: u32,
    most: u64,
    n: u32,
) -> Result<Vec<Micro>, LdtFault>
    requires at { IsAt bytes.now cursor.old }
    requires size { length bytes.now ≤ 16777216 }
    requires k { cursor.old.line < k }
    requires place { k ≤ 100000 }
    requires most { most ≤ 359999999 }
    requires some { 1 ≤ n }
    requires few { n ≤ 721 }
    ensures { MatchResult result
        (λ v. (angles_at (lines_of bytes.now) k most 0 [] n ≡ Ok v.items) × (IsAt bytes.now cursor.new × ((cursor.new.line + 1 ≡ k + n) × AreAngles n (most + 1) v.items)))
        (λ e. IsRefused e (angles_at (lines_of bytes.now) k most 0 [] n)) }
{
    let mut angles = Vec::with_capacity(alloc, n as usize)?;
    let mut least = 0;
    for i in 0..n {
        let angle = read_measured(bytes, cursor, k + i, 0, most)?;
        if angle < least {
            return Err(LdtFault::Order(k + i));
        }
        least = angle + 1;
        angles.push(micro_of(angle))?;
    }
    Ok(angles)
}
