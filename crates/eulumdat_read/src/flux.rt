//! The total fluxes of the lamp sets.
ghost use Rattle.std.specs.Prelude.{◌≡◌, ◌+◌, ◌*◌, ◌<◌, ◌≤◌, length, MatchResult, Ok, Err};
ghost use Rattle.eulumdat_read.specs.Cursors.{IsAt};
ghost use Rattle.eulumdat_read.specs.Ldt.{flux_at};
ghost use Rattle.eulumdat_read.specs.Lines.{lines_of};

use crate::fault::LdtFault;
use crate::items::read_measured;
use crate::line::Cursor;

/// The total flux of a lamp set, in millionths of a lumen. Those of the other sets are read too.
pub fn read_flux(
    bytes: &[u8],
    cursor: &mut Cursor,
    sets: u32,
    lamp_set: u32,
) -> Result<u64, LdtFault>
    requires at { IsAt bytes.now cursor.old }
    requires size { length bytes.now ≤ 16777216 }
    requires k { cursor.old.line < 29 }
    requires few { sets ≤ 20 }
    requires set { 1 ≤ lamp_set }
    requires chosen { lamp_set ≤ sets }
    ensures { MatchResult result
        (λ n. (flux_at (lines_of bytes.now) sets lamp_set ≡ Ok n) × (IsAt bytes.now cursor.new × ((cursor.new.line + 6 ≡ 29 + 6 * sets) × (n ≤ 10000000000000))))
        (λ e. flux_at (lines_of bytes.now) sets lamp_set ≡ Err e) }
{
    let mut chosen = 0;
    for i in 0..sets {
        let flux = read_measured(bytes, cursor, 29 + 6 * i, 0, 10_000_000_000_000)?;
        if i + 1 == lamp_set {
            chosen = flux;
        }
    }
    Ok(chosen)
}
