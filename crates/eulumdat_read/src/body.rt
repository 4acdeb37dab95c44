//! The whole file.
ghost use Rattle.std.specs.Prelude.{◌≡◌, ◌≢◌, ◌≤◌, length, MatchResult, IfOk, IfErr};
ghost use Rattle.eulumdat_read.specs.Cursors.{IsAt, IsRefused};
ghost use Rattle.eulumdat_read.specs.Heads.{IsHead, head_in};
ghost use Rattle.eulumdat_read.specs.Ldt.{body_of, ldt};
ghost use Rattle.eulumdat_read.specs.Lines.{lines_of};
ghost use Rattle.eulumdat_read.specs.Given.{GivesTable};

use crate::angles::read_angles;
use crate::fault::LdtFault;
use crate::flux::read_flux;
use crate::head::{Head, read_head};
use crate::line::Cursor;
use crate::stored::read_planes;
use crate::values::{read_end, read_values};
use photo_table::PhotoTable;
use std::alloc::Global;
use symmetry_expand::{ExpandFault, Measured, expand};

/// Reads an EULUMDAT file for one of its lamp sets: the table of intensities in candela of all half-planes, or the fault of the
/// first line that can't stand.
///
/// The intensity is `value * conversion factor * flux of the set / 1000`. Neither the light output ratio nor the number of lamps
/// is applied.
#[tactic(auto, unfolding(crate::specs::Ldt::ldt))]
pub fn read_ldt(alloc: Global, bytes: &[u8], lamp_set: u32) -> Result<PhotoTable, LdtFault>
    requires set { 1 ≤ lamp_set }
    requires sets { lamp_set ≤ 20 }
    requires size { length bytes.now ≤ 16777216 }
    ensures table { IfOk result (GivesTable (ldt (lines_of bytes.now) lamp_set)) }
    ensures refused { IfErr result (λ e. IsRefused e (ldt (lines_of bytes.now) lamp_set)) }
    ensures planes { IfErr result (λ e. e ≢ LdtFault.Expand ExpandFault.Memory) }
{
    let mut cursor = Cursor { at: 0, line: 0 };
    let head = read_head(bytes, &mut cursor, lamp_set)?;
    let table = read_body(alloc, bytes, &mut cursor, lamp_set, head)?;
    Ok(table)
}

/// Reads what follows the head.
#[tactic(auto, unfolding(crate::specs::Ldt::body_of))]
fn read_body(
    alloc: Global,
    bytes: &[u8],
    cursor: &mut Cursor,
    lamp_set: u32,
    head: Head,
) -> Result<PhotoTable, LdtFault>
    requires at { IsAt bytes.now cursor.old }
    requires size { length bytes.now ≤ 16777216 }
    requires line { cursor.old.line ≡ 26 }
    requires set { 1 ≤ lamp_set }
    requires chosen { lamp_set ≤ head.sets }
    requires head { IsHead head }
    ensures { MatchResult result (GivesTable (body_of (lines_of bytes.now) lamp_set (head_in head))) (λ e. IsRefused e (body_of (lines_of bytes.now) lamp_set (head_in head))) }
{
    let flux = read_flux(bytes, cursor, head.sets, lamp_set)?;
    let planes = read_planes(alloc, bytes, cursor, head)?;
    let first = 37 + 6 * head.sets + head.planes;
    let gammas = read_angles(alloc, bytes, cursor, first, 180_000_000, head.gammas)?;
    let factor = u128::from(head.factor) * u128::from(flux);
    let count = head.stored.count * head.gammas;
    let values = read_values(alloc, bytes, cursor, first + head.gammas, factor, count)?;
    read_end(bytes, cursor)?;
    let measured = Measured {
        planes,
        gammas,
        values,
    };
    match expand(alloc, measured, head.symmetry) {
        Ok(table) => Ok(table),
        // the planes run as they should
        Err(_) => Err(LdtFault::Memory),
    }
}
