//! From a file's bytes to its table.
ghost use Rattle.std.specs.Prelude.{◌≡◌, ◌*◌, ◌≤◌, IfOk, IfErr, length};
ghost use Rattle.symmetry_expand.specs.Measured.{first_angle, last_angle};
ghost use Rattle.lm63_read.specs.Angles.{symmetry_of};
ghost use Rattle.lm63_read.specs.Cursors.{IsRefused};
ghost use Rattle.lm63_read.specs.Head.{file_of};
ghost use Rattle.lm63_read.specs.Tables.{kept, kept_planes, kept_values, IsReadFrom};

use crate::angles::{is_degrees, symmetry_of};
use crate::fault::IesFault;
use crate::table::{File, read_file};
use fx_base::Micro;
use photo_table::PhotoTable;
use std::alloc::Global;
use symmetry_expand::{ExpandFault, Measured, Symmetry, expand};

/// What the half-planes of a file stand for.
fn symmetry_in(planes: &[Micro]) -> Option<Symmetry>
    ensures { result ≡ symmetry_of (length planes.now) (first_angle planes.now) (last_angle planes.now) }
{
    let (Some(first), Some(last)) = (planes.first(), planes.last()) else {
        return None;
    };
    symmetry_of(planes.len(), *first, *last)
}

/// How many half-planes are kept: all but a last one at 360 degrees.
fn kept(planes: &[Micro]) -> usize
    ensures kept { result ≡ kept planes.now }
    ensures within { result ≤ length planes.now }
{
    match planes.last() {
        Some(last) if is_degrees(360, *last) => planes.len() - 1,
        _ => planes.len(),
    }
}

/// What is kept of a file.
fn kept_of(file: File) -> Measured
    requires planes { length file.horizontals.items ≤ 721 }
    requires gammas { length file.verticals.items ≤ 721 }
    ensures planes { result.planes.items ≡ kept_planes file.horizontals.items }
    ensures gammas { result.gammas.items ≡ file.verticals.items }
    ensures values { result.values.items ≡ kept_values file.horizontals.items (length file.verticals.items) file.spans.items }
{
    let File {
        verticals,
        mut horizontals,
        mut spans,
    } = file;
    let count = kept(&horizontals);
    horizontals.truncate(count);
    spans.truncate(count * verticals.len());
    Measured {
        planes: horizontals,
        gammas: verticals,
        values: spans,
    }
}

/// The table of a file, each intensity rounded down and up to a tick. A file is refused for the first line or item that can't stand
/// in it.
pub fn read_ies(alloc: Global, bytes: &[u8]) -> Result<PhotoTable, IesFault>
    ensures table { IfOk result (IsReadFrom bytes.now) }
    ensures refused { IfErr result (λ e. IsRefused e (file_of bytes.now)) }
{
    let file = read_file(alloc, bytes)?;
    let Some(symmetry) = symmetry_in(&file.horizontals) else {
        unreachable!()
    };
    match expand(alloc, kept_of(file), symmetry) {
        Ok(table) => Ok(table),
        Err(fault) => match fault {
            ExpandFault::PlaneCount => unreachable!(),
            ExpandFault::PlaneAngle => unreachable!(),
            ExpandFault::Memory => Err(IesFault::Memory),
        },
    }
}
