//! The first 26 lines.
ghost use Rattle.std.specs.Prelude.{◌≡◌, ◌<◌, ◌≤◌, length, MatchResult, Ok, Err};
ghost use Rattle.eulumdat_read.specs.Cursors.{IsAt};
ghost use Rattle.eulumdat_read.specs.Heads.{IsHead, head_in};
ghost use Rattle.eulumdat_read.specs.Ldt.{head_of, symmetry_by};
ghost use Rattle.eulumdat_read.specs.Lines.{lines_of};

use crate::fault::LdtFault;
use crate::items::{read_count, read_measured};
use crate::line::Cursor;
use symmetry_expand::{Stored, Symmetry, stored_planes};

/// What the head of a file says.
#[derive(Clone, Copy)]
pub struct Head {
    pub symmetry: Symmetry,
    /// How many angles C there are, and which of their planes are stored.
    pub planes: u32,
    pub stored: Stored,
    /// How many gammas there are.
    pub gammas: u32,
    /// The conversion factor, in millionths.
    pub factor: u64,
    /// How many lamp sets there are.
    pub sets: u32,
}

/// The symmetry that an indicator from 0 to 4 says.
fn symmetry_of(indicator: u32) -> Symmetry
    ensures { result ≡ symmetry_by indicator }
{
    match indicator {
        0 => Symmetry::None,
        1 => Symmetry::Axis,
        2 => Symmetry::Plane0,
        3 => Symmetry::Plane90,
        _ => Symmetry::Both,
    }
}

/// Reads the head for a lamp set.
#[tactic(auto, unfolding(crate::specs::Ldt::head_of))]
pub fn read_head(bytes: &[u8], cursor: &mut Cursor, lamp_set: u32) -> Result<Head, LdtFault>
    requires at { IsAt bytes.now cursor.old }
    requires size { length bytes.now ≤ 16777216 }
    requires start { cursor.old.line ≡ 0 }
    ensures { MatchResult result
        (λ h. (head_of (lines_of bytes.now) lamp_set ≡ Ok (head_in h)) × (IsAt bytes.now cursor.new × ((cursor.new.line ≡ 26) × ((lamp_set ≤ h.sets) × IsHead h))))
        (λ e. head_of (lines_of bytes.now) lamp_set ≡ Err e) }
{
    let symmetry = symmetry_of(read_count(bytes, cursor, 3, 0, 4)?);
    let planes = read_count(bytes, cursor, 4, 1, 720)?;
    let stored = match stored_planes(planes, symmetry) {
        Ok(stored) => stored,
        Err(fault) => return Err(LdtFault::Expand(fault)),
    };
    let gammas = read_count(bytes, cursor, 6, 2, 721)?;
    let factor = read_measured(bytes, cursor, 24, 0, 1_000_000_000)?;
    let sets = read_count(bytes, cursor, 26, 1, 20)?;
    if sets < lamp_set {
        return Err(LdtFault::NoLampSet);
    }
    Ok(Head {
        symmetry,
        planes,
        stored,
        gammas,
        factor,
        sets,
    })
}
