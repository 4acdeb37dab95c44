//! The numbers before the angles.
ghost use Rattle.std.specs.Prelude.{◌≡◌, ◌+◌, ◌<◌, ◌≤◌, MatchResult, IfOk, Ok, Err, length};
ghost use Rattle.lm63_read.specs.Items.{items_of};
ghost use Rattle.lm63_read.specs.Sizes.{shift_of, further_at, sizes_of};
ghost use Rattle.lm63_read.specs.Held.{said, AreSizes};
ghost use Rattle.lm63_read.specs.Cursors.{IsAt, IsAfter};

use crate::fault::IesFault;
use crate::head::Header;
use crate::items::Cursor;
use crate::numbers::{count_in, measured_in, type_in};

/// How many items stand before the first of the 13 that every file has, how many gammas and planes the table has, and the product
/// of the file's factors over 10^18.
#[derive(Clone, Copy)]
pub struct Sizes {
    pub shift: u32,
    pub gammas: u32,
    pub planes: u32,
    pub factor: u128,
}

/// How many items the tilt has.
#[tactic(auto, unfolding(crate::specs::Sizes::shift_of))]
fn read_shift(bytes: &[u8], cursor: &mut Cursor, is_tilted: bool) -> Result<u32, IesFault>
    requires at { IsAt bytes.now cursor.old }
    requires fresh { cursor.old.count ≡ 0 }
    ensures shift { MatchResult result (λ n. shift_of (items_of bytes.now) is_tilted ≡ Ok n) (λ e. shift_of (items_of bytes.now) is_tilted ≡ Err e) }
    ensures at { IfOk result (λ _. IsAt bytes.now cursor.new) }
    ensures before { IfOk result (λ n. cursor.new.count ≤ n) }
    ensures few { IfOk result (λ n. n ≤ 2002) }
{
    if is_tilted {
        let angles = count_in(bytes, cursor, 2, 0, 1000)?;
        Ok(2 + 2 * angles)
    } else {
        Ok(0)
    }
}

/// The further factor in item k, in millionths.
fn read_further(bytes: &[u8], cursor: &mut Cursor, header: Header, k: u32) -> Result<u64, IesFault>
    requires at { IsAt bytes.now cursor.old }
    requires ahead { cursor.old.count < k }
    requires few { k ≤ 600000 }
    ensures further { MatchResult result (λ n. further_at header (items_of bytes.now) k ≡ Ok n) (λ e. further_at header (items_of bytes.now) k ≡ Err e) }
    ensures at { IfOk result (λ _. IsAt bytes.now cursor.new) }
    ensures before { IfOk result (λ _. cursor.new.count ≤ k) }
    ensures most { IfOk result (λ n. n ≤ 2000000) }
{
    match header {
        Header::Of1991 => {
            let factor = measured_in(bytes, cursor, k, 0, 2_000_000)?;
            Ok(factor)
        }
        Header::Of1995 | Header::Of2002 => Ok(1_000_000),
    }
}

/// The numbers before the angles.
#[tactic(auto, unfolding(crate::specs::Sizes::sizes_of))]
pub fn read_sizes(
    bytes: &[u8],
    cursor: &mut Cursor,
    header: Header,
    is_tilted: bool,
) -> Result<Sizes, IesFault>
    requires at { IsAt bytes.now cursor.old }
    requires fresh { cursor.old.count ≡ 0 }
    ensures sizes { MatchResult result (λ s. sizes_of header (items_of bytes.now) is_tilted ≡ Ok (said s)) (λ e. sizes_of header (items_of bytes.now) is_tilted ≡ Err e) }
    ensures at { IfOk result (λ _. IsAt bytes.now cursor.new) }
    ensures before { IfOk result (λ s. cursor.new.count < s.shift + 14) }
    ensures within { IfOk result AreSizes }
{
    let shift = read_shift(bytes, cursor, is_tilted)?;
    let multiplier = measured_in(bytes, cursor, shift + 3, 0, 10_000_000_000)?;
    let gammas = count_in(bytes, cursor, shift + 4, 2, 721)?;
    let planes = count_in(bytes, cursor, shift + 5, 1, 721)?;
    type_in(bytes, cursor, shift + 6)?;
    let ballast = measured_in(bytes, cursor, shift + 11, 0, 10_000_000)?;
    let further = read_further(bytes, cursor, header, shift + 12)?;
    let factor = u128::from(multiplier) * u128::from(ballast) * u128::from(further);
    Ok(Sizes {
        shift,
        gammas,
        planes,
        factor,
    })
}
