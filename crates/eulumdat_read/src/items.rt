//! Numbers in their lines.
ghost use Rattle.std.specs.Prelude.{◌≡◌, ℕ, ◌+◌, ◌<◌, ◌≤◌, ◌^◌, ◌*◌, length, MatchOption, MatchResult, Ok, Err, nat_abs};
ghost use Rattle.eulumdat_read.specs.Items.{number_at, measured_at, count_at, ranged};
ghost use Rattle.eulumdat_read.specs.Lines.{lines_of};
ghost use Rattle.eulumdat_read.specs.Cursors.{IsAt};

use crate::fault::LdtFault;
use crate::line::{Cursor, read_line, without_spaces};
use decimal_text::{Mark, NumberFault, read_number};
use fx_base::Micro;

/// The number in line k, in millionths.
#[tactic(auto, unfolding(crate::specs::Items::number_at))]
pub fn read_item(bytes: &[u8], cursor: &mut Cursor, k: u32) -> Result<Micro, LdtFault>
    requires at { IsAt bytes.now cursor.old }
    requires size { length bytes.now ≤ 16777216 }
    requires k { cursor.old.line < k }
    ensures { MatchResult result
        (λ m. (number_at (lines_of bytes.now) k ≡ Ok m.0) × (IsAt bytes.now cursor.new × ((cursor.new.line ≡ k) × (nat_abs m.0 < 10 ^ 15))))
        (λ e. number_at (lines_of bytes.now) k ≡ Err e) }
{
    let line = read_line(bytes, cursor, k)?;
    match read_number(without_spaces(line), Mark::PointOrComma) {
        Ok(number) => Ok(number),
        Err(NumberFault::NotNumber) => Err(LdtFault::Number(k)),
        Err(NumberFault::TooLarge) => Err(LdtFault::Range(k)),
    }
}

/// The number in line k, in millionths, from `lo` to `hi`.
#[tactic(auto, unfolding(crate::specs::Items::measured_at))]
pub fn read_measured(
    bytes: &[u8],
    cursor: &mut Cursor,
    k: u32,
    lo: u64,
    hi: u64,
) -> Result<u64, LdtFault>
    requires at { IsAt bytes.now cursor.old }
    requires size { length bytes.now ≤ 16777216 }
    requires k { cursor.old.line < k }
    ensures { MatchResult result
        (λ n. (measured_at (lines_of bytes.now) k lo hi ≡ Ok n) × (IsAt bytes.now cursor.new × ((cursor.new.line ≡ k) × ((lo ≤ n) × (n ≤ hi)))))
        (λ e. measured_at (lines_of bytes.now) k lo hi ≡ Err e) }
{
    let number = read_item(bytes, cursor, k)?;
    match within(number, lo, hi) {
        Some(n) => Ok(n),
        None => Err(LdtFault::Range(k)),
    }
}

/// A number of millionths from `lo` to `hi`.
fn within(number: Micro, lo: u64, hi: u64) -> Option<u64>
    ensures { MatchOption result ((k : ℕ) → ranged k lo hi number.0 ≡ Err (LdtFault.Range k)) (λ n. ((k : ℕ) → ranged k lo hi number.0 ≡ Ok n) × ((lo ≤ n) × (n ≤ hi))) }
{
    if number.0 < 0 {
        return None;
    }
    let n = number.0 as u64;
    if lo <= n && n <= hi { Some(n) } else { None }
}

/// The whole number in line k, from `lo` to `hi`.
#[tactic(auto, unfolding(crate::specs::Items::count_at))]
pub fn read_count(
    bytes: &[u8],
    cursor: &mut Cursor,
    k: u32,
    lo: u32,
    hi: u32,
) -> Result<u32, LdtFault>
    requires at { IsAt bytes.now cursor.old }
    requires size { length bytes.now ≤ 16777216 }
    requires k { cursor.old.line < k }
    ensures { MatchResult result
        (λ n. (count_at (lines_of bytes.now) k lo hi ≡ Ok n) × (IsAt bytes.now cursor.new × ((cursor.new.line ≡ k) × ((lo ≤ n) × (n ≤ hi)))))
        (λ e. count_at (lines_of bytes.now) k lo hi ≡ Err e) }
{
    let lowest = u64::from(lo) * 1_000_000;
    let highest = u64::from(hi) * 1_000_000;
    let n = read_measured(bytes, cursor, k, lowest, highest)?;
    if n % 1_000_000 != 0 {
        return Err(LdtFault::Range(k));
    }
    Ok((n / 1_000_000) as u32)
}
