//! The numbers that items say, in millionths.
ghost use Rattle.std.specs.Prelude.{◌≡◌, ◌*◌, ◌^◌, ◌<◌, ◌≤◌, IfOk, IfSome, MatchResult, Ok, Err, nat_abs, length};
ghost use Rattle.lm63_read.specs.Items.{items_of};
ghost use Rattle.lm63_read.specs.Reads.{count_at, measured_at, natural_of, number_at, type_at};
ghost use Rattle.lm63_read.specs.Cursors.{IsAt, IsAfter};

use crate::fault::IesFault;
use crate::items::{Cursor, read_item};
use decimal_text::{Mark, NumberFault, read_number};
use fx_base::Micro;

/// The number, where it isn't below 0.
pub fn natural_of(number: Micro) -> Option<u64>
    ensures is { result ≡ natural_of number.0 }
    ensures size { IfSome result (λ n. n ≡ nat_abs number.0) }
{
    u64::try_from(number.0).ok()
}

/// The number in item k.
#[tactic(auto, unfolding(crate::specs::Reads::number_at))]
pub fn number_in(bytes: &[u8], cursor: &mut Cursor, k: u32) -> Result<Micro, IesFault>
    requires at { IsAt bytes.now cursor.old }
    requires ahead { cursor.old.count < k }
    requires few { k ≤ 600000 }
    ensures number { MatchResult result (λ m. number_at (items_of bytes.now) k ≡ Ok m.0) (λ e. number_at (items_of bytes.now) k ≡ Err e) }
    ensures after { IfOk result (λ _. IsAfter bytes.now cursor.new k) }
    ensures small { IfOk result (λ m. nat_abs m.0 < 10 ^ 15) }
{
    let item = read_item(bytes, cursor, k)?;
    match read_number(item, Mark::Point) {
        Ok(number) => Ok(number),
        Err(NumberFault::NotNumber) => Err(IesFault::Number(k)),
        Err(NumberFault::TooLarge) => Err(IesFault::Range(k)),
    }
}

/// The number in item k, from the least to the greatest.
#[tactic(auto, unfolding(crate::specs::Reads::measured_at))]
pub fn measured_in(
    bytes: &[u8],
    cursor: &mut Cursor,
    k: u32,
    least: u64,
    most: u64,
) -> Result<u64, IesFault>
    requires at { IsAt bytes.now cursor.old }
    requires ahead { cursor.old.count < k }
    requires few { k ≤ 600000 }
    ensures number { MatchResult result (λ n. measured_at (items_of bytes.now) k least most ≡ Ok n) (λ e. measured_at (items_of bytes.now) k least most ≡ Err e) }
    ensures after { IfOk result (λ _. IsAfter bytes.now cursor.new k) }
    ensures least { IfOk result (λ n. least ≤ n) }
    ensures most { IfOk result (λ n. n ≤ most) }
{
    let number = number_in(bytes, cursor, k)?;
    match natural_of(number) {
        Some(n) if least <= n && n <= most => Ok(n),
        _ => Err(IesFault::Range(k)),
    }
}

/// The whole number in item k, from the least to the greatest.
#[tactic(auto, unfolding(crate::specs::Reads::count_at))]
pub fn count_in(
    bytes: &[u8],
    cursor: &mut Cursor,
    k: u32,
    least: u32,
    most: u32,
) -> Result<u32, IesFault>
    requires at { IsAt bytes.now cursor.old }
    requires ahead { cursor.old.count < k }
    requires few { k ≤ 600000 }
    ensures number { MatchResult result (λ n. count_at (items_of bytes.now) k least most ≡ Ok n) (λ e. count_at (items_of bytes.now) k least most ≡ Err e) }
    ensures after { IfOk result (λ _. IsAfter bytes.now cursor.new k) }
    ensures least { IfOk result (λ n. least ≤ n) }
    ensures most { IfOk result (λ n. n ≤ most) }
{
    let least = u64::from(least) * 1_000_000;
    let most = u64::from(most) * 1_000_000;
    let n = measured_in(bytes, cursor, k, least, most)?;
    if n % 1_000_000 == 0 {
        Ok((n / 1_000_000) as u32)
    } else {
        Err(IesFault::Range(k))
    }
}

/// That item k says photometry of type C.
#[tactic(auto, unfolding(crate::specs::Reads::type_at))]
pub fn type_in(bytes: &[u8], cursor: &mut Cursor, k: u32) -> Result<(), IesFault>
    requires at { IsAt bytes.now cursor.old }
    requires ahead { cursor.old.count < k }
    requires few { k ≤ 600000 }
    ensures number { MatchResult result (λ n. type_at (items_of bytes.now) k ≡ Ok n) (λ e. type_at (items_of bytes.now) k ≡ Err e) }
    ensures after { IfOk result (λ _. IsAfter bytes.now cursor.new k) }
{
    let kind = number_in(bytes, cursor, k)?;
    if kind == Micro(1_000_000) {
        Ok(())
    } else if kind == Micro(2_000_000) || kind == Micro(3_000_000) {
        Err(IesFault::PhotometricType)
    } else {
        Err(IesFault::Range(k))
    }
}
