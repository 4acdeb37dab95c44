//! The intensities, and the end of the file.
ghost use Rattle.std.specs.Prelude.{◌≡◌, ◌+◌, ◌^◌, ◌<◌, ◌≤◌, [], length, MatchResult, Ok, Err, drop};
ghost use Rattle.eulumdat_read.specs.Cursors.{IsAt, IsRefused};
ghost use Rattle.eulumdat_read.specs.Items.{value_at, values_at, all_blank};
ghost use Rattle.eulumdat_read.specs.Lines.{lines_of, is_blank_byte};
ghost use Rattle.eulumdat_read.specs.Runs.{AreSpansOf, span_of};
ghost use Rattle.std.specs.List.{list_all};

use crate::fault::LdtFault;
use crate::items::read_item;
use crate::line::{Cursor, next_line};
use fx_base::Span;
use std::alloc::Global;

/// 10^7 candela, over 10^21.
const MOST: u128 = 10_000_000_000_000_000_000_000_000_000;

/// What intensities are over: three numbers in millionths are multiplied, and there are 1000 in the denominator.
const OVER: u128 = 1_000_000_000_000_000_000_000;

/// The intensity in line k, over 10^21 candela.
#[tactic(auto, unfolding(crate::specs::Items::value_at))]
fn read_value(bytes: &[u8], cursor: &mut Cursor, k: u32, factor: u128) -> Result<u128, LdtFault>
    requires at { IsAt bytes.now cursor.old }
    requires size { length bytes.now ≤ 16777216 }
    requires k { cursor.old.line < k }
    requires factor { factor ≤ 10 ^ 22 }
    ensures { MatchResult result
        (λ n. (value_at (lines_of bytes.now) k factor ≡ Ok n) × (IsAt bytes.now cursor.new × ((cursor.new.line ≡ k) × (n ≤ 10 ^ 28))))
        (λ e. value_at (lines_of bytes.now) k factor ≡ Err e) }
{
    let number = read_item(bytes, cursor, k)?;
    if number.0 < 0 {
        return Err(LdtFault::Negative(k));
    }
    let product = number.0 as u128 * factor;
    if product > MOST {
        return Err(LdtFault::Intensity(k));
    }
    Ok(product)
}

/// So much over 10^21, rounded down and up to a tick.
fn span_over(product: u128) -> Span
    requires { product ≤ 10 ^ 28 }
    ensures { result ≡ span_of product }
{
    Span::of_fraction(product, OVER)
}

/// The n intensities from line k on.
pub fn read_values(
    alloc: Global,
    bytes: &[u8],
    cursor: &mut Cursor,
    k: u32,
    factor: u128,
    n: u32,
) -> Result<Vec<Span>, LdtFault>
    requires at { IsAt bytes.now cursor.old }
    requires size { length bytes.now ≤ 16777216 }
    requires k { cursor.old.line < k }
    requires place { k ≤ 100000 }
    requires factor { factor ≤ 10 ^ 22 }
    requires some { 1 ≤ n }
    requires few { n ≤ 1000000 }
    ensures { MatchResult result
        (λ v. AreSpansOf n v.items (values_at (lines_of bytes.now) k factor [] n) × (IsAt bytes.now cursor.new × (cursor.new.line + 1 ≡ k + n)))
        (λ e. IsRefused e (values_at (lines_of bytes.now) k factor [] n)) }
{
    let mut values = Vec::with_capacity(alloc, n as usize)?;
    for i in 0..n {
        let product = read_value(bytes, cursor, k + i, factor)?;
        values.push(span_over(product))?;
    }
    Ok(values)
}

/// Whether a line is blank.
fn is_blank(line: &[u8]) -> bool
    ensures { result ≡ list_all is_blank_byte line.now }
{
    line.iter()
        .all(|b| *b == b' ' || *b == b'\t' || *b == b'\r' || *b == 0x1A)
}

/// Reads the lines that are left, which must be blank.
pub fn read_end(bytes: &[u8], cursor: &mut Cursor) -> Result<(), LdtFault>
    requires at { IsAt bytes.now cursor.old }
    requires size { length bytes.now ≤ 16777216 }
    ensures { MatchResult result
        (λ _. all_blank (cursor.old.line + 1) (drop cursor.old.line (lines_of bytes.now)) ≡ Ok tt)
        (λ e. all_blank (cursor.old.line + 1) (drop cursor.old.line (lines_of bytes.now)) ≡ Err e) }
{
    while let Some(line) = next_line(bytes, cursor) {
        if !is_blank(line) {
            return Err(LdtFault::Trailing(cursor.line));
        }
    }
    Ok(())
}
