//! The intensities of a file, as spans.
ghost use Rattle.std.specs.Prelude.{◌≡◌, ◌+◌, ◌-◌, ◌*◌, ◌^◌, ◌<◌, ◌≤◌, MatchResult, IfOk, Ok, Err, [], length};
ghost use Rattle.lm63_read.specs.Items.{items_of};
ghost use Rattle.lm63_read.specs.Values.{value_at, values_at};
ghost use Rattle.lm63_read.specs.Spans.{span_of, AreSpansOf};
ghost use Rattle.lm63_read.specs.Cursors.{IsAt, IsAfter, IsRefused};

use crate::fault::IesFault;
use crate::items::Cursor;
use crate::numbers::{natural_of, number_in};
use fx_base::Span;
use std::alloc::Global;

/// 10,000,000 candela, over 10^24.
const BRIGHTEST: u128 = 10_000_000_000_000_000_000_000_000_000_000;

/// One candela, over 10^24.
const CANDELA: u128 = 1_000_000_000_000_000_000_000_000;

/// The product of item k and the factor.
#[tactic(auto, unfolding(crate::specs::Values::value_at))]
fn product_in(bytes: &[u8], cursor: &mut Cursor, k: u32, factor: u128) -> Result<u128, IesFault>
    requires at { IsAt bytes.now cursor.old }
    requires ahead { cursor.old.count < k }
    requires few { k ≤ 600000 }
    requires factor { factor ≤ 2 * 10 ^ 23 }
    ensures product { MatchResult result (λ n. value_at (items_of bytes.now) k factor ≡ Ok n) (λ e. value_at (items_of bytes.now) k factor ≡ Err e) }
    ensures after { IfOk result (λ _. IsAfter bytes.now cursor.new k) }
    ensures most { IfOk result (λ n. n ≤ 10 ^ 31) }
{
    let number = number_in(bytes, cursor, k)?;
    let Some(value) = natural_of(number) else {
        return Err(IesFault::Negative(k));
    };
    let product = u128::from(value) * factor;
    if product <= BRIGHTEST {
        Ok(product)
    } else {
        Err(IesFault::Intensity(k))
    }
}

/// A product over 10^24, rounded down and up to a tick.
fn span_of(product: u128) -> Span
    requires { product ≤ 10 ^ 31 }
    ensures { result ≡ span_of product }
{
    Span::of_fraction(product, CANDELA)
}

/// The n intensities from item k on.
pub fn values_in(
    alloc: Global,
    bytes: &[u8],
    cursor: &mut Cursor,
    k: u32,
    factor: u128,
    n: u32,
) -> Result<Vec<Span>, IesFault>
    requires at { IsAt bytes.now cursor.old }
    requires ahead { cursor.old.count < k }
    requires few { k + n ≤ 600000 }
    requires some { 0 < n }
    requires factor { factor ≤ 2 * 10 ^ 23 }
    ensures values { MatchResult result (λ v. AreSpansOf v.items (values_at (items_of bytes.now) k factor [] n)) (λ e. IsRefused e (values_at (items_of bytes.now) k factor [] n)) }
    ensures after { IfOk result (λ _. IsAfter bytes.now cursor.new (k + n - 1)) }
{
    let mut spans = Vec::with_capacity(alloc, n as usize)?;
    for i in 0..n {
        let product = product_in(bytes, cursor, k + i, factor)?;
        spans.push(span_of(product))?;
    }
    Ok(spans)
}
