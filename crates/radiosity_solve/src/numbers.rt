//! Lists of numbers for the guide. Nothing is claimed of what these functions give: what the guide finds is tried, and a wrong number
//! would only cost time. So sums and products wrap, and numbers of 64 bits are cut at 2^60.

ghost use Rattle.std.specs.Prelude.{◌≤◌};

/// The greatest size of a number of 64 bits.
const GREATEST: i128 = 1 << 60;

/// Where a list of 32 bits has its 0.
const MIDDLE: i64 = 1 << 31;

/// The bits of a quotient below one.
const QUOTIENT_BITS: u32 = 30;

/// x, cut at 2^60.
pub(crate) fn cut(x: i128) -> i64 {
    x.clamp(-GREATEST, GREATEST) as i64
}

/// By how many bits numbers up to `size` are to be shortened so that `bits` are left.
pub(crate) fn excess(size: u128, bits: u32) -> u32
    ensures { result ≤ 128 }
{
    (128 - size.leading_zeros()).saturating_sub(bits)
}

/// The greatest size of a number of the list.
pub(crate) fn greatest_size(list: &[i64]) -> u64 {
    let mut greatest = 0u64;
    for x in list {
        greatest = greatest.max(x.unsigned_abs());
    }
    greatest
}

/// The numbers of the list in 32 bits, with 2^31 for 0, and by how many bits they were shortened for it.
pub(crate) fn shorten(list: &[i64], parts: &mut [u32]) -> u32
    ensures { result ≤ 128 }
{
    let by = excess(greatest_size(list) as u128, 31);
    for j in 0..list.len().min(parts.len()) {
        let part = (list[j] >> by.min(63)).clamp(-MIDDLE, MIDDLE - 1) + MIDDLE;
        parts[j] = part as u32;
    }
    by
}

/// The sum of the products of two lists of 32 bits.
pub(crate) fn narrow_product(weights: &[u32], parts: &[u32]) -> u64 {
    let mut sum = 0u64;
    for j in 0..weights.len().min(parts.len()) {
        sum = sum.wrapping_add((weights[j] as u64).wrapping_mul(parts[j] as u64));
    }
    sum
}

/// The sum of the products of two lists.
pub(crate) fn product(xs: &[i64], ys: &[i64]) -> i128 {
    let mut sum = 0i128;
    for j in 0..xs.len().min(ys.len()) {
        sum = sum.wrapping_add((xs[j] as i128).wrapping_mul(ys[j] as i128));
    }
    sum
}

/// over / under in parts of 2^-30, and 0 where `under` isn't positive.
pub(crate) fn quotient(over: i128, under: i128) -> i64 {
    let by = excess(over.unsigned_abs().max(under.unsigned_abs()), 96).min(64);
    let divisor = under >> by;
    if divisor <= 0 {
        return 0;
    }
    cut((over >> by).wrapping_mul(1 << QUOTIENT_BITS) / divisor)
}

/// x times y, where x is in parts of 2^-30.
pub(crate) fn times(x: i64, y: i64) -> i128 {
    (x as i128).wrapping_mul(y as i128) >> QUOTIENT_BITS
}

/// Puts `from` less `share` times the list in the list's place.
pub(crate) fn turn_from(from: &[i64], share: i64, list: &mut [i64]) {
    for i in 0..from.len().min(list.len()) {
        list[i] = cut((from[i] as i128).wrapping_sub(times(share, list[i])));
    }
}

/// Takes `share` times `other` off the list.
pub(crate) fn take_off(list: &mut [i64], share: i64, other: &[i64]) {
    for i in 0..other.len().min(list.len()) {
        list[i] = cut((list[i] as i128).wrapping_sub(times(share, other[i])));
    }
}
