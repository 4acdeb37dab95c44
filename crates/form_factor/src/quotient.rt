//! A quotient by a divisor of 64 bits. It is guessed by products and then shown by one: a division of 128 bits takes longer than all
//! of that, and is made only where the guess fails.
ghost use Rattle.std.specs.Prelude.{◌≡◌, ◌/◌, ◌^◌, ◌<◌};

/// The low 64 bits of a number of 128.
const LOW: u128 = 0xffff_ffff_ffff_ffff;

/// x times y by 2^by, as far as it fits 64 bits.
fn product(x: u64, y: u64, by: u32) -> u64 {
    ((x as u128).wrapping_mul(y as u128) >> by.min(127) & LOW) as u64
}

/// One step of Newton's method towards 2^126 / divisor, from below; the divisor has its highest bit set.
fn nearer(inverse: u64, divisor: u64) -> u64 {
    let rest = (1u64 << 62).wrapping_sub(product(divisor, inverse, 64));
    inverse.wrapping_add(product(inverse, rest, 62))
}

/// About over / under: rightly so but for a few in a million, where the quotient is below 2^37 and `under` at least 2^28. Nothing is
/// claimed of it.
pub(crate) fn guess(over: u128, under: u64) -> u64 {
    let zeros = under.leading_zeros().min(36);
    let divisor = under << zeros;
    let seed = u32::MAX / ((divisor >> 48 & 0xffff) as u32 + 1);
    let inverse = nearer(nearer((seed as u64) << 46, divisor), divisor);
    product((over >> (36 - zeros) & LOW) as u64, inverse, 90)
}

/// over / under, rounded down.
#[tactic(auto, using(crate::proofs::Divided::guessed))]
pub(crate) fn quotient(over: u128, under: u64) -> u64
    requires some { 0 < under }
    requires most { over / under < 2 ^ 64 }
    ensures { result ≡ over / under }
{
    let guess = guess(over, under);
    let product = guess as u128 * under as u128;
    if product <= over && over - product < under as u128 {
        return guess;
    }
    (over / under as u128) as u64
}
