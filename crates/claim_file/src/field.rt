//! The number in a field of a record.
ghost use Rattle.std.specs.Prelude.{◌≡◌, option_map};
ghost use Rattle.claim_file.specs.Numbers.{begins_well, capped, number, number_after};

/// 2^90, the greatest end of a bound in ticks.
pub(crate) const GREATEST_END: u128 = 1_237_940_039_285_380_274_899_124_224;

/// Whether there is a byte, and it is no zero before another one.
fn begins_well(field: &[u8]) -> bool
    ensures { result ≡ begins_well field.now }
{
    if field.is_empty() {
        return false;
    }
    field[0] != b'0' || field.len() == 1
}

/// The number that digits write, and 2^90 + 1 in place of a greater one.
fn digits(field: &[u8]) -> Option<u128>
    ensures { result ≡ option_map capped (number_after 0 field.now) }
{
    let mut value: u128 = 0;
    for digit in field {
        if !digit.is_ascii_digit() {
            return None;
        }
        value = (10 * value + (*digit - b'0') as u128).min(GREATEST_END + 1);
    }
    Some(value)
}

/// The number that a field writes, of any length, and 2^90 + 1 in place of a greater one.
#[tactic(auto, unfolding(crate::specs::Numbers::number))]
pub(crate) fn number(field: &[u8]) -> Option<u128>
    ensures { result ≡ option_map capped (number field.now) }
{
    if begins_well(field) {
        digits(field)
    } else {
        None
    }
}
