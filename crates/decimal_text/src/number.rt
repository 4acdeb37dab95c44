//! The numbers of photometric files, read exactly.
ghost use Rattle.std.specs.Prelude.{◌≡◌, ◌*◌, ◌+◌, ◌-◌, ◌^◌, ◌<◌, ◌≤◌, IfOk, IfSome, MatchOption, MatchResult, None, Some, Ok, Err, drop, length, nat_abs, take_while};
ghost use Rattle.std.specs.List.{list_all, prefix_len};
ghost use Rattle.decimal_text.specs.Numbers.{after_mark, AreDigits, is_digit, is_mark, is_minus, is_zero, millionths, number, signed, unsigned, without_zeros, worth};
ghost use Rattle.decimal_text.specs.Parts.{IsSpelled, HasDigits};

use fx_base::Micro;

/// What may stand between a number's whole part and its decimals.
#[derive(Clone, Copy, Debug, PartialEq, Eq)]
pub enum Mark {
    /// A point, as in LM-63.
    Point,
    /// A point or a comma, as in EULUMDAT.
    PointOrComma,
}

/// Why bytes aren't read as a number.
#[derive(Clone, Copy, Debug, PartialEq, Eq)]
pub enum NumberFault {
    /// They aren't a sign or none, digits, and where there is a mark the digits after it, with a digit on one side of the mark.
    NotNumber,
    /// They are, and more than nine digits stand before the mark, leading zeros left out.
    TooLarge,
}

/// The digits on either side of a number's mark.
#[derive(Clone, Copy)]
struct Spelled<'a> {
    whole: &'a [u8],
    decimals: &'a [u8],
}

/// What stands behind the first n bytes.
fn behind(bytes: &[u8], n: usize) -> &[u8]
    requires { n ≤ length bytes.now }
    ensures { result.now ≡ drop n bytes.now }
{
    &bytes[n..]
}

/// How many digits stand at the front.
fn digit_count(bytes: &[u8]) -> usize
    ensures count { result ≡ prefix_len is_digit bytes.now }
    ensures within { result ≤ length bytes.now }
{
    bytes
        .iter()
        .take_while(|b| (b'0'..=b'9').contains(*b))
        .count()
}

/// How many zeros stand at the front.
fn zero_count(digits: &[u8]) -> usize
    ensures count { result ≡ prefix_len is_zero digits.now }
    ensures within { result ≤ length digits.now }
{
    digits.iter().take_while(|d| **d == b'0').count()
}

/// Whether each byte is a digit.
fn are_digits(bytes: &[u8]) -> bool
    ensures { result ≡ list_all is_digit bytes.now }
{
    bytes.iter().all(|b| (b'0'..=b'9').contains(b))
}

/// What stands behind the sign.
fn without_sign(bytes: &[u8]) -> &[u8]
    ensures { result.now ≡ unsigned bytes.now }
{
    match bytes {
        [b'+' | b'-', rest @ ..] => rest,
        _ => bytes,
    }
}

/// Whether the sign is a minus.
fn is_negative(bytes: &[u8]) -> bool
    ensures { result ≡ is_minus bytes.now }
{
    matches!(bytes, [b'-', ..])
}

/// Whether a byte is the mark.
fn is_at_mark(b: u8, mark: Mark) -> bool
    ensures { result ≡ is_mark mark b }
{
    match mark {
        Mark::Point => b == b'.',
        Mark::PointOrComma => b == b'.' || b == b',',
    }
}

/// The digits at the front.
#[tactic(auto, using(crate::proofs::Digits::all_in_front))]
fn front_digits(bytes: &[u8]) -> &[u8]
    ensures front { result.now ≡ take_while is_digit bytes.now }
    ensures digits { AreDigits result.now }
{
    &bytes[..digit_count(bytes)]
}

/// The digits behind the mark. There are none where nothing follows the whole part.
fn decimals_of(rest: &[u8], mark: Mark) -> Option<&[u8]>
    ensures decimals { MatchOption result (after_mark mark rest.now ≡ None) (λ digits. after_mark mark rest.now ≡ Some digits.now) }
    ensures digits { IfSome result (λ digits. AreDigits digits.now) }
{
    if rest.is_empty() {
        return Some(rest);
    }
    let digits = behind(rest, 1);
    if is_at_mark(rest[0], mark) && are_digits(digits) {
        Some(digits)
    } else {
        None
    }
}

/// The digits on either side of the mark, where the bytes are a number.
#[tactic(auto, unfolding(crate::specs::Numbers::spelled))]
fn spell(bytes: &[u8], mark: Mark) -> Option<Spelled<'_>>
    ensures spelled { IsSpelled mark bytes.now result }
    ensures digits { IfSome result HasDigits }
{
    let unsigned = without_sign(bytes);
    let whole = front_digits(unsigned);
    let decimals = decimals_of(behind(unsigned, digit_count(unsigned)), mark)?;
    if whole.is_empty() && decimals.is_empty() {
        None
    } else {
        Some(Spelled { whole, decimals })
    }
}

/// The digits from the first on that isn't 0.
#[tactic(auto, using(crate::proofs::Digits::all_behind, crate::proofs::Digits::zeros_worth_nothing))]
fn significant(digits: &[u8]) -> &[u8]
    requires { AreDigits digits.now }
    ensures rest { result.now ≡ without_zeros digits.now }
    ensures digits { AreDigits result.now }
    ensures worth { worth result.now ≡ worth digits.now }
{
    behind(digits, zero_count(digits))
}

/// The whole number that digits say.
#[tactic(auto, using(crate::proofs::Digits::digit_at))]
fn worth_of(digits: &[u8]) -> u64
    requires digits { AreDigits digits.now }
    requires few { length digits.now ≤ 9 }
    ensures worth { result ≡ worth digits.now }
    ensures small { result < 10 ^ length digits.now }
{
    let mut value = 0;
    for d in digits {
        value = 10 * value + u64::from(*d - b'0');
    }
    value
}

/// What decimals are worth in millionths. Those past the sixth are dropped.
#[tactic(auto, using(crate::proofs::Digits::all_before, crate::proofs::Digits::below_a_million))]
fn millionths_of(decimals: &[u8]) -> u64
    requires { AreDigits decimals.now }
    ensures worth { result ≡ millionths decimals.now }
    ensures small { result < 10 ^ 6 }
{
    let kept = decimals.len().min(6);
    worth_of(&decimals[..kept]) * 10u64.pow(6 - kept as u32)
}

/// So many millionths, or so many below 0.
fn signed_of(minus: bool, millionths: u64) -> Micro
    requires { millionths < 10 ^ 15 }
    ensures value { result.0 ≡ signed minus millionths }
    ensures small { nat_abs result.0 < 10 ^ 15 }
{
    let size = millionths as i64;
    Micro(if minus { -size } else { size })
}

/// The number that bytes say, in millionths: a sign or none, digits, and where there is a mark the digits after it. Decimals past
/// the sixth are dropped.
#[tactic(auto, unfolding(crate::specs::Numbers::number))]
pub fn read_number(bytes: &[u8], mark: Mark) -> Result<Micro, NumberFault>
    ensures result { MatchResult result (λ m. number mark bytes.now ≡ Ok m.0) (λ e. number mark bytes.now ≡ Err e) }
    ensures small { IfOk result (λ m. nat_abs m.0 < 10 ^ 15) }
{
    let Some(spelled) = spell(bytes, mark) else {
        return Err(NumberFault::NotNumber);
    };
    let whole = significant(spelled.whole);
    if whole.len() > 9 {
        return Err(NumberFault::TooLarge);
    }
    let millionths = worth_of(whole) * 1_000_000 + millionths_of(spelled.decimals);
    Ok(signed_of(is_negative(bytes), millionths))
}
