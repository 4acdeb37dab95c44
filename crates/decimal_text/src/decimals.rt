//! Whole numbers of hundredths and of thousandths, spelled as decimals.
ghost use Rattle.std.specs.Prelude.{◌≡◌, IfOk, Some, string_bytes};
ghost use Rattle.decimal_text.specs.Decimals.{hundredths, thousandths};

use fx_base::Memory;
use std::alloc::Global;
use std::fmt;

/// So many hundredths: the whole part without leading zeros, a point and two digits.
#[derive(Clone, Copy, Debug, PartialEq, Eq)]
pub struct Hundredths(pub u128);

/// So many thousandths: the whole part without leading zeros, a point and three digits.
#[derive(Clone, Copy, Debug, PartialEq, Eq)]
pub struct Thousandths(pub u128);

impl fmt::Display for Hundredths {
    ghost output = { λ n. Some (hundredths n.0) };

    fn fmt<W: fmt::Write>(&self, f: &mut fmt::Formatter<W>) -> fmt::Result {
        let whole = self.0 / 100;
        let tenths = self.0 / 10 % 10;
        let rest = self.0 % 10;
        write!(f, "{whole}.{tenths}{rest}")
    }
}

impl fmt::Display for Thousandths {
    ghost output = { λ n. Some (thousandths n.0) };

    fn fmt<W: fmt::Write>(&self, f: &mut fmt::Formatter<W>) -> fmt::Result {
        let whole = self.0 / 1000;
        let tenths = self.0 / 100 % 10;
        let hundredths = self.0 / 10 % 10;
        let rest = self.0 % 10;
        write!(f, "{whole}.{tenths}{hundredths}{rest}")
    }
}

/// The text of so many hundredths.
pub fn cents_text(alloc: Global, cents: u128) -> Result<String, Memory>
    ensures text { IfOk result (λ s. string_bytes s ≡ hundredths cents) }
{
    let text = format!(in alloc; "{}", Hundredths(cents))?;
    Ok(text)
}

/// The text of so many thousandths.
pub fn milli_text(alloc: Global, millis: u128) -> Result<String, Memory>
    ensures text { IfOk result (λ s. string_bytes s ≡ thousandths millis) }
{
    let text = format!(in alloc; "{}", Thousandths(millis))?;
    Ok(text)
}
