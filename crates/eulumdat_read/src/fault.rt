//! Why a file is refused, and in which line.
ghost use Rattle.std.specs.Prelude.{◌≡◌, IfOk, Some, string_bytes};
ghost use Rattle.eulumdat_read.specs.FaultText.{fault_text};
ghost use Rattle.eulumdat_read.specs.declared.fault.LdtFault.TheVariants.{Memory};

use std::alloc::{AllocError, AllocFailed, Global};
use std::fmt;
use symmetry_expand::ExpandFault;

/// Why an EULUMDAT file is refused. The number is that of the line, counted from 1.
#[derive(Clone, Copy, Debug, PartialEq, Eq)]
pub enum LdtFault {
    /// The line isn't there.
    Short(u32),
    /// The line is no number.
    Number(u32),
    /// The number is outside its range, or should be whole and isn't.
    Range(u32),
    /// The file has fewer lamp sets than the chosen one.
    NoLampSet,
    /// The angle isn't above the one before.
    Order(u32),
    /// The intensity is below 0.
    Negative(u32),
    /// The planes don't fit the symmetry: their number, or where they begin and end. This is never want of memory.
    Expand(ExpandFault),
    /// The intensity is above 10^7 candela.
    Intensity(u32),
    /// Something stands in the line after the last intensity.
    Trailing(u32),
    /// Want of memory. This says nothing about the file.
    Memory,
}

impl From<AllocError> for LdtFault {
    ghost from_gives = { λ _ e. e ≡ Memory };

    fn from(_error: AllocError) -> LdtFault {
        LdtFault::Memory
    }
}

impl<T: Drop> From<AllocFailed<T>> for LdtFault {
    ghost from_gives = { λ _ e. e ≡ Memory };

    fn from(_failed: AllocFailed<T>) -> LdtFault {
        LdtFault::Memory
    }
}

impl fmt::Display for LdtFault {
    ghost output = { λ e. Some (fault_text e) };

    fn fmt<W: fmt::Write>(&self, f: &mut fmt::Formatter<W>) -> fmt::Result {
        match self {
            LdtFault::Short(line) => write!(f, "1 Short {line}"),
            LdtFault::Number(line) => write!(f, "2 Number {line}"),
            LdtFault::Range(line) => write!(f, "3 Range {line}"),
            LdtFault::NoLampSet => write!(f, "4 NoLampSet"),
            LdtFault::Order(line) => write!(f, "5 Order {line}"),
            LdtFault::Negative(line) => write!(f, "6 Negative {line}"),
            LdtFault::Expand(ExpandFault::PlaneCount) => write!(f, "7 Expand 1 PlaneCount"),
            LdtFault::Expand(ExpandFault::PlaneAngle) => write!(f, "7 Expand 2 PlaneAngle"),
            LdtFault::Expand(ExpandFault::Memory) => write!(f, "7 Expand Memory"),
            LdtFault::Intensity(line) => write!(f, "8 Intensity {line}"),
            LdtFault::Trailing(line) => write!(f, "9 Trailing {line}"),
            LdtFault::Memory => write!(f, "Memory"),
        }
    }
}

impl LdtFault {
    /// The fault's number and name, and where it has one its line. Want of memory is no refusal and has no number.
    pub fn text(&self, alloc: Global) -> Result<String, AllocError>
        ensures { IfOk result (λ s. string_bytes s ≡ fault_text self.now) }
    {
        let text = format!(in alloc; "{self}")?;
        Ok(text)
    }
}
