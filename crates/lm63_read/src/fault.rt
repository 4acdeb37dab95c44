//! Why a file is refused.
ghost use Rattle.std.specs.Prelude.{◌≡◌, IfOk, Some, string_bytes};
ghost use Rattle.lm63_read.specs.declared.fault.IesFault.TheVariants.{Memory};
ghost use Rattle.lm63_read.specs.FaultText.{fault_text};

use std::alloc::{AllocError, AllocFailed, Global};
use std::fmt;

/// Why a file is refused. A number is the place of an item among all items after the `TILT=` line, counted from 1.
#[derive(Clone, Copy, Debug, PartialEq, Eq)]
pub enum IesFault {
    /// The first line is none of the three that are read.
    Version,
    /// No line begins with `TILT=`.
    NoTilt,
    /// The tilt isn't in the file: `TILT=` is followed by neither `NONE` nor `INCLUDE`.
    TiltFile,
    /// The file ends before this item.
    Short(u32),
    /// The item isn't a number.
    Number(u32),
    /// The number is outside its range.
    Range(u32),
    /// The photometry is of type A or B.
    PhotometricType,
    /// An angle can't follow those before it.
    Angles(u32),
    /// An intensity is below 0.
    Negative(u32),
    /// An intensity is above 10,000,000 candela.
    Intensity(u32),
    /// An item follows the last intensity.
    Trailing(u32),
    /// Want of memory. This says nothing about the file.
    Memory,
}

impl fmt::Display for IesFault {
    ghost output = { λ e. Some (fault_text e) };

    fn fmt<W: fmt::Write>(&self, f: &mut fmt::Formatter<W>) -> fmt::Result {
        match self {
            IesFault::Version => write!(f, "1 Version"),
            IesFault::NoTilt => write!(f, "2 NoTilt"),
            IesFault::TiltFile => write!(f, "3 TiltFile"),
            IesFault::Short(item) => write!(f, "4 Short {item}"),
            IesFault::Number(item) => write!(f, "5 Number {item}"),
            IesFault::Range(item) => write!(f, "6 Range {item}"),
            IesFault::PhotometricType => write!(f, "7 PhotometricType"),
            IesFault::Angles(item) => write!(f, "8 Angles {item}"),
            IesFault::Negative(item) => write!(f, "9 Negative {item}"),
            IesFault::Intensity(item) => write!(f, "10 Intensity {item}"),
            IesFault::Trailing(item) => write!(f, "11 Trailing {item}"),
            IesFault::Memory => write!(f, "Memory"),
        }
    }
}

impl IesFault {
    /// The fault's number and name, and where it has one its item. Want of memory is no refusal and has no number.
    pub fn text(&self, alloc: Global) -> Result<String, AllocError>
        ensures { IfOk result (λ s. string_bytes s ≡ fault_text self.now) }
    {
        let text = format!(in alloc; "{self}")?;
        Ok(text)
    }
}

impl From<AllocError> for IesFault {
    ghost from_gives = { λ _ e. e ≡ Memory };

    fn from(_error: AllocError) -> IesFault {
        IesFault::Memory
    }
}

impl<T: Drop> From<AllocFailed<T>> for IesFault {
    ghost from_gives = { λ _ e. e ≡ Memory };

    fn from(_failed: AllocFailed<T>) -> IesFault {
        IesFault::Memory
    }
}
