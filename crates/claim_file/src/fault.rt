//! Why a claim file is refused.
ghost use Rattle.std.specs.Prelude.{◌≡◌, IfOk, Some, string_bytes};
ghost use Rattle.claim_file.specs.declared.fault.ClaimFault.TheVariants.{Memory};
ghost use Rattle.claim_file.specs.FaultText.{fault_text};

use fx_base::Memory as NoMemory;
use std::alloc::{AllocError, AllocFailed, Global};
use std::fmt;

/// Why a claim file is refused. A number is the place of a record among those after the header, counted from 1.
#[derive(Clone, Copy, Debug, PartialEq, Eq)]
pub enum ClaimFault {
    /// The record isn't three numbers in digits, or has another length than the header, or one of its ticks is above 2^90.
    Record(u32),
    /// There are fewer records after the header than patches, or more.
    Count,
    /// The record's first number isn't that of its patch, which counts from 0.
    Order(u32),
    /// Want of memory. This says nothing about the file.
    Memory,
}

impl fmt::Display for ClaimFault {
    ghost output = { λ e. Some (fault_text e) };

    fn fmt<W: fmt::Write>(&self, f: &mut fmt::Formatter<W>) -> fmt::Result {
        match self {
            ClaimFault::Record(record) => write!(f, "1 Record {record}"),
            ClaimFault::Count => write!(f, "2 Count"),
            ClaimFault::Order(record) => write!(f, "3 Order {record}"),
            ClaimFault::Memory => write!(f, "Memory"),
        }
    }
}

impl ClaimFault {
    /// The fault's number and name, and where it has one its record. Want of memory is no refusal and has no number.
    pub fn text(&self, alloc: Global) -> Result<String, NoMemory>
        ensures { IfOk result (λ s. string_bytes s ≡ fault_text self.now) }
    {
        let text = format!(in alloc; "{self}")?;
        Ok(text)
    }
}

impl From<AllocError> for ClaimFault {
    ghost from_gives = { λ _ e. e ≡ Memory };

    fn from(_error: AllocError) -> ClaimFault {
        ClaimFault::Memory
    }
}

impl<T: Drop> From<AllocFailed<T>> for ClaimFault {
    ghost from_gives = { λ _ e. e ≡ Memory };

    fn from(_failed: AllocFailed<T>) -> ClaimFault {
        ClaimFault::Memory
    }
}

impl From<NoMemory> for ClaimFault {
    ghost from_gives = { λ _ e. e ≡ Memory };

    fn from(_error: NoMemory) -> ClaimFault {
        ClaimFault::Memory
    }
}
