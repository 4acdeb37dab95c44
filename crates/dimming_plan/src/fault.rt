//! Why a plan file is refused.
ghost use Rattle.std.specs.Prelude.{◌≡◌, IfOk, Some, string_bytes};
ghost use Rattle.dimming_plan.specs.declared.fault.PlanFault.TheVariants.{Memory};
ghost use Rattle.dimming_plan.specs.FaultText.{fault_text};

use fx_base::Memory as NoMemory;
use std::alloc::{AllocFailed, Global};
use std::fmt;

/// Why a plan file is refused. A number is the place of a record among those after the header, counted from 1.
#[derive(Clone, Copy, Debug, PartialEq, Eq)]
pub enum PlanFault {
    /// The record isn't three numbers in digits, or has another length than the header, or its group is above 5 or its watts above
    /// 10,000.
    Record(u32),
    /// There are fewer records after the header than lamps, or more.
    Count,
    /// The record's first number isn't that of its lamp, which counts from 0.
    Order(u32),
    /// Want of memory. This says nothing about the file.
    Memory,
}

impl fmt::Display for PlanFault {
    ghost output = { λ e. Some (fault_text e) };

    fn fmt<W: fmt::Write>(&self, f: &mut fmt::Formatter<W>) -> fmt::Result {
        match self {
            PlanFault::Record(record) => write!(f, "1 Record {record}"),
            PlanFault::Count => write!(f, "2 Count"),
            PlanFault::Order(record) => write!(f, "3 Order {record}"),
            PlanFault::Memory => write!(f, "Memory"),
        }
    }
}

impl PlanFault {
    /// The fault's number and name, and where it has one its record. Want of memory is no refusal and has no number.
    pub fn text(&self, alloc: Global) -> Result<String, NoMemory>
        ensures { IfOk result (λ s. string_bytes s ≡ fault_text self.now) }
    {
        let text = format!(in alloc; "{self}")?;
        Ok(text)
    }
}

impl From<NoMemory> for PlanFault {
    ghost from_gives = { λ _ e. e ≡ Memory };

    fn from(_error: NoMemory) -> PlanFault {
        PlanFault::Memory
    }
}

impl<T: Drop> From<AllocFailed<T>> for PlanFault {
    ghost from_gives = { λ _ e. e ≡ Memory };

    fn from(_failed: AllocFailed<T>) -> PlanFault {
        PlanFault::Memory
    }
}
