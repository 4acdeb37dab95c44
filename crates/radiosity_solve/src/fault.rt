//! Why a system has no bounds.
use interval_system::Heavy;
use std::alloc::AllocError;

/// Why a system has no bounds.
#[derive(Clone, Copy, Debug, PartialEq, Eq)]
pub enum SolveFault {
    /// The upper ends of this row add up to more than 255/256, and those of no earlier row do.
    RowSum(Heavy),
    /// No memory was left.
    Memory,
}

impl From<AllocError> for SolveFault {
    ghost use Rattle.radiosity_solve.specs.declared.fault.SolveFault.TheVariants.{Memory};
    ghost use Rattle.std.specs.Prelude.{◌≡◌};

    ghost from_gives = { λ _ fault. fault ≡ Memory };

    fn from(_error: AllocError) -> SolveFault {
        SolveFault::Memory
    }
}
