//! Why a room has no scene.
use fx_base::Memory;
use patch_mesh::MeshFault;

/// Why a room has no scene.
#[derive(Clone, Copy, Debug, PartialEq, Eq)]
pub enum SceneFault {
    /// The greatest intensities of all lamps add up to more than 10^7 cd.
    TotalIntensity,
    /// There would be so many patches, which are more than 2,048.
    TooManyPatches(u64),
    /// Boxes cover every task point.
    NoTaskPoint,
    /// No memory was left.
    Memory,
}

impl From<Memory> for SceneFault {
    ghost use Rattle.std.specs.Prelude.{◌≡◌};
    ghost use Rattle.scene_system.specs.declared.fault.SceneFault.TheVariants.{Memory};

    ghost from_gives = { λ _ fault. fault ≡ Memory };

    fn from(_: Memory) -> SceneFault {
        SceneFault::Memory
    }
}

impl From<MeshFault> for SceneFault {
    ghost use Rattle.std.specs.Prelude.{◌≡◌};
    ghost use Rattle.scene_system.specs.Causes.{fault_of_mesh};

    ghost from_gives = { λ from fault. fault ≡ fault_of_mesh from };

    fn from(fault: MeshFault) -> SceneFault {
        match fault {
            MeshFault::TooManyPatches(count) => SceneFault::TooManyPatches(count),
            MeshFault::Memory => SceneFault::Memory,
        }
    }
}
