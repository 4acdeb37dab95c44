//! Patches and task points.

use fx_base::Memory;
use room_layout::{Face, Point};

/// A flat rectangle of a surface, for which one illuminance stands: its centre in half mm, where it faces, its area in square
/// mm, and its reflectance in thousandths.
#[derive(Clone, Copy, Debug, PartialEq, Eq)]
pub struct Patch {
    pub centre: Point,
    pub face: Face,
    pub area: u64,
    pub reflect: u16,
}

/// A point at which the illuminance from above is asked for, in half mm, and whether it lies in the open inside of a box.
#[derive(Clone, Copy, Debug, PartialEq, Eq)]
pub struct TaskPoint {
    pub at: Point,
    pub covered: bool,
}

/// Why a room wasn't cut into patches.
#[derive(Clone, Copy, Debug, PartialEq, Eq)]
pub enum MeshFault {
    /// There would be so many patches, which are more than 2,048.
    TooManyPatches(u64),
    /// No memory was left.
    Memory,
}

impl From<Memory> for MeshFault {
    ghost use Rattle.std.specs.Prelude.{◌≡◌};
    ghost use Rattle.patch_mesh.specs.declared.patch.MeshFault.TheVariants as fault;

    ghost from_gives = { λ _ answer. answer ≡ fault.Memory };

    fn from(_: Memory) -> Self {
        MeshFault::Memory
    }
}
