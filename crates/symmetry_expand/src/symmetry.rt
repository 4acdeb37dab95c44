//! The symmetries, what a file stores under each, and what can't be unfolded.
ghost use Rattle.std.specs.Prelude.{◌≡◌, ◌%◌, ◌<◌, ◌≤◌, MatchResult};
ghost use Rattle.symmetry_expand.specs.Stored.{first_stored, multiple_of, stored_count};

use fx_base::{Micro, Span};

/// How the measured half-planes of a lamp stand for all of them.
#[derive(Clone, Copy, Debug, PartialEq, Eq)]
pub enum Symmetry {
    /// Every half-plane was measured.
    None,
    /// The same all round the vertical.
    Axis,
    /// Mirrored at the plane through C = 0 and 180 degrees.
    Plane0,
    /// Mirrored at the plane through C = 90 and 270 degrees.
    Plane90,
    /// Mirrored at both.
    Both,
}

/// The planes that a file stores: the first of them, counted from 1, and how many. They run past the last plane to the first.
#[derive(Clone, Copy, Debug, PartialEq, Eq)]
pub struct Stored {
    pub first: u32,
    pub count: u32,
}

/// What was measured: half-planes C and gammas in millionths of a degree, and an intensity in candela for each pair, plane by plane.
/// Planes above 180 degrees of a lamp mirrored at 90 may be given less 360.
#[derive(Debug, Drop)]
pub struct Measured {
    pub planes: Vec<Micro>,
    pub gammas: Vec<Micro>,
    pub values: Vec<Span>,
}

/// Why measured planes don't make a table.
#[derive(Clone, Copy, Debug, PartialEq, Eq)]
pub enum ExpandFault {
    /// The number of planes isn't a multiple of what the symmetry asks for.
    PlaneCount,
    /// The measured planes don't run from where the symmetry has them begin to where it has them end.
    PlaneAngle,
    /// Want of memory. This says nothing about the planes.
    Memory,
}

/// Which of so many planes are stored.
pub fn stored_planes(planes: u32, symmetry: Symmetry) -> Result<Stored, ExpandFault>
    requires some { 1 ≤ planes }
    requires few { planes ≤ 720 }
    ensures stored { MatchResult result
        (λ s. (planes % multiple_of symmetry ≡ 0) × (s ≡ record { first = first_stored symmetry planes; count = stored_count symmetry planes }))
        (λ e. (0 < planes % multiple_of symmetry) × (e ≡ ExpandFault.PlaneCount)) }
{
    let (multiple, first, count) = match symmetry {
        Symmetry::None => (1, 1, planes),
        Symmetry::Axis => (1, 1, 1),
        Symmetry::Plane0 => (2, 1, planes / 2 + 1),
        Symmetry::Plane90 => (4, 3 * planes / 4 + 1, planes / 2 + 1),
        Symmetry::Both => (4, 1, planes / 4 + 1),
    };
    if planes % multiple != 0 {
        return Err(ExpandFault::PlaneCount);
    }
    Ok(Stored { first, count })
}
