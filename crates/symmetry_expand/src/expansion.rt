//! From what was measured to the table of all planes.
ghost use Rattle.std.specs.Prelude.{◌≡◌, ◌+◌, ◌*◌, ◌<◌, ◌≤◌, length, IfOk, IfErr, IsTrue, true, false, MatchResult};
ghost use Rattle.photo_table.specs.Kept.{AreGammas, AreIntensities};
ghost use Rattle.symmetry_expand.specs.AllRound.{all_round, round_trip};
ghost use Rattle.symmetry_expand.specs.Fold.{IsFoldedBy};
ghost use Rattle.symmetry_expand.specs.Measured.{AreSuited, RiseWithinTurn, first_angle, in_turn, last_angle, lifted, measured_table, runs_as_needed, IsRefusal};
ghost use Rattle.symmetry_expand.specs.Steps.{GoesRound};

use crate::steps::start;
use crate::symmetry::{ExpandFault, Measured, Symmetry};
use crate::turn::{turn_planes, turn_values};
use fx_base::Micro;
use photo_table::PhotoTable;
use std::alloc::{AllocError, Global};

/// The table of all planes: its intensity in each direction is the measured one at the angle that stands for C.
///
/// It is refused as `PlaneAngle` exactly where the measured planes don't run from 0 to 180 degrees for the mirror at 0, from 0 to 90
/// for both, or from -90 to 90 or from 90 to 270 for the mirror at 90. It is never refused as `PlaneCount`.
pub fn expand(
    alloc: Global,
    measured: Measured,
    symmetry: Symmetry,
) -> Result<PhotoTable, ExpandFault>
    requires rise { RiseWithinTurn measured.planes.items }
    requires suited { AreSuited symmetry measured.planes.items }
    requires gammas { AreGammas measured.gammas.items }
    requires values { AreIntensities measured.values.items }
    requires all { length measured.values.items ≡ length measured.planes.items * length measured.gammas.items }
    ensures folded { IfOk result (IsFoldedBy symmetry (measured_table measured.planes.items measured.gammas.items measured.values.items)) }
    ensures table { IfOk result (λ t. t ≡ all_round symmetry (measured_table measured.planes.items measured.gammas.items measured.values.items)) }
    ensures runs { IfOk result (λ _. runs_as_needed symmetry (first_angle measured.planes.items) (last_angle measured.planes.items) ≡ true) }
    ensures refused { IfErr result (λ e. IsRefusal e (runs_as_needed symmetry (first_angle measured.planes.items) (last_angle measured.planes.items))) }
{
    match all_planes(alloc, measured, symmetry) {
        Ok(table) => Ok(table),
        Err(fault) => Err(fault),
    }
}

/// The table of all planes, plane by plane.
fn all_planes(
    alloc: Global,
    measured: Measured,
    symmetry: Symmetry,
) -> Result<PhotoTable, ExpandFault>
    requires rise { RiseWithinTurn measured.planes.items }
    requires suited { AreSuited symmetry measured.planes.items }
    requires gammas { AreGammas measured.gammas.items }
    requires values { AreIntensities measured.values.items }
    requires all { length measured.values.items ≡ length measured.planes.items * length measured.gammas.items }
    ensures table { IfOk result (λ t. t ≡ all_round symmetry (measured_table measured.planes.items measured.gammas.items measured.values.items)) }
    ensures runs { IfOk result (λ _. runs_as_needed symmetry (first_angle measured.planes.items) (last_angle measured.planes.items) ≡ true) }
    ensures refused { IfErr result (λ e. IsRefusal e (runs_as_needed symmetry (first_angle measured.planes.items) (last_angle measured.planes.items))) }
{
    if !planes_run(&measured.planes, symmetry) {
        return Err(ExpandFault::PlaneAngle);
    }
    let outcome = match symmetry {
        Symmetry::None => return Ok(every_plane(measured)),
        Symmetry::Axis => return Ok(one_plane(measured)),
        Symmetry::Plane0 => whole_turn(alloc, measured, 1, 0),
        Symmetry::Plane90 => whole_turn(alloc, measured, 1, 360_000_000),
        Symmetry::Both => whole_turn(alloc, measured, 2, 0),
    };
    match outcome {
        Ok(table) => Ok(table),
        Err(_) => Err(ExpandFault::Memory),
    }
}

/// Whether measured planes run from where the symmetry has them begin to where it has them end, so that `expand` takes them.
pub fn planes_run(planes: &[Micro], symmetry: Symmetry) -> bool
    requires { 0 < length planes.now }
    ensures { result ≡ runs_as_needed symmetry (first_angle planes.now) (last_angle planes.now) }
{
    run_between(planes[0], planes[planes.len() - 1], symmetry)
}

/// Whether planes from `first` to `last` do.
fn run_between(first: Micro, last: Micro, symmetry: Symmetry) -> bool
    ensures { result ≡ runs_as_needed symmetry first.0 last.0 }
{
    match symmetry {
        Symmetry::None | Symmetry::Axis => true,
        Symmetry::Plane0 => first.0 == 0 && last.0 == 180_000_000,
        Symmetry::Plane90 => {
            (first.0 == -90_000_000 && last.0 == 90_000_000)
                || (first.0 == 90_000_000 && last.0 == 270_000_000)
        }
        Symmetry::Both => first.0 == 0 && last.0 == 90_000_000,
    }
}

/// The table of planes that were all measured.
fn every_plane(measured: Measured) -> PhotoTable
    requires rise { RiseWithinTurn measured.planes.items }
    requires suited { AreSuited Symmetry.None measured.planes.items }
    requires gammas { AreGammas measured.gammas.items }
    requires values { AreIntensities measured.values.items }
    requires all { length measured.values.items ≡ length measured.planes.items * length measured.gammas.items }
    ensures { result ≡ all_round Symmetry.None (measured_table measured.planes.items measured.gammas.items measured.values.items) }
{
    let Measured {
        planes,
        gammas,
        values,
    } = measured;
    PhotoTable::new(planes, gammas, values)
}

/// The table of one plane that stands for all.
fn one_plane(measured: Measured) -> PhotoTable
    requires suited { AreSuited Symmetry.Axis measured.planes.items }
    requires gammas { AreGammas measured.gammas.items }
    requires values { AreIntensities measured.values.items }
    requires all { length measured.values.items ≡ length measured.planes.items * length measured.gammas.items }
    ensures { result ≡ all_round Symmetry.Axis (measured_table measured.planes.items measured.gammas.items measured.values.items) }
{
    let Measured {
        mut planes,
        gammas,
        values,
    } = measured;
    planes[0] = Micro(0);
    PhotoTable::new(planes, gammas, values)
}

/// The table of one turn to and fro between the measured planes.
fn whole_turn(
    alloc: Global,
    measured: Measured,
    times: usize,
    base: u64,
) -> Result<PhotoTable, AllocError>
    requires rise { RiseWithinTurn measured.planes.items }
    requires round { GoesRound (lifted measured.planes.items) times base }
    requires gammas { AreGammas measured.gammas.items }
    requires values { AreIntensities measured.values.items }
    requires all { length measured.values.items ≡ length measured.planes.items * length measured.gammas.items }
    ensures { IfOk result (λ t. t ≡ round_trip times base (measured_table measured.planes.items measured.gammas.items measured.values.items)) }
{
    let Measured {
        planes,
        gammas,
        values,
    } = measured;
    let n = planes.len() - 1;
    let first = first_in_turn(planes[0]);
    let from = start(&planes, first, base);
    let count = times * (2 * n);
    let all_planes = turn_planes(alloc, &planes, first, from, count, base)?;
    let all_values = turn_values(alloc, &values, n, gammas.len(), from, count)?;
    Ok(PhotoTable::new(all_planes, gammas, all_values))
}

/// An angle brought into one turn.
fn first_in_turn(angle: Micro) -> u64
    ensures { result ≡ in_turn angle.0 }
{
    angle.0.rem_euclid(360_000_000) as u64
}
