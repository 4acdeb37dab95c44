//! The average of a room with just a group of its lamps.
ghost use Rattle.std.specs.Prelude.{◌≡◌, IfErr, IfOk, length, List};
ghost use Rattle.interval_system.specs.System.{NoneHeavy};
ghost use Rattle.photo_table.specs.Table.{Table};
ghost use Rattle.radiosity_solve.specs.Bounds.{IsInOrder, IsLowerAnswer, IsUpperAnswer};
ghost use Rattle.room_layout.specs.Accepted.{IsAccepted};
ghost use Rattle.room_layout.specs.Kept.{kept_room};
ghost use Rattle.scene_system.specs.Assembled.{numbers, HasWeightsOf, IsSceneOf, IsWellFormed};
ghost use Rattle.scene_system.specs.Causes.{IsWithinLimits};
ghost use Rattle.scene_system.specs.RowSums.{NoneIsHeavy};
ghost use Rattle.scene_system.specs.Tables.{AreExactTables, AreTablesOf};
ghost use Rattle.dimming_plan.specs.GroupAverages.{IsGroupAverage, IsGroupCause, IsInRange, IsRowsCause};

use fork_rows::Gate;
use fx_base::{Memory, Span};
use interval_system::Heavy;
use photo_table::PhotoTable;
use radiosity_solve::{Bounds, SolveFault, solve};
use room_layout::Room;
use room_layout::laws::keeps_accepted;
use scene_system::laws::{heavy_has_cause, none_is_shown_heavy, values_are_points};
use scene_system::{Scene, SceneFault, assemble, average, points};
use series_enclose::TangentTable;
use std::alloc::Global;
use std::thread::Threads;

/// Why a group of lamps has no average.
#[derive(Clone, Copy, Debug, PartialEq, Eq)]
pub enum GroupFault {
    /// The room with just these lamps has no scene; this is never for want of memory.
    Scene(SceneFault),
    /// The coefficients of a row add up to too much.
    Rows(Heavy),
    /// No memory was left.
    Memory,
}

impl From<Memory> for GroupFault {
    ghost use Rattle.std.specs.Prelude.{◌≡◌};
    ghost use Rattle.dimming_plan.specs.declared.groups.GroupFault.TheVariants as group_fault;

    ghost from_gives = { λ _ fault. fault ≡ group_fault.Memory };

    fn from(_: Memory) -> GroupFault {
        GroupFault::Memory
    }
}

impl From<SceneFault> for GroupFault {
    ghost use Rattle.std.specs.Prelude.{◌≡◌};
    ghost use Rattle.dimming_plan.specs.GroupAverages.{fault_of_scene};

    ghost from_gives = { λ from fault. fault ≡ fault_of_scene from };

    fn from(fault: SceneFault) -> GroupFault {
        match fault {
            SceneFault::Memory => GroupFault::Memory,
            fault => GroupFault::Scene(fault),
        }
    }
}

impl From<SolveFault> for GroupFault {
    ghost use Rattle.std.specs.Prelude.{◌≡◌};
    ghost use Rattle.dimming_plan.specs.GroupAverages.{fault_of_rows};

    ghost from_gives = { λ from fault. fault ≡ fault_of_rows from };

    fn from(fault: SolveFault) -> GroupFault {
        match fault {
            SolveFault::RowSum(heavy) => GroupFault::Rows(heavy),
            SolveFault::Memory => GroupFault::Memory,
        }
    }
}

/// The average of a scene of the room, from bounds of the light of its patches.
fn average_by(alloc: Global, room: &Room, scene: &Scene, bounds: &Bounds) -> Result<Span, Memory>
    requires accepted { IsAccepted room.now }
    requires formed { IsWellFormed (numbers scene.now) }
    requires none_heavy { NoneHeavy scene.now.system.rows }
    requires lower { IsLowerAnswer scene.now.system bounds.now.lower.items }
    requires upper { IsUpperAnswer scene.now.system bounds.now.upper.items }
    requires in_order { IsInOrder scene.now.system bounds.now.lower.items bounds.now.upper.items }
    ensures average { (tables : List Table) → AreExactTables room.now tables → IsSceneOf tables room.now (numbers scene.now) →
        IfOk result (λ span. IsGroupAverage tables room.now span) }
    ensures in_range { IfOk result IsInRange }
{
    values_are_points();
    let values = points(alloc, scene, bounds)?;
    let mean = average(values.as_slice());
    Ok(mean)
}

/// The average of a scene of the room, or its first heavy row.
fn average_of<R: Threads + Sync, G: Gate + Sync>(
    rt: &R,
    alloc: Global,
    room: &Room,
    scene: &Scene,
    gate: &G,
) -> Result<Span, SolveFault>
    requires accepted { IsAccepted room.now }
    requires formed { IsWellFormed (numbers scene.now) }
    requires weights { HasWeightsOf room.now (numbers scene.now) }
    ensures average { (tables : List Table) → AreExactTables room.now tables → IsSceneOf tables room.now (numbers scene.now) →
        IfOk result (λ span. IsGroupAverage tables room.now span) }
    ensures in_range { IfOk result IsInRange }
    ensures none_heavy { IfOk result (λ _. NoneIsHeavy room.now) }
    ensures refused { IfErr result (λ fault. IsRowsCause room.now fault) }
{
    heavy_has_cause();
    none_is_shown_heavy();
    let bounds = solve(rt, alloc, &scene.system, gate)?;
    match average_by(alloc, room, scene, &bounds) {
        Ok(span) => Ok(span),
        Err(_) => Err(SolveFault::Memory),
    }
}

/// The average of a room, or why it has none.
fn room_average<R: Threads + Sync, G: Gate + Sync>(
    rt: &R,
    alloc: Global,
    table: &TangentTable,
    room: &Room,
    photos: &[PhotoTable],
    gate: &G,
) -> Result<Span, GroupFault>
    requires accepted { IsAccepted room.now }
    requires photos { length photos.now ≡ length room.now.files }
    ensures average { (tables : List Table) → AreTablesOf photos.now tables → IfOk result (λ span. IsGroupAverage tables room.now span) }
    ensures in_range { IfOk result IsInRange }
    ensures within { IfOk result (λ _. IsWithinLimits photos.now room.now) }
    ensures none_heavy { IfOk result (λ _. NoneIsHeavy room.now) }
    ensures refused { IfErr result (λ fault. IsGroupCause photos.now room.now fault) }
{
    let scene = assemble(rt, alloc, table, room, photos, gate)?;
    let span = average_of(rt, alloc, room, &scene, gate)?;
    Ok(span)
}

/// The average of a room over the task points that no box covers, with just the lamps that are kept, or why the room has none with
/// them. `photos` are the tables of the room's files, in their order; the average meets the exact one at every depth, whichever exact
/// tables were rounded to `photos`. The causes of a refusal are told by `photos` themselves.
pub fn group_average<R: Threads + Sync, G: Gate + Sync>(
    rt: &R,
    alloc: Global,
    table: &TangentTable,
    room: &Room,
    photos: &[PhotoTable],
    keep: &[bool],
    gate: &G,
) -> Result<Span, GroupFault>
    requires accepted { IsAccepted room.now }
    requires photos { length photos.now ≡ length room.now.files }
    requires lamps { length keep.now ≡ length room.now.lamps }
    ensures average { (tables : List Table) → AreTablesOf photos.now tables →
        IfOk result (λ span. IsGroupAverage tables (kept_room keep.now room.now) span) }
    ensures in_range { IfOk result IsInRange }
    ensures within { IfOk result (λ _. IsWithinLimits photos.now (kept_room keep.now room.now)) }
    ensures none_heavy { IfOk result (λ _. NoneIsHeavy (kept_room keep.now room.now)) }
    ensures refused { IfErr result (λ fault. IsGroupCause photos.now (kept_room keep.now room.now) fault) }
{
    keeps_accepted();
    match room.without(alloc, keep) {
        Ok(group) => room_average(rt, alloc, table, &group, photos, gate),
        Err(_) => Err(GroupFault::Memory),
    }
}
