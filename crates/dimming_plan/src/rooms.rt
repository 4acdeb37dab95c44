//! The plans of least power for a room, by the averages of its groups.
ghost use Rattle.std.specs.Prelude.{◌≡◌, ◌≤◌, All, IfErr, IfOk, length, List};
ghost use Rattle.photo_table.specs.Table.{Table};
ghost use Rattle.room_layout.specs.Accepted.{IsAccepted};
ghost use Rattle.scene_system.specs.Causes.{IsWithinLimits};
ghost use Rattle.scene_system.specs.Tables.{AreTablesOf};
ghost use Rattle.dimming_plan.specs.Dimming.{has_lamp, IsDimmed, IsHeavyCause};
ghost use Rattle.dimming_plan.specs.OneGroup.{IsGroupOf};
ghost use Rattle.dimming_plan.specs.PlanFile.{IsPlanLamp};
ghost use Rattle.dimming_plan.specs.Steps.{IsGroup};

use crate::entry::PlanLamp;
use crate::groups::{GroupFault, group_average};
use crate::lamps::{group_watts, members};
use crate::laws::{geometry_is_kept, limits_are_kept};
use crate::power::{Group, PowerBracket, least_power};
use fork_rows::Gate;
use fx_base::Span;
use photo_table::PhotoTable;
use room_layout::Room;
use scene_system::laws::total_is_of_tables;
use series_enclose::TangentTable;
use std::alloc::Global;
use std::thread::Threads;

/// Whether some lamp of the plan is in the group.
fn has_lamp(plan: &[PlanLamp], group: u8) -> bool
    ensures { result ≡ has_lamp plan.now group }
{
    plan.iter().any(|lamp| lamp.group == group)
}

/// The watts of a group and the average of the room with just its lamps, which is 0 where it has none.
fn group_of<R: Threads + Sync, G: Gate + Sync>(
    rt: &R,
    alloc: Global,
    table: &TangentTable,
    room: &Room,
    photos: &[PhotoTable],
    plan: &[PlanLamp],
    group: u8,
    gate: &G,
) -> Result<Group, GroupFault>
    requires accepted { IsAccepted room.now }
    requires photos { length photos.now ≡ length room.now.files }
    requires lamps { length plan.now ≡ length room.now.lamps }
    requires within { All IsPlanLamp plan.now }
    ensures group { (tables : List Table) → AreTablesOf photos.now tables → IfOk result (λ g. IsGroupOf tables room.now plan.now group g) }
    ensures fits { IfOk result IsGroup }
    ensures refused { (tables : List Table) → AreTablesOf photos.now tables → IsWithinLimits tables room.now →
        IfErr result (λ fault. IsHeavyCause room.now fault) }
{
    geometry_is_kept();
    limits_are_kept();
    total_is_of_tables();
    let watts = group_watts(plan, group);
    if !has_lamp(plan, group) {
        let average = Span::whole(0);
        return Ok(Group { average, watts });
    }
    let inside = members(alloc, plan, group)?;
    let average = group_average(rt, alloc, table, room, photos, inside.as_slice(), gate)?;
    Ok(Group { average, watts })
}

/// The plans of least power for a limit of `least` thousandths of a lux, over a room whose lamps have the groups and watts of `plan`, by
/// the tables of its files: one that is shown to reach the limit, and one that isn't shown to miss it. Groups that have lamps are
/// assembled and solved in order, each alone and in full. `table` is the table of sines. Rows: a row of the room is heavy, which its
/// lamps don't change. Scene comes only where the room itself has no scene.
pub fn power_bracket<R: Threads + Sync, G: Gate + Sync>(
    rt: &R,
    alloc: Global,
    table: &TangentTable,
    room: &Room,
    photos: &[PhotoTable],
    plan: &[PlanLamp],
    least: u64,
    gate: &G,
) -> Result<PowerBracket, GroupFault>
    requires accepted { IsAccepted room.now }
    requires photos { length photos.now ≡ length room.now.files }
    requires lamps { length plan.now ≡ length room.now.lamps }
    requires within { All IsPlanLamp plan.now }
    ensures dimmed { (tables : List Table) → AreTablesOf photos.now tables → IfOk result (λ found. IsDimmed tables room.now plan.now least found) }
    ensures refused { (tables : List Table) → AreTablesOf photos.now tables → IsWithinLimits tables room.now →
        IfErr result (λ fault. IsHeavyCause room.now fault) }
{
    let groups = [
        group_of(rt, alloc, table, room, photos, plan, 0, gate)?,
        group_of(rt, alloc, table, room, photos, plan, 1, gate)?,
        group_of(rt, alloc, table, room, photos, plan, 2, gate)?,
        group_of(rt, alloc, table, room, photos, plan, 3, gate)?,
        group_of(rt, alloc, table, room, photos, plan, 4, gate)?,
        group_of(rt, alloc, table, room, photos, plan, 5, gate)?,
    ];
    Ok(least_power(&groups, least))
}
