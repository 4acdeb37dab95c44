//! The plans of least power for a room, by a plan of its lamps.
ghost use Rattle.std.specs.Prelude.{◌≡◌, ◌≢◌, ◌++◌, All, codes, IfOk, length, List, string_bytes, ℕ};
ghost use Rattle.decimal_text.specs.Lines.{line};
ghost use Rattle.dimming_plan.specs.FaultText.{fault_text};
ghost use Rattle.dimming_plan.specs.PlanFile.{IsPlanLamp};
ghost use Rattle.photo_table.specs.Table.{Table};
ghost use Rattle.room_layout.specs.Accepted.{IsAccepted};
ghost use Rattle.scene_system.specs.Tables.{AreTablesOf};
ghost use Rattle.lux_core.specs.Dims.{IsDimAnswer, IsPlanAnswer, IsSaidByPlan, IsSaidOfPlan};
ghost use Rattle.lux_core.specs.LightAnswers.{IsServed};
ghost use Rattle.lux_core.specs.Runs.{run};

use crate::lamp_files::read_lamp_files;
use crate::reply::{Halt, Reply};
use crate::scene::{refused_row, refused_scene, served_scene};
use crate::status::Status;
use crate::untaken::{LONGEST_FILE, reply_to_fault};
use dimming_plan::{GroupFault, PlanFault, PlanLamp, plan_text, power_bracket, read_plan};
use fork_rows::Gate;
use fx_base::Memory;
use lux_io::{Shelf, take_file};
use photo_table::PhotoTable;
use room_layout::Room;
use series_enclose::TangentTable;
use std::alloc::Global;
use std::thread::Threads;

/// The line of a plan that is refused.
fn refused_plan(alloc: Global, fault: PlanFault) -> Result<Reply, Memory>
    ensures status { IfOk result (λ r. r.status ≡ Status.Refused) }
    ensures text { IfOk result (λ r. r.text.items ≡ line (codes "refused plan " ++ fault_text fault)) }
{
    let said = fault.text(alloc)?;
    let text = format!(in alloc; "refused plan {said}\n")?;
    Ok(Reply::refused(text))
}

/// The plans of least power for a room that is served, by the averages of the groups of its lamps.
fn reply_by_groups<R: Threads + Sync, G: Gate + Sync>(
    rt: &R,
    alloc: Global,
    room: &Room,
    photos: &[PhotoTable],
    plan: &[PlanLamp],
    least: u32,
    gate: &G,
) -> Result<Reply, Memory>
    requires accepted { IsAccepted room.now }
    requires photos { length photos.now ≡ length room.now.files }
    requires lamps { length plan.now ≡ length room.now.lamps }
    requires within { All IsPlanLamp plan.now }
    ensures { (tables : List Table) → AreTablesOf photos.now tables → IsServed tables room.now →
        IfOk result (λ r. IsSaidByPlan least tables room.now plan.now r.status r.text.items) }
{
    let sines = TangentTable::build(alloc)?;
    let limit = u64::from(least);
    match power_bracket(rt, alloc, &sines, room, photos, plan, limit, gate) {
        Ok(found) => {
            let text = plan_text(alloc, &found)?;
            Ok(Reply::new(Status::Done, text))
        }
        Err(GroupFault::Scene(fault)) => {
            let text = refused_scene(alloc, fault)?;
            Ok(Reply::refused(text))
        }
        Err(GroupFault::Rows(heavy)) => {
            let text = refused_row(alloc, heavy)?;
            Ok(Reply::refused(text))
        }
        Err(GroupFault::Memory) => Err(Memory),
    }
}

/// The plans of least power for a room, or why the room isn't served.
fn reply_by_plan<R: Threads + Sync, G: Gate + Sync>(
    rt: &R,
    alloc: Global,
    room: &Room,
    photos: &[PhotoTable],
    plan: &[PlanLamp],
    least: u32,
    gate: &G,
) -> Result<Reply, Memory>
    requires accepted { IsAccepted room.now }
    requires photos { length photos.now ≡ length room.now.files }
    requires lamps { length plan.now ≡ length room.now.lamps }
    requires within { All IsPlanLamp plan.now }
    ensures { (tables : List Table) → AreTablesOf photos.now tables →
        IfOk result (λ r. IsSaidByPlan least tables room.now plan.now r.status r.text.items) }
{
    match served_scene(rt, alloc, room, photos, gate) {
        Ok(_) => {
            let reply = reply_by_groups(rt, alloc, room, photos, plan, least, gate)?;
            Ok(reply)
        }
        Err(Halt::Said(reply)) => Ok(reply),
        Err(Halt::Memory) => Err(Memory),
    }
}

/// What is said of a room by the bytes of its plan. They are read before the room's light is.
fn reply_to_plan<R: Threads + Sync, G: Gate + Sync>(
    rt: &R,
    alloc: Global,
    room: &Room,
    photos: &[PhotoTable],
    bytes: &[u8],
    least: u32,
    gate: &G,
) -> Result<Reply, Memory>
    requires accepted { IsAccepted room.now }
    requires photos { length photos.now ≡ length room.now.files }
    ensures { (tables : List Table) → AreTablesOf photos.now tables →
        IfOk result (λ r. IsSaidOfPlan least tables room.now bytes.now r.status r.text.items) }
{
    match read_plan(alloc, bytes, room.lamps.len()) {
        Ok(plan) => {
            let lamps = plan.as_slice();
            let reply = reply_by_plan(rt, alloc, room, photos, lamps, least, gate)?;
            Ok(reply)
        }
        Err(PlanFault::Memory) => Err(Memory),
        Err(fault) => {
            let reply = refused_plan(alloc, fault)?;
            Ok(reply)
        }
    }
}

/// What is said of a room by the plan in a file on the shelf, or that the file isn't taken.
fn reply_to_plan_file<R: Threads + Sync, S: Shelf, G: Gate + Sync>(
    rt: &R,
    alloc: Global,
    room: &Room,
    photos: &[PhotoTable],
    name: &str,
    least: u32,
    shelf: &mut S,
    gate: &G,
) -> Result<Reply, Memory>
    requires accepted { IsAccepted room.now }
    requires photos { length photos.now ≡ length room.now.files }
    ensures files { S.files shelf.new ≡ S.files shelf.old }
    ensures answered { (tables : List Table) → AreTablesOf photos.now tables → IfOk result (λ r. IsPlanAnswer least
        (run (S.files shelf.old) (S.absences shelf.old) (S.absences shelf.new)
        (S.faults shelf.old) (S.faults shelf.new) (S.taken shelf.new)) tables room.now name.now r.status r.text.items) }
{
    match take_file(alloc, shelf, name, LONGEST_FILE) {
        Ok(bytes) => {
            let read = bytes.as_slice();
            let reply = reply_to_plan(rt, alloc, room, photos, read, least, gate)?;
            Ok(reply)
        }
        Err(fault) => {
            let reply = reply_to_fault(alloc, name, fault)?;
            Ok(reply)
        }
    }
}

/// The plans of least power that reach an average of `least` thousandths of a lux, by the plan in the file of this name, or why there
/// are none. The files of the room's lamps are read first, each once, in order, and the plan's file last.
pub fn reply_of_dim<R: Threads + Sync, S: Shelf, G: Gate + Sync>(
    rt: &R,
    alloc: Global,
    room: &Room,
    name: &str,
    least: u32,
    shelf: &mut S,
    gate: &G,
) -> Result<Reply, Memory>
    requires accepted { IsAccepted room.now }
    ensures files { S.files shelf.new ≡ S.files shelf.old }
    ensures answered { IfOk result (λ r. IsDimAnswer least
        (run (S.files shelf.old) (S.absences shelf.old) (S.absences shelf.new)
        (S.faults shelf.old) (S.faults shelf.new) (S.taken shelf.new)) room.now name.now r.status r.text.items) }
{
    match read_lamp_files(alloc, room.files.as_slice(), shelf) {
        Ok(photos) => {
            let tables = photos.as_slice();
            let reply = reply_to_plan_file(rt, alloc, room, tables, name, least, shelf, gate)?;
            Ok(reply)
        }
        Err(Halt::Said(reply)) => Ok(reply),
        Err(Halt::Memory) => Err(Memory),
    }
}
