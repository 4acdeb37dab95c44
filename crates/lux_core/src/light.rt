//! What is asked of the light of a room: its report, or a claim on the light of its patches.
ghost use Rattle.std.specs.Prelude.{◌≡◌, ◌≤◌, IfOk, IfSome, length, List, Option, string_bytes, ℕ};
ghost use Rattle.interval_system.specs.System.{IsFirstHeavy, NoneHeavy};
ghost use Rattle.radiosity_solve.specs.Bounds.{IsInOrder, IsLowerAnswer, IsUpperAnswer};
ghost use Rattle.photo_table.specs.Table.{Table};
ghost use Rattle.room_layout.specs.Accepted.{IsAccepted};
ghost use Rattle.scene_system.specs.Assembled.{numbers, HasWeightsOf, IsSceneOf, IsWellFormed};
ghost use Rattle.scene_system.specs.Causes.{IsWithinLimits};
ghost use Rattle.scene_system.specs.Tables.{AreExactTables, AreTablesOf};
ghost use Rattle.lux_core.specs.LightAnswers.{IsAsked, IsCertificate, IsLightAnswer, IsSaidByScene};
ghost use Rattle.lux_core.specs.Runs.{run};
ghost use Rattle.lux_core.specs.Spellings.{IsReport};

use crate::lamp_files::read_lamp_files;
use crate::reply::{Halt, Reply};
use crate::scene::{refused_row, scene_of};
use crate::spelling::reply_in;
use crate::status::Status;
use crate::words::{LightQuestion, Spelling};
use claim_file::claim_text;
use fork_rows::Gate;
use fx_base::Memory;
use grid_report::laws::{bounds_hold_light, report_is_right, values_are_points};
use grid_report::{points, report};
use lux_io::Shelf;
use photo_table::PhotoTable;
use radiosity_solve::{Bounds, SolveFault, solve};
use room_layout::Room;
use scene_system::Scene;
use scene_system::laws::{heavy_has_cause, none_is_shown_heavy};
use std::alloc::Global;
use std::thread::Threads;

/// The report of a scene of the room, from bounds of the light of its patches.
fn reply_of_report(
    alloc: Global,
    form: Spelling,
    name: &str,
    room: &Room,
    photos: &[PhotoTable],
    scene: &Scene,
    bounds: &Bounds,
) -> Result<Reply, Memory>
    requires accepted { IsAccepted room.now }
    requires photos { length photos.now ≡ length room.now.files }
    requires formed { IsWellFormed (numbers scene.now) }
    requires weights { HasWeightsOf room.now (numbers scene.now) }
    requires none_heavy { NoneHeavy scene.now.system.rows }
    requires lower { IsLowerAnswer scene.now.system bounds.now.lower.items }
    requires upper { IsUpperAnswer scene.now.system bounds.now.upper.items }
    requires in_order { IsInOrder scene.now.system bounds.now.lower.items bounds.now.upper.items }
    ensures { (tables : List Table) → AreTablesOf photos.now tables → AreExactTables room.now tables → IsSceneOf tables room.now (numbers scene.now) →
        IfOk result (λ r. IsReport form name.now tables room.now r.status r.text.items) }
{
    values_are_points();
    report_is_right();
    let values = points(alloc, scene, bounds)?;
    let report = report(alloc, room.task.nx, values.as_slice())?;
    let patches = scene.patches.len();
    let reply = reply_in(alloc, form, name, room, photos, patches, &report)?;
    Ok(reply)
}

/// The claim that bounds of the light of a scene's patches are.
fn reply_of_claim(
    alloc: Global,
    room: &Room,
    scene: &Scene,
    bounds: &Bounds,
) -> Result<Reply, Memory>
    requires accepted { IsAccepted room.now }
    requires formed { IsWellFormed (numbers scene.now) }
    requires none_heavy { NoneHeavy scene.now.system.rows }
    requires lower { IsLowerAnswer scene.now.system bounds.now.lower.items }
    requires upper { IsUpperAnswer scene.now.system bounds.now.upper.items }
    ensures { (tables : List Table) → AreExactTables room.now tables → IsSceneOf tables room.now (numbers scene.now) →
        IfOk result (λ r. IsCertificate tables room.now r.status r.text.items) }
{
    bounds_hold_light();
    let text = claim_text(alloc, bounds)?;
    let status = Status::Done;
    Ok(Reply { status, text })
}

/// What is asked of a scene of the room, whose rows aren't heavy, from bounds of the light of its patches.
fn reply_of_bounds(
    alloc: Global,
    asked: LightQuestion,
    name: &str,
    room: &Room,
    photos: &[PhotoTable],
    scene: &Scene,
    bounds: &Bounds,
) -> Result<Reply, Memory>
    requires accepted { IsAccepted room.now }
    requires photos { length photos.now ≡ length room.now.files }
    requires formed { IsWellFormed (numbers scene.now) }
    requires weights { HasWeightsOf room.now (numbers scene.now) }
    requires none_heavy { NoneHeavy scene.now.system.rows }
    requires lower { IsLowerAnswer scene.now.system bounds.now.lower.items }
    requires upper { IsUpperAnswer scene.now.system bounds.now.upper.items }
    requires in_order { IsInOrder scene.now.system bounds.now.lower.items bounds.now.upper.items }
    ensures { (tables : List Table) → AreTablesOf photos.now tables → AreExactTables room.now tables → IsWithinLimits tables room.now →
        IsSceneOf tables room.now (numbers scene.now) → IfOk result (λ r. IsAsked asked name.now tables room.now r.status r.text.items) }
{
    none_is_shown_heavy();
    match asked {
        LightQuestion::Report(form) => {
            let reply = reply_of_report(alloc, form, name, room, photos, scene, bounds)?;
            Ok(reply)
        }
        LightQuestion::Claim => {
            let reply = reply_of_claim(alloc, room, scene, bounds)?;
            Ok(reply)
        }
    }
}

/// What is asked of a scene of the room, or its refusal for a heavy row.
fn reply_of_scene<R: Threads + Sync, G: Gate + Sync>(
    rt: &R,
    alloc: Global,
    asked: LightQuestion,
    name: &str,
    room: &Room,
    photos: &[PhotoTable],
    scene: &Scene,
    gate: &G,
) -> Result<Reply, Memory>
    requires accepted { IsAccepted room.now }
    requires photos { length photos.now ≡ length room.now.files }
    requires formed { IsWellFormed (numbers scene.now) }
    requires weights { HasWeightsOf room.now (numbers scene.now) }
    ensures { (tables : List Table) → AreTablesOf photos.now tables → AreExactTables room.now tables → IsWithinLimits tables room.now →
        IsSceneOf tables room.now (numbers scene.now) → IfOk result (λ r. IsSaidByScene asked name.now tables room.now r.status r.text.items) }
{
    heavy_has_cause();
    match solve(rt, alloc, &scene.system, gate) {
        Ok(bounds) => {
            let reply = reply_of_bounds(alloc, asked, name, room, photos, scene, &bounds)?;
            Ok(reply)
        }
        Err(SolveFault::RowSum(heavy)) => {
            let text = refused_row(alloc, heavy)?;
            Ok(Reply::refused(text))
        }
        Err(SolveFault::Memory) => Err(Memory),
    }
}

/// What is asked of a room by the tables of its lamps' files, or why it isn't served.
fn reply_by_tables<R: Threads + Sync, G: Gate + Sync>(
    rt: &R,
    alloc: Global,
    asked: LightQuestion,
    name: &str,
    room: &Room,
    photos: &[PhotoTable],
    gate: &G,
) -> Result<Reply, Memory>
    requires accepted { IsAccepted room.now }
    requires photos { length photos.now ≡ length room.now.files }
    ensures { (tables : List Table) → AreTablesOf photos.now tables → IfOk result (λ r. IsSaidByScene asked name.now tables room.now r.status r.text.items) }
{
    match scene_of(rt, alloc, room, photos, gate) {
        Ok(scene) => {
            let reply = reply_of_scene(rt, alloc, asked, name, room, photos, &scene, gate)?;
            Ok(reply)
        }
        Err(Halt::Said(reply)) => Ok(reply),
        Err(Halt::Memory) => Err(Memory),
    }
}

/// What is asked of the light of a room, whose file has this name, or why it isn't served. The files of its lamps are read first, each
/// once, in order.
pub fn reply_of_light<R: Threads + Sync, S: Shelf, G: Gate + Sync>(
    rt: &R,
    alloc: Global,
    asked: LightQuestion,
    name: &str,
    room: &Room,
    shelf: &mut S,
    gate: &G,
) -> Result<Reply, Memory>
    requires accepted { IsAccepted room.now }
    ensures files { S.files shelf.new ≡ S.files shelf.old }
    ensures answered { IfOk result (λ r. (before : Option (List ℕ)) → IfSome before (λ bytes. S.taken shelf.old ≡ length bytes) → IsLightAnswer asked name.now
        (run (S.files shelf.old) (S.absences shelf.old) (S.absences shelf.new)
        (S.faults shelf.old) (S.faults shelf.new) (S.taken shelf.new)) before room.now r.status r.text.items) }
{
    match read_lamp_files(alloc, room.files.as_slice(), shelf) {
        Ok(photos) => {
            let tables = photos.as_slice();
            let reply = reply_by_tables(rt, alloc, asked, name, room, tables, gate)?;
            Ok(reply)
        }
        Err(Halt::Said(reply)) => Ok(reply),
        Err(Halt::Memory) => Err(Memory),
    }
}
