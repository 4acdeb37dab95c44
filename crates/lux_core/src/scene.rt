//! The scene of a room, and what is said of a room that isn't served.
ghost use Rattle.std.specs.Prelude.{◌≡◌, ◌≢◌, ◌++◌, codes, decimal, IfErr, IfOk, length, List, string_bytes};
ghost use Rattle.decimal_text.specs.Decimals.{thousandths};
ghost use Rattle.decimal_text.specs.Lines.{line};
ghost use Rattle.interval_system.specs.System.{NoneHeavy};
ghost use Rattle.photo_table.specs.Table.{Table};
ghost use Rattle.room_layout.specs.Accepted.{IsAccepted};
ghost use Rattle.scene_system.specs.Assembled.{numbers, HasWeightsOf, IsSceneOf, IsWellFormed};
ghost use Rattle.scene_system.specs.Causes.{IsWithinLimits};
ghost use Rattle.scene_system.specs.RowSums.{in_thousandths};
ghost use Rattle.scene_system.specs.Tables.{AreExactTables, AreTablesOf};
ghost use Rattle.lux_core.specs.LampTables.{Says};
ghost use Rattle.lux_core.specs.LightAnswers.{scene_fault_text, HasNoScene, IsNotServed, IsServed};

use crate::reply::{Halt, Reply};
use decimal_text::Thousandths;
use fork_rows::Gate;
use fx_base::Memory;
use interval_system::Heavy;
use photo_table::PhotoTable;
use room_layout::Room;
use scene_system::laws::{heavy_has_cause, none_is_shown_heavy, total_is_of_tables};
use scene_system::{Scene, SceneFault, assemble};
use series_enclose::TangentTable;
use std::alloc::Global;
use std::thread::Threads;

/// The line of a room that has no scene.
pub fn refused_scene(alloc: Global, fault: SceneFault) -> Result<String, Memory>
    ensures want { IfOk result (λ _. fault ≢ SceneFault.Memory) }
    ensures text { IfOk result (λ s. string_bytes s ≡ line (codes "refused scene " ++ scene_fault_text fault)) }
{
    match fault {
        SceneFault::TotalIntensity => {
            let text = String::from_str(alloc, "refused scene 1 TotalIntensity\n")?;
            Ok(text)
        }
        SceneFault::TooManyPatches(count) => {
            let text = format!(in alloc; "refused scene 2 TooManyPatches {count}\n")?;
            Ok(text)
        }
        SceneFault::NoTaskPoint => {
            let text = String::from_str(alloc, "refused scene 3 NoTaskPoint\n")?;
            Ok(text)
        }
        SceneFault::Memory => Err(Memory),
    }
}

/// The line of a room with a heavy row, and its sum in thousandths.
pub fn refused_row(alloc: Global, heavy: Heavy) -> Result<String, Memory>
    ensures { IfOk result (λ s. string_bytes s ≡ line (codes "refused rows 1 RowSum " ++ decimal heavy.row ++ codes " " ++ thousandths (in_thousandths heavy.upper))) }
{
    let sum = Thousandths((heavy.upper as u128 * 1000).div_ceil(68_719_476_736));
    let row = heavy.row;
    let text = format!(in alloc; "refused rows 1 RowSum {row} {sum}\n")?;
    Ok(text)
}

/// The scene of a room by the tables of its lamps' files, or why it has none.
pub fn scene_of<R: Threads + Sync, G: Gate + Sync>(
    rt: &R,
    alloc: Global,
    room: &Room,
    photos: &[PhotoTable],
    gate: &G,
) -> Result<Scene, Halt>
    requires accepted { IsAccepted room.now }
    requires photos { length photos.now ≡ length room.now.files }
    ensures formed { IfOk result (λ s. IsWellFormed (numbers s)) }
    ensures weights { IfOk result (λ s. HasWeightsOf room.now (numbers s)) }
    ensures scene { (tables : List Table) → AreTablesOf photos.now tables → IfOk result (λ s. IsSceneOf tables room.now (numbers s)) }
    ensures exact { (tables : List Table) → AreTablesOf photos.now tables → IfOk result (λ _. AreExactTables room.now tables) }
    ensures within { (tables : List Table) → AreTablesOf photos.now tables → IfOk result (λ _. IsWithinLimits tables room.now) }
    ensures none { (tables : List Table) → AreTablesOf photos.now tables → IfErr result (λ halt. Says halt (HasNoScene tables room.now)) }
{
    total_is_of_tables();
    let sines = TangentTable::build(alloc)?;
    match assemble(rt, alloc, &sines, room, photos, gate) {
        Ok(scene) => Ok(scene),
        Err(fault) => {
            let text = refused_scene(alloc, fault)?;
            Err(Halt::Said(Reply::refused(text)))
        }
    }
}

/// The scene of a room that is served, none of whose rows is heavy, or why the room isn't served.
pub fn served_scene<R: Threads + Sync, G: Gate + Sync>(
    rt: &R,
    alloc: Global,
    room: &Room,
    photos: &[PhotoTable],
    gate: &G,
) -> Result<Scene, Halt>
    requires accepted { IsAccepted room.now }
    requires photos { length photos.now ≡ length room.now.files }
    ensures formed { IfOk result (λ s. IsWellFormed (numbers s)) }
    ensures weights { IfOk result (λ s. HasWeightsOf room.now (numbers s)) }
    ensures none_heavy { IfOk result (λ s. NoneHeavy s.system.rows) }
    ensures scene { (tables : List Table) → AreTablesOf photos.now tables → IfOk result (λ s. IsSceneOf tables room.now (numbers s)) }
    ensures exact { (tables : List Table) → AreTablesOf photos.now tables → IfOk result (λ _. AreExactTables room.now tables) }
    ensures served { (tables : List Table) → AreTablesOf photos.now tables → IfOk result (λ _. IsServed tables room.now) }
    ensures not_served { (tables : List Table) → AreTablesOf photos.now tables → IfErr result (λ halt. Says halt (IsNotServed tables room.now)) }
{
    heavy_has_cause();
    none_is_shown_heavy();
    let scene = scene_of(rt, alloc, room, photos, gate)?;
    let heavy = scene.system.heavy_row();
    match heavy {
        None => Ok(scene),
        Some(heavy) => {
            let text = refused_row(alloc, heavy)?;
            Err(Halt::Said(Reply::refused(text)))
        }
    }
}
