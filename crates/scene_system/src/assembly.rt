//! A room made into a scene.
ghost use Rattle.std.specs.Prelude.{◌≡◌, ◌<◌, ◌≤◌, IfOk, IfErr, List, length};
ghost use Rattle.room_layout.specs.Accepted.{IsAccepted};
ghost use Rattle.photo_table.specs.Table.{Table};
ghost use Rattle.scene_system.specs.Assembled.{numbers, open_points, HasNearWeights, HasWeightsOf, IsSceneOf, IsWellFormed};
ghost use Rattle.scene_system.specs.Causes.{greatest_total, total_ticks, IsCause, IsWithinLimits};
ghost use Rattle.scene_system.specs.Parts.{ArePatchesOf, AreTaskPointsOf, HasEquations};
ghost use Rattle.scene_system.specs.Sources.{AreSources};
ghost use Rattle.scene_system.specs.Tables.{AreExactTables, AreKept, AreTablesOf};

use crate::direct::lights_at;
use crate::fault::SceneFault;
use crate::lamps::points_of_lamps;
use crate::limits::{open_points, total_ticks};
use crate::receiver::{lit_patches, lit_points};
use crate::scene::Scene;
use crate::sources::Sources;
use crate::weights::rows_at;
use fork_rows::Gate;
use fx_base::Memory;
use interval_system::IntervalSystem;
use patch_mesh::{Patch, TaskPoint, mesh, task_points};
use photo_table::PhotoTable;
use room_layout::Room;
use series_enclose::TangentTable;
use sight_index::SightIndex;
use std::alloc::Global;
use std::thread::Threads;

/// The greatest intensity of all lamps together, 10^7 cd, in ticks.
const GREATEST_TOTAL: u128 = 687_194_767_360_000_000;

/// The radiosity equations of the patches: the weights between them, and their direct light.
fn equations<R: Threads + Sync, G: Gate + Sync>(
    rt: &R,
    alloc: Global,
    sources: &Sources,
    gate: &G,
) -> Result<IntervalSystem, Memory>
    requires { AreSources sources.now }
    ensures { IfOk result (λ s. HasEquations sources.now.photos.now sources.now.room.now s) }
{
    let rows = rows_at(rt, alloc, sources, sources.lit, gate)?;
    let direct = lights_at(rt, alloc, sources, sources.lit, gate)?;
    let system = IntervalSystem::from_rows(rows, direct);
    // it is a system: a square of weights, with light for each row
    let _size = system.size();
    Ok(system)
}

/// The scene of a room with these patches and task points, whose rows and whose light are filled side by side.
fn scene_of<R: Threads + Sync, G: Gate + Sync>(
    rt: &R,
    alloc: Global,
    table: &TangentTable,
    room: &Room,
    photos: &[PhotoTable],
    patches: Vec<Patch>,
    points: Vec<TaskPoint>,
    gate: &G,
) -> Result<Scene, Memory>
    requires accepted { IsAccepted room.now }
    requires photos { length photos.now ≡ length room.now.files }
    requires kept { AreKept photos.now }
    requires dim { total_ticks photos.now room.now ≤ greatest_total }
    requires patches { ArePatchesOf room.now patches.items }
    requires points { AreTaskPointsOf room.now points.items }
    requires some { 0 < open_points points.items }
    ensures scene { (tables : List Table) → AreTablesOf photos.now tables → IfOk result (λ s. IsSceneOf tables room.now (numbers s)) }
    ensures weights { IfOk result (λ s. HasWeightsOf room.now (numbers s)) }
    ensures formed { IfOk result (λ s. IsWellFormed (numbers s)) }
{
    let index = SightIndex::build(alloc, room.size, room.blocks.as_slice())?;
    let lamps = points_of_lamps(alloc, room, &index)?;
    let lit = lit_patches(alloc, &index, patches.as_slice())?;
    let sources = Sources {
        room,
        index: &index,
        patches: patches.as_slice(),
        lit: lit.as_slice(),
        lamps: lamps.as_slice(),
        table,
        photos,
    };
    let system = equations(rt, alloc, &sources, gate)?;
    let task = lit_points(alloc, &index, points.as_slice())?;
    let point_rows = rows_at(rt, alloc, &sources, task.as_slice(), gate)?;
    let point_direct = lights_at(rt, alloc, &sources, task.as_slice(), gate)?;
    Ok(Scene {
        patches,
        points,
        system,
        point_rows,
        point_direct,
    })
}

/// The scene of a room, where `photos` are the tables of its files, in their order. Its weights and its light meet the exact ones at
/// every depth, whichever exact tables were rounded to `photos`. The limits and the causes of a refusal are told by `photos` themselves.
#[tactic(auto, using(crate::proofs::Rows::near_weights))]
pub fn assemble<R: Threads + Sync, G: Gate + Sync>(
    rt: &R,
    alloc: Global,
    table: &TangentTable,
    room: &Room,
    photos: &[PhotoTable],
    gate: &G,
) -> Result<Scene, SceneFault>
    requires accepted { IsAccepted room.now }
    requires photos { length photos.now ≡ length room.now.files }
    ensures scene { (tables : List Table) → AreTablesOf photos.now tables → IfOk result (λ s. IsSceneOf tables room.now (numbers s)) }
    ensures exact { (tables : List Table) → AreTablesOf photos.now tables → IfOk result (λ _. AreExactTables room.now tables) }
    ensures weights { IfOk result (λ s. HasWeightsOf room.now (numbers s)) }
    ensures near { IfOk result (λ s. HasNearWeights room.now (numbers s)) }
    ensures formed { IfOk result (λ s. IsWellFormed (numbers s)) }
    ensures within { IfOk result (λ _. IsWithinLimits photos.now room.now) }
    ensures refused { IfErr result (λ fault. IsCause photos.now room.now fault) }
{
    let total = total_ticks(alloc, room, photos)?;
    let too_bright = total > GREATEST_TOTAL;
    if too_bright {
        return Err(SceneFault::TotalIntensity);
    }
    let patches = mesh(alloc, room)?;
    let points = task_points(alloc, room)?;
    if open_points(points.as_slice()) == 0 {
        return Err(SceneFault::NoTaskPoint);
    }
    let scene = scene_of(rt, alloc, table, room, photos, patches, points, gate)?;
    Ok(scene)
}
