//! A claim on the light of a room's patches, checked without solving.
ghost use Rattle.std.specs.Prelude.{◌≡◌, IfOk, IfSome, length, List, Option, ℕ};
ghost use Rattle.interval_system.specs.System.{NoneHeavy};
ghost use Rattle.photo_table.specs.Table.{Table};
ghost use Rattle.room_layout.specs.Accepted.{IsAccepted};
ghost use Rattle.scene_system.specs.Assembled.{numbers, HasWeightsOf, IsSceneOf, IsWellFormed};
ghost use Rattle.scene_system.specs.Tables.{AreExactTables};
ghost use Rattle.lux_core.specs.Claims.{IsCheckAnswer, IsClaimAnswer, IsSaidOfClaim};
ghost use Rattle.lux_core.specs.Runs.{run};

use crate::lamp_files::read_lamp_files;
use crate::reply::{Halt, Reply};
use crate::scene::served_scene;
use crate::status::Status;
use crate::untaken::{LONGEST_FILE, reply_to_fault};
use claim_file::{ClaimFault, read_claim};
use fork_rows::Gate;
use fx_base::Memory;
use grid_report::laws::{shown_holds_light, unshown_has_cause};
use lux_io::{Shelf, take_file};
use radiosity_solve::holds;
use room_layout::Room;
use scene_system::Scene;
use std::alloc::Global;
use std::thread::Threads;

/// What is said of a claim by a scene of the room, whose rows aren't heavy.
fn reply_to_claim(alloc: Global, room: &Room, scene: &Scene, bytes: &[u8]) -> Result<Reply, Memory>
    requires accepted { IsAccepted room.now }
    requires formed { IsWellFormed (numbers scene.now) }
    requires weights { HasWeightsOf room.now (numbers scene.now) }
    requires none_heavy { NoneHeavy scene.now.system.rows }
    ensures { (tables : List Table) → AreExactTables room.now tables → IsSceneOf tables room.now (numbers scene.now) →
        IfOk result (λ r. IsSaidOfClaim tables room.now bytes.now r.status r.text.items) }
{
    shown_holds_light();
    unshown_has_cause();
    let count = scene.patches.len();
    match read_claim(alloc, bytes, count) {
        Ok(bounds) => match holds(&scene.system, &bounds) {
            Ok(()) => {
                let text = format!(in alloc; "shown {count}\n")?;
                Ok(Reply::new(Status::Done, text))
            }
            Err(row) => {
                let text = format!(in alloc; "not shown {row}\n")?;
                Ok(Reply::new(Status::NotShown, text))
            }
        },
        Err(ClaimFault::Memory) => Err(Memory),
        Err(fault) => {
            let said = fault.text(alloc)?;
            let text = format!(in alloc; "refused claim {said}\n")?;
            Ok(Reply::refused(text))
        }
    }
}

/// What is said of the claim in a file on the shelf, or that the file isn't taken.
fn reply_to_claim_file<S: Shelf>(
    alloc: Global,
    room: &Room,
    scene: &Scene,
    name: &str,
    shelf: &mut S,
) -> Result<Reply, Memory>
    requires accepted { IsAccepted room.now }
    requires formed { IsWellFormed (numbers scene.now) }
    requires weights { HasWeightsOf room.now (numbers scene.now) }
    requires none_heavy { NoneHeavy scene.now.system.rows }
    ensures files { S.files shelf.new ≡ S.files shelf.old }
    ensures answered { (tables : List Table) → AreExactTables room.now tables → IsSceneOf tables room.now (numbers scene.now) →
        IfOk result (λ r. IsClaimAnswer (run (S.files shelf.old) (S.absences shelf.old) (S.absences shelf.new)
        (S.faults shelf.old) (S.faults shelf.new) (S.taken shelf.new)) tables room.now name.now r.status r.text.items) }
{
    match take_file(alloc, shelf, name, LONGEST_FILE) {
        Ok(bytes) => {
            let reply = reply_to_claim(alloc, room, scene, bytes.as_slice())?;
            Ok(reply)
        }
        Err(fault) => {
            let reply = reply_to_fault(alloc, name, fault)?;
            Ok(reply)
        }
    }
}

/// Whether the room shows the claim in the file of this name, or why the room isn't served. The files of its lamps are read first, each
/// once, in order, and the claim's file last.
pub fn reply_of_check<R: Threads + Sync, S: Shelf, G: Gate + Sync>(
    rt: &R,
    alloc: Global,
    room: &Room,
    name: &str,
    shelf: &mut S,
    gate: &G,
) -> Result<Reply, Memory>
    requires accepted { IsAccepted room.now }
    ensures files { S.files shelf.new ≡ S.files shelf.old }
    ensures answered { IfOk result (λ r. (before : Option (List ℕ)) → IfSome before (λ bytes. S.taken shelf.old ≡ length bytes) → IsCheckAnswer
        (run (S.files shelf.old) (S.absences shelf.old) (S.absences shelf.new)
        (S.faults shelf.old) (S.faults shelf.new) (S.taken shelf.new)) before room.now name.now r.status r.text.items) }
{
    match read_lamp_files(alloc, room.files.as_slice(), shelf) {
        Ok(photos) => match served_scene(rt, alloc, room, photos.as_slice(), gate) {
            Ok(scene) => {
                let reply = reply_to_claim_file(alloc, room, &scene, name, shelf)?;
                Ok(reply)
            }
            Err(Halt::Said(reply)) => Ok(reply),
            Err(Halt::Memory) => Err(Memory),
        },
        Err(Halt::Said(reply)) => Ok(reply),
        Err(Halt::Memory) => Err(Memory),
    }
}
