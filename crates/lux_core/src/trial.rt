//! The summary of a made room of stated size.
ghost use Rattle.std.specs.Prelude.{◌≡◌, IfOk};
ghost use Rattle.lux_core.specs.Questions.{IsRoomNumber};
ghost use Rattle.lux_core.specs.Runs.{run};
ghost use Rattle.lux_core.specs.Trials.{IsTrialAnswer};

use crate::light::reply_of_light;
use crate::reply::Reply;
use crate::room::refused_layout;
use crate::words::{LightQuestion, Spelling};
use fork_rows::Gate;
use fx_base::Memory;
use lux_io::Shelf;
use room_layout::{RoomFault, read_room};
use room_make::make_room;
use std::alloc::Global;
use std::thread::Threads;

/// The summary of the room that a number makes, read from its layout as any other room is.
pub fn reply_to_trial<R: Threads + Sync, S: Shelf, G: Gate + Sync>(
    rt: &R,
    alloc: Global,
    number: u32,
    shelf: &mut S,
    gate: &G,
) -> Result<Reply, Memory>
    requires number { IsRoomNumber number }
    ensures files { S.files shelf.new ≡ S.files shelf.old }
    ensures answered { IfOk result (λ r. IsTrialAnswer number
        (run (S.files shelf.old) (S.absences shelf.old) (S.absences shelf.new)
        (S.faults shelf.old) (S.faults shelf.new) (S.taken shelf.new)) r.status r.text.items) }
{
    let bytes = make_room(alloc, number)?;
    match read_room(alloc, bytes.as_slice()) {
        Ok(room) => {
            let asked = LightQuestion::Report(Spelling::Summary(number));
            let reply = reply_of_light(rt, alloc, asked, "", &room, shelf, gate)?;
            Ok(reply)
        }
        Err(RoomFault::Memory) => Err(Memory),
        Err(fault) => {
            let reply = refused_layout(alloc, fault)?;
            Ok(reply)
        }
    }
}
