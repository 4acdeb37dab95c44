//! What is asked of a room: its light, whether it shows a claim, its plans of least power, the light along a route, or whether two of its points see each other.
ghost use Rattle.std.specs.Prelude.{◌≡◌, ◌++◌, codes, IfOk, length, List, map, string_bytes, ℕ};
ghost use Rattle.decimal_text.specs.Lines.{line};
ghost use Rattle.room_layout.specs.Accepted.{IsAccepted};
ghost use Rattle.room_layout.specs.FaultText.{fault_text};
ghost use Rattle.room_layout.specs.Place.{place_of};
ghost use Rattle.sight_line.specs.Reach.{IsInReach};
ghost use Rattle.lux_core.specs.Questions.{IsWithinReach};
ghost use Rattle.lux_core.specs.RoomAnswers.{IsRoomAnswer, IsSaidOf, IsSightAnswer};
ghost use Rattle.lux_core.specs.Runs.{run};

use crate::claim::reply_of_check;
use crate::dim::reply_of_dim;
use crate::escape::reply_of_escape;
use crate::light::reply_of_light;
use crate::reply::Reply;
use crate::status::Status;
use crate::words::{RoomQuestion, marked_lamps, second_name};
use fork_rows::Gate;
use fx_base::Memory;
use lux_io::Shelf;
use room_layout::{Point, Room, RoomFault, read_room};
use sight_line::blocked_by;
use std::alloc::Global;
use std::thread::Threads;

/// The line of a layout that is refused.
pub fn refused_layout(alloc: Global, fault: RoomFault) -> Result<Reply, Memory>
    ensures status { IfOk result (λ r. r.status ≡ Status.Refused) }
    ensures text { IfOk result (λ r. r.text.items ≡ line (codes "refused room " ++ fault_text fault)) }
{
    let said = fault.text(alloc)?;
    let text = format!(in alloc; "refused room {said}\n")?;
    Ok(Reply::refused(text))
}

/// Whether two points of a room see each other: the first box between them, if there is one.
fn reply_of_sight(alloc: Global, room: &Room, from: Point, to: Point) -> Result<Reply, Memory>
    requires from { IsInReach from }
    requires to { IsInReach to }
    ensures { IfOk result (λ r. IsSightAnswer (place_of from) (place_of to) room.now r.status r.text.items) }
{
    let text = match blocked_by(room.blocks.as_slice(), from, to) {
        None => String::from_str(alloc, "clear\n")?,
        Some(index) => format!(in alloc; "blocked {index}\n")?,
    };
    Ok(Reply::new(Status::Done, text))
}

/// The answer to a question on an accepted room, whose file was the last one taken from the shelf.
fn reply_of_room<R: Threads + Sync, S: Shelf, G: Gate + Sync>(
    rt: &R,
    alloc: Global,
    asked: RoomQuestion,
    name: &str,
    room: &Room,
    words: &[String],
    shelf: &mut S,
    gate: &G,
) -> Result<Reply, Memory>
    requires asked { IsWithinReach asked }
    requires accepted { IsAccepted room.now }
    ensures files { S.files shelf.new ≡ S.files shelf.old }
    ensures answered { IfOk result (λ r. (bytes : List ℕ) → S.taken shelf.old ≡ length bytes → IsSaidOf asked
        (run (S.files shelf.old) (S.absences shelf.old) (S.absences shelf.new)
        (S.faults shelf.old) (S.faults shelf.new) (S.taken shelf.new)) name.now bytes (map string_bytes words.now) room.now r.status r.text.items) }
{
    match asked {
        RoomQuestion::Light(asked) => {
            let reply = reply_of_light(rt, alloc, asked, name, room, shelf, gate)?;
            Ok(reply)
        }
        RoomQuestion::Check => {
            let reply = reply_of_check(rt, alloc, room, second_name(words), shelf, gate)?;
            Ok(reply)
        }
        RoomQuestion::Dim(least) => {
            let name = second_name(words);
            let reply = reply_of_dim(rt, alloc, room, name, least, shelf, gate)?;
            Ok(reply)
        }
        RoomQuestion::Escape(route, limits) => {
            let marked = marked_lamps(alloc, words)?;
            let lamps = marked.as_slice();
            let reply = reply_of_escape(alloc, room, &route, &limits, lamps, shelf)?;
            Ok(reply)
        }
        RoomQuestion::Sight(from, to) => {
            let reply = reply_of_sight(alloc, room, from, to)?;
            Ok(reply)
        }
    }
}

/// The answer to the bytes of a room file of this name, which were the last ones taken from the shelf. `words` are those of the command.
pub fn reply_to_room<R: Threads + Sync, S: Shelf, G: Gate + Sync>(
    rt: &R,
    alloc: Global,
    asked: RoomQuestion,
    name: &str,
    bytes: &[u8],
    words: &[String],
    shelf: &mut S,
    gate: &G,
) -> Result<Reply, Memory>
    requires asked { IsWithinReach asked }
    requires taken { S.taken shelf.old ≡ length bytes.now }
    ensures files { S.files shelf.new ≡ S.files shelf.old }
    ensures answered { IfOk result (λ r. IsRoomAnswer asked
        (run (S.files shelf.old) (S.absences shelf.old) (S.absences shelf.new)
        (S.faults shelf.old) (S.faults shelf.new) (S.taken shelf.new)) name.now bytes.now (map string_bytes words.now) r.status r.text.items) }
{
    match read_room(alloc, bytes) {
        Ok(room) => {
            let reply = reply_of_room(rt, alloc, asked, name, &room, words, shelf, gate)?;
            Ok(reply)
        }
        Err(RoomFault::Memory) => Err(Memory),
        Err(fault) => {
            let reply = refused_layout(alloc, fault)?;
            Ok(reply)
        }
    }
}
