//! The answer to what is asked of a file: the file is taken from the shelf, and its bytes answer.
ghost use Rattle.std.specs.Prelude.{◌≡◌, ◌≤◌, length, map, string_bytes, IfOk};
ghost use Rattle.lux_core.specs.Answers.{IsBytesAnswer, IsFileAnswer};
ghost use Rattle.lux_core.specs.Questions.{IsFileQuestion};
ghost use Rattle.lux_core.specs.Runs.{run};

use crate::photometry::reply_to_photometry;
use crate::reply::Reply;
use crate::room::reply_to_room;
use crate::untaken::{LONGEST_FILE, reply_to_fault};
use crate::words::FileQuestion;
use fork_rows::Gate;
use fx_base::Memory;
use lux_io::{Shelf, take_file};
use std::alloc::Global;
use std::thread::Threads;

/// The answer to the bytes of a file.
fn reply_to_bytes<R: Threads + Sync, S: Shelf, G: Gate + Sync>(
    rt: &R,
    alloc: Global,
    asked: FileQuestion,
    name: &str,
    words: &[String],
    bytes: &[u8],
    shelf: &mut S,
    gate: &G,
) -> Result<Reply, Memory>
    requires asked { IsFileQuestion asked }
    requires few { length bytes.now ≤ 16777216 }
    requires taken { S.taken shelf.old ≡ length bytes.now }
    ensures files { S.files shelf.new ≡ S.files shelf.old }
    ensures answered { IfOk result (λ r. IsBytesAnswer asked
        (run (S.files shelf.old) (S.absences shelf.old) (S.absences shelf.new)
        (S.faults shelf.old) (S.faults shelf.new) (S.taken shelf.new)) name.now (map string_bytes words.now) bytes.now r.status r.text.items) }
{
    match asked {
        FileQuestion::Room(asked) => {
            let reply = reply_to_room(rt, alloc, asked, name, bytes, words, shelf, gate)?;
            Ok(reply)
        }
        FileQuestion::Photometry(format, asked) => {
            let reply = reply_to_photometry(alloc, format, asked, name, bytes)?;
            Ok(reply)
        }
    }
}

/// The answer to what is asked of the file of this name, made whole before anything is written. `words` are those of the command.
pub fn reply_to_file<R: Threads + Sync, S: Shelf, G: Gate + Sync>(
    rt: &R,
    alloc: Global,
    asked: FileQuestion,
    name: &str,
    words: &[String],
    shelf: &mut S,
    gate: &G,
) -> Result<Reply, Memory>
    requires { IsFileQuestion asked }
    ensures files { S.files shelf.new ≡ S.files shelf.old }
    ensures answered { IfOk result (λ r. IsFileAnswer asked
        (run (S.files shelf.old) (S.absences shelf.old) (S.absences shelf.new)
        (S.faults shelf.old) (S.faults shelf.new) (S.taken shelf.new)) name.now (map string_bytes words.now) r.status r.text.items) }
{
    match take_file(alloc, shelf, name, LONGEST_FILE) {
        Ok(bytes) => {
            let read = bytes.as_slice();
            let reply = reply_to_bytes(rt, alloc, asked, name, words, read, shelf, gate)?;
            Ok(reply)
        }
        Err(fault) => {
            let reply = reply_to_fault(alloc, name, fault)?;
            Ok(reply)
        }
    }
}
