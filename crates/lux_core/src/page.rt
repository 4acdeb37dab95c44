//! The second top call: from the name of a room's file to the page of its report.
ghost use Rattle.std.specs.Prelude.{◌≡◌, ◌≢◌, ◌≤◌, ℕ, ◌⊎◌, IsTrue, length, List, map, string_bytes, false};
ghost use Rattle.lux_io.specs.Files.{with_bytes, AddsPrefix, Rose, Stood};
ghost use Rattle.lux_core.specs.PageAnswers.{ask_for_a_page, page_name, CanPage, IsPageAnswer, IsPageStatus};
ghost use Rattle.lux_core.specs.Runs.{run};

use crate::file::reply_to_file;
use crate::output::written;
use crate::status::Status;
use crate::words::{FileQuestion, LightQuestion, RoomQuestion, Spelling, is_file_name};
use fork_rows::Gate;
use lux_io::{Shelf, Sink};
use std::alloc::Global;
use std::thread::Threads;

/// The line that is written where the words don't name one file.
const PAGE_USAGE: &str = "usage: lux_page ROOM\n";

/// Whether the words are one, and it names a file.
fn ask_for_a_page(words: &[String]) -> bool
    ensures page { result ≡ ask_for_a_page (map string_bytes words.now) }
    ensures one { IsTrue result → length words.now ≡ 1 }
{
    words.len() == 1 && is_file_name(words[0].as_str())
}

/// The name of the room's file.
fn page_name(words: &[String]) -> &str
    requires { 1 ≤ length words.now }
    ensures { result.now ≡ page_name (map string_bytes words.now) }
{
    words[0].as_str()
}

/// Writes the page of a room: one HTML page with what `report ROOM` writes and with plans of the room. The one word names the room's
/// layout, which is read from the shelf with the photometric files of its lamps. `words` are those after the program's name.
///
/// The text is made whole before its first byte is written, and what it says is proved: see the definitions `IsPageAnswer` and
/// `IsRight`.
pub fn lux_page<R: Threads + Sync, S: Shelf, O: Sink, G: Gate + Sync>(
    rt: &R,
    alloc: Global,
    words: &[String],
    shelf: &mut S,
    out: &mut O,
    gate: &G,
) -> Status
    // The text that was written is the answer of this status, with its cause.
    ensures answered { result ≢ Status.WriteFault → result ≢ Status.Memory →
        (text : List ℕ) × (O.written out.new ≡ with_bytes (O.written out.old) text) × IsPageAnswer (map string_bytes words.now)
        (run (S.files shelf.old) (S.absences shelf.old) (S.absences shelf.new)
        (S.faults shelf.old) (S.faults shelf.new) (S.taken shelf.new)) result text }
    // Where the sink failed, a proper prefix was written of a text that would have been the answer.
    ensures cut_short { result ≡ Status.WriteFault →
        (text : List ℕ) × (status : Status) × AddsPrefix (O.written out.old) (O.written out.new) text × IsPageAnswer (map string_bytes words.now)
        (run (S.files shelf.old) (S.absences shelf.old) (S.absences shelf.new)
        (S.faults shelf.old) (S.faults shelf.new) (S.taken shelf.new)) status text }
    ensures write_fault { result ≡ Status.WriteFault → Rose (O.faults out.old) (O.faults out.new) }
    // Where a page can be given and nothing fails, only want of memory is answered in its place.
    ensures complete { CanPage (map string_bytes words.now) (S.files shelf.old) →
        Stood (S.faults shelf.old) (S.faults shelf.new) → Stood (O.faults out.old) (O.faults out.new) →
        IsPageStatus result ⊎ (result ≡ Status.Memory) }
    // The shelf holds what it held.
    ensures files { S.files shelf.new ≡ S.files shelf.old }
    // Words that don't name one file leave the shelf as it is.
    ensures untouched { ask_for_a_page (map string_bytes words.now) ≡ false → shelf.new ≡ shelf.old }
    // Without memory nothing is written, and words that don't name one file want none.
    ensures memory { result ≡ Status.Memory → O.written out.new ≡ O.written out.old }
    ensures usage_needs_none { ask_for_a_page (map string_bytes words.now) ≡ false → result ≢ Status.Memory }
{
    if !ask_for_a_page(words) {
        return written(out, Status::Usage, PAGE_USAGE.as_bytes());
    }
    let asked = FileQuestion::Room(RoomQuestion::Light(LightQuestion::Report(Spelling::Page)));
    let name = page_name(words);
    let Ok(reply) = reply_to_file(rt, alloc, asked, name, words, shelf, gate) else {
        return Status::Memory;
    };
    written(out, reply.status, reply.text.as_slice())
}
