//! The top call: from the words to the text.
ghost use Rattle.std.specs.Prelude.{◌≡◌, ◌≢◌, ◌≤◌, ℕ, ◌⊎◌, IfOk, length, List, map, string_bytes, None};
ghost use Rattle.lux_io.specs.Files.{with_bytes, AddsPrefix, Rose, Stood};
ghost use Rattle.lux_core.specs.Answers.{CanAnswer, IsAnswer, IsAnswerTo, IsFullStatus};
ghost use Rattle.lux_core.specs.Commands.{question_of};
ghost use Rattle.lux_core.specs.Questions.{IsInRange};
ghost use Rattle.lux_core.specs.Runs.{run};

use crate::file::reply_to_file;
use crate::output::written;
use crate::reply::Reply;
use crate::status::Status;
use crate::trial::reply_to_trial;
use crate::words::{Question, USAGE, file_name, question_of};
use fork_rows::Gate;
use fx_base::Memory;
use lux_io::{Shelf, Sink};
use std::alloc::Global;
use std::thread::Threads;

/// The answer to what the words ask, made whole before anything is written.
fn reply_to<R: Threads + Sync, S: Shelf, G: Gate + Sync>(
    rt: &R,
    alloc: Global,
    asked: Question,
    words: &[String],
    shelf: &mut S,
    gate: &G,
) -> Result<Reply, Memory>
    requires asked { IsInRange asked }
    requires two { 2 ≤ length words.now }
    ensures files { S.files shelf.new ≡ S.files shelf.old }
    ensures answered { IfOk result (λ r. IsAnswerTo asked (map string_bytes words.now)
        (run (S.files shelf.old) (S.absences shelf.old) (S.absences shelf.new)
        (S.faults shelf.old) (S.faults shelf.new) (S.taken shelf.new)) r.status r.text.items) }
{
    match asked {
        Question::File(asked) => {
            let name = file_name(words);
            let reply = reply_to_file(rt, alloc, asked, name, words, shelf, gate)?;
            Ok(reply)
        }
        Question::Trial(number) => {
            let reply = reply_to_trial(rt, alloc, number, shelf, gate)?;
            Ok(reply)
        }
    }
}

/// Runs a command. `report ROOM` reads a room layout and the photometric files of its lamps from the shelf and writes the illuminance
/// at its task points, the average and the uniformity, and whether each limit is met; `grid ROOM` writes the points as comma-separated
/// values. `certify ROOM` writes bounds of the light of its patches as a claim, and `check ROOM CLAIM` checks such a claim without
/// solving. `sight ROOM X Y Z X Y Z` writes whether a box of the room stands between two points, in mm, and which is the first;
/// `escape ROOM X Y X Y MILLILUX RATIO LAMP ..` writes the least and the greatest direct light of some lamps along a line on the floor,
/// and their ratio; `dim ROOM PLAN MILLILUX` writes the plans of least power that reach an average, by a plan of the groups of lamps.
/// `read FILE` and `read FILE SET` sum up a photometric file, and `flux FILE SET LUMENS` writes the flux of its light and whether that
/// reaches so many lumens; `trial N` sums up the report of a made room. `words` are those after the program's name.
///
/// The text is made whole before its first byte is written, and what it says is proved: see the definitions `IsAnswer` and
/// `IsRight`.
pub fn lux<R: Threads + Sync, S: Shelf, O: Sink, G: Gate + Sync>(
    rt: &R,
    alloc: Global,
    words: &[String],
    shelf: &mut S,
    out: &mut O,
    gate: &G,
) -> Status
    // The text that was written is the answer of this status, with its cause.
    ensures answered { result ≢ Status.WriteFault → result ≢ Status.Memory →
        (text : List ℕ) × (O.written out.new ≡ with_bytes (O.written out.old) text) × IsAnswer (map string_bytes words.now)
        (run (S.files shelf.old) (S.absences shelf.old) (S.absences shelf.new)
        (S.faults shelf.old) (S.faults shelf.new) (S.taken shelf.new)) result text }
    // Where the sink failed, a proper prefix was written of a text that would have been the answer.
    ensures cut_short { result ≡ Status.WriteFault →
        (text : List ℕ) × (status : Status) × AddsPrefix (O.written out.old) (O.written out.new) text × IsAnswer (map string_bytes words.now)
        (run (S.files shelf.old) (S.absences shelf.old) (S.absences shelf.new)
        (S.faults shelf.old) (S.faults shelf.new) (S.taken shelf.new)) status text }
    ensures write_fault { result ≡ Status.WriteFault → Rose (O.faults out.old) (O.faults out.new) }
    // Where an answer can be given and nothing fails, only want of memory is answered in its place.
    ensures complete { (can : CanAnswer (map string_bytes words.now) (S.files shelf.old)) →
        Stood (S.faults shelf.old) (S.faults shelf.new) → Stood (O.faults out.old) (O.faults out.new) →
        IsFullStatus can.asked result ⊎ (result ≡ Status.Memory) }
    // The shelf holds what it held.
    ensures files { S.files shelf.new ≡ S.files shelf.old }
    // Words that are no command leave the shelf as it is.
    ensures untouched { question_of (map string_bytes words.now) ≡ None → shelf.new ≡ shelf.old }
    // Without memory nothing is written, and words that are no command want none.
    ensures memory { result ≡ Status.Memory → O.written out.new ≡ O.written out.old }
    ensures usage_needs_none { question_of (map string_bytes words.now) ≡ None → result ≢ Status.Memory }
{
    let Some(asked) = question_of(words) else {
        return written(out, Status::Usage, USAGE.as_bytes());
    };
    let Ok(reply) = reply_to(rt, alloc, asked, words, shelf, gate) else {
        return Status::Memory;
    };
    written(out, reply.status, reply.text.as_slice())
}
