//! Reports of rooms over a shelf with photometric files: the run of one, how its text is compared, and the pieces of a room file. Where
//! bars stand between numbers, each of them is an admissible printed end.
use super::shelf_of;
use fork_rows::OpenGate;
use lux_core::{Status, lux};
use lux_io::{MemShelf, MemSink, Shelf};
use std::alloc::Global;
use std::process::Abort;
use std::test::Fail;
use std::thread::Threads;

/// Whether one of the texts between bars is this.
fn is_one_of(word: &str, wanted: &str) -> bool {
    for one in wanted.split('|') {
        if word == one {
            return true;
        }
    }
    false
}

/// Whether each word of a line is one of those that stand at its place.
fn line_is_among(line: &str, wanted: &str) -> bool {
    let mut words = wanted.split(' ');
    for word in line.split(' ') {
        match words.next() {
            Some(wanted) => {
                if !is_one_of(word, wanted) {
                    return false;
                }
            }
            None => return false,
        }
    }
    words.next().is_none()
}

/// Whether each word of a text is one of those that stand at its place.
pub fn is_among(text: &str, wanted: &str) -> bool {
    let mut lines = wanted.split('\n');
    for line in text.split('\n') {
        match lines.next() {
            Some(wanted) => {
                if !line_is_among(line, wanted) {
                    return false;
                }
            }
            None => return false,
        }
    }
    lines.next().is_none()
}

/// A shelf with the room `room.toml` and these files besides, whose calls with these numbers fail.
pub fn shelf_with(
    alloc: Global,
    room: &str,
    files: &[(&str, &str)],
    failing: &[u64],
) -> Result<MemShelf, Fail> {
    let mut shelf = shelf_of(alloc, room, failing)?;
    for (name, file) in files {
        shelf.add(name, file.as_bytes()).ok().ok_or("memory")?;
    }
    Ok(shelf)
}

/// A report of the room `room.toml` over this shelf: it ends with this status and has written a text of these words.
pub fn report_over<S: Shelf>(
    rt: &(impl Abort + Threads + Sync),
    alloc: Global,
    shelf: &mut S,
    status: Status,
    text: &str,
) -> Result<(), Fail> {
    let mut words = Vec::new(alloc);
    for word in ["report", "room.toml"] {
        words.push(String::from_str(alloc, word)?)?;
    }
    let mut out = MemSink::new(alloc, 4000, &[]).ok().ok_or("memory")?;
    let answer = lux(rt, alloc, words.as_slice(), shelf, &mut out, &OpenGate);
    let written = str::from_utf8(out.bytes()).ok().ok_or("text")?;
    assert!(rt; answer == status, "{answer:?}: {written}");
    assert!(rt; is_among(written, text), "{written}");
    Ok(())
}

/// The same over a shelf with the room and these files, whose calls with these numbers fail.
pub fn report(
    rt: &(impl Abort + Threads + Sync),
    alloc: Global,
    room: &str,
    files: &[(&str, &str)],
    failing: &[u64],
    status: Status,
    text: &str,
) -> Result<(), Fail> {
    let mut shelf = shelf_with(alloc, room, files, failing)?;
    report_over(rt, alloc, &mut shelf, status, text)
}

/// A cube of 2 m, of six patches.
pub const CUBE: &str = "version = 1\n[room]\nsize = [2000, 2000, 2000]\npatch = 2000\n";

pub const GREY: &str = "reflect = [500, 500, 500, 500, 500, 500]\n";

/// A lamp in the middle of the cube; what it shines follows.
pub const MIDDLE: &str = "[[lamp]]\nat = [1000, 1000, 1000]\n";

pub const FLOOR: &str = "[task]\nfrom = [0, 0]\nto = [2000, 2000]\nheight = 0\npoints = [1, 1]\n";

pub const EVEN_LAMP: &str = "file = \"even.ldt\"\n";

/// 200 lux of direct light at each patch: 200 / (1 - (1 / (pi + 1) + 4 / (pi + 2)) / 2) = 407.9227..
pub const CUBE_TEXT: &str =
    "point 0 0 407.92 407.93\naverage 407.92 407.93\nuniformity 0.999 1.000\n";

/// 400 lux of direct light alone.
pub const TWICE_TEXT: &str =
    "point 0 0 399.99|400.00 400.00|400.01\naverage 399.99|400.00 400.00|400.01\nuniformity 0.999|1.000 1.000\n";

pub const DARK_TEXT: &str = "point 0 0 0.00 0.00|0.01\naverage 0.00 0.00|0.01\nuniformity none\n";
