//! What stands in the way of each command: each call to its files and to its output fails once, and each of its refusals comes once. After
//! each fault the command is run again over the same files, and answers as if there had been none.
mod claims;
mod cube;
mod cut_files;
mod failing_calls;
mod full_outputs;
mod lamp_files;
mod plain_words;
mod rooms;

use cube::CUBE_TEXT;
use fork_rows::OpenGate;
use lux_core::{Status, lux, lux_page};
use lux_io::{MemShelf, MemSink};
use std::alloc::{AllocError, Global};
use std::process::Abort;
use std::test::Fail;
use std::thread::Threads;

/// More bytes than any text has.
const ROOMY: usize = 1_000_000;

/// The pieces, one after another.
fn joined(alloc: Global, pieces: &[&str]) -> Result<String, AllocError> {
    let mut text = String::new(alloc);
    for piece in pieces {
        text.push_str(piece)?;
    }
    Ok(text)
}

/// The words with this name in place of `NAME`.
fn naming(alloc: Global, words: &str, name: &str) -> Result<String, AllocError> {
    match words.split_once("NAME") {
        Some((before, after)) => joined(alloc, &[before, name, after]),
        None => String::from_str(alloc, words),
    }
}

/// Puts a file on the shelf.
fn put(shelf: &mut MemShelf, name: &str, bytes: &[u8]) -> Result<(), Fail> {
    shelf.add(name, bytes).ok().ok_or("memory")?;
    Ok(())
}

/// A shelf whose calls with these numbers fail, with these files and the room `room.toml`.
fn shelf_with(
    alloc: Global,
    failing: &[u64],
    files: &[(&str, &str)],
    room: &str,
) -> Result<MemShelf, Fail> {
    let mut shelf = MemShelf::new(alloc, failing).ok().ok_or("memory")?;
    for (name, file) in files {
        put(&mut shelf, name, file.as_bytes())?;
    }
    put(&mut shelf, "room.toml", room.as_bytes())?;
    Ok(shelf)
}

/// The words, parted at spaces.
fn words_of(alloc: Global, words: &str) -> Result<Vec<String>, Fail> {
    let mut given = Vec::new(alloc);
    for word in words.split(' ') {
        given.push(String::from_str(alloc, word)?)?;
    }
    Ok(given)
}

/// How a run of these words over a shelf ends. The words of the page's program stand after its name, those of the planner alone.
fn status_of(
    rt: &(impl Abort + Threads + Sync),
    alloc: Global,
    words: &str,
    shelf: &mut MemShelf,
    out: &mut MemSink,
) -> Result<Status, Fail> {
    match words.strip_prefix("lux_page ") {
        Some(words) => {
            let given = words_of(alloc, words)?;
            Ok(lux_page(rt, alloc, given.as_slice(), shelf, out, &OpenGate))
        }
        None => {
            let given = words_of(alloc, words)?;
            Ok(lux(rt, alloc, given.as_slice(), shelf, out, &OpenGate))
        }
    }
}

/// What a run of these words over a shelf writes; it ends with this status.
fn text_of(
    rt: &(impl Abort + Threads + Sync),
    alloc: Global,
    words: &str,
    shelf: &mut MemShelf,
    status: Status,
) -> Result<String, Fail> {
    let mut out = MemSink::new(alloc, ROOMY, &[]).ok().ok_or("memory")?;
    let answer = status_of(rt, alloc, words, shelf, &mut out)?;
    let written = str::from_utf8(out.bytes()).ok().ok_or("text")?;
    assert!(rt; answer == status, "{words}: {answer:?} {written}");
    Ok(String::from_str(alloc, written)?)
}

/// A run of these words over a shelf ends with this status and has written this text.
fn answers(
    rt: &(impl Abort + Threads + Sync),
    alloc: Global,
    words: &str,
    shelf: &mut MemShelf,
    status: Status,
    text: &str,
) -> Result<(), Fail> {
    let written = text_of(rt, alloc, words, shelf, status)?;
    assert!(rt; written.as_str() == text, "{words}: {written}");
    Ok(())
}

/// Each of the commands, with this name in place of `NAME`, ends with this status and has written this text.
fn each_answers(
    rt: &(impl Abort + Threads + Sync),
    alloc: Global,
    commands: &[&str],
    name: &str,
    shelf: &mut MemShelf,
    status: Status,
    text: &str,
) -> Result<(), Fail> {
    for command in commands {
        let words = naming(alloc, command, name)?;
        answers(rt, alloc, words.as_str(), shelf, status, text)?;
    }
    Ok(())
}

/// Over this shelf, whose room is the cube, the cube is reported.
fn is_served(
    rt: &(impl Abort + Threads + Sync),
    alloc: Global,
    shelf: &mut MemShelf,
) -> Result<(), Fail> {
    let words = "report room.toml";
    answers(rt, alloc, words, shelf, Status::Done, CUBE_TEXT)
}
