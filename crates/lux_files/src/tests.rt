//! Whole runs over the files and the output that stand in for the real ones.
mod aims;
mod claims;
mod escapes;
mod faults;
mod fluxes;
mod lamp_files;
mod lamps;
mod luminaires;
mod office;
mod pages;
mod plans;
mod reads;
mod rooms;
mod untold;

use fork_rows::OpenGate;
use lux_core::{Status, lux};
use lux_io::{MemShelf, MemSink, Shelf};
use std::alloc::Global;
use std::process::Abort;
use std::test::Fail;
use std::thread::Threads;

/// How the files and the output behave: which reads fail, and how many bytes the output takes.
#[derive(Clone, Copy)]
struct World<'a> {
    failing: &'a [u64],
    capacity: usize,
}

/// Nothing fails, and there is room for every text.
const CALM: World<'static> = World {
    failing: &[],
    capacity: 2000,
};

/// A run of the words over a shelf with one room file, `room.toml`: it ends with this status and has written this text.
fn run(
    rt: &(impl Abort + Threads + Sync),
    alloc: Global,
    words: &[&str],
    room: &str,
    world: &World<'_>,
    status: Status,
    text: &str,
) -> Result<(), Fail> {
    let mut shelf = shelf_of(alloc, room, world.failing)?;
    run_over(
        rt,
        alloc,
        words,
        &mut shelf,
        world.capacity,
        status,
        text.as_bytes(),
    )
}

/// A shelf with one room file, `room.toml`, whose calls with these numbers fail.
fn shelf_of(alloc: Global, room: &str, failing: &[u64]) -> Result<MemShelf, Fail> {
    let mut shelf = MemShelf::new(alloc, failing).ok().ok_or("memory")?;
    shelf
        .add("room.toml", room.as_bytes())
        .ok()
        .ok_or("memory")?;
    Ok(shelf)
}

/// A run of the words over a shelf, with an output that takes so many bytes: it ends with this status and has written these.
fn run_over<S: Shelf>(
    rt: &(impl Abort + Threads + Sync),
    alloc: Global,
    words: &[&str],
    shelf: &mut S,
    capacity: usize,
    status: Status,
    written: &[u8],
) -> Result<(), Fail> {
    let mut given = Vec::new(alloc);
    for word in words {
        given.push(String::from_str(alloc, word)?)?;
    }
    let mut out = MemSink::new(alloc, capacity, &[]).ok().ok_or("memory")?;
    let answer = lux(rt, alloc, given.as_slice(), shelf, &mut out, &OpenGate);
    assert!(rt;
        answer == status,
        "{answer:?} with room for {capacity} bytes"
    );
    assert!(rt;
        out.bytes() == written,
        "the text with room for {capacity} bytes"
    );
    Ok(())
}
