//! A program's run: the words of the command line, the files of the current folder and standard output in, and the exit status.
use crate::{Status, lux, lux_page};
use fork_rows::OpenGate;
use lux_io::{FolderShelf, OutSink};
use std::alloc::{AllocError, AllocGlobal};
use std::env::{self, Env};
use std::fs::Files;
use std::io::{ErrorKind, Print};
use std::thread::Threads;

/// The words after the program's name. Where one of them isn't UTF-8 there is none: both ways the words are no command.
fn words_of(rt: &(impl Env + AllocGlobal)) -> Result<Vec<String>, AllocError> {
    let mut words = Vec::new(rt.alloc());
    let given = match env::args(rt) {
        Ok(given) => given,
        Err(fault) => {
            if fault.kind() == ErrorKind::OutOfMemory {
                return Err(AllocError);
            }
            return Ok(words);
        }
    };
    for word in given.skip(1) {
        words.push(word)?;
    }
    Ok(words)
}

/// Runs [`lux`] over the words of the command line, the files of the current folder and standard output.
pub fn run(rt: &(impl Env + AllocGlobal + Files + Print + Threads + Sync)) -> Status {
    let Ok(words) = words_of(rt) else {
        return Status::Memory;
    };
    let mut shelf = FolderShelf::new(rt);
    let mut out = OutSink::new(rt);
    lux(rt, rt.alloc(), &words, &mut shelf, &mut out, &OpenGate)
}

/// Runs [`lux_page`] over the words of the command line, the files of the current folder and standard output.
pub fn run_page(rt: &(impl Env + AllocGlobal + Files + Print + Threads + Sync)) -> Status {
    let Ok(words) = words_of(rt) else {
        return Status::Memory;
    };
    let mut shelf = FolderShelf::new(rt);
    let mut out = OutSink::new(rt);
    lux_page(rt, rt.alloc(), &words, &mut shelf, &mut out, &OpenGate)
}
