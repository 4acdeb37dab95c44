//! Claims and plans that are refused, by records and bytes that can't stand. The cube has six patches and one lamp.
use super::cube::{CUBE_FILES, CUBE_ROOM, PLAN, PLAN_TEXT, WIDE_CLAIM};
use super::{answers, put, shelf_with};
use lux_core::Status;
use lux_io::MemShelf;
use std::alloc::{AllocError, Global};
use std::process::Abort;
use std::test::Fail;
use std::thread::Threads;

/// The bytes with 0xFF in place of the `#` in them.
fn spoiled(alloc: Global, bytes: &[u8]) -> Result<Vec<u8>, AllocError> {
    let mut other = Vec::new(alloc);
    for byte in bytes {
        other.push(if *byte == b'#' { 0xFF } else { *byte })?;
    }
    Ok(other)
}

/// A command over a second file with these bytes, in which `#` stands for a byte 0xFF, is refused with this line.
fn is_refused(
    rt: &(impl Abort + Threads + Sync),
    alloc: Global,
    words: &str,
    shelf: &mut MemShelf,
    bytes: &str,
    line: &str,
) -> Result<(), Fail> {
    let spoiled = spoiled(alloc, bytes.as_bytes())?;
    put(shelf, "second.csv", spoiled.as_slice())?;
    answers(rt, alloc, words, shelf, Status::Refused, line)
}

/// Each claim, and how it is refused.
const SPOILED_CLAIMS: [(&str, &str); 9] = [
    // four fields
    (
        "patch,lower,upper\n0,0,0\n1,0,0,0\n2,0,0\n3,0,0\n4,0,0\n5,0,0\n",
        "refused claim 1 Record 2\n",
    ),
    // bytes that are no text
    (
        "patch,lower,upper\n0,0,0\n1,#,0\n2,0,0\n3,0,0\n4,0,0\n5,0,0\n",
        "refused claim 1 Record 2\n",
    ),
    (
        "patch,lower,upper\n0,0,0\n1,0,7#\n2,0,0\n3,0,0\n4,0,0\n5,0,0\n",
        "refused claim 1 Record 2\n",
    ),
    // two fields, and an empty one
    (
        "patch,lower,upper\n0,0,0\n1,0\n2,0,0\n3,0,0\n4,0,0\n5,0,0\n",
        "refused claim 1 Record 2\n",
    ),
    (
        "patch,lower,upper\n0,0,0\n1,,0\n2,0,0\n3,0,0\n4,0,0\n5,0,0\n",
        "refused claim 1 Record 2\n",
    ),
    // seven records, five, and none
    (
        "patch,lower,upper\n0,0,0\n1,0,0\n2,0,0\n3,0,0\n4,0,0\n5,0,0\n6,0,0\n",
        "refused claim 2 Count\n",
    ),
    (
        "patch,lower,upper\n0,0,0\n1,0,0\n2,0,0\n3,0,0\n4,0,0\n",
        "refused claim 2 Count\n",
    ),
    ("", "refused claim 2 Count\n"),
    // the same patch twice
    (
        "patch,lower,upper\n0,0,0\n0,0,0\n2,0,0\n3,0,0\n4,0,0\n5,0,0\n",
        "refused claim 3 Order 2\n",
    ),
];

#[test]
fn a_spoiled_claim_is_refused(rt: HostRuntime) -> Result<(), Fail> {
    let alloc = rt.alloc();
    let words = "check room.toml second.csv";
    let mut shelf = shelf_with(alloc, &[], &CUBE_FILES, CUBE_ROOM)?;
    for (bytes, line) in SPOILED_CLAIMS {
        is_refused(&rt, alloc, words, &mut shelf, bytes, line)?;
    }
    put(&mut shelf, "second.csv", WIDE_CLAIM.as_bytes())?;
    answers(&rt, alloc, words, &mut shelf, Status::Done, "shown 6\n")
}

/// Each plan, and how it is refused.
const SPOILED_PLANS: [(&str, &str); 8] = [
    // four fields, and bytes that are no text
    ("lamp,group,watts\n0,2,30,0\n", "refused plan 1 Record 1\n"),
    ("lamp,group,watts\n0,2,3#\n", "refused plan 1 Record 1\n"),
    ("lamp,group,watts\n#,2,30\n", "refused plan 1 Record 1\n"),
    // a seventh group, and more than 10,000 watts
    ("lamp,group,watts\n0,6,30\n", "refused plan 1 Record 1\n"),
    ("lamp,group,watts\n0,2,10001\n", "refused plan 1 Record 1\n"),
    // two records, and none
    (
        "lamp,group,watts\n0,2,30\n1,2,30\n",
        "refused plan 2 Count\n",
    ),
    ("", "refused plan 2 Count\n"),
    ("lamp,group,watts\n1,2,30\n", "refused plan 3 Order 1\n"),
];

#[test]
fn a_spoiled_plan_is_refused(rt: HostRuntime) -> Result<(), Fail> {
    let alloc = rt.alloc();
    let words = "dim room.toml second.csv 200000";
    let mut shelf = shelf_with(alloc, &[], &CUBE_FILES, CUBE_ROOM)?;
    for (bytes, line) in SPOILED_PLANS {
        is_refused(&rt, alloc, words, &mut shelf, bytes, line)?;
    }
    put(&mut shelf, "second.csv", PLAN.as_bytes())?;
    answers(&rt, alloc, words, &mut shelf, Status::Done, PLAN_TEXT)
}
