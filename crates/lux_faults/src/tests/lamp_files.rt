//! Photometric files that are refused, each fault once in each command that takes one, and files that aren't there or are too long. The
//! refusals are read off the two grammars.
use super::cube::{CUBE_FILES, CUBE_ROOM, EVEN};
use super::{each_answers, is_served, joined, put, shelf_with};
use lux_core::Status;
use lux_io::MemShelf;
use std::alloc::Global;
use std::process::Abort;
use std::test::Fail;
use std::thread::Threads;

/// The commands that take a photometric file: two name it themselves, and for the others the room names it.
const TAKING: [&str; 9] = [
    "read NAME",
    "flux NAME 1 0",
    "report room.toml",
    "grid room.toml",
    "certify room.toml",
    "check room.toml claim.csv",
    "dim room.toml plan.csv 0",
    "escape room.toml 1000 1000 1000 1000 0 1000 0",
    "lux_page room.toml",
];

/// A shelf with the cube, whose lamp is of the file of this name.
fn shelf_naming(alloc: Global, name: &str) -> Result<MemShelf, Fail> {
    let (before, after) = CUBE_ROOM.split_once("even.ldt").ok_or("a name")?;
    let room = joined(alloc, &[before, name, after])?;
    shelf_with(alloc, &[], &CUBE_FILES, room.as_str())
}

/// Each of the commands over this shelf refuses the file of this name.
fn each_refuses(
    rt: &(impl Abort + Threads + Sync),
    alloc: Global,
    commands: &[&str],
    shelf: &mut MemShelf,
    name: &str,
    fault: &str,
) -> Result<(), Fail> {
    let line = joined(alloc, &["refused ", name, " ", fault, "\n"])?;
    let refused = Status::Refused;
    each_answers(rt, alloc, commands, name, shelf, refused, line.as_str())
}

/// With an even file in place of that of this name the cube is reported.
fn serves_again(
    rt: &(impl Abort + Threads + Sync),
    alloc: Global,
    shelf: &mut MemShelf,
    name: &str,
    even: &str,
) -> Result<(), Fail> {
    put(shelf, name, even.as_bytes())?;
    is_served(rt, alloc, shelf)
}

/// The first four and the last five lines of the even file.
const FIRST: &str = "-\n-\n1\n1\n";

const LAST: &str = "0\n0\n180\n100\n100\n";

/// First lines of a file, whose last ones are the symmetry and the number of half-planes; last lines, from the 43rd on, which are the
/// half-planes, the gammas and the intensities; and the refusal of the even file with these in place of its own.
const SPOILED_LINES: [(&str, &str, &str); 9] = [
    (FIRST, "0\n0\n180\n100\n", "1 Short 47"),
    (FIRST, "0\n0\n1e2\n100\n100\n", "2 Number 45"),
    (FIRST, "0\n0\n181\n100\n100\n", "3 Range 45"),
    (FIRST, "0\n0\n0\n100\n100\n", "5 Order 45"),
    (FIRST, "0\n0\n180\n100\n-1\n", "6 Negative 47"),
    ("-\n-\n4\n6\n", LAST, "7 Expand 1 PlaneCount"),
    (
        "-\n-\n2\n2\n",
        "0\n170\n0\n180\n1\n1\n1\n1\n",
        "7 Expand 2 PlaneAngle",
    ),
    // 9,999,999 by 2,000 lumens
    (FIRST, "0\n0\n180\n9999999\n100\n", "8 Intensity 46"),
    (FIRST, "0\n0\n180\n100\n100\nx\n", "9 Trailing 48"),
];

#[test]
fn each_fault_of_lines_comes_in_each_command(rt: HostRuntime) -> Result<(), Fail> {
    let alloc = rt.alloc();
    let name = "lamp.ldt";
    let mut shelf = shelf_naming(alloc, name)?;
    let rest = EVEN.strip_prefix(FIRST).ok_or("first lines")?;
    let middle = rest.strip_suffix(LAST).ok_or("last lines")?;
    for (first, last, fault) in SPOILED_LINES {
        let file = joined(alloc, &[first, middle, last])?;
        put(&mut shelf, name, file.as_bytes())?;
        each_refuses(&rt, alloc, &TAKING, &mut shelf, name, fault)?;
    }
    serves_again(&rt, alloc, &mut shelf, name, EVEN)
}

/// The file has one lamp set.
#[test]
fn a_lamp_set_that_is_not_there(rt: HostRuntime) -> Result<(), Fail> {
    let alloc = rt.alloc();
    let (before, after) = CUBE_ROOM.split_once("[task]").ok_or("a task")?;
    let room = joined(alloc, &[before, "set = 2\n[task]", after])?;
    let mut shelf = shelf_with(alloc, &[], &CUBE_FILES, room.as_str())?;
    let commands = [
        "read NAME 2",
        "flux NAME 20 0",
        "report room.toml",
        "grid room.toml",
        "certify room.toml",
        "check room.toml claim.csv",
        "dim room.toml plan.csv 0",
        "escape room.toml 1000 1000 1000 1000 0 1000 0",
        "lux_page room.toml",
    ];
    let fault = "4 NoLampSet";
    each_refuses(&rt, alloc, &commands, &mut shelf, "even.ldt", fault)?;
    serves_again(&rt, alloc, &mut shelf, "room.toml", CUBE_ROOM)
}

const NO_TILT: &str = "IESNA:LM-63-2002\nTILT=NONE\n";

/// An even luminaire of 200 cd.
const EVEN_ITEMS: &str = "1 -1 1 2 1 1 2 0 0 0\n1 1 0\n0 180\n0\n200 200\n";

/// The lines before the items, the items, and the refusal.
const SPOILED_ITEMS: [(&str, &str, &str); 11] = [
    ("IESNA:LM-63-1986\nTILT=NONE\n", EVEN_ITEMS, "1 Version"),
    ("IESNA:LM-63-2002\nTILT = NONE\n", EVEN_ITEMS, "2 NoTilt"),
    ("IESNA:LM-63-2002\nTILT=a.tlt\n", EVEN_ITEMS, "3 TiltFile"),
    (
        NO_TILT,
        "1 -1 1 2 1 1 2 0 0 0 1 1 0 0 180 0 200",
        "4 Short 18",
    ),
    (
        NO_TILT,
        "1 -1 1e3 2 1 1 2 0 0 0 1 1 0 0 180 0 200 200",
        "5 Number 3",
    ),
    (
        NO_TILT,
        "1 -1 1 1 1 1 2 0 0 0 1 1 0 0 180 0 200 200",
        "6 Range 4",
    ),
    (
        NO_TILT,
        "1 -1 1 2 1 2 2 0 0 0 1 1 0 0 180 0 200 200",
        "7 PhotometricType",
    ),
    (
        NO_TILT,
        "1 -1 1 2 1 1 2 0 0 0 1 1 0 0 180 5 200 200",
        "8 Angles 16",
    ),
    (
        NO_TILT,
        "1 -1 1 2 1 1 2 0 0 0 1 1 0 0 180 0 200 -1",
        "9 Negative 18",
    ),
    // 10,000 by 1,000.000001
    (
        NO_TILT,
        "1 -1 10000 2 1 1 2 0 0 0 1 1 0 0 180 0 1000 1000.000001",
        "10 Intensity 18",
    ),
    (
        NO_TILT,
        "1 -1 1 2 1 1 2 0 0 0 1 1 0 0 180 0 200 200 7",
        "11 Trailing 19",
    ),
];

#[test]
fn each_fault_of_items_comes_in_each_command(rt: HostRuntime) -> Result<(), Fail> {
    let alloc = rt.alloc();
    let name = "lamp.ies";
    let mut shelf = shelf_naming(alloc, name)?;
    for (lines, items, fault) in SPOILED_ITEMS {
        let file = joined(alloc, &[lines, items])?;
        put(&mut shelf, name, file.as_bytes())?;
        each_refuses(&rt, alloc, &TAKING, &mut shelf, name, fault)?;
    }
    let file = joined(alloc, &[NO_TILT, EVEN_ITEMS])?;
    serves_again(&rt, alloc, &mut shelf, name, file.as_str())
}

#[test]
fn a_file_that_is_not_there(rt: HostRuntime) -> Result<(), Fail> {
    let alloc = rt.alloc();
    let mut shelf = shelf_naming(alloc, "lamp.IES")?;
    each_refuses(&rt, alloc, &TAKING, &mut shelf, "lamp.IES", "Absent")?;
    let mut shelf = shelf_naming(alloc, "lamp.ldt")?;
    each_refuses(&rt, alloc, &TAKING, &mut shelf, "lamp.ldt", "Absent")?;
    serves_again(&rt, alloc, &mut shelf, "lamp.ldt", EVEN)
}

/// Each of the commands refuses a file of 16,777,217 bytes.
fn is_too_long(
    rt: &(impl Abort + Threads + Sync),
    alloc: Global,
    commands: &[&str],
) -> Result<(), Fail> {
    let name = "lamp.ldt";
    let mut shelf = shelf_naming(alloc, name)?;
    let long = vec![in alloc; b'-'; 16_777_217]?;
    put(&mut shelf, name, long.as_slice())?;
    each_refuses(rt, alloc, commands, &mut shelf, name, "TooLong")?;
    serves_again(rt, alloc, &mut shelf, name, EVEN)
}

#[test]
fn a_file_that_is_too_long_alone(rt: HostRuntime) -> Result<(), Fail> {
    let commands = ["read NAME", "flux NAME 1 0"];
    is_too_long(&rt, rt.alloc(), &commands)
}

#[test]
fn a_file_that_is_too_long_in_a_room(rt: HostRuntime) -> Result<(), Fail> {
    let commands = ["report room.toml", "grid room.toml", "certify room.toml"];
    is_too_long(&rt, rt.alloc(), &commands)
}

#[test]
fn a_file_that_is_too_long_beside_others(rt: HostRuntime) -> Result<(), Fail> {
    let commands = [
        "check room.toml claim.csv",
        "dim room.toml plan.csv 0",
        "escape room.toml 1000 1000 1000 1000 0 1000 0",
        "lux_page room.toml",
    ];
    is_too_long(&rt, rt.alloc(), &commands)
}
