//! Rooms that are refused, each fault once in each command that takes a room, and rooms, claims and plans that aren't there or are too
//! long. A sound room serves over the same shelf afterwards.
use super::cube::{CUBE_FILES, CUBE_ROOM};
use super::{answers, each_answers, is_served, put, shelf_with};
use lux_core::Status;
use lux_io::MemShelf;
use std::alloc::Global;
use std::process::Abort;
use std::test::Fail;
use std::thread::Threads;

/// The commands that reckon the light of a whole room.
const RECKONING: [&str; 6] = [
    "report NAME",
    "grid NAME",
    "certify NAME",
    "check NAME claim.csv",
    "dim NAME plan.csv 0",
    "lux_page NAME",
];

/// The others that take a room.
const LOOKING: [&str; 2] = [
    "sight NAME 0 0 0 1 1 1",
    "escape NAME 1000 1000 1000 1000 0 1000 0",
];

/// Over this shelf the cube is reported, once it is there.
fn serves_again(
    rt: &(impl Abort + Threads + Sync),
    alloc: Global,
    shelf: &mut MemShelf,
) -> Result<(), Fail> {
    put(shelf, "room.toml", CUBE_ROOM.as_bytes())?;
    is_served(rt, alloc, shelf)
}

/// Each fault of a layout.
const REFUSED: [(&str, &str); 10] = [
    ("version = \n", "refused room 1 NotToml\n"),
    ("", "refused room 2 Version\n"),
    ("version = 3\n", "refused room 2 Version\n"),
    ("version = 1\n", "refused room 3 Missing room\n"),
    (
        "version = 1\nlamps = 1\n",
        "refused room 4 Unknown version\n",
    ),
    ("version = 1\nroom = 1\n", "refused room 5 Kind room\n"),
    (
        "version = 1\n[room]\nsize = [499, 3000, 3000]\n",
        "refused room 6 Range room.size\n",
    ),
    (
        "version = 1\n[room]\nsize = [3000, 3000, 3000]\n[[box]]\nlo = [0, 0, 0]\nhi = [1, 1, 3001]\n",
        "refused room 7 Outside box 0\n",
    ),
    (
        "version = 1\n[room]\nsize = [3000, 3000, 3000]\n[task]\nfrom = [0, 0]\nto = [3000, 3001]\nheight = 0\npoints = [1, 1]\n",
        "refused room 7 Outside task\n",
    ),
    (
        "version = 1\n[room]\nsize = [3000, 3000, 3000]\n[task]\nfrom = [0, 0]\nto = [3000, 3000]\nheight = 0\npoints = [33, 32]\n",
        "refused room 8 TooMany task.points\n",
    ),
];

#[test]
fn each_fault_of_a_layout_comes_in_each_command(rt: HostRuntime) -> Result<(), Fail> {
    let alloc = rt.alloc();
    let (name, refused) = ("room.toml", Status::Refused);
    let mut shelf = shelf_with(alloc, &[], &CUBE_FILES, CUBE_ROOM)?;
    for (room, line) in REFUSED {
        put(&mut shelf, name, room.as_bytes())?;
        each_answers(&rt, alloc, &RECKONING, name, &mut shelf, refused, line)?;
        each_answers(&rt, alloc, &LOOKING, name, &mut shelf, refused, line)?;
    }
    serves_again(&rt, alloc, &mut shelf)
}

/// Two lamps, whose intensities add up to 10,000,001 cd.
const TOO_BRIGHT: &str =
    "version = 1\n[room]\nsize = [2000, 2000, 2000]\n[[lamp]]\nat = [1000, 1000, 1000]\ncandela = 10000000\n[[lamp]]\nat = [1000, 1000, 1000]\ncandela = 1\n[task]\nfrom = [0, 0]\nto = [2000, 2000]\nheight = 0\npoints = [1, 1]\n";

/// Six faces of 50 by 50 patches; its claim is looked at later.
const TOO_FINE: &str =
    "version = 1\n[room]\nsize = [50000, 50000, 50000]\npatch = 1000\n[[lamp]]\nat = [1000, 1000, 1000]\ncandela = 1\n[task]\nfrom = [0, 0]\nto = [2000, 2000]\nheight = 0\npoints = [1, 1]\n";

/// A box lies over its one task point.
const COVERED: &str =
    "version = 1\n[room]\nsize = [3000, 3000, 3000]\n[[box]]\nlo = [1000, 1000, 1000]\nhi = [2000, 2000, 2000]\n[[lamp]]\nat = [1000, 1000, 1000]\ncandela = 1\n[task]\nfrom = [1000, 1000]\nto = [2000, 2000]\nheight = 1500\npoints = [1, 1]\n";

/// The coefficients of its floor add up to 1.139357, by `bench/expected.py`.
const HEAVY: &str =
    "version = 1\n[room]\nsize = [10000, 1000, 1000]\nreflect = [700, 700, 700, 700, 700, 700]\npatch = 10000\n[[lamp]]\nat = [1000, 1000, 1000]\ncandela = 1\n[task]\nfrom = [0, 0]\nto = [10000, 1000]\nheight = 0\npoints = [1, 1]\n";

/// Each room, a plan of its lamps, and the refusal.
const NO_SCENES: [(&str, &str, &str); 4] = [
    (
        TOO_BRIGHT,
        "lamp,group,watts\n0,2,30\n1,2,30\n",
        "refused scene 1 TotalIntensity\n",
    ),
    (
        TOO_FINE,
        "lamp,group,watts\n0,2,30\n",
        "refused scene 2 TooManyPatches 15000\n",
    ),
    (
        COVERED,
        "lamp,group,watts\n0,2,30\n",
        "refused scene 3 NoTaskPoint\n",
    ),
    (
        HEAVY,
        "lamp,group,watts\n0,2,30\n",
        "refused rows 1 RowSum 0 1.140\n",
    ),
];

#[test]
fn each_fault_of_a_scene_comes_in_each_command(rt: HostRuntime) -> Result<(), Fail> {
    let alloc = rt.alloc();
    let (name, refused) = ("room.toml", Status::Refused);
    let mut shelf = shelf_with(alloc, &[], &CUBE_FILES, CUBE_ROOM)?;
    for (room, plan, line) in NO_SCENES {
        put(&mut shelf, name, room.as_bytes())?;
        put(&mut shelf, "plan.csv", plan.as_bytes())?;
        each_answers(&rt, alloc, &RECKONING, name, &mut shelf, refused, line)?;
    }
    serves_again(&rt, alloc, &mut shelf)
}

/// No scene is made for a sight or a route: none of these rooms is refused.
#[test]
fn a_sight_and_a_route_need_no_scene(rt: HostRuntime) -> Result<(), Fail> {
    let alloc = rt.alloc();
    let mut shelf = shelf_with(alloc, &[], &CUBE_FILES, CUBE_ROOM)?;
    for room in [TOO_BRIGHT, TOO_FINE, COVERED, HEAVY] {
        put(&mut shelf, "room.toml", room.as_bytes())?;
        let words = "sight room.toml 0 0 0 1 1 1";
        answers(&rt, alloc, words, &mut shelf, Status::Done, "clear\n")?;
    }
    for room in [TOO_FINE, HEAVY] {
        put(&mut shelf, "room.toml", room.as_bytes())?;
        let words = "escape room.toml 1300 1000 1800 1000 0 1000 0";
        // 1 / 1.09^1.5 = 0.8787.. and 1 / 1.64^1.5 = 0.4761.., the one 1.8455.. times the other
        let text =
            "points 2\nleast 0.47 0.48\ngreatest 0.87 0.88\nratio 1.845 1.846\nlimit least 0.000 met\nlimit ratio 1000.000 met\n";
        answers(&rt, alloc, words, &mut shelf, Status::Done, text)?;
    }
    serves_again(&rt, alloc, &mut shelf)
}

/// Each of the commands over the cube is refused with this line of this name, and the cube is served afterwards.
fn are_refused(
    rt: &(impl Abort + Threads + Sync),
    alloc: Global,
    commands: &[&str],
    shelf: &mut MemShelf,
    name: &str,
    line: &str,
) -> Result<(), Fail> {
    each_answers(rt, alloc, commands, name, shelf, Status::Refused, line)?;
    is_served(rt, alloc, shelf)
}

/// The same of `none`, which isn't there.
fn are_absent(
    rt: &(impl Abort + Threads + Sync),
    alloc: Global,
    commands: &[&str],
) -> Result<(), Fail> {
    let mut shelf = shelf_with(alloc, &[], &CUBE_FILES, CUBE_ROOM)?;
    let line = "refused none Absent\n";
    are_refused(rt, alloc, commands, &mut shelf, "none", line)
}

#[test]
fn a_room_that_is_not_there(rt: HostRuntime) -> Result<(), Fail> {
    let alloc = rt.alloc();
    are_absent(&rt, alloc, &RECKONING)?;
    are_absent(&rt, alloc, &LOOKING)
}

#[test]
fn a_claim_and_a_plan_that_are_not_there(rt: HostRuntime) -> Result<(), Fail> {
    let commands = ["check room.toml NAME", "dim room.toml NAME 0"];
    are_absent(&rt, rt.alloc(), &commands)
}

/// The same of `long`, which has 16,777,217 bytes.
fn are_too_long(
    rt: &(impl Abort + Threads + Sync),
    alloc: Global,
    commands: &[&str],
) -> Result<(), Fail> {
    let mut shelf = shelf_with(alloc, &[], &CUBE_FILES, CUBE_ROOM)?;
    let long = vec![in alloc; b'\n'; 16_777_217]?;
    put(&mut shelf, "long", long.as_slice())?;
    let line = "refused long TooLong\n";
    are_refused(rt, alloc, commands, &mut shelf, "long", line)
}

#[test]
fn a_room_that_is_too_long(rt: HostRuntime) -> Result<(), Fail> {
    let commands = ["report NAME", "grid NAME", "certify NAME", "lux_page NAME"];
    are_too_long(&rt, rt.alloc(), &commands)
}

#[test]
fn a_room_that_is_too_long_before_other_words(rt: HostRuntime) -> Result<(), Fail> {
    let commands = [
        "check NAME claim.csv",
        "dim NAME plan.csv 0",
        "sight NAME 0 0 0 1 1 1",
        "escape NAME 0 0 0 0 0 1 0",
    ];
    are_too_long(&rt, rt.alloc(), &commands)
}

#[test]
fn a_claim_and_a_plan_that_are_too_long(rt: HostRuntime) -> Result<(), Fail> {
    let commands = ["check room.toml NAME", "dim room.toml NAME 0"];
    are_too_long(&rt, rt.alloc(), &commands)
}
