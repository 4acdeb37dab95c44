//! Whether two points see each other, in a room of 3 m on each edge with a box of 1 m in its middle.
use super::{CALM, run};
use crate::Status;
use std::test::Fail;

const ROOM: &str = "version = 1\n[room]\nsize = [3000, 3000, 3000]\n";

const BOX: &str = "[[box]]\nlo = [1000, 1000, 1000]\nhi = [2000, 2000, 2000]\n";

const TASK: &str = "[task]\nfrom = [0, 0]\nto = [3000, 3000]\nheight = 0\npoints = [1, 1]\n";

#[test]
fn sight_is_told(rt: HostRuntime) -> Result<(), Fail> {
    let alloc = rt.alloc();
    let room = format!(in alloc; "{ROOM}{BOX}{TASK}")?;
    for (from, to, text) in [
        (
            ["0", "1500", "1500"],
            ["3000", "1500", "1500"],
            "blocked 0\n",
        ),
        // from inside
        (["1500", "1500", "1500"], ["0", "0", "0"], "blocked 0\n"),
        // along a face
        (["0", "1000", "1500"], ["3000", "1000", "1500"], "clear\n"),
        // through an edge
        (["0", "2000", "1500"], ["2000", "0", "1500"], "clear\n"),
        // ends on a face
        (["0", "1500", "1500"], ["1000", "1500", "1500"], "clear\n"),
        // one point
        (["500", "500", "500"], ["500", "500", "500"], "clear\n"),
        (
            ["1500", "1500", "1500"],
            ["1500", "1500", "1500"],
            "blocked 0\n",
        ),
        // past the room, up to 100 m
        (
            ["100000", "1500", "1500"],
            ["0", "1500", "1500"],
            "blocked 0\n",
        ),
    ] {
        let words = [
            "sight",
            "room.toml",
            from[0],
            from[1],
            from[2],
            to[0],
            to[1],
            to[2],
        ];
        run(&rt, alloc, &words, room.as_str(), &CALM, Status::Done, text)?;
    }
    Ok(())
}

#[test]
fn the_first_box_is_named(rt: HostRuntime) -> Result<(), Fail> {
    let alloc = rt.alloc();
    let words = [
        "sight",
        "room.toml",
        "0",
        "1500",
        "1500",
        "3000",
        "1500",
        "1500",
    ];
    let aside = "[[box]]\nlo = [0, 0, 0]\nhi = [100, 100, 100]\n";
    for (boxes, text) in [
        (format!(in alloc; "{BOX}{BOX}")?, "blocked 0\n"),
        (format!(in alloc; "{aside}{BOX}{BOX}")?, "blocked 1\n"),
        (format!(in alloc; "{aside}")?, "clear\n"),
    ] {
        let room = format!(in alloc; "{ROOM}{boxes}{TASK}")?;
        run(&rt, alloc, &words, room.as_str(), &CALM, Status::Done, text)?;
    }
    Ok(())
}

#[test]
fn a_box_that_is_refused_is_told(rt: HostRuntime) -> Result<(), Fail> {
    let alloc = rt.alloc();
    let words = [
        "sight",
        "room.toml",
        "0",
        "1500",
        "1500",
        "3000",
        "1500",
        "1500",
    ];
    let flat = "[[box]]\nlo = [1000, 1000, 1000]\nhi = [2000, 1000, 2000]\n";
    let room = format!(in alloc; "{ROOM}{flat}{TASK}")?;
    let text = "refused room 6 Range box.hi 0\n";
    run(
        &rt,
        alloc,
        &words,
        room.as_str(),
        &CALM,
        Status::Refused,
        text,
    )?;
    Ok(())
}
