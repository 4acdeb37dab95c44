//! Words that are no command, and rooms that are refused.
use super::{CALM, run};
use crate::Status;
use std::alloc::Global;
use std::test::Fail;

const ROOM: &str =
    "version = 1\n[room]\nsize = [6000, 6000, 3000]\n[task]\nfrom = [0, 0]\nto = [6000, 6000]\nheight = 0\npoints = [1, 1]\n";

const USAGE: &str =
    "usage: lux report ROOM | grid ROOM | read FILE [SET] | sight ROOM X Y Z X Y Z | certify ROOM | check ROOM CLAIM | trial N | flux FILE SET LUMENS | dim ROOM PLAN MILLILUX | escape ROOM X Y X Y MILLILUX RATIO LAMP ..\n";

#[test]
fn a_refused_room_has_one_line(rt: HostRuntime) -> Result<(), Fail> {
    let alloc = rt.alloc();
    let words = ["report", "room.toml"];
    for (room, text) in [
        ("version = 3\n", "refused room 2 Version\n"),
        // two lamps of six million candela
        (
            "version = 1\n[room]\nsize = [6000, 6000, 3000]\n[[lamp]]\nat = [0, 0, 0]\ncandela = 6000000\n[[lamp]]\nat = [0, 0, 0]\ncandela = 6000000\n[task]\nfrom = [0, 0]\nto = [6000, 6000]\nheight = 0\npoints = [1, 1]\n",
            "refused scene 1 TotalIntensity\n",
        ),
        // six faces of 50 by 50 patches
        (
            "version = 1\n[room]\nsize = [50000, 50000, 50000]\npatch = 1000\n[task]\nfrom = [0, 0]\nto = [6000, 6000]\nheight = 0\npoints = [1, 1]\n",
            "refused scene 2 TooManyPatches 15000\n",
        ),
        (
            "version = 1\n[room]\nsize = [3000, 3000, 3000]\n[[box]]\nlo = [1000, 1000, 1000]\nhi = [2000, 2000, 2000]\n[task]\nfrom = [1000, 1000]\nto = [2000, 2000]\nheight = 1500\npoints = [1, 1]\n",
            "refused scene 3 NoTaskPoint\n",
        ),
        // the coefficients of the floor add up to 1.139357, by `bench/expected.py`
        (
            "version = 1\n[room]\nsize = [10000, 1000, 1000]\nreflect = [700, 700, 700, 700, 700, 700]\npatch = 10000\n[task]\nfrom = [0, 0]\nto = [10000, 1000]\nheight = 0\npoints = [1, 1]\n",
            "refused rows 1 RowSum 0 1.140\n",
        ),
    ] {
        run(&rt, alloc, &words, room, &CALM, Status::Refused, text)?;
    }
    run(
        &rt,
        alloc,
        &["report", "none.toml"],
        ROOM,
        &CALM,
        Status::Refused,
        "refused none.toml Absent\n",
    )?;
    Ok(())
}

/// A room of 4 by 2 by 2 m in a version of the layout.
fn room_with(alloc: Global, version: u32, lamp: &str) -> Result<String, Fail> {
    let room = format!(in alloc;
        "version = {version}\n[room]\nsize = [4000, 2000, 2000]\n[[lamp]]\ncandela = 10\n{lamp}[task]\nfrom = [0, 0]\nto = [4000, 2000]\nheight = 0\npoints = [1, 1]\n"
    )?;
    Ok(room)
}

#[test]
fn an_aim_is_one_of_six_names_in_version_2(rt: HostRuntime) -> Result<(), Fail> {
    let alloc = rt.alloc();
    let words = ["report", "room.toml"];
    for (version, aim, text) in [
        (1, "\"-z\"", "refused room 4 Unknown lamp 0\n"),
        (2, "\"-Z\"", "refused room 6 Range lamp.aim 0\n"),
        (2, "\"x\"", "refused room 6 Range lamp.aim 0\n"),
        (2, "\"+x \"", "refused room 6 Range lamp.aim 0\n"),
        (2, "\"\"", "refused room 6 Range lamp.aim 0\n"),
        (2, "3", "refused room 5 Kind lamp.aim 0\n"),
        (2, "[\"+x\"]", "refused room 5 Kind lamp.aim 0\n"),
    ] {
        let lamp = format!(in alloc; "at = [2000, 1000, 1000]\naim = {aim}\n")?;
        let room = room_with(alloc, version, lamp.as_str())?;
        run(
            &rt,
            alloc,
            &words,
            room.as_str(),
            &CALM,
            Status::Refused,
            text,
        )?;
    }
    Ok(())
}

/// A lamp in a wall, by its place, its size and its aim.
fn wall_lamp(alloc: Global, at: &str, size: &str, aim: &str) -> Result<String, Fail> {
    let lamp = format!(in alloc; "at = [{at}]\nsize = [{size}]\naim = \"{aim}\"\n")?;
    Ok(lamp)
}

// A lamp at an end of an axis is within the room where neither number of its size goes along that axis.
#[test]
fn a_lamps_size_goes_along_the_axes_across_its_aim(rt: HostRuntime) -> Result<(), Fail> {
    let alloc = rt.alloc();
    let words = ["sight", "room.toml", "0", "0", "0", "1", "1", "1"];
    let (done, refused) = (Status::Done, Status::Refused);
    let outside = "refused room 7 Outside lamp 0\n";
    for (at, size, aim, status, text) in [
        // along y and z
        ("0, 1000, 1000", "2, 0", "+x", done, "clear\n"),
        ("0, 1000, 1000", "0, 2", "+x", done, "clear\n"),
        ("0, 1000, 2000", "0, 2", "+x", refused, outside),
        ("4000, 2000, 1000", "2, 0", "-x", refused, outside),
        ("0, 1000, 1000", "2002, 0", "+x", refused, outside),
        // along x and z
        ("2000, 0, 1000", "2, 0", "+y", done, "clear\n"),
        ("2000, 0, 1000", "0, 2", "+y", done, "clear\n"),
        ("2000, 0, 0", "0, 2", "+y", refused, outside),
        ("4000, 2000, 1000", "2, 0", "-y", refused, outside),
        ("2000, 0, 1000", "0, 2002", "+y", refused, outside),
        // along x and y
        ("0, 1000, 1000", "2, 0", "+z", refused, outside),
        ("2000, 0, 1000", "0, 2", "-z", refused, outside),
    ] {
        let lamp = wall_lamp(alloc, at, size, aim)?;
        let room = room_with(alloc, 2, lamp.as_str())?;
        run(&rt, alloc, &words, room.as_str(), &CALM, status, text)?;
    }
    Ok(())
}

#[test]
fn other_words_are_no_command(rt: HostRuntime) -> Result<(), Fail> {
    let alloc = rt.alloc();
    run(&rt, alloc, &[], ROOM, &CALM, Status::Usage, USAGE)?;
    for word in [
        "report",
        "sight",
        "grid",
        "certify",
        "check",
        "trial",
        "--help",
        "--version",
        "",
    ] {
        run(&rt, alloc, &[word], ROOM, &CALM, Status::Usage, USAGE)?;
    }
    for name in ["", "a\u{7f}b", "a\nb"] {
        run(
            &rt,
            alloc,
            &["report", name],
            ROOM,
            &CALM,
            Status::Usage,
            USAGE,
        )?;
    }
    run(
        &rt,
        alloc,
        &["check", "room.toml"],
        ROOM,
        &CALM,
        Status::Usage,
        USAGE,
    )?;
    run(
        &rt,
        alloc,
        &["report", "room.toml", "x"],
        ROOM,
        &CALM,
        Status::Usage,
        USAGE,
    )?;
    Ok(())
}

#[test]
fn coordinates_are_plain_numbers_to_100000(rt: HostRuntime) -> Result<(), Fail> {
    let alloc = rt.alloc();
    for x in [
        "100001",
        "4294967296",
        "-1",
        "+1",
        "01",
        "00",
        "",
        "1.0",
        "1e3",
        " 1",
        "x",
    ] {
        let words = ["sight", "room.toml", "0", "0", "0", x, "0", "0"];
        run(&rt, alloc, &words, ROOM, &CALM, Status::Usage, USAGE)?;
    }
    for x in ["0", "7", "10", "100000"] {
        let words = ["sight", "room.toml", "0", "0", "0", x, "0", "0"];
        run(&rt, alloc, &words, ROOM, &CALM, Status::Done, "clear\n")?;
    }
    let seven = ["sight", "room.toml", "0", "0", "0", "0", "0"];
    run(&rt, alloc, &seven, ROOM, &CALM, Status::Usage, USAGE)?;
    Ok(())
}
