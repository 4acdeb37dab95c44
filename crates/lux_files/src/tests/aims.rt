//! Reports of rooms with aimed lamps of photometric files. Values are worked out by hand or those of `bench/expected.py`, a planner in
//! double precision with none of this code. Where bars stand between numbers, each of them is an admissible printed end.
use super::luminaires::{FALLING, QUADRANTS, ROUND};
use super::rooms::{DARK_TEXT, report};
use lux_core::Status;
use std::alloc::Global;
use std::test::Fail;

/// A black room of 4 by 2 by 2 m with an aimed lamp, and a point in the middle of its floor.
fn aimed_room(alloc: Global, at: &str, file: &str, aim: &str) -> Result<String, Fail> {
    let room = format!(in alloc;
        "version = 2\n[room]\nsize = [4000, 2000, 2000]\n[[lamp]]\nat = {at}\nfile = \"{file}\"\naim = \"{aim}\"\n[task]\nfrom = [0, 0]\nto = [4000, 2000]\nheight = 0\npoints = [1, 1]\n"
    )?;
    Ok(room)
}

#[test]
fn a_lamp_in_a_wall_shines_along_its_normal(rt: HostRuntime) -> Result<(), Fail> {
    let alloc = rt.alloc();
    for (name, file, text) in [
        // the point is seen at 45 degrees from the aim: 150 cd * cos 45 / 8 = 13.2582..
        (
            "e.ldt",
            FALLING,
            "point 0 0 13.25 13.26|13.27\naverage 13.25 13.26|13.27\nuniformity 0.998|0.999 1.000\n",
        ),
        // and at C 90: 200 cd * cos 45 / 8 = 17.6776..
        (
            "c.ies",
            QUADRANTS,
            "point 0 0 17.67 17.68\naverage 17.67 17.68\nuniformity 0.999 1.000\n",
        ),
    ] {
        let room = aimed_room(alloc, "[0, 1000, 2000]", name, "+x")?;
        let files = [(name, file)];
        report(&rt, alloc, room.as_str(), &files, &[], Status::Done, text)?;
    }
    Ok(())
}

#[test]
fn what_lies_behind_an_aim_is_dark(rt: HostRuntime) -> Result<(), Fail> {
    let alloc = rt.alloc();
    let files = [("e.ldt", FALLING)];
    for (at, aim) in [
        ("[2000, 1000, 1000]", "+z"),
        ("[1000, 1000, 1000]", "-x"),
        ("[3000, 1000, 1000]", "+x"),
        ("[2000, 500, 1000]", "-y"),
        ("[2000, 1500, 1000]", "+y"),
    ] {
        let room = aimed_room(alloc, at, "e.ldt", aim)?;
        let done = Status::Done;
        report(&rt, alloc, room.as_str(), &files, &[], done, DARK_TEXT)?;
    }
    Ok(())
}

/// A turned lamp of six points, aimed in a room whose six surfaces differ. Its file has another intensity at each of C 0, 90, 180 and 270.
fn turned_room(alloc: Global, aim: &str, maintenance: u32) -> Result<String, Fail> {
    let room = format!(in alloc;
        "version = 2\n[room]\nsize = [2000, 2400, 2200]\nreflect = [500, 400, 300, 200, 600, 700]\npatch = 1200\n[[lamp]]\nat = [1300, 900, 1200]\nfile = \"round.IES\"\nturn = 20\nmaintenance = {maintenance}\nsize = [301, 600]\nsplit = [2, 3]\naim = \"{aim}\"\n[task]\nfrom = [0, 0]\nto = [2000, 2400]\nheight = 700\npoints = [2, 1]\n"
    )?;
    Ok(room)
}

#[test]
fn a_turned_lamp_is_aimed_down_and_up(rt: HostRuntime) -> Result<(), Fail> {
    let alloc = rt.alloc();
    let files = [("round.IES", ROUND)];
    for (aim, maintenance, text) in [
        // 67.62567, 304.28565; 185.95566; 0.363666
        (
            "-z",
            935,
            "point 0 0 67.62 67.63\npoint 1 0 304.28 304.29\naverage 185.95 185.96\nuniformity 0.363 0.364\n",
        ),
        // 43.92535, 81.00460; 62.46497; 0.703200
        (
            "+z",
            709,
            "point 0 0 43.92 43.93\npoint 1 0 81.00 81.01\naverage 62.46 62.47\nuniformity 0.703 0.704\n",
        ),
    ] {
        let room = turned_room(alloc, aim, maintenance)?;
        report(&rt, alloc, room.as_str(), &files, &[], Status::Done, text)?;
    }
    Ok(())
}

#[test]
fn a_turned_lamp_is_aimed_at_each_wall(rt: HostRuntime) -> Result<(), Fail> {
    let alloc = rt.alloc();
    let files = [("round.IES", ROUND)];
    for (aim, maintenance, text) in [
        // 66.67478, 139.01465; 102.84472; 0.648305
        (
            "-x",
            900,
            "point 0 0 66.67 66.68\npoint 1 0 139.01 139.02\naverage 102.84 102.85\nuniformity 0.648 0.649\n",
        ),
        // 21.93521, 109.33520; 65.63521; 0.334199
        (
            "+x",
            723,
            "point 0 0 21.93 21.94\npoint 1 0 109.33 109.34\naverage 65.63 65.64\nuniformity 0.334 0.335\n",
        ),
        // 39.36511, 74.52474; 56.94492; 0.691284
        (
            "-y",
            833,
            "point 0 0 39.36 39.37\npoint 1 0 74.52 74.53\naverage 56.94 56.95\nuniformity 0.691 0.692\n",
        ),
        // 77.80503, 217.32563; 147.56533; 0.527258
        (
            "+y",
            965,
            "point 0 0 77.80 77.81\npoint 1 0 217.32 217.33\naverage 147.56 147.57\nuniformity 0.527 0.528\n",
        ),
    ] {
        let room = turned_room(alloc, aim, maintenance)?;
        report(&rt, alloc, room.as_str(), &files, &[], Status::Done, text)?;
    }
    Ok(())
}
