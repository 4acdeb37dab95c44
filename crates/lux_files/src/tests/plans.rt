//! The plans of least power for rooms, by whole runs. Two lamps of 2,500 cd hang 3 m above the one task point, and each alone gives it
//! 2500 / 9 = 277.77.. lux.
use super::luminaires::OFFICE;
use super::office::OFFICE_ROOM;
use super::rooms::{CUBE, EVEN_LAMP, FLOOR, MIDDLE, report, shelf_with};
use super::run_over;
use lux_core::Status;
use std::alloc::Global;
use std::process::Abort;
use std::test::Fail;
use std::thread::Threads;

const USAGE: &str =
    "usage: lux report ROOM | grid ROOM | read FILE [SET] | sight ROOM X Y Z X Y Z | certify ROOM | check ROOM CLAIM | trial N | flux FILE SET LUMENS | dim ROOM PLAN MILLILUX | escape ROOM X Y X Y MILLILUX RATIO LAMP ..\n";

const TWO_LAMPS: &str =
    "version = 1\n[room]\nsize = [6000, 6000, 3000]\n[[lamp]]\nat = [3000, 3000, 3000]\ncandela = 2500\n[[lamp]]\nat = [3000, 3000, 3000]\ncandela = 2500\n[task]\nfrom = [0, 0]\nto = [6000, 6000]\nheight = 0\npoints = [1, 1]\n";

/// A channel without lamps, one of whose rows adds up to too much.
const HEAVY: &str =
    "version = 1\n[room]\nsize = [10000, 1000, 1000]\nreflect = [700, 700, 700, 700, 700, 700]\npatch = 10000\n[task]\nfrom = [0, 0]\nto = [10000, 1000]\nheight = 0\npoints = [1, 1]\n";

/// The same channel with a lamp in its middle.
const HEAVY_WITH_LAMP: &str =
    "version = 1\n[room]\nsize = [10000, 1000, 1000]\nreflect = [700, 700, 700, 700, 700, 700]\npatch = 10000\n[[lamp]]\nat = [5000, 500, 500]\ncandela = 100\n[task]\nfrom = [0, 0]\nto = [10000, 1000]\nheight = 0\npoints = [1, 1]\n";

/// The nine luminaires of the office in six groups.
const OFFICE_PLAN: &str =
    "lamp,group,watts\n0,0,31\n1,1,33\n2,2,31\n3,0,31\n4,1,33\n5,2,31\n6,3,30\n7,4,32\n8,5,29\n";

/// 50 watts in the first group and 40 in the second.
const PLAN: &str = "lamp,group,watts\n0,0,50\n1,1,40\n";

/// Eleven tenths of a lamp are needed for 300 lux: the lamp that takes less in full, and a tenth of the other.
const ELEVEN_TENTHS: &str = "met 45.0 1 10 0 0 0 0\npossible 45.0 1 10 0 0 0 0\n";

const NONE: &str = "met none\npossible none\n";

const DARK: &str = "met 0.0 0 0 0 0 0 0\npossible 0.0 0 0 0 0 0 0\n";

/// A run of `dim room.toml plan.csv` and this limit over a shelf with this room and these files, whose calls with these numbers fail: it
/// ends with this status and has written this text.
fn dimmed(
    rt: &(impl Abort + Threads + Sync),
    alloc: Global,
    room: &str,
    files: &[(&str, &str)],
    failing: &[u64],
    limit: &str,
    status: Status,
    text: &str,
) -> Result<(), Fail> {
    let words = ["dim", "room.toml", "plan.csv", limit];
    let mut shelf = shelf_with(alloc, room, files, failing)?;
    run_over(rt, alloc, &words, &mut shelf, 500, status, text.as_bytes())
}

#[test]
fn the_lamp_that_takes_less_is_lit_first(rt: HostRuntime) -> Result<(), Fail> {
    let alloc = rt.alloc();
    for (limit, text) in [
        ("300000", ELEVEN_TENTHS),
        ("600000", NONE),
        ("1000000000", NONE),
        ("0", DARK),
    ] {
        let files = [("plan.csv", PLAN)];
        dimmed(
            &rt,
            alloc,
            TWO_LAMPS,
            &files,
            &[],
            limit,
            Status::Done,
            text,
        )?;
    }
    Ok(())
}

/// By `bench/dim.py`, which looks at all plans: 230.6 W give 350.017 lux, and nothing that takes less gives 350.
#[test]
fn six_groups_of_an_office_are_dimmed(rt: HostRuntime) -> Result<(), Fail> {
    let alloc = rt.alloc();
    let files = [("f.ldt", OFFICE), ("plan.csv", OFFICE_PLAN)];
    let text = "met 230.6 9 10 10 3 10 2\npossible 230.6 9 10 10 3 10 2\n";
    let done = Status::Done;
    dimmed(&rt, alloc, OFFICE_ROOM, &files, &[], "350000", done, text)
}

/// Lamps change no coefficient, so that the row of a group is one of the whole room, and is told as a report tells it.
#[test]
fn a_row_of_a_group_is_told_as_that_of_the_room(rt: HostRuntime) -> Result<(), Fail> {
    let alloc = rt.alloc();
    let room = HEAVY_WITH_LAMP;
    let line = "refused rows 1 RowSum 0 1.140\n";
    let files = [("plan.csv", "lamp,group,watts\n0,3,50\n")];
    let refused = Status::Refused;
    dimmed(&rt, alloc, room, &files, &[], "0", refused, line)?;
    report(&rt, alloc, room, &[], &[], refused, line)
}

#[test]
fn a_room_without_lamps_reaches_nothing(rt: HostRuntime) -> Result<(), Fail> {
    let alloc = rt.alloc();
    let room = format!(in alloc; "{CUBE}{FLOOR}")?;
    for (plan, limit, text) in [("lamp,group,watts\n", "1", NONE), ("", "0", DARK)] {
        let files = [("plan.csv", plan)];
        let room = room.as_str();
        dimmed(&rt, alloc, room, &files, &[], limit, Status::Done, text)?;
    }
    Ok(())
}

#[test]
fn a_text_that_is_no_plan_is_refused(rt: HostRuntime) -> Result<(), Fail> {
    let alloc = rt.alloc();
    for (plan, line) in [
        (
            "lamp,group,watts\n0,6,50\n1,1,40\n",
            "refused plan 1 Record 1\n",
        ),
        (
            "lamp,group,watts\n0,0,50\n1,1,10001\n",
            "refused plan 1 Record 2\n",
        ),
        ("lamp,group,watts\n0,0,50\n", "refused plan 2 Count\n"),
        (
            "lamp,group,watts\n0,0,50\n2,1,40\n",
            "refused plan 3 Order 2\n",
        ),
    ] {
        let files = [("plan.csv", plan)];
        let refused = Status::Refused;
        dimmed(&rt, alloc, TWO_LAMPS, &files, &[], "300000", refused, line)?;
    }
    Ok(())
}

#[test]
fn a_plan_is_read_after_the_lamps_and_before_their_light(rt: HostRuntime) -> Result<(), Fail> {
    let alloc = rt.alloc();
    let with_file = format!(in alloc; "{CUBE}{MIDDLE}{EVEN_LAMP}{FLOOR}")?;
    let files: [(&str, &[(&str, &str)], &str); 6] = [
        ("version = 3\n", &[], "refused room 2 Version\n"),
        (with_file.as_str(), &[], "refused even.ldt Absent\n"),
        (TWO_LAMPS, &[], "refused plan.csv Absent\n"),
        (HEAVY, &[], "refused plan.csv Absent\n"),
        (HEAVY, &[("plan.csv", PLAN)], "refused plan 2 Count\n"),
        (
            HEAVY,
            &[("plan.csv", "lamp,group,watts\n")],
            "refused rows 1 RowSum 0 1.140\n",
        ),
    ];
    for (room, files, line) in files {
        dimmed(&rt, alloc, room, files, &[], "0", Status::Refused, line)?;
    }
    Ok(())
}

#[test]
fn each_failing_call_to_the_plan_is_told(rt: HostRuntime) -> Result<(), Fail> {
    let alloc = rt.alloc();
    let files = [("plan.csv", PLAN)];
    // the opening, the reading of all bytes, and the reading that finds the end: of the room, and then of the plan
    for (call, line) in [
        (2, "read fault room.toml\n"),
        (3, "read fault plan.csv\n"),
        (4, "read fault plan.csv\n"),
        (5, "read fault plan.csv\n"),
    ] {
        let (fault, failing) = (Status::ReadFault, [call]);
        dimmed(&rt, alloc, TWO_LAMPS, &files, &failing, "0", fault, line)?;
    }
    // there is no further call
    dimmed(&rt, alloc, TWO_LAMPS, &files, &[6], "0", Status::Done, DARK)
}

#[test]
fn a_full_output_has_a_proper_prefix(rt: HostRuntime) -> Result<(), Fail> {
    let alloc = rt.alloc();
    let words = ["dim", "room.toml", "plan.csv", "0"];
    for written in ["", "m", "met 0.0 0 0 0 0 0 0\n"] {
        let mut shelf = shelf_with(alloc, TWO_LAMPS, &[("plan.csv", PLAN)], &[])?;
        run_over(
            &rt,
            alloc,
            &words,
            &mut shelf,
            written.len(),
            Status::WriteFault,
            written.as_bytes(),
        )?;
    }
    Ok(())
}

#[test]
fn other_words_after_dim_are_no_command(rt: HostRuntime) -> Result<(), Fail> {
    let alloc = rt.alloc();
    let lists: [&[&str]; 8] = [
        &["dim", "room.toml", "plan.csv"],
        &["dim", "room.toml", "300000"],
        &["dim", "room.toml", "plan.csv", "300000", "x"],
        &["dim", "room.toml", "plan.csv", "1000000001"],
        &["dim", "room.toml", "plan.csv", "-1"],
        &["dim", "room.toml", "plan.csv", "0300"],
        &["dim", "room.toml", "", "300000"],
        &["dim", "", "plan.csv", "300000"],
    ];
    for words in lists {
        let mut shelf = shelf_with(alloc, TWO_LAMPS, &[("plan.csv", PLAN)], &[])?;
        run_over(
            &rt,
            alloc,
            words,
            &mut shelf,
            500,
            Status::Usage,
            USAGE.as_bytes(),
        )?;
    }
    Ok(())
}
