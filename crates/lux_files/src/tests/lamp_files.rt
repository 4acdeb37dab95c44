//! The photometric files of a room's lamps: how often each is read, and the refusals and faults in which it is named.
use super::luminaires::{EVEN, SIXTEEN_SETS};
use super::rooms::{CUBE, EVEN_LAMP, FLOOR, GREY, MIDDLE, TWICE_TEXT, report};
use lux_core::Status;
use std::test::Fail;

#[test]
fn a_file_is_read_once_for_each_of_its_sets(rt: HostRuntime) -> Result<(), Fail> {
    let alloc = rt.alloc();
    // calls 0 to 2 read the room and 3 to 5 the file; nothing reads it again for the second lamp
    let room = format!(in alloc; "{CUBE}{MIDDLE}{EVEN_LAMP}{MIDDLE}{EVEN_LAMP}{FLOOR}")?;
    let files = [("even.ldt", EVEN)];
    report(
        &rt,
        alloc,
        room.as_str(),
        &files,
        &[6],
        Status::Done,
        TWICE_TEXT,
    )?;
    // another set of it is another reading
    let room = format!(in alloc;
        "{CUBE}{MIDDLE}file = \"sets.ldt\"\nset = 3\n{MIDDLE}file = \"sets.ldt\"\nset = 5\n{FLOOR}"
    )?;
    let files = [("sets.ldt", SIXTEEN_SETS)];
    report(
        &rt,
        alloc,
        room.as_str(),
        &files,
        &[6],
        Status::ReadFault,
        "read fault sets.ldt\n",
    )?;
    // 3 and 5 cd at 1 m
    report(
        &rt,
        alloc,
        room.as_str(),
        &files,
        &[9],
        Status::Done,
        "point 0 0 7.99|8.00 8.00|8.01\naverage 7.99|8.00 8.00|8.01\nuniformity 0.998|0.999|1.000 1.000\n",
    )
}

#[test]
fn a_lamp_without_its_file_is_refused(rt: HostRuntime) -> Result<(), Fail> {
    let alloc = rt.alloc();
    let room = format!(in alloc;
        "{CUBE}{GREY}{MIDDLE}{EVEN_LAMP}{MIDDLE}file = \"c.ies\"\n{FLOOR}"
    )?;
    let files = [("even.ldt", EVEN)];
    report(
        &rt,
        alloc,
        room.as_str(),
        &files,
        &[],
        Status::Refused,
        "refused c.ies Absent\n",
    )
}

#[test]
fn the_first_file_that_stands_in_the_way_is_named(rt: HostRuntime) -> Result<(), Fail> {
    let alloc = rt.alloc();
    let room = format!(in alloc;
        "{CUBE}{MIDDLE}{EVEN_LAMP}{MIDDLE}file = \"cut.ldt\"\n{MIDDLE}file = \"none.ies\"\n{FLOOR}"
    )?;
    // its last intensity isn't there
    let cut = EVEN.strip_suffix("100\n").ok_or("even")?;
    let files = [("even.ldt", EVEN), ("cut.ldt", cut)];
    // the third file isn't there, and call 9 would be its opening
    for failing in [[].as_slice(), [9].as_slice()] {
        report(
            &rt,
            alloc,
            room.as_str(),
            &files,
            failing,
            Status::Refused,
            "refused cut.ldt 1 Short 47\n",
        )?;
    }
    // a name that ends in .ies tells another grammar
    let room = format!(in alloc;
        "{CUBE}{MIDDLE}file = \"even.Ies\"\n{MIDDLE}file = \"cut.ldt\"\n{FLOOR}"
    )?;
    let files = [("even.Ies", EVEN), ("cut.ldt", cut)];
    report(
        &rt,
        alloc,
        room.as_str(),
        &files,
        &[],
        Status::Refused,
        "refused even.Ies 1 Version\n",
    )
}

#[test]
fn each_failing_call_is_told_with_the_name_of_its_file(rt: HostRuntime) -> Result<(), Fail> {
    let alloc = rt.alloc();
    let room = format!(in alloc; "{CUBE}{MIDDLE}{EVEN_LAMP}{MIDDLE}file = \"other.ldt\"\n{FLOOR}")?;
    let files = [("even.ldt", EVEN), ("other.ldt", EVEN)];
    // the opening, the reading of all bytes, and the reading that finds the end, for each of the three files
    for (call, text) in [
        (2, "read fault room.toml\n"),
        (3, "read fault even.ldt\n"),
        (4, "read fault even.ldt\n"),
        (5, "read fault even.ldt\n"),
        (6, "read fault other.ldt\n"),
        (7, "read fault other.ldt\n"),
        (8, "read fault other.ldt\n"),
    ] {
        report(
            &rt,
            alloc,
            room.as_str(),
            &files,
            &[call],
            Status::ReadFault,
            text,
        )?;
    }
    report(
        &rt,
        alloc,
        room.as_str(),
        &files,
        &[9],
        Status::Done,
        TWICE_TEXT,
    )
}

#[test]
fn a_lamp_has_a_file_of_16777216_bytes_at_most(rt: HostRuntime) -> Result<(), Fail> {
    let alloc = rt.alloc();
    let room = format!(in alloc; "{CUBE}{MIDDLE}file = \"long.ies\"\n{FLOOR}")?;
    let blanks = vec![in alloc; b' '; 16_777_217]?;
    let long = str::from_utf8(blanks.as_slice()).ok().ok_or("blanks")?;
    let files = [("long.ies", long)];
    report(
        &rt,
        alloc,
        room.as_str(),
        &files,
        &[],
        Status::Refused,
        "refused long.ies TooLong\n",
    )
}
