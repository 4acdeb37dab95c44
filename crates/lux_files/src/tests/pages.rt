//! The page of a room, by whole runs of its program: words, files and outputs that stand in its way, and its status.
use super::luminaires::{EVEN, OFFICE};
use super::office::OFFICE_ROOM;
use super::rooms::{CUBE, EVEN_LAMP, FLOOR, GREY, MIDDLE, shelf_with};
use super::shelf_of;
use fork_rows::OpenGate;
use lux_core::{Status, lux, lux_page};
use lux_io::{MemSink, Shelf};
use std::alloc::Global;
use std::process::Abort;
use std::test::Fail;
use std::thread::Threads;

/// 5000 / 9 = 555.5.. lux at the one point.
const BRIGHT: &str =
    "version = 1\n[room]\nsize = [6000, 6000, 3000]\n[[lamp]]\nat = [3000, 3000, 3000]\ncandela = 5000\n[task]\nfrom = [0, 0]\nto = [6000, 6000]\nheight = 0\npoints = [1, 1]\n";

const USAGE: &str = "usage: lux_page ROOM\n";

/// More bytes than a page has.
const ROOMY: usize = 1_000_000;

/// How a run of the page's program over a shelf ends, with an output that takes so many bytes, and the output.
fn page_over<S: Shelf>(
    rt: &(impl Abort + Threads + Sync),
    alloc: Global,
    words: &[&str],
    shelf: &mut S,
    capacity: usize,
) -> Result<(Status, MemSink), Fail> {
    let mut given = Vec::new(alloc);
    for word in words {
        given.push(String::from_str(alloc, word)?)?;
    }
    let mut out = MemSink::new(alloc, capacity, &[]).ok().ok_or("memory")?;
    let status = lux_page(rt, alloc, given.as_slice(), shelf, &mut out, &OpenGate);
    Ok((status, out))
}

/// A run over a shelf with one room file, `room.toml`, whose calls with these numbers fail: it ends with this status and this text.
fn one_line(
    rt: &(impl Abort + Threads + Sync),
    alloc: Global,
    words: &[&str],
    room: &str,
    failing: &[u64],
    status: Status,
    text: &str,
) -> Result<(), Fail> {
    let mut shelf = shelf_of(alloc, room, failing)?;
    let (answer, out) = page_over(rt, alloc, words, &mut shelf, ROOMY)?;
    assert!(rt; answer == status, "{answer:?} of {text}");
    assert!(rt; out.bytes() == text.as_bytes(), "the text of {text}");
    Ok(())
}

#[test]
fn one_name_and_no_other_word_asks_for_a_page(rt: HostRuntime) -> Result<(), Fail> {
    let alloc = rt.alloc();
    let lists: [&[&str]; 7] = [
        &[],
        &[""],
        &["a\nb"],
        &["a\u{7f}b"],
        &["report", "room.toml"],
        &["room.toml", "x"],
        &["room.toml", "room.toml"],
    ];
    for words in lists {
        one_line(&rt, alloc, words, BRIGHT, &[], Status::Usage, USAGE)?;
    }
    Ok(())
}

#[test]
fn a_page_that_is_not_made_has_one_line(rt: HostRuntime) -> Result<(), Fail> {
    let alloc = rt.alloc();
    let (refused, fault) = (Status::Refused, Status::ReadFault);
    for (name, room, failing, status, text) in [
        (
            "none.toml",
            BRIGHT,
            &[] as &[u64],
            refused,
            "refused none.toml Absent\n",
        ),
        ("report", BRIGHT, &[], refused, "refused report Absent\n"),
        (
            "room.toml",
            "version = 3\n",
            &[],
            refused,
            "refused room 2 Version\n",
        ),
        // six faces of 50 by 50 patches
        (
            "room.toml",
            "version = 1\n[room]\nsize = [50000, 50000, 50000]\npatch = 1000\n[task]\nfrom = [0, 0]\nto = [6000, 6000]\nheight = 0\npoints = [1, 1]\n",
            &[],
            refused,
            "refused scene 2 TooManyPatches 15000\n",
        ),
        // a box covers the one point
        (
            "room.toml",
            "version = 1\n[room]\nsize = [6000, 6000, 3000]\n[[box]]\nlo = [1000, 1000, 0]\nhi = [5000, 5000, 2000]\n[task]\nfrom = [0, 0]\nto = [6000, 6000]\nheight = 800\npoints = [1, 1]\n",
            &[],
            refused,
            "refused scene 3 NoTaskPoint\n",
        ),
        ("room.toml", BRIGHT, &[0], fault, "read fault room.toml\n"),
        ("room.toml", BRIGHT, &[1], fault, "read fault room.toml\n"),
    ] {
        one_line(&rt, alloc, &[name], room, failing, status, text)?;
    }
    Ok(())
}

#[test]
fn a_page_needs_the_files_of_its_lamps(rt: HostRuntime) -> Result<(), Fail> {
    let alloc = rt.alloc();
    let room = format!(in alloc; "{CUBE}{GREY}{MIDDLE}{EVEN_LAMP}{FLOOR}")?;
    one_line(
        &rt,
        alloc,
        &["room.toml"],
        room.as_str(),
        &[],
        Status::Refused,
        "refused even.ldt Absent\n",
    )?;
    let mut shelf = shelf_of(alloc, room.as_str(), &[])?;
    shelf.add("even.ldt", EVEN.as_bytes()).ok().ok_or("memory")?;
    let (answer, out) = page_over(&rt, alloc, &["room.toml"], &mut shelf, ROOMY)?;
    assert!(rt; answer == Status::Done);
    assert!(rt; out.bytes().len() > 0);
    Ok(())
}

#[test]
fn the_status_of_a_page_is_that_of_the_limits(rt: HostRuntime) -> Result<(), Fail> {
    let alloc = rt.alloc();
    for (limits, status) in [
        ("", Status::Done),
        ("[limits]\naverage_millilux = 555550\n", Status::Done),
        ("[limits]\naverage_millilux = 555551\n", Status::Undecided),
        ("[limits]\naverage_millilux = 555561\n", Status::Missed),
        (
            "[limits]\naverage_millilux = 555561\nuniformity_permille = 1000\n",
            Status::Missed,
        ),
        (
            "[limits]\naverage_millilux = 555550\nuniformity_permille = 1000\n",
            Status::Undecided,
        ),
    ] {
        let room = format!(in alloc; "{BRIGHT}{limits}")?;
        let mut shelf = shelf_of(alloc, room.as_str(), &[])?;
        let (answer, _out) = page_over(&rt, alloc, &["room.toml"], &mut shelf, ROOMY)?;
        assert!(rt; answer == status, "{answer:?} with {limits}");
    }
    Ok(())
}

/// An output that takes fewer bytes than the page has gets as many of its first ones.
fn is_cut(
    rt: &(impl Abort + Threads + Sync),
    alloc: Global,
    text: &[u8],
    capacity: usize,
) -> Result<(), Fail> {
    if text.len() <= capacity {
        return Err(Fail::from("the page has fewer bytes"));
    }
    let first = &text[..capacity];
    let mut shelf = shelf_of(alloc, BRIGHT, &[])?;
    let (answer, out) = page_over(rt, alloc, &["room.toml"], &mut shelf, capacity)?;
    assert!(rt;
        answer == Status::WriteFault,
        "{answer:?} with room for {capacity} bytes"
    );
    assert!(rt;
        out.bytes() == first,
        "the text with room for {capacity} bytes"
    );
    Ok(())
}

#[test]
fn a_full_output_has_a_proper_prefix_of_the_page(rt: HostRuntime) -> Result<(), Fail> {
    let alloc = rt.alloc();
    let mut shelf = shelf_of(alloc, BRIGHT, &[])?;
    let (_status, whole) = page_over(&rt, alloc, &["room.toml"], &mut shelf, ROOMY)?;
    let text = whole.bytes();
    for capacity in [0, 1, text.len() / 2, text.len().saturating_sub(1)] {
        is_cut(&rt, alloc, text, capacity)?;
    }
    let mut shelf = shelf_of(alloc, BRIGHT, &[])?;
    let (answer, out) = page_over(&rt, alloc, &["room.toml"], &mut shelf, text.len())?;
    assert!(rt; answer == Status::Done);
    assert!(rt; out.bytes() == text);
    Ok(())
}

/// Whether the ends of each task point of a report stand in a cell of the page.
fn has_each_point(alloc: Global, page: &str, report: &str) -> Result<bool, Fail> {
    for line in report.split('\n') {
        for word in line.split(' ') {
            if line.starts_with("point") && word.contains('.') {
                let number = format!(in alloc; ">{word}<")?;
                if !page.contains(number.as_str()) {
                    return Ok(false);
                }
            }
        }
    }
    Ok(true)
}

#[test]
fn the_page_of_an_office_has_the_numbers_of_its_report(rt: HostRuntime) -> Result<(), Fail> {
    let alloc = rt.alloc();
    let files = [("f.ldt", OFFICE)];
    let mut shelf = shelf_with(alloc, OFFICE_ROOM, &files, &[])?;
    let (answer, page) = page_over(&rt, alloc, &["room.toml"], &mut shelf, ROOMY)?;
    assert!(rt; answer == Status::Done);
    let mut words = Vec::new(alloc);
    for word in ["report", "room.toml"] {
        words.push(String::from_str(alloc, word)?)?;
    }
    let mut out = MemSink::new(alloc, 4000, &[]).ok().ok_or("memory")?;
    let answer = lux(
        &rt,
        alloc,
        words.as_slice(),
        &mut shelf,
        &mut out,
        &OpenGate,
    );
    assert!(rt; answer == Status::Done);
    let report = str::from_utf8(out.bytes()).ok().ok_or("a report")?;
    let page = str::from_utf8(page.bytes()).ok().ok_or("a page")?;
    assert!(rt; report.starts_with("point 0 0 "));
    assert!(rt; has_each_point(alloc, page, report)?, "{report}");
    Ok(())
}
