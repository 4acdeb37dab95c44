//! Outputs that fail at once or take fewer bytes than the text has: what was written is the text's beginning of that length.
use super::cube::{
    CUBE_FILES, CUBE_ROOM, CUBE_TEXT, FLUX_LINES, GRID_TEXT, PLAN_TEXT, ROUTE, ROUTE_LINES,
    TRIAL_TEXT,
};
use super::cut_files::{HALL, HALL_TEXT};
use super::{answers, joined, shelf_with, status_of, text_of};
use lux_core::Status;
use lux_io::{MemShelf, MemSink};
use std::alloc::Global;
use std::process::Abort;
use std::test::Fail;
use std::thread::Threads;

/// A run with an output that takes so many bytes, and whose calls with these numbers fail, has written the first bytes of the text.
fn is_cut(
    rt: &(impl Abort + Threads + Sync),
    alloc: Global,
    words: &str,
    shelf: &mut MemShelf,
    text: &str,
    capacity: usize,
    failing: &[u64],
) -> Result<(), Fail> {
    let text = text.as_bytes();
    if text.len() <= capacity {
        return Err(Fail::from("the text has fewer bytes"));
    }
    let first = &text[..capacity];
    let mut out = MemSink::new(alloc, capacity, failing).ok().ok_or("memory")?;
    let answer = status_of(rt, alloc, words, shelf, &mut out)?;
    assert!(rt;
        answer == Status::WriteFault,
        "{words}: {answer:?} with room for {capacity} bytes"
    );
    assert!(rt;
        out.bytes() == first,
        "{words}: the text with room for {capacity} bytes"
    );
    Ok(())
}

/// The output's first call fails, and then the text is cut at each number of bytes that is so far apart from the one before. A run with
/// room for it all ends as if none had failed.
fn each_output_is_cut(
    rt: &(impl Abort + Threads + Sync),
    alloc: Global,
    words: &str,
    shelf: &mut MemShelf,
    status: Status,
    text: &str,
    apart: usize,
) -> Result<(), Fail> {
    is_cut(rt, alloc, words, shelf, text, 0, &[0])?;
    let mut capacity = 0_usize;
    for _ in 0..text.len() {
        if capacity < text.len() {
            is_cut(rt, alloc, words, shelf, text, capacity, &[])?;
        }
        capacity = capacity.saturating_add(apart);
    }
    answers(rt, alloc, words, shelf, status, text)
}

/// The same of a command on the cube.
fn each_output_of_the_cube_is_cut(
    rt: &(impl Abort + Threads + Sync),
    alloc: Global,
    words: &str,
    status: Status,
    text: &str,
    apart: usize,
) -> Result<(), Fail> {
    let mut shelf = shelf_with(alloc, &[], &CUBE_FILES, CUBE_ROOM)?;
    each_output_is_cut(rt, alloc, words, &mut shelf, status, text, apart)
}

/// A black room, in which a box lies over the middle one of three points.
const COVERED: &str =
    "version = 1\n[room]\nsize = [3000, 3000, 3000]\npatch = 3000\n[[box]]\nlo = [1000, 1000, 1000]\nhi = [2000, 2000, 2000]\n[[lamp]]\nat = [1250, 1500, 3000]\ncandela = 900\n[task]\nfrom = [0, 0]\nto = [3000, 3000]\nheight = 1500\npoints = [3, 1]\n";

/// 1350 / 2.8125^1.5 = 286.2167.., 1350 / 3.8125^1.5 = 181.3505.., their average 233.7836.., and 0.7757.. by it.
const COVERED_TEXT: &str =
    "point 0 0 286.21 286.22\npoint 1 0 covered\npoint 2 0 181.35 181.36\naverage 233.78 233.79\nuniformity 0.775 0.776\n";

#[test]
fn of_reports_of_black_rooms(rt: HostRuntime) -> Result<(), Fail> {
    let alloc = rt.alloc();
    let (words, done) = ("report room.toml", Status::Done);
    for (room, text) in [(COVERED, COVERED_TEXT), (HALL, HALL_TEXT)] {
        let mut shelf = shelf_with(alloc, &[], &[], room)?;
        each_output_is_cut(&rt, alloc, words, &mut shelf, done, text, 1)?;
    }
    Ok(())
}

#[test]
fn of_reports_and_grids(rt: HostRuntime) -> Result<(), Fail> {
    let alloc = rt.alloc();
    for (words, text) in [
        ("report room.toml", CUBE_TEXT),
        ("grid room.toml", GRID_TEXT),
    ] {
        each_output_of_the_cube_is_cut(&rt, alloc, words, Status::Done, text, 1)?;
    }
    Ok(())
}

/// What a command on the cube writes where there is room for it.
fn text_of_the_cube(
    rt: &(impl Abort + Threads + Sync),
    alloc: Global,
    words: &str,
) -> Result<String, Fail> {
    let mut shelf = shelf_with(alloc, &[], &CUBE_FILES, CUBE_ROOM)?;
    text_of(rt, alloc, words, &mut shelf, Status::Done)
}

#[test]
fn of_claims(rt: HostRuntime) -> Result<(), Fail> {
    let alloc = rt.alloc();
    let words = "certify room.toml";
    let text = text_of_the_cube(&rt, alloc, words)?;
    let text = text.as_str();
    assert!(rt; text.starts_with("patch,lower,upper\n0,"));
    each_output_of_the_cube_is_cut(&rt, alloc, words, Status::Done, text, 1)
}

/// A page has some thousands of bytes: it is cut at every 499th.
#[test]
fn of_pages(rt: HostRuntime) -> Result<(), Fail> {
    let alloc = rt.alloc();
    let words = "lux_page room.toml";
    let text = text_of_the_cube(&rt, alloc, words)?;
    let text = text.as_str();
    assert!(rt; text.starts_with("<!DOCTYPE html>"));
    each_output_of_the_cube_is_cut(&rt, alloc, words, Status::Done, text, 499)
}

#[test]
fn of_checks_and_sights(rt: HostRuntime) -> Result<(), Fail> {
    let alloc = rt.alloc();
    for (words, status, text) in [
        // no upper bound of 0 is one of 200 lux
        (
            "check room.toml dark.csv",
            Status::NotShown,
            "not shown 0\n",
        ),
        (
            "sight room.toml 0 0 0 2000 2000 2000",
            Status::Done,
            "clear\n",
        ),
    ] {
        each_output_of_the_cube_is_cut(&rt, alloc, words, status, text, 1)?;
    }
    Ok(())
}

#[test]
fn of_routes(rt: HostRuntime) -> Result<(), Fail> {
    let alloc = rt.alloc();
    let words = joined(alloc, &[ROUTE, " 300000 40 0"])?;
    let words = words.as_str();
    let limits = "limit least 300.000 missed\nlimit ratio 40.000 met\n";
    let text = joined(alloc, &[ROUTE_LINES, limits])?;
    each_output_of_the_cube_is_cut(&rt, alloc, words, Status::Missed, text.as_str(), 1)
}

/// A plan is searched for among 11^6, which takes a while: its text is cut in two places alone.
#[test]
fn of_dimming_plans(rt: HostRuntime) -> Result<(), Fail> {
    let words = "dim room.toml plan.csv 200000";
    each_output_of_the_cube_is_cut(&rt, rt.alloc(), words, Status::Done, PLAN_TEXT, 30)
}

#[test]
fn of_photometric_files(rt: HostRuntime) -> Result<(), Fail> {
    let alloc = rt.alloc();
    let text = "planes 1 gammas 2 greatest 200.00 200.00\n";
    each_output_of_the_cube_is_cut(&rt, alloc, "read even.ldt", Status::Done, text, 1)?;
    let words = "flux even.ldt 1 2514";
    let text = joined(alloc, &[FLUX_LINES, "against 2514 missed\n"])?;
    each_output_of_the_cube_is_cut(&rt, alloc, words, Status::Done, text.as_str(), 1)
}

/// Its 208 patches are reckoned anew each time: it is cut at every twelfth byte alone.
#[test]
fn of_a_made_room(rt: HostRuntime) -> Result<(), Fail> {
    each_output_of_the_cube_is_cut(&rt, rt.alloc(), "trial 4", Status::Done, TRIAL_TEXT, 12)
}

/// A refusal and the usage line are cut too, with the status of a fault of writing in place of their own.
#[test]
fn of_single_lines(rt: HostRuntime) -> Result<(), Fail> {
    let alloc = rt.alloc();
    for (words, status, text) in [
        (
            "report none.toml",
            Status::Refused,
            "refused none.toml Absent\n",
        ),
        // the claim has a record for each patch, and the room one lamp
        (
            "dim room.toml dark.csv 0",
            Status::Refused,
            "refused plan 2 Count\n",
        ),
        (
            "lux_page none.toml",
            Status::Refused,
            "refused none.toml Absent\n",
        ),
        (
            "lux_page none.toml x",
            Status::Usage,
            "usage: lux_page ROOM\n",
        ),
    ] {
        each_output_of_the_cube_is_cut(&rt, alloc, words, status, text, 1)?;
    }
    Ok(())
}

/// So is the line of a fault of a file.
#[test]
fn of_a_fault_of_a_file(rt: HostRuntime) -> Result<(), Fail> {
    let alloc = rt.alloc();
    let (words, text) = ("report room.toml", "read fault even.ldt\n");
    for capacity in 0..text.len() {
        let mut shelf = shelf_with(alloc, &[4], &CUBE_FILES, CUBE_ROOM)?;
        is_cut(&rt, alloc, words, &mut shelf, text, capacity, &[])?;
    }
    let mut shelf = shelf_with(alloc, &[4], &CUBE_FILES, CUBE_ROOM)?;
    answers(&rt, alloc, words, &mut shelf, Status::ReadFault, text)
}
