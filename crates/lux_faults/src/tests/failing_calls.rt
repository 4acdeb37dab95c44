//! Each call to the files fails once: the name of the file that was being taken is told.
use super::cube::{
    CUBE_FILES, CUBE_ROOM, CUBE_TEXT, EVEN, FLUX_LINES, GRID_TEXT, PLAN_TEXT, ROUTE, ROUTE_LINES,
    TRIAL_TEXT,
};
use super::cut_files::FALLING;
use super::{answers, joined, shelf_with, text_of};
use lux_core::Status;
use lux_io::MemShelf;
use std::alloc::Global;
use std::process::Abort;
use std::test::Fail;
use std::thread::Threads;

/// The calls to a file of at most 4,096 bytes that isn't empty: its opening, the reading of all bytes, and the reading that finds its end.
const CALLS: u64 = 3;

/// A command that ends well over a room and the files of the cube.
#[derive(Clone, Copy)]
struct Row<'a> {
    words: &'a str,
    room: &'a str,
    /// The files that it takes, in order, and how many calls it takes each by.
    taken: &'a [(&'a str, u64)],
    text: &'a str,
}

/// Over the shelf of a row the command answers as the row says.
fn is_done(
    rt: &(impl Abort + Threads + Sync),
    alloc: Global,
    row: &Row<'_>,
    shelf: &mut MemShelf,
) -> Result<(), Fail> {
    answers(rt, alloc, row.words, shelf, Status::Done, row.text)
}

/// The call of this number fails, which is one of those to this file; afterwards nothing fails over the same shelf.
fn fails_once(
    rt: &(impl Abort + Threads + Sync),
    alloc: Global,
    row: &Row<'_>,
    call: u64,
    name: &str,
) -> Result<(), Fail> {
    let mut shelf = shelf_with(alloc, &[call], &CUBE_FILES, row.room)?;
    let line = joined(alloc, &["read fault ", name, "\n"])?;
    let fault = Status::ReadFault;
    answers(rt, alloc, row.words, &mut shelf, fault, line.as_str())?;
    is_done(rt, alloc, row, &mut shelf)
}

/// Each call of the command of a row fails once, and there is no further call.
fn each_call_fails_once(
    rt: &(impl Abort + Threads + Sync),
    alloc: Global,
    row: &Row<'_>,
) -> Result<(), Fail> {
    let mut call = 0_u64;
    for (name, calls) in row.taken {
        for _ in 0..*calls {
            fails_once(rt, alloc, row, call, name)?;
            call = call.wrapping_add(1);
        }
    }
    let mut shelf = shelf_with(alloc, &[call], &CUBE_FILES, row.room)?;
    is_done(rt, alloc, row, &mut shelf)
}

/// The same of a command on the cube.
fn each_call_of_the_cube_fails_once(
    rt: &(impl Abort + Threads + Sync),
    alloc: Global,
    words: &str,
    taken: &[(&str, u64)],
    text: &str,
) -> Result<(), Fail> {
    let row = Row {
        words,
        room: CUBE_ROOM,
        taken,
        text,
    };
    each_call_fails_once(rt, alloc, &row)
}

const CUBE_CALLS: [(&str, u64); 2] = [("room.toml", CALLS), ("even.ldt", CALLS)];

/// Nine calls of one shelf that fail, so that each run over it fails a call later than the one before: the k-th run begins with the call
/// 1 + 2 + .. + k, and fails at its own k-th. Three files are taken by nine calls.
const EACH_A_CALL_LATER: [u64; 9] = [0, 2, 5, 9, 14, 20, 27, 35, 44];

/// Nine runs over such a shelf fail, and tell which of the three files was being taken. The tenth is done and has written this text.
fn each_run_fails_a_call_later(
    rt: &(impl Abort + Threads + Sync),
    alloc: Global,
    words: &str,
    shelf: &mut MemShelf,
    taken: [&str; 3],
    text: &str,
) -> Result<(), Fail> {
    for name in taken {
        let line = joined(alloc, &["read fault ", name, "\n"])?;
        for _ in 0..CALLS {
            answers(rt, alloc, words, shelf, Status::ReadFault, line.as_str())?;
        }
    }
    answers(rt, alloc, words, shelf, Status::Done, text)
}

/// A room with a desk, and two lamps of a file each.
const TWO_LAMPS: &str =
    "version = 1\n[room]\nsize = [4000, 3000, 2500]\nreflect = [200, 700, 500, 500, 500, 500]\npatch = 1000\n[[box]]\nlo = [500, 1000, 0]\nhi = [1500, 2000, 700]\nreflect = 300\n[[lamp]]\nat = [1000, 1500, 2500]\nfile = \"falling.ldt\"\nset = 2\n[[lamp]]\nat = [3000, 1400, 2400]\nfile = \"even.ies\"\n[task]\nfrom = [0, 0]\nto = [4000, 3000]\nheight = 750\npoints = [2, 2]\n";

/// An even luminaire of 200 cd.
const EVEN_IES: &str =
    "IESNA:LM-63-2002\nTILT=NONE\n1 -1 1 2 1 1 2 0 0 0\n1 1 0\n0 180\n0\n200 200\n";

/// 140.372042, 134.294713, 139.026836, 124.758655, 134.613062 and 0.926795 by `bench/expected.py`.
const TWO_LAMPS_TEXT: &str =
    "point 0 0 140.37 140.38\npoint 1 0 134.29 134.30\npoint 0 1 139.02 139.03\npoint 1 1 124.75 124.76\naverage 134.61 134.62\nuniformity 0.926 0.927\n";

#[test]
fn of_a_report_with_two_files(rt: HostRuntime) -> Result<(), Fail> {
    let alloc = rt.alloc();
    let files = [("falling.ldt", FALLING), ("even.ies", EVEN_IES)];
    let mut shelf = shelf_with(alloc, &EACH_A_CALL_LATER, &files, TWO_LAMPS)?;
    each_run_fails_a_call_later(
        &rt,
        alloc,
        "report room.toml",
        &mut shelf,
        ["room.toml", "falling.ldt", "even.ies"],
        TWO_LAMPS_TEXT,
    )
}

#[test]
fn of_reports_and_grids(rt: HostRuntime) -> Result<(), Fail> {
    let alloc = rt.alloc();
    let words = "report room.toml";
    each_call_of_the_cube_fails_once(&rt, alloc, words, &CUBE_CALLS, CUBE_TEXT)?;
    let words = "grid room.toml";
    each_call_of_the_cube_fails_once(&rt, alloc, words, &CUBE_CALLS, GRID_TEXT)
}

/// A claim and a page are compared with those of another run, over files that don't fail.
#[test]
fn of_claims_and_pages(rt: HostRuntime) -> Result<(), Fail> {
    let alloc = rt.alloc();
    for words in ["certify room.toml", "lux_page room.toml"] {
        let mut shelf = shelf_with(alloc, &[], &CUBE_FILES, CUBE_ROOM)?;
        let text = text_of(&rt, alloc, words, &mut shelf, Status::Done)?;
        each_call_of_the_cube_fails_once(&rt, alloc, words, &CUBE_CALLS, text.as_str())?;
    }
    Ok(())
}

#[test]
fn of_checks(rt: HostRuntime) -> Result<(), Fail> {
    let alloc = rt.alloc();
    let words = "check room.toml claim.csv";
    let taken = [
        ("room.toml", CALLS),
        ("even.ldt", CALLS),
        ("claim.csv", CALLS),
    ];
    each_call_of_the_cube_fails_once(&rt, alloc, words, &taken, "shown 6\n")
}

/// A plan is searched for among 11^6, which takes a while, so that only the last run comes to an answer.
#[test]
fn of_dimming_plans(rt: HostRuntime) -> Result<(), Fail> {
    let alloc = rt.alloc();
    let mut shelf = shelf_with(alloc, &EACH_A_CALL_LATER, &CUBE_FILES, CUBE_ROOM)?;
    each_run_fails_a_call_later(
        &rt,
        alloc,
        "dim room.toml plan.csv 200000",
        &mut shelf,
        ["room.toml", "even.ldt", "plan.csv"],
        PLAN_TEXT,
    )
}

#[test]
fn of_sights_and_routes(rt: HostRuntime) -> Result<(), Fail> {
    let alloc = rt.alloc();
    let words = "sight room.toml 0 0 0 2000 2000 2000";
    let taken = [("room.toml", CALLS)];
    each_call_of_the_cube_fails_once(&rt, alloc, words, &taken, "clear\n")?;
    let words = joined(alloc, &[ROUTE, " 1000 40 0"])?;
    let words = words.as_str();
    let limits = "limit least 1.000 met\nlimit ratio 40.000 met\n";
    let text = joined(alloc, &[ROUTE_LINES, limits])?;
    each_call_of_the_cube_fails_once(&rt, alloc, words, &CUBE_CALLS, text.as_str())
}

#[test]
fn of_photometric_files(rt: HostRuntime) -> Result<(), Fail> {
    let alloc = rt.alloc();
    let taken = [("even.ldt", CALLS)];
    let words = "read even.ldt";
    let text = "planes 1 gammas 2 greatest 200.00 200.00\n";
    each_call_of_the_cube_fails_once(&rt, alloc, words, &taken, text)?;
    let words = "flux even.ldt 1 2500";
    let text = joined(alloc, &[FLUX_LINES, "against 2500 met\n"])?;
    each_call_of_the_cube_fails_once(&rt, alloc, words, &taken, text.as_str())
}

/// A room of more than 8,192 bytes is read in three pieces.
#[test]
fn of_a_long_file(rt: HostRuntime) -> Result<(), Fail> {
    let alloc = rt.alloc();
    let mut room = String::from_str(alloc, CUBE_ROOM)?;
    for _ in 0..100 {
        room.push_str(
            "# a remark of so many words that a hundred of them make a room of more than eight thousand bytes\n",
        )?;
    }
    let row = Row {
        words: "report room.toml",
        room: room.as_str(),
        taken: &[("room.toml", 5), ("even.ldt", CALLS)],
        text: CUBE_TEXT,
    };
    each_call_fails_once(&rt, alloc, &row)
}

/// A made room and words that are no command take no file: the first call is still to come.
#[test]
fn where_nothing_is_taken(rt: HostRuntime) -> Result<(), Fail> {
    let alloc = rt.alloc();
    let mut shelf = shelf_with(alloc, &[0], &CUBE_FILES, CUBE_ROOM)?;
    for (words, status, text) in [
        ("trial 4", Status::Done, TRIAL_TEXT),
        (
            "lux_page room.toml x",
            Status::Usage,
            "usage: lux_page ROOM\n",
        ),
        (
            "report room.toml",
            Status::ReadFault,
            "read fault room.toml\n",
        ),
        ("report room.toml", Status::Done, CUBE_TEXT),
    ] {
        answers(&rt, alloc, words, &mut shelf, status, text)?;
    }
    Ok(())
}
