//! Files that can't be read or aren't told, and outputs that take no more.
use super::untold::Untold;
use super::{World, run, run_over, shelf_of};
use lux_core::Status;
use std::test::Fail;

const REPORT: [&str; 2] = ["report", "room.toml"];

const ROOM: &str =
    "version = 1\n[room]\nsize = [6000, 6000, 3000]\npatch = 3000\n[[lamp]]\nat = [3000, 3000, 3000]\ncandela = 5000\n[task]\nfrom = [0, 0]\nto = [6000, 6000]\nheight = 0\npoints = [1, 1]\n";

// 5000 / 9 = 555.5..
const TEXT: &str = "point 0 0 555.55 555.56\naverage 555.55 555.56\nuniformity 0.999 1.000\n";

const FAULT: &str = "read fault room.toml\n";

/// The opening, the reading of all bytes, and the reading that finds the end.
const CALLS: [u64; 3] = [0, 1, 2];

#[test]
fn each_failing_call_is_told(rt: HostRuntime) -> Result<(), Fail> {
    let alloc = rt.alloc();
    for call in CALLS {
        let world = World {
            failing: &[call],
            capacity: 500,
        };
        run(&rt, alloc, &REPORT, ROOM, &world, Status::ReadFault, FAULT)?;
    }
    // there is no further call
    let world = World {
        failing: &[3],
        capacity: 500,
    };
    run(&rt, alloc, &REPORT, ROOM, &world, Status::Done, TEXT)
}

#[test]
fn each_full_output_has_a_proper_prefix(rt: HostRuntime) -> Result<(), Fail> {
    let alloc = rt.alloc();
    let text = TEXT.as_bytes();
    for capacity in 0..text.len() {
        let mut shelf = shelf_of(alloc, ROOM, &[])?;
        run_over(
            &rt,
            alloc,
            &REPORT,
            &mut shelf,
            capacity,
            Status::WriteFault,
            &text[..capacity],
        )?;
    }
    let mut shelf = shelf_of(alloc, ROOM, &[])?;
    run_over(
        &rt,
        alloc,
        &REPORT,
        &mut shelf,
        text.len(),
        Status::Done,
        text,
    )
}

#[test]
fn a_shelf_need_not_tell_its_files(rt: HostRuntime) -> Result<(), Fail> {
    let alloc = rt.alloc();
    let shelf = shelf_of(alloc, ROOM, &[])?;
    let mut untold = Untold { shelf };
    run_over(
        &rt,
        alloc,
        &REPORT,
        &mut untold,
        500,
        Status::Done,
        TEXT.as_bytes(),
    )?;
    run_over(
        &rt,
        alloc,
        &["report", "hall.toml"],
        &mut untold,
        500,
        Status::Refused,
        b"refused hall.toml Absent\n",
    )?;
    for call in CALLS {
        let shelf = shelf_of(alloc, ROOM, &[call])?;
        let mut untold = Untold { shelf };
        run_over(
            &rt,
            alloc,
            &REPORT,
            &mut untold,
            500,
            Status::ReadFault,
            FAULT.as_bytes(),
        )?;
    }
    Ok(())
}
