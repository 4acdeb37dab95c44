//! Claims on the light of patches: those that the planner writes, and those of others. Each patch of the cube has 407.9227.. lux.
use super::luminaires::OFFICE;
use super::office::OFFICE_ROOM;
use super::rooms::{CUBE, FLOOR, GREY, MIDDLE, shelf_with};
use super::run_over;
use fork_rows::OpenGate;
use lux_core::{Status, lux};
use lux_io::{MemShelf, MemSink, Shelf};
use std::alloc::{AllocError, Global};
use std::process::Abort;
use std::test::Fail;
use std::thread::Threads;

/// A claim with the same two ticks for each of six patches.
fn same_for_six(alloc: Global, lower: &str, upper: &str) -> Result<String, AllocError> {
    let mut text = String::from_str(alloc, "patch,lower,upper\n")?;
    for patch in 0..6 {
        let record = format!(in alloc; "{patch},{lower},{upper}\n")?;
        text.push_str(record.as_str())?;
    }
    Ok(text)
}

/// A check of a claim on the cube: it ends with this status and has written this line.
fn checked(
    rt: &(impl Abort + Threads + Sync),
    alloc: Global,
    claim: &str,
    status: Status,
    line: &str,
) -> Result<(), Fail> {
    let room = format!(in alloc; "{CUBE}{GREY}{MIDDLE}candela = 200\n{FLOOR}")?;
    let mut shelf = shelf_with(alloc, room.as_str(), &[("claim.csv", claim)], &[])?;
    run_over(
        rt,
        alloc,
        &["check", "room.toml", "claim.csv"],
        &mut shelf,
        200,
        status,
        line.as_bytes(),
    )
}

#[test]
fn a_claim_is_shown_or_a_patch_is_named(rt: HostRuntime) -> Result<(), Fail> {
    let alloc = rt.alloc();
    for (lower, upper, status, line) in [
        // 407 and 408 lux
        (
            "27968827031552",
            "28037546508288",
            Status::Done,
            "shown 6\n",
        ),
        // 2^90
        (
            "0",
            "1237940039285380274899124224",
            Status::Done,
            "shown 6\n",
        ),
        // 400 lux
        ("0", "27487790694400", Status::NotShown, "not shown 0\n"),
        // 500 lux
        (
            "34359738368000",
            "1237940039285380274899124224",
            Status::NotShown,
            "not shown 0\n",
        ),
        (
            "28037546508288",
            "27968827031552",
            Status::NotShown,
            "not shown 0\n",
        ),
        (
            "0",
            "1237940039285380274899124225",
            Status::Refused,
            "refused claim 1 Record 1\n",
        ),
    ] {
        let claim = same_for_six(alloc, lower, upper)?;
        checked(&rt, alloc, claim.as_str(), status, line)?;
    }
    Ok(())
}

#[test]
fn a_text_that_is_no_claim_is_refused(rt: HostRuntime) -> Result<(), Fail> {
    let alloc = rt.alloc();
    for (claim, line) in [
        ("", "refused claim 2 Count\n"),
        (
            "patch,lower,upper\n0,0,0\n1,0,0\n2,0,0\n3,0,0\n4,0,0\n",
            "refused claim 2 Count\n",
        ),
        (
            "patch,lower,upper\n0,0,0\n1,0,0\n3,0,0\n",
            "refused claim 3 Order 3\n",
        ),
        ("patch,lower,upper\n0,x,0\n", "refused claim 1 Record 1\n"),
        ("patch,lower\n0,0,0\n", "refused claim 1 Record 1\n"),
    ] {
        checked(&rt, alloc, claim, Status::Refused, line)?;
    }
    Ok(())
}

#[test]
fn a_room_is_refused_before_its_claim_is_looked_at(rt: HostRuntime) -> Result<(), Fail> {
    let alloc = rt.alloc();
    for (room, line) in [
        ("version = 3\n", "refused room 2 Version\n"),
        (
            "version = 1\n[room]\nsize = [10000, 1000, 1000]\nreflect = [700, 700, 700, 700, 700, 700]\npatch = 10000\n[task]\nfrom = [0, 0]\nto = [10000, 1000]\nheight = 0\npoints = [1, 1]\n",
            "refused rows 1 RowSum 0 1.140\n",
        ),
        (
            "version = 1\n[room]\nsize = [6000, 6000, 3000]\n[task]\nfrom = [0, 0]\nto = [6000, 6000]\nheight = 0\npoints = [1, 1]\n",
            "refused claim.csv Absent\n",
        ),
    ] {
        let mut shelf = shelf_with(alloc, room, &[], &[])?;
        run_over(
            &rt,
            alloc,
            &["check", "room.toml", "claim.csv"],
            &mut shelf,
            200,
            Status::Refused,
            line.as_bytes(),
        )?;
    }
    Ok(())
}

/// The claim that is written of the room on the shelf.
fn certified(
    rt: &(impl Abort + Threads + Sync),
    alloc: Global,
    shelf: &mut MemShelf,
) -> Result<String, Fail> {
    let mut words = Vec::new(alloc);
    for word in ["certify", "room.toml"] {
        words.push(String::from_str(alloc, word)?)?;
    }
    let mut out = MemSink::new(alloc, 100_000, &[]).ok().ok_or("memory")?;
    let answer = lux(rt, alloc, words.as_slice(), shelf, &mut out, &OpenGate);
    assert!(rt; answer == Status::Done, "{answer:?}");
    let text = str::from_utf8(out.bytes()).ok().ok_or("text")?;
    Ok(String::from_str(alloc, text)?)
}

/// The claim with the lower tick of patch 5 raised far above its upper one.
fn with_fifth_raised(alloc: Global, claim: &str) -> Result<String, Fail> {
    let mut text = String::new(alloc);
    for line in claim.lines() {
        match line
            .split_once("5,")
            .filter(|(before, _)| before.is_empty())
        {
            Some((_, ticks)) => {
                let (_, upper) = ticks.split_once(",").ok_or("a record")?;
                let tick = upper.parse::<u64>().ok().ok_or("a tick")?;
                let twice = tick.checked_mul(2).ok_or("a tick")?;
                let record = format!(in alloc; "5,{twice},{upper}\n")?;
                text.push_str(record.as_str())?;
            }
            None => {
                text.push_str(line)?;
                text.push_str("\n")?;
            }
        }
    }
    Ok(text)
}

#[test]
fn what_is_certified_is_shown(rt: HostRuntime) -> Result<(), Fail> {
    let alloc = rt.alloc();
    let mut shelf = shelf_with(alloc, OFFICE_ROOM, &[("f.ldt", OFFICE)], &[])?;
    let claim = certified(&rt, alloc, &mut shelf)?;
    let raised = with_fifth_raised(alloc, claim.as_str())?;
    shelf
        .add("claim.csv", claim.as_bytes())
        .ok()
        .ok_or("memory")?;
    shelf
        .add("raised.csv", raised.as_bytes())
        .ok()
        .ok_or("memory")?;
    for (name, status, line) in [
        ("claim.csv", Status::Done, "shown 726\n"),
        ("raised.csv", Status::NotShown, "not shown 5\n"),
    ] {
        run_over(
            &rt,
            alloc,
            &["check", "room.toml", name],
            &mut shelf,
            200,
            status,
            line.as_bytes(),
        )?;
    }
    Ok(())
}
