//! Fluxes of photometric files. An even intensity I sends 4 pi I; the other values are those of `bench/photometry.py`, which sums the
//! zones in fractions and with mpmath. Where bars stand between numbers, each of them is an admissible printed end.
use super::luminaires::{EVEN, FALLING};
use super::rooms::is_among;
use super::run_over;
use fork_rows::OpenGate;
use lux_core::{Status, lux};
use lux_io::{MemShelf, MemSink};
use std::alloc::Global;
use std::process::Abort;
use std::test::Fail;
use std::thread::Threads;

const USAGE: &str =
    "usage: lux report ROOM | grid ROOM | read FILE [SET] | sight ROOM X Y Z X Y Z | certify ROOM | check ROOM CLAIM | trial N | flux FILE SET LUMENS | dim ROOM PLAN MILLILUX | escape ROOM X Y X Y MILLILUX RATIO LAMP ..\n";

/// A file of LM-63 that shines evenly, by so many candela.
fn even_ies(alloc: Global, candela: &str) -> Result<String, Fail> {
    let text = format!(in alloc;
        "IESNA:LM-63-2002\nTILT=NONE\n1 -1 1 2 1 1 2 0 0 0\n1 1 0\n0 180\n0\n{candela} {candela}\n"
    )?;
    Ok(text)
}

/// A run of these words over a shelf with this file: it ends with this status and has written a text of these words.
fn flux(
    rt: &(impl Abort + Threads + Sync),
    alloc: Global,
    words: &[&str],
    file: (&str, &str),
    status: Status,
    text: &str,
) -> Result<(), Fail> {
    let mut given = Vec::new(alloc);
    for word in words {
        given.push(String::from_str(alloc, word)?)?;
    }
    let mut shelf = MemShelf::new(alloc, &[]).ok().ok_or("memory")?;
    shelf.add(file.0, file.1.as_bytes()).ok().ok_or("memory")?;
    let mut out = MemSink::new(alloc, 400, &[]).ok().ok_or("memory")?;
    let answer = lux(rt, alloc, given.as_slice(), &mut shelf, &mut out, &OpenGate);
    let written = str::from_utf8(out.bytes()).ok().ok_or("text")?;
    assert!(rt; answer == status, "{answer:?}: {written}");
    assert!(rt; is_among(written, text), "{written}");
    Ok(())
}

#[test]
fn an_even_luminaire_sends_the_same_up_and_down(rt: HostRuntime) -> Result<(), Fail> {
    let alloc = rt.alloc();
    // 200 cd: 4 pi 200 = 2513.27412..
    for (lumens, verdict) in [
        ("2500", "met"),
        ("2513", "met"),
        ("2514", "missed"),
        ("0", "met"),
        ("1000000", "missed"),
    ] {
        let text = format!(in alloc;
            "down 1256.63 1256.64\nup 1256.63 1256.64\nflux 2513.27 2513.28\nagainst {lumens} {verdict}\n"
        )?;
        let words = ["flux", "a.ldt", "1", lumens];
        flux(
            &rt,
            alloc,
            &words,
            ("a.ldt", EVEN),
            Status::Done,
            text.as_str(),
        )?;
    }
    Ok(())
}

#[test]
fn a_number_within_the_printed_interval_is_undecided(rt: HostRuntime) -> Result<(), Fail> {
    let alloc = rt.alloc();
    // 4 pi 79.577471 = 999.9999940..: the interval holds 1000
    let file = even_ies(alloc, "79.577471")?;
    for (lumens, verdict) in [("999", "met"), ("1000", "undecided"), ("1001", "missed")] {
        let text = format!(in alloc;
            "down 499.99 500.00\nup 499.99 500.00\nflux 999.99 1000.00\nagainst {lumens} {verdict}\n"
        )?;
        let words = ["flux", "d.ies", "20", lumens];
        flux(
            &rt,
            alloc,
            &words,
            ("d.ies", file.as_str()),
            Status::Done,
            text.as_str(),
        )?;
    }
    Ok(())
}

#[test]
fn a_luminaire_that_shines_down_sends_nothing_up(rt: HostRuntime) -> Result<(), Fail> {
    let alloc = rt.alloc();
    // 300 cd straight down, falling to 0 at 90 degrees: 685.71723.. in zones
    let text = "down 685.71 685.72\nup 0.00 0.00|0.01\nflux 685.71 685.72\nagainst 1000 missed\n";
    let words = ["flux", "e.ldt", "1", "1000"];
    flux(&rt, alloc, &words, ("e.ldt", FALLING), Status::Done, text)
}

#[test]
fn a_file_that_is_refused_has_no_flux(rt: HostRuntime) -> Result<(), Fail> {
    let alloc = rt.alloc();
    let words = ["flux", "a.ldt", "2", "0"];
    flux(
        &rt,
        alloc,
        &words,
        ("a.ldt", EVEN),
        Status::Refused,
        "refused a.ldt 4 NoLampSet\n",
    )?;
    let words = ["flux", "b.ldt", "1", "0"];
    flux(
        &rt,
        alloc,
        &words,
        ("a.ldt", EVEN),
        Status::Refused,
        "refused b.ldt Absent\n",
    )?;
    let words = ["flux", "a.ies", "1", "0"];
    flux(
        &rt,
        alloc,
        &words,
        ("a.ies", EVEN),
        Status::Refused,
        "refused a.ies 1 Version\n",
    )
}

#[test]
fn words_that_ask_for_no_flux(rt: HostRuntime) -> Result<(), Fail> {
    let alloc = rt.alloc();
    for words in [
        ["flux", "a.ldt", "1"].as_slice(),
        ["flux", "a.ldt", "0", "100"].as_slice(),
        ["flux", "a.ldt", "21", "100"].as_slice(),
        ["flux", "a.ldt", "1", "1000001"].as_slice(),
        ["flux", "a.ldt", "1", "0100"].as_slice(),
        ["flux", "a.ldt", "1", "100", "100"].as_slice(),
    ] {
        let mut shelf = MemShelf::new(alloc, &[]).ok().ok_or("memory")?;
        run_over(
            &rt,
            alloc,
            words,
            &mut shelf,
            400,
            Status::Usage,
            USAGE.as_bytes(),
        )?;
    }
    Ok(())
}
