//! Summaries of photometric files, and files that are refused. The numbers are worked out by hand: an intensity is the value times the
//! factors of its file, and the refusals are those of the two grammars.
use super::{CALM, run_over};
use lux_core::Status;
use lux_io::MemShelf;
use std::alloc::Global;
use std::process::Abort;
use std::test::Fail;
use std::thread::Threads;

const USAGE: &[u8] =
    b"usage: lux report ROOM | grid ROOM | read FILE [SET] | sight ROOM X Y Z X Y Z | certify ROOM | check ROOM CLAIM | trial N | flux FILE SET LUMENS | dim ROOM PLAN MILLILUX | escape ROOM X Y X Y MILLILUX RATIO LAMP ..\n";

/// An EULUMDAT file of one half-plane, 100 cd per 1000 lm in all directions and 2000 lm: lines before its angles, with these lines in
/// place of 3, 4, 24, 28 and 29.
fn even_ldt(
    alloc: Global,
    isym: &str,
    planes: &str,
    factor: &str,
    kind: &str,
    flux: &str,
) -> Result<String, Fail> {
    let mut text = format!(in alloc; "-\n-\n{isym}\n{planes}\n-\n2\n")?;
    for _ in 0..17 {
        text.push_str("-\n")?;
    }
    let sets = format!(in alloc; "{factor}\n-\n1\n-\n{kind}\n{flux}\n-\n-\n-\n")?;
    text.push_str(sets.as_str())?;
    for _ in 0..10 {
        text.push_str("-\n")?;
    }
    text.push_str("0\n0\n180\n")?;
    Ok(text)
}

/// A run over a shelf with one file.
fn read(
    rt: &(impl Abort + Threads + Sync),
    alloc: Global,
    words: &[&str],
    name: &str,
    bytes: &[u8],
    status: Status,
    text: &[u8],
) -> Result<(), Fail> {
    let mut shelf = MemShelf::new(alloc, &[]).ok().ok_or("memory")?;
    shelf.add(name, bytes).ok().ok_or("memory")?;
    run_over(rt, alloc, words, &mut shelf, CALM.capacity, status, text)
}

#[test]
fn an_eulumdat_file_is_summed_up(rt: HostRuntime) -> Result<(), Fail> {
    let alloc = rt.alloc();
    let head = even_ldt(alloc, "1", "1", "1", "LED", "2000")?;
    let file = format!(in alloc; "{head}100\n100\n")?;
    let summary = b"planes 1 gammas 2 greatest 200.00 200.00\n";
    for words in [
        ["read", "a.ldt"].as_slice(),
        ["read", "a.ldt", "1"].as_slice(),
    ] {
        read(
            &rt,
            alloc,
            words,
            "a.ldt",
            file.as_bytes(),
            Status::Done,
            summary,
        )?;
    }
    // a decimal comma, a last line of one byte 0x1A, and a name with capitals that isn't one of LM-63
    let file = format!(in alloc; "{head}100,0\n100\n\u{1a}")?;
    read(
        &rt,
        alloc,
        &["read", "A.IESX"],
        "A.IESX",
        file.as_bytes(),
        Status::Done,
        summary,
    )?;
    Ok(())
}

/// `read a.ldt` of a file with these lines is refused with this text.
fn is_refused(
    rt: &(impl Abort + Threads + Sync),
    alloc: Global,
    file: &str,
    text: &str,
) -> Result<(), Fail> {
    read(
        rt,
        alloc,
        &["read", "a.ldt"],
        "a.ldt",
        file.as_bytes(),
        Status::Refused,
        text.as_bytes(),
    )
}

#[test]
fn a_line_before_the_angles_is_refused(rt: HostRuntime) -> Result<(), Fail> {
    let alloc = rt.alloc();
    for (isym, planes, factor, kind, flux, text) in [
        // six planes don't divide by four
        (
            "4",
            "6",
            "1",
            "LED",
            "2000",
            "refused a.ldt 7 Expand 1 PlaneCount\n",
        ),
        // the type of the lamp stands where its flux belongs
        ("1", "1", "1", "2000", "LED", "refused a.ldt 2 Number 29\n"),
        (
            "1",
            "1",
            "1234567890",
            "LED",
            "2000",
            "refused a.ldt 3 Range 24\n",
        ),
    ] {
        let head = even_ldt(alloc, isym, planes, factor, kind, flux)?;
        let file = format!(in alloc; "{head}100\n100\n")?;
        is_refused(&rt, alloc, file.as_str(), text)?;
    }
    Ok(())
}

#[test]
fn intensities_are_refused_and_lines_after_them(rt: HostRuntime) -> Result<(), Fail> {
    let alloc = rt.alloc();
    let head = even_ldt(alloc, "1", "1", "1", "LED", "2000")?;
    for (rest, text) in [
        ("100\n", "refused a.ldt 1 Short 47\n"),
        ("100\n-1\n", "refused a.ldt 6 Negative 47\n"),
        ("100\n100\nx\n", "refused a.ldt 9 Trailing 48\n"),
    ] {
        let file = format!(in alloc; "{head}{rest}")?;
        is_refused(&rt, alloc, file.as_str(), text)?;
    }
    Ok(())
}

#[test]
fn a_lamp_set_that_the_file_has_not_is_refused(rt: HostRuntime) -> Result<(), Fail> {
    let alloc = rt.alloc();
    let head = even_ldt(alloc, "1", "1", "1", "LED", "2000")?;
    let file = format!(in alloc; "{head}100\n100\n")?;
    read(
        &rt,
        alloc,
        &["read", "a.ldt", "2"],
        "a.ldt",
        file.as_bytes(),
        Status::Refused,
        b"refused a.ldt 4 NoLampSet\n",
    )
}

#[test]
fn an_lm_63_file_is_summed_up_or_refused(rt: HostRuntime) -> Result<(), Fail> {
    let alloc = rt.alloc();
    for (first, items, status, text) in [
        (
            "IESNA:LM-63-2002",
            "1 -1 1 2 5 1 2 0 0 0\n1 1 0\n0 180\n0 90 180 270 360\n100 100\n200 200\n300 300\n400 400\n999 999\n",
            Status::Done,
            "planes 4 gammas 2 greatest 400.00 400.00\n",
        ),
        (
            "IESNA:LM-63-2002",
            "1 -1 1 2 1 1 2 0 0 0\n1 1 0\n0 180\n0\n200 200\n",
            Status::Done,
            "planes 1 gammas 2 greatest 200.00 200.00\n",
        ),
        // half of it by the factor that the oldest header has
        (
            "IESNA91",
            "1 -1 1 2 1 1 2 0 0 0\n1 0.5 0\n0 180\n0\n200 200\n",
            Status::Done,
            "planes 1 gammas 2 greatest 100.00 100.00\n",
        ),
        (
            "IESNA:LM-63-2002",
            "1 -1 1 2 1 1 2 0 0 0\n1 1 0\n0 180\n0\n200\n",
            Status::Refused,
            "refused c.IeS 4 Short 18\n",
        ),
        (
            "IESNA:LM-63-1986",
            "1 -1 1 2 1 1 2 0 0 0\n1 1 0\n0 180\n0\n200 200\n",
            Status::Refused,
            "refused c.IeS 1 Version\n",
        ),
    ] {
        let file = format!(in alloc; "{first}\n[TEST] none\nTILT=NONE\n{items}")?;
        // a lamp set is of no account here
        for words in [
            ["read", "c.IeS"].as_slice(),
            ["read", "c.IeS", "20"].as_slice(),
        ] {
            read(
                &rt,
                alloc,
                words,
                "c.IeS",
                file.as_bytes(),
                status,
                text.as_bytes(),
            )?;
        }
    }
    Ok(())
}

#[test]
fn files_are_absent_or_too_long(rt: HostRuntime) -> Result<(), Fail> {
    let alloc = rt.alloc();
    let long = vec![in alloc; b' '; 16_777_217]?;
    let text = b"refused big.ies TooLong\n";
    read(
        &rt,
        alloc,
        &["read", "big.ies"],
        "big.ies",
        long.as_slice(),
        Status::Refused,
        text,
    )?;
    let text = b"refused none.ies Absent\n";
    read(
        &rt,
        alloc,
        &["read", "none.ies"],
        "a.ies",
        b"",
        Status::Refused,
        text,
    )?;
    Ok(())
}

#[test]
fn lamp_sets_are_plain_numbers_to_20(rt: HostRuntime) -> Result<(), Fail> {
    let alloc = rt.alloc();
    for set in ["0", "21", "01", "+1", "1.0", ""] {
        read(
            &rt,
            alloc,
            &["read", "a.ldt", set],
            "a.ldt",
            b"",
            Status::Usage,
            USAGE,
        )?;
    }
    let last = b"refused a.ldt 1 Short 1\n";
    read(
        &rt,
        alloc,
        &["read", "a.ldt", "20"],
        "a.ldt",
        b"",
        Status::Refused,
        last,
    )?;
    Ok(())
}
