//! Files, whole: what each answers, by hand, and intensities in three files' directions, by Python's fractions.
ghost use Rattle.std.specs.Prelude.{◌<ℤ◌, ◌≤ℤ◌, pos};

use crate::read_ies;
use fx_base::{Bracket, Micro};
use photo_table::{PhotoTable, summary_text};
use std::alloc::{AllocError, Global};
use std::test::Fail;

const HEADER: &str = "IESNA:LM-63-2002";

const NONE: &str = "TILT=NONE";

/// The items of one plane and two gammas, each of 200 candela.
const ITEMS: &str = "1 -1 1 2 1 1 2 0 0 0\n1 1 0\n0 180\n0\n200 200\n";

const READ: &str = "planes 1 gammas 2 greatest 200.00 200.00\n";

/// The line that the file's table gives, or its fault.
fn answer(alloc: Global, bytes: &[u8]) -> Result<String, Fail> {
    match read_ies(alloc, bytes) {
        Ok(table) => Ok(summary_text(alloc, &table).ok().ok_or("memory")?),
        Err(fault) => Ok(fault.text(alloc)?),
    }
}

/// A first line, the line of the tilt, and items.
fn file(alloc: Global, header: &str, tilt: &str, items: &str) -> Result<String, AllocError> {
    format!(in alloc; "{header}\n{tilt}\n{items}")
}

#[test]
fn a_row_at_360_degrees_is_not_used(rt: HostRuntime) -> Result<(), Fail> {
    let text =
        "IESNA:LM-63-2002\n[TEST] none\nTILT=NONE\n1 -1 1 2 5 1 2 0 0 0\n1 1 0\n0 180\n0 90 180 270 360\n100 100\n200 200\n300 300\n400 400\n999 999\n";
    let line = answer(rt.alloc(), text.as_bytes())?;
    assert_eq!(rt; line.as_str(), "planes 4 gammas 2 greatest 400.00 400.00\n");
    Ok(())
}

#[test]
fn items_in_turn(rt: HostRuntime) -> Result<(), Fail> {
    let wanted = [
        (ITEMS, READ),
        ("1,-1,1,2,1,1,2,0,0,0,1,1,0,0,180,0,200,200", READ),
        (
            "1 -1 1 2 1 1 2 0 0 0 1 1 0 0 180 0 200 200 7",
            "11 Trailing 19",
        ),
        ("1 -1 1 2 1 1 2 0 0 0 1 1 0 0 180 5 200 200", "8 Angles 16"),
        ("1 -1 1 2 1 1 2 0 0 0 1 1 0 0 180 0 200", "4 Short 18"),
        (
            "1 -1 1 2 1 2 2 0 0 0 1 1 0 0 180 0 200 200",
            "7 PhotometricType",
        ),
        ("1 -1 1 2 1 4 2 0 0 0 1 1 0 0 180 0 200 200", "6 Range 6"),
        ("1 -1 1e3 2 1 1 2 0 0 0 1 1 0 0 180 0 200 200", "5 Number 3"),
        ("1 -1 1 2 1 1 2 0 0 0 1 1 0 0 180 0 200 -1", "9 Negative 18"),
        (
            "1 -1 10000 2 1 1 2 0 0 0 1 1 0 0 180 0 1000 1000.000001",
            "10 Intensity 18",
        ),
        (
            "1 -1 10000 2 1 1 2 0 0 0 10 1 0 0 180 0 999999999 0",
            "10 Intensity 17",
        ),
        ("", "4 Short 1"),
    ];
    for (items, text) in wanted {
        let bytes = file(rt.alloc(), HEADER, NONE, items)?;
        let line = answer(rt.alloc(), bytes.as_str().as_bytes())?;
        assert_eq!(rt; line.as_str(), text, "{items}");
    }
    Ok(())
}

#[test]
fn first_lines(rt: HostRuntime) -> Result<(), Fail> {
    let half = "1 -1 1 2 1 1 2 0 0 0 1 .5 0 0 180 0 200 200";
    let three = "1 -1 1 2 1 1 2 0 0 0 1 3 0 0 180 0 200 200";
    let hundred = "planes 1 gammas 2 greatest 100.00 100.00\n";
    let wanted = [
        ("IESNA91", half, hundred),
        ("IESNA91 \t\r", half, hundred),
        ("IESNA:LM-63-2002", half, READ),
        ("IESNA91", three, "6 Range 12"),
        ("IESNA:LM-63-1995", three, READ),
        ("IESNA:LM-63-1986", three, "1 Version"),
        ("", three, "1 Version"),
    ];
    for (header, items, text) in wanted {
        let bytes = file(rt.alloc(), header, NONE, items)?;
        let line = answer(rt.alloc(), bytes.as_str().as_bytes())?;
        assert_eq!(rt; line.as_str(), text, "{header} {items}");
    }
    Ok(())
}

#[test]
fn tilt_lines(rt: HostRuntime) -> Result<(), Fail> {
    let included = "9 0\n1 -1 1 2 1 1 2 0 0 0 1 1 0 0 180 0 200 200";
    let with_one = "9 1 0 1\n1 -1 1 2 1 1 2 0 0 0 1 1 0 0 180 0 200";
    let wanted = [
        ("1 2 3\n[MANUFAC] 4 5\nTILT=NONE\r", ITEMS, READ),
        ("TILT=INCLUDE", included, READ),
        ("TILT=INCLUDE", with_one, "4 Short 22"),
        ("TILT=INCLUDE", "9 1001", "6 Range 2"),
        ("TILT=lamp.tlt", ITEMS, "3 TiltFile"),
        ("TILT=", ITEMS, "3 TiltFile"),
        (" TILT=NONE", ITEMS, "2 NoTilt"),
    ];
    for (tilt, items, text) in wanted {
        let bytes = file(rt.alloc(), HEADER, tilt, items)?;
        let line = answer(rt.alloc(), bytes.as_str().as_bytes())?;
        assert_eq!(rt; line.as_str(), text, "{tilt}");
    }
    Ok(())
}

#[test]
fn a_thousand_tilt_factors(rt: HostRuntime) -> Result<(), Fail> {
    let mut items = String::from_str(rt.alloc(), "9 1000\n")?;
    for _ in 0..2000 {
        items.push_str("0.5 ")?;
    }
    items.push_str("1 -1 1 2 1 1 2 0 0 0 1 1 0 0 180 0 200")?;
    let short = file(rt.alloc(), HEADER, "TILT=INCLUDE", items.as_str())?;
    assert_eq!(rt;
        answer(rt.alloc(), short.as_str().as_bytes())?.as_str(),
        "4 Short 2020"
    );
    items.push_str(" 200")?;
    let whole = file(rt.alloc(), HEADER, "TILT=INCLUDE", items.as_str())?;
    assert_eq!(rt;
        answer(rt.alloc(), whole.as_str().as_bytes())?.as_str(),
        READ
    );
    Ok(())
}

#[test]
fn separators_of_every_kind(rt: HostRuntime) -> Result<(), Fail> {
    let bytes =
        b"IESNA:LM-63-1995\r\nTILT=NONE\r\n,1\r\n-1\t1 2,,1 1\x1A2 0\r\n0 0\r\n1 1 0\n\n0 180 0 200,200\r\n\x1A";
    assert_eq!(rt; answer(rt.alloc(), bytes)?.as_str(), READ);
    Ok(())
}

#[test]
fn runs_of_horizontal_angles(rt: HostRuntime) -> Result<(), Fail> {
    let wanted = [
        (
            "3 1 2 0 0 0 1 1 0 0 180 0 45 90 1 1 1 1 1 1",
            "planes 8 gammas 2 greatest 1.00 1.00\n",
        ),
        (
            "3 1 2 0 0 0 1 1 0 0 180 0 45 180 1 1 1 1 1 1",
            "planes 4 gammas 2 greatest 1.00 1.00\n",
        ),
        (
            "3 1 2 0 0 0 1 1 0 0 180 0 45 181 1 1 1 1 1 1",
            "planes 3 gammas 2 greatest 1.00 1.00\n",
        ),
        (
            "3 1 2 0 0 0 1 1 0 0 180 0 45 360 1 1 1 1 9 9",
            "planes 2 gammas 2 greatest 1.00 1.00\n",
        ),
        (
            "3 1 2 0 0 0 1 1 0 0 180 90 100 270 1 1 1 1 1 1",
            "planes 4 gammas 2 greatest 1.00 1.00\n",
        ),
        (
            "3 1 2 0 0 0 1 1 0 0 180 0 45 100 1 1 1 1 1 1",
            "8 Angles 18",
        ),
        (
            "3 1 2 0 0 0 1 1 0 0 180 90 100 180 1 1 1 1 1 1",
            "8 Angles 18",
        ),
        ("3 1 2 0 0 0 1 1 0 0 180 0 90 90 1 1 1 1 1 1", "8 Angles 18"),
        (
            "3 1 2 0 0 0 1 1 0 0 180 45 90 180 1 1 1 1 1 1",
            "8 Angles 16",
        ),
        ("3 1 2 0 0 0 1 1 0 0 45 0 90 180 1 1 1 1 1 1", "8 Angles 15"),
    ];
    for (rest, text) in wanted {
        let items = format!(in rt.alloc(); "1 -1 1 2 {rest}")?;
        let bytes = file(rt.alloc(), HEADER, NONE, items.as_str())?;
        let line = answer(rt.alloc(), bytes.as_str().as_bytes())?;
        assert_eq!(rt; line.as_str(), text, "{rest}");
    }
    Ok(())
}

/// Whether the intensity at C and gamma, in millionths of a degree, lies between so many ticks and one more, to within 2^-30 candela.
fn lies_above(table: &PhotoTable, c: i64, g: i64, ticks: i128) -> bool
    requires c_low { pos 0 ≤ℤ c }
    requires c_high { c <ℤ pos 360000000 }
    requires g_low { pos 0 ≤ℤ g }
    requires g_high { g ≤ℤ pos 180000000 }
{
    let c = Bracket {
        lo: Micro(c),
        hi: Micro(c),
    };
    let g = Bracket {
        lo: Micro(g),
        hi: Micro(g),
    };
    let hull = table.hull(c, g);
    hull.lo().0 <= ticks && ticks < hull.hi().0 && hull.hi().0 <= hull.lo().0.saturating_add(64)
}

/// The table of a file.
fn table_of(alloc: Global, bytes: &[u8]) -> Result<PhotoTable, Fail> {
    match read_ies(alloc, bytes) {
        Ok(table) => Ok(table),
        Err(_) => Err(Fail::from("refused")),
    }
}

// The ticks below are those under the value that a program in Python has with its own fractions: each intensity times the factors,
// the direction folded into the measured planes, and straight lines between the neighbouring angles.

#[test]
fn a_quarter_and_the_oldest_header(rt: HostRuntime) -> Result<(), Fail> {
    let text =
        "IESNA91\nTILT=NONE\n1 -1 1.5 3 3 1 2 0 0 0 .8 .5 0\n0 30 90\n0 40 90\n300 250 10\n310 200 20\n320.5 150 30\n";
    let table = table_of(rt.alloc(), text.as_bytes())?;
    assert!(rt; lies_above(&table, 130_000_000, 20_000_000, 9_512_149_969_797));
    assert!(rt; lies_above(&table, 300_500_000, 60_000_000, 4_213_878_313_451));
    assert!(rt; lies_above(&table, 217_250_000, 89_500_000, 859_551_804_948));
    Ok(())
}

#[test]
fn a_half_round_180_and_a_tilt(rt: HostRuntime) -> Result<(), Fail> {
    let text =
        "IESNA:LM-63-1995\nTILT=INCLUDE\n1 1 0 1\n1 -1 2 2 3 1 2 0 0 0 1 9 0\n0 180\n90 200 270\n100 7\n40 11\n90 .25\n";
    let table = table_of(rt.alloc(), text.as_bytes())?;
    assert!(rt; lies_above(&table, 80_250_000, 45_000_000, 10_012_427_760_435));
    assert!(rt; lies_above(&table, 339_000_000, 120_500_000, 2_847_654_670_520));
    assert!(rt; lies_above(&table, 180_000_000, 0, 6_996_892_176_756));
    Ok(())
}

#[test]
fn a_whole_turn_seen_from_below(rt: HostRuntime) -> Result<(), Fail> {
    let text =
        "IESNA:LM-63-2002\nTILT=NONE\n1 -1 0.333333 3 4 1 2 0 0 0 1.5 9 0\n90 120 180\n0 100 250 360\n12.345678 6 1\n9 8 7\n0.000001 1000 2\n5 5 5\n";
    let table = table_of(rt.alloc(), text.as_bytes())?;
    assert!(rt; lies_above(&table, 300_000_000, 100_000_000, 6_406_998_606_083));
    assert!(rt; lies_above(&table, 359_999_999, 119_000_000, 213_426_377_985));
    assert!(rt; lies_above(&table, 50_000_000, 90_000_000, 366_715_588_967));
    assert!(rt; !lies_above(&table, 50_000_000, 89_000_000, 0));
    Ok(())
}
