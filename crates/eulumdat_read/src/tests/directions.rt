//! A file of each symmetry: its summary, and its intensity in ten directions.
//!
//! The numbers are those of `bench/photometry.py`, which reads EULUMDAT in Python's fractions and has no code of Lux:
//! `bench/photometry.py --tests` over this file computes them anew. A row has C and gamma in millionths of a degree, and the ticks at
//! or below the intensity.
use super::{answer, table_of};
use fx_base::{Bracket, Micro};
use photo_table::PhotoTable;
use std::alloc::Global;
use std::process::Abort;
use std::test::Fail;

/// Whether the intensity at C and gamma lies within three ticks, of which these are one: rounded to a tick at each end, and the hull
/// one more.
fn is_lit(table: &PhotoTable, c: i64, g: i64, ticks: i128) -> Result<bool, Fail> {
    let asked = if 0 <= c && c < 360_000_000 && 0 <= g && g <= 180_000_000 {
        Ok(())
    } else {
        Err("beyond what may be asked")
    };
    asked?;
    let c = Bracket {
        lo: Micro(c),
        hi: Micro(c),
    };
    let g = Bracket {
        lo: Micro(g),
        hi: Micro(g),
    };
    let hull = table.hull(c, g);
    Ok(hull.lo().0 <= ticks && ticks <= hull.hi().0 && hull.hi().0 <= hull.lo().0.saturating_add(3))
}

/// The summary of a file, and its intensity in the direction of each row.
fn check(
    rt: &impl Abort,
    alloc: Global,
    text: &str,
    summary: &str,
    rows: &str,
) -> Result<(), Fail> {
    let line = answer(alloc, text.as_bytes(), 1)?;
    assert_eq!(rt; line.as_str().trim_end(), summary);
    let table = table_of(alloc, text.as_bytes())?;
    for row in rows.lines() {
        let (c, rest) = row.split_once(" ").ok_or("an angle C")?;
        let (g, ticks) = rest.split_once(" ").ok_or("a gamma")?;
        let c: i64 = c.parse().ok().ok_or("an angle C")?;
        let g: i64 = g.parse().ok().ok_or("a gamma")?;
        let ticks: i128 = ticks.parse().ok().ok_or("ticks")?;
        assert!(rt; is_lit(&table, c, g, ticks)?, "{row}");
    }
    Ok(())
}

/// Every half-plane is stored, at uneven angles.
const ALL: &str =
    "-\n-\n0\n5\n-\n4\n-\n-\n-\n-\n-\n-\n-\n-\n-\n-\n-\n-\n-\n-\n-\n-\n-\n0.75\n-\n1\n-\nLED\n2500.5\n-\n-\n-\n-\n-\n-\n-\n-\n-\n-\n-\n-\n-\n0\n50\n130\n200.5\n300\n0\n30\n75.25\n90\n145\n.1\n179.79\n570,679592\n593,614629\n739,766294\n186.54\n159,529133\n672.50\n276.83\n.5\n118,650515\n543\n250.32\n706.57\n208.15\n691,621528\n488,886886\n755\n.1\n";

const ALL_ROWS: &str = "0 0 18686844359147
50000000 30000000 95337224814630
25000000 15000000 47634729131154
130000000 75250000 64437394341
165125000 50000000 39024475495781
250000000 89500000 16221289966737
300000000 90000000 12887478868
330000000 60000000 50554161943067
359999999 1000000 18064380299759
10000000 12345678 25652290671762";

/// One half-plane stands for all; the other angles C are read and not used.
const ROUND: &str =
    "-\n-\n1\n3\n-\n5\n-\n-\n-\n-\n-\n-\n-\n-\n-\n-\n-\n-\n-\n-\n-\n-\n-\n1.2\n-\n1\n-\nLED\n900\n-\n-\n-\n-\n-\n-\n-\n-\n-\n-\n-\n-\n-\n0\n120\n240\n0\n20\n45\n90\n180\n.9\n.4\n380.31\n228,385465\n.6\n";

const ROUND_ROWS: &str = "0 0 66795331387
77000000 20000000 29686813949
120000000 45000000 28225480533265
359000000 90000000 16950092020820
180000000 180000000 44530220924
0 10000000 48241072668
200500000 33300000 15029849072625
240000000 100000000 15071696265276
1000000 179999999 44530408764
300000000 46000000 27974916344100";

/// The half-planes from 0 to 180 are stored; those beyond are mirrored, wherever the file's own angles C lie.
const HALF: &str =
    "-\n-\n2\n6\n-\n3\n-\n-\n-\n-\n-\n-\n-\n-\n-\n-\n-\n-\n-\n-\n-\n-\n-\n1\n-\n1\n-\nLED\n1234,5\n-\n-\n-\n-\n-\n-\n-\n-\n-\n-\n-\n-\n-\n0\n60\n130\n180\n220\n300\n0\n45\n90\n150\n420,111155\n.5\n.7\n822\n116\n.6\n247\n.8\n549,203370\n551,365284\n865.01\n";

const HALF_ROWS: &str = "0 45000000 35639791237686
30000000 45000000 52686749365416
60000000 22500000 34896545714484
155000000 0 23321062884626
180000000 90000000 73382426178402
181000000 45000000 46258217813407
205000000 70000000 35453676072706
230000000 10000000 4696043940671
300000000 45000000 69733707493146
359500000 89000000 919621946496";

/// The half-planes from 270 past the seam to 90 are stored, and mirrored at the plane of C 90 and 270.
const ACROSS: &str =
    "-\n-\n3\n8\n-\n4\n-\n-\n-\n-\n-\n-\n-\n-\n-\n-\n-\n-\n-\n-\n-\n-\n-\n.333333\n-\n1\n-\nLED\n4000\n-\n-\n-\n-\n-\n-\n-\n-\n-\n-\n-\n-\n-\n0\n30\n90\n150\n180\n200\n270\n310\n10\n40\n100\n170\n205.14\n.4\n88.21\n587\n47,060728\n.5\n283,183893\n552,953763\n.3\n492,539708\n.8\n.1\n412.50\n51.63\n891,915735\n752\n205\n.8\n219.73\n856.16\n";

const ACROSS_ROWS: &str = "0 10000000 27487763206
15000000 40000000 24930013462856
60000000 70000000 26664865131866
90000000 100000000 20132954031294
120000000 135000000 62301146676381
180000000 40000000 45129382877854
230000000 55000000 6521102866266
270000000 170000000 53784390007598
290000000 11000000 11170295658280
325000000 99999999 18184870987988";

/// A quarter is stored, and mirrored twice.
const QUARTER: &str =
    "-\n-\n4\n12\n-\n3\n-\n-\n-\n-\n-\n-\n-\n-\n-\n-\n-\n-\n-\n-\n-\n-\n-\n2\n-\n1\n-\nLED\n750\n-\n-\n-\n-\n-\n-\n-\n-\n-\n-\n-\n-\n-\n0\n20\n50\n90\n130\n160\n180\n200\n230\n270\n310\n340\n0\n33.3\n90\n200\n701.86\n.5\n.5\n125,494501\n241,146910\n868,108088\n182\n.9\n634,111660\n595.13\n391.83\n";

const QUARTER_ROWS: &str = "0 0 20615843020800
10000000 33300000 42641526287920
35000000 60000000 14259734578809
90000000 90000000 40389528854200
110000000 20000000 54978866688064
170000000 33300000 42641526287920
190000000 50000000 33750428798465
215000000 5500000 39991213744883
270000000 45000000 57021278402329
350250000 80000000 17653989773288";

#[test]
fn every_half_plane_is_stored(rt: HostRuntime) -> Result<(), Fail> {
    check(
        &rt,
        rt.alloc(),
        ALL,
        "planes 5 gammas 4 greatest 1415.90 1415.91",
        ALL_ROWS,
    )
}

#[test]
fn one_half_plane_stands_for_all(rt: HostRuntime) -> Result<(), Fail> {
    check(
        &rt,
        rt.alloc(),
        ROUND,
        "planes 1 gammas 5 greatest 410.73 410.74",
        ROUND_ROWS,
    )
}

#[test]
fn a_half_turn_is_mirrored(rt: HostRuntime) -> Result<(), Fail> {
    check(
        &rt,
        rt.alloc(),
        HALF,
        "planes 6 gammas 3 greatest 1067.85 1067.86",
        HALF_ROWS,
    )
}

#[test]
fn a_half_turn_across_the_seam_is_mirrored(rt: HostRuntime) -> Result<(), Fail> {
    check(
        &rt,
        rt.alloc(),
        ACROSS,
        "planes 8 gammas 4 greatest 1189.21 1189.22",
        ACROSS_ROWS,
    )
}

#[test]
fn a_quarter_is_mirrored_twice(rt: HostRuntime) -> Result<(), Fail> {
    check(
        &rt,
        rt.alloc(),
        QUARTER,
        "planes 12 gammas 3 greatest 1302.16 1302.17",
        QUARTER_ROWS,
    )
}
