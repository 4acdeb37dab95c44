//! The example luminaire in both formats: the two files stand for the same intensities.
use crate::photometry::read_table;
use crate::words::Format;
use fx_base::{Bracket, Micro};
use photo_table::PhotoTable;
use std::test::Fail;

/// `examples/panel.ldt`.
const PANEL_LDT: &[u8] = b"\
Lux examples: made for this repository, not a maker's luminaire\r\n3\r\n4\r\n24\r\n15\r\n37\r\n5\r\n\
0\r\nOffice panel 1200 x 300, made up\r\nLUX-EXAMPLE-1\r\npanel.ldt\r\n2026-12-01 Lux\r\n1200\r\n\
300\r\n60\r\n1180\r\n280\r\n0\r\n0\r\n0\r\n0\r\n100\r\n100\r\n1\r\n0\r\n1\r\n1\r\nLED\r\n3800\r\n\
4000\r\n80\r\n30\r\n0\r\n0\r\n0\r\n0\r\n0\r\n0\r\n0\r\n0\r\n0\r\n0\r\n0\r\n15\r\n30\r\n45\r\n60\r\n\
75\r\n90\r\n105\r\n120\r\n135\r\n150\r\n165\r\n180\r\n195\r\n210\r\n225\r\n240\r\n255\r\n270\r\n\
285\r\n300\r\n315\r\n330\r\n345\r\n0\r\n5\r\n10\r\n15\r\n20\r\n25\r\n30\r\n35\r\n40\r\n45\r\n50\r\n\
55\r\n60\r\n65\r\n70\r\n75\r\n80\r\n85\r\n90\r\n95\r\n100\r\n105\r\n110\r\n115\r\n120\r\n125\r\n\
130\r\n135\r\n140\r\n145\r\n150\r\n155\r\n160\r\n165\r\n170\r\n175\r\n180\r\n405.2\r\n404.8\r\n\
403.1\r\n399.2\r\n391.7\r\n379\r\n360.1\r\n334.5\r\n302.3\r\n264.4\r\n222.1\r\n175.7\r\n124.7\r\n\
70.4\r\n26.5\r\n6.3\r\n1\r\n0.1\r\n0\r\n0\r\n0\r\n0\r\n0\r\n0\r\n0\r\n0\r\n0\r\n0\r\n0\r\n0\r\n0\r\n\
0\r\n0\r\n0\r\n0\r\n0\r\n0\r\n405.2\r\n404.7\r\n402.8\r\n398.6\r\n390.8\r\n378\r\n359.2\r\n333.8\r\n\
302.2\r\n265.1\r\n223.5\r\n177.7\r\n126.9\r\n72.2\r\n27.5\r\n6.6\r\n1.1\r\n0.1\r\n0\r\n0\r\n0\r\n\
0\r\n0\r\n0\r\n0\r\n0\r\n0\r\n0\r\n0\r\n0\r\n0\r\n0\r\n0\r\n0\r\n0\r\n0\r\n0\r\n405.2\r\n404.5\r\n\
401.9\r\n396.8\r\n388.2\r\n375\r\n356.4\r\n332\r\n301.9\r\n266.8\r\n227.2\r\n183.2\r\n133.1\r\n\
77.3\r\n30.2\r\n7.5\r\n1.3\r\n0.1\r\n0\r\n0\r\n0\r\n0\r\n0\r\n0\r\n0\r\n0\r\n0\r\n0\r\n0\r\n0\r\n\
0\r\n0\r\n0\r\n0\r\n0\r\n0\r\n0\r\n405.2\r\n404.1\r\n400.7\r\n394.4\r\n384.6\r\n370.8\r\n352.4\r\n\
329.1\r\n301.1\r\n268.7\r\n232.1\r\n190.7\r\n141.9\r\n84.9\r\n34.4\r\n8.9\r\n1.6\r\n0.2\r\n0\r\n\
0\r\n0\r\n0\r\n0\r\n0\r\n0\r\n0\r\n0\r\n0\r\n0\r\n0\r\n0\r\n0\r\n0\r\n0\r\n0\r\n0\r\n0\r\n405.2\r\n\
403.8\r\n399.4\r\n391.9\r\n381\r\n366.4\r\n348.1\r\n325.8\r\n299.8\r\n270.2\r\n236.8\r\n198.3\r\n\
151.2\r\n93.2\r\n39.2\r\n10.6\r\n2\r\n0.2\r\n0\r\n0\r\n0\r\n0\r\n0\r\n0\r\n0\r\n0\r\n0\r\n0\r\n0\r\n\
0\r\n0\r\n0\r\n0\r\n0\r\n0\r\n0\r\n0\r\n405.2\r\n403.5\r\n398.5\r\n390.1\r\n378.3\r\n363.1\r\n\
344.7\r\n323.1\r\n298.5\r\n270.9\r\n240\r\n203.8\r\n158.2\r\n99.7\r\n43\r\n12.1\r\n2.4\r\n0.3\r\n\
0\r\n0\r\n0\r\n0\r\n0\r\n0\r\n0\r\n0\r\n0\r\n0\r\n0\r\n0\r\n0\r\n0\r\n0\r\n0\r\n0\r\n0\r\n0\r\n\
405.2\r\n403.5\r\n398.2\r\n389.4\r\n377.2\r\n361.9\r\n343.4\r\n322.1\r\n298\r\n271.2\r\n241.1\r\n\
205.9\r\n160.8\r\n102.2\r\n44.5\r\n12.7\r\n2.6\r\n0.3\r\n0\r\n0\r\n0\r\n0\r\n0\r\n0\r\n0\r\n0\r\n\
0\r\n0\r\n0\r\n0\r\n0\r\n0\r\n0\r\n0\r\n0\r\n0\r\n0\r\n";

/// `examples/panel.ies`.
const PANEL_IES: &[u8] = b"\
IESNA:LM-63-2002\r\n[TEST] none: made for this repository, not a maker's luminaire\r\n\
[MANUFAC] Lux examples\r\n[LUMCAT] LUX-EXAMPLE-1\r\n[LUMINAIRE] Office panel 1200 x 300, made up\r\n\
TILT=NONE\r\n1 3800 3.8 19 7 1 2 0.28 1.18 0\r\n1 1 30\r\n\
0 5 10 15 20 25 30 35 40 45 50 55 60 65 70 75 80 85 90\r\n0 15 30 45 60 75 90\r\n\
405.2 404.8 403.1 399.2 391.7 379 360.1 334.5 302.3 264.4 222.1 175.7 124.7\r\n\
70.4 26.5 6.3 1 0.1 0\r\n\
405.2 404.7 402.8 398.6 390.8 378 359.2 333.8 302.2 265.1 223.5 177.7 126.9\r\n\
72.2 27.5 6.6 1.1 0.1 0\r\n\
405.2 404.5 401.9 396.8 388.2 375 356.4 332 301.9 266.8 227.2 183.2 133.1\r\n\
77.3 30.2 7.5 1.3 0.1 0\r\n\
405.2 404.1 400.7 394.4 384.6 370.8 352.4 329.1 301.1 268.7 232.1 190.7\r\n\
141.9 84.9 34.4 8.9 1.6 0.2 0\r\n\
405.2 403.8 399.4 391.9 381 366.4 348.1 325.8 299.8 270.2 236.8 198.3 151.2\r\n\
93.2 39.2 10.6 2 0.2 0\r\n\
405.2 403.5 398.5 390.1 378.3 363.1 344.7 323.1 298.5 270.9 240 203.8 158.2\r\n\
99.7 43 12.1 2.4 0.3 0\r\n\
405.2 403.5 398.2 389.4 377.2 361.9 343.4 322.1 298 271.2 241.1 205.9 160.8\r\n\
102.2 44.5 12.7 2.6 0.3 0\r\n";

/// Planes of the files, and angles between them, on either side of each mirror and of the end of a turn; in millionths of a degree.
const PLANES: [i64; 10] = [
    0,
    7_500_000,
    41_000_001,
    90_000_000,
    104_300_000,
    179_999_999,
    211_700_000,
    270_000_000,
    300_300_000,
    359_999_999,
];

/// Gammas of the files, and angles between them; the last of the LM-63 file is 90 degrees, and above it both are dark.
const GAMMAS: [i64; 10] = [
    0,
    1,
    12_500_000,
    30_000_000,
    44_999_999,
    61_200_000,
    87_654_321,
    90_000_000,
    90_000_001,
    180_000_000,
];

/// Whether both tables have the same intensities in this direction, to the tick.
fn agree(first: &PhotoTable, second: &PhotoTable, c: i64, gamma: i64) -> bool {
    if c < 0 || c >= 360_000_000 || gamma < 0 || gamma > 180_000_000 {
        return false;
    }
    let c = Bracket {
        lo: Micro(c),
        hi: Micro(c),
    };
    let gamma = Bracket {
        lo: Micro(gamma),
        hi: Micro(gamma),
    };
    let one = first.hull(c, gamma);
    let other = second.hull(c, gamma);
    one.lo() == other.lo() && one.hi() == other.hi()
}

#[test]
fn both_files_of_the_panel_agree(rt: HostRuntime) -> Result<(), Fail> {
    let first = read_table(rt.alloc(), Format::Eulumdat(1), PANEL_LDT)
        .ok()
        .ok_or("ldt")?;
    let second = read_table(rt.alloc(), Format::Lm63, PANEL_IES)
        .ok()
        .ok_or("ies")?;
    for c in PLANES.as_slice() {
        for gamma in GAMMAS.as_slice() {
            assert!(rt; agree(&first, &second, *c, *gamma), "at {c} and {gamma}");
        }
    }
    Ok(())
}
