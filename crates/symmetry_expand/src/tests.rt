//! Tables unfolded from a few measured planes: how many planes they have, and whose intensity stands where. Worked out by hand from the
//! mirrors: C has what was measured at C, 360 - C, 180 - C or 180 + C, and between planes it runs in a straight line.
ghost use Rattle.std.specs.Prelude.{◌∷◌, [], ◌<ℤ◌, ◌+ℤ◌, pos};
ghost use Rattle.symmetry_expand.specs.Measured.{AreSuited};

use crate::{ExpandFault, Measured, Symmetry, expand};
use fx_base::{Bracket, Micro, Span};
use photo_table::{PhotoTable, summary_text};
use std::alloc::Global;
use std::process::Abort;
use std::test::Fail;

/// Half a candela, in ticks.
const HALF: i128 = 34_359_738_368;

/// The table of four planes, of 1, 2, 3 and 4 cd at all gammas up to 90 degrees.
fn of_four(
    alloc: Global,
    first: Micro,
    second: Micro,
    third: Micro,
    fourth: Micro,
    symmetry: Symmetry,
) -> Result<Result<PhotoTable, ExpandFault>, Fail>
    requires first { first.0 <ℤ second.0 }
    requires second { second.0 <ℤ third.0 }
    requires third { third.0 <ℤ fourth.0 }
    requires turn { fourth.0 <ℤ (first.0 +ℤ pos 360000000) }
    requires suited { AreSuited symmetry (first ∷ second ∷ third ∷ fourth ∷ []) }
{
    let planes = vec![in alloc; first, second, third, fourth]?;
    let gammas = vec![in alloc; Micro(0), Micro(90_000_000)]?;
    let values = vec![in alloc;
        Span::whole(1),
        Span::whole(1),
        Span::whole(2),
        Span::whole(2),
        Span::whole(3),
        Span::whole(3),
        Span::whole(4),
        Span::whole(4),
    ]?;
    let measured = Measured {
        planes,
        gammas,
        values,
    };
    Ok(expand(alloc, measured, symmetry))
}

/// The table of one plane, of 1 cd.
fn of_one(alloc: Global, plane: Micro) -> Result<Result<PhotoTable, ExpandFault>, Fail> {
    let planes = vec![in alloc; plane]?;
    let gammas = vec![in alloc; Micro(0), Micro(90_000_000)]?;
    let values = vec![in alloc; Span::whole(1), Span::whole(1)]?;
    let measured = Measured {
        planes,
        gammas,
        values,
    };
    Ok(expand(alloc, measured, Symmetry::Axis))
}

/// Whether the intensity at so many degrees is so many half candelas, to within a tick.
fn is_lit(table: &PhotoTable, degrees: i64, halves: i128) -> Result<bool, Fail> {
    let asked = if 0 <= degrees && degrees < 360 && 0 <= halves && halves < 100 {
        Ok(())
    } else {
        Err("beyond what may be asked")
    };
    asked?;
    let c = Bracket {
        lo: Micro(degrees * 1_000_000),
        hi: Micro(degrees * 1_000_000),
    };
    let g = Bracket {
        lo: Micro(45_000_000),
        hi: Micro(45_000_000),
    };
    let hull = table.hull(c, g);
    let ticks = halves * HALF;
    Ok(
        ticks.saturating_sub(1) <= hull.lo().0
            && hull.lo().0 <= ticks
            && ticks <= hull.hi().0
            && hull.hi().0 <= ticks.saturating_add(1),
    )
}

/// A table's summary, and rows of degrees of C and half candelas.
fn check(
    rt: &impl Abort,
    alloc: Global,
    unfolded: Result<PhotoTable, ExpandFault>,
    summary: &str,
    rows: &str,
) -> Result<(), Fail> {
    let table = unfolded.ok().ok_or("refused")?;
    let line = summary_text(alloc, &table).ok().ok_or("memory")?;
    assert_eq!(rt; line.as_str().trim_end(), summary);
    for row in rows.lines() {
        let (degrees, halves) = row.split_once(" ").ok_or("an angle")?;
        let degrees: i64 = degrees.parse().ok().ok_or("an angle")?;
        let halves: i128 = halves.parse().ok().ok_or("an intensity")?;
        assert!(rt; is_lit(&table, degrees, halves)?, "{row}");
    }
    Ok(())
}

/// At each plane and in the middle between some.
const NONE: &str = "0 2\n90 4\n180 6\n270 8\n45 3\n315 5";

const AXIS: &str = "0 2\n70 2\n123 2\n359 2";

const PLANE0: &str = "0 2\n60 4\n120 6\n180 8\n240 6\n300 4\n210 7\n330 3";

const BELOW_0: &str = "40 6\n90 8\n140 6\n200 4\n270 2\n340 4\n10 5\n170 5\n235 3";

const FROM_90: &str = "80 4\n90 2\n100 4\n200 6\n270 8\n340 6\n150 5\n30 5";

const BOTH: &str =
    "0 2\n30 4\n60 6\n90 8\n120 6\n150 4\n180 2\n210 4\n240 6\n270 8\n300 6\n330 4\n105 7\n345 3";

#[test]
fn every_plane_was_measured(rt: HostRuntime) -> Result<(), Fail> {
    let alloc = rt.alloc();
    let table = of_four(
        alloc,
        Micro(0),
        Micro(90_000_000),
        Micro(180_000_000),
        Micro(270_000_000),
        Symmetry::None,
    )?;
    check(
        &rt,
        alloc,
        table,
        "planes 4 gammas 2 greatest 4.00 4.00",
        NONE,
    )
}

#[test]
fn one_plane_stands_for_all(rt: HostRuntime) -> Result<(), Fail> {
    let table = of_one(rt.alloc(), Micro(70_000_000))?;
    check(
        &rt,
        rt.alloc(),
        table,
        "planes 1 gammas 2 greatest 1.00 1.00",
        AXIS,
    )
}

#[test]
fn mirrored_at_0(rt: HostRuntime) -> Result<(), Fail> {
    let alloc = rt.alloc();
    let table = of_four(
        alloc,
        Micro(0),
        Micro(60_000_000),
        Micro(120_000_000),
        Micro(180_000_000),
        Symmetry::Plane0,
    )?;
    check(
        &rt,
        alloc,
        table,
        "planes 6 gammas 2 greatest 4.00 4.00",
        PLANE0,
    )
}

#[test]
fn mirrored_at_90_from_below_0(rt: HostRuntime) -> Result<(), Fail> {
    let alloc = rt.alloc();
    let table = of_four(
        alloc,
        Micro(-90_000_000),
        Micro(-20_000_000),
        Micro(40_000_000),
        Micro(90_000_000),
        Symmetry::Plane90,
    )?;
    check(
        &rt,
        alloc,
        table,
        "planes 6 gammas 2 greatest 4.00 4.00",
        BELOW_0,
    )
}

#[test]
fn mirrored_at_90_from_90_on(rt: HostRuntime) -> Result<(), Fail> {
    let alloc = rt.alloc();
    let table = of_four(
        alloc,
        Micro(90_000_000),
        Micro(100_000_000),
        Micro(200_000_000),
        Micro(270_000_000),
        Symmetry::Plane90,
    )?;
    check(
        &rt,
        alloc,
        table,
        "planes 6 gammas 2 greatest 4.00 4.00",
        FROM_90,
    )
}

#[test]
fn mirrored_twice(rt: HostRuntime) -> Result<(), Fail> {
    let alloc = rt.alloc();
    let table = of_four(
        alloc,
        Micro(0),
        Micro(30_000_000),
        Micro(60_000_000),
        Micro(90_000_000),
        Symmetry::Both,
    )?;
    check(
        &rt,
        alloc,
        table,
        "planes 12 gammas 2 greatest 4.00 4.00",
        BOTH,
    )
}

#[test]
fn planes_that_end_elsewhere_are_refused(rt: HostRuntime) -> Result<(), Fail> {
    let alloc = rt.alloc();
    let short = of_four(
        alloc,
        Micro(0),
        Micro(60_000_000),
        Micro(120_000_000),
        Micro(170_000_000),
        Symmetry::Plane0,
    )?;
    assert!(rt; matches!(&short, Err(ExpandFault::PlaneAngle)));
    let late = of_four(
        alloc,
        Micro(1),
        Micro(30_000_000),
        Micro(60_000_000),
        Micro(90_000_000),
        Symmetry::Both,
    )?;
    assert!(rt; matches!(&late, Err(ExpandFault::PlaneAngle)));
    let turned = of_four(
        alloc,
        Micro(-90_000_000),
        Micro(0),
        Micro(90_000_000),
        Micro(180_000_000),
        Symmetry::Plane90,
    )?;
    assert!(rt; matches!(&turned, Err(ExpandFault::PlaneAngle)));
    Ok(())
}
