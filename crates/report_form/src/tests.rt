//! The texts are those of the rules for printed texts: hundredths and thousandths as decimals, a line or a record for each point.
ghost use Rattle.std.specs.Prelude.{◌≡◌, IfOk};
ghost use Rattle.report_form.specs.SpelledTests.{middle_covered, two_rows};

use crate::{Ends, Points, Printed, Report, grid_text, overall_text, report_text};
use fx_base::Memory;
use std::alloc::Global;
use std::test::Fail;

/// Three points in a row, the middle one covered.
fn middle_covered(alloc: Global) -> Result<Report, Memory>
    ensures { IfOk result (λ r. r ≡ middle_covered) }
{
    let desk = Printed {
        lo: 23041,
        hi: 23042,
    };
    Ok(Report {
        columns: 3,
        points: Points::from_vec(vec![in alloc; Some(desk), None, Some(desk)]?),
        average: desk,
        uniformity: Some(Printed { lo: 999, hi: 1000 }),
    })
}

/// Two rows of two points, the last one covered.
fn two_rows(alloc: Global) -> Result<Report, Memory>
    ensures { IfOk result (λ r. r ≡ two_rows) }
{
    let points = vec![in alloc;
        Some(Printed { lo: 0, hi: 1 }),
        Some(Printed { lo: 2, hi: 30 }),
        Some(Printed { lo: 400, hi: 5000 }),
        None,
    ]?;
    Ok(Report {
        columns: 2,
        points: Points::from_vec(points),
        average: Printed { lo: 0, hi: 1677 },
        uniformity: None,
    })
}

#[test]
fn a_covered_point_has_no_number(rt: HostRuntime) -> Result<(), Fail> {
    let report = middle_covered(rt.alloc())?;
    assert_eq!(rt;
        report_text(rt.alloc(), &report)?.as_str(),
        "point 0 0 230.41 230.42\npoint 1 0 covered\npoint 2 0 230.41 230.42\naverage 230.41 230.42\nuniformity 0.999 1.000\n"
    );
    assert_eq!(rt;
        grid_text(rt.alloc(), &report)?.as_slice(),
        b"column,row,lower,upper\n0,0,230.41,230.42\n1,0,,\n2,0,230.41,230.42\n".as_slice()
    );
    Ok(())
}

#[test]
fn two_rows_of_two_points(rt: HostRuntime) -> Result<(), Fail> {
    let report = two_rows(rt.alloc())?;
    assert_eq!(rt;
        report_text(rt.alloc(), &report)?.as_str(),
        "point 0 0 0.00 0.01\npoint 1 0 0.02 0.30\npoint 0 1 4.00 50.00\npoint 1 1 covered\naverage 0.00 16.77\nuniformity none\n"
    );
    assert_eq!(rt;
        overall_text(rt.alloc(), &report)?.as_str(),
        "average 0.00 16.77\nuniformity none\n"
    );
    assert_eq!(rt;
        grid_text(rt.alloc(), &report)?.as_slice(),
        b"column,row,lower,upper\n0,0,0.00,0.01\n1,0,0.02,0.30\n0,1,4.00,50.00\n1,1,,\n".as_slice()
    );
    Ok(())
}

#[test]
fn limits_are_held_against_thousandths(rt: HostRuntime) -> Result<(), Fail> {
    let report = middle_covered(rt.alloc())?;
    assert_eq!(rt;
        report.ends(),
        Ends {
            average_lo: 230_410,
            average_hi: 230_420,
            uniformity: Some((999, 1000)),
        }
    );
    Ok(())
}
