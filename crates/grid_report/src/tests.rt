//! What is expected is worked out with Python's fractions from the rules of the definitions: sums over the points that aren't covered,
//! quotients rounded outward, and a uniformity of at most 1.
ghost use Rattle.std.specs.Prelude.{◌≡◌, ◌^◌, ◌<◌, ◌≤◌, true, false, All, length};
ghost use Rattle.scene_system.specs.Sums.{open_total, IsValue};

use crate::{Ends, PointValue, Ratio, ends, grid_text, report, report_text, uniformity};
use fx_base::{Span, tick_of};
use std::test::Fail;

/// The value at a point that isn't covered, in ticks.
fn lit(low: u128, high: u128) -> PointValue
    requires order { low ≤ high }
    requires most { high ≤ 2 ^ 102 }
    ensures uncovered { result.covered ≡ false }
    ensures value { IsValue result }
{
    PointValue {
        covered: false,
        value: Span::new(tick_of(low), tick_of(high)),
    }
}

/// The value at a covered point.
fn dark() -> PointValue
    ensures covered { result.covered ≡ true }
    ensures value { IsValue result }
{
    PointValue {
        covered: true,
        value: Span::whole(0),
    }
}

#[test]
fn covered_points_do_not_count(rt: HostRuntime) -> Result<(), Fail> {
    assert_eq!(rt;
        uniformity(&[lit(1000, 1003), dark(), lit(2000, 2006), lit(10, 12)]),
        Some(Ratio {
            lo: 9930,
            hi: 11965
        })
    );
    Ok(())
}

#[test]
fn uniformity_is_at_most_one(rt: HostRuntime) -> Result<(), Fail> {
    assert_eq!(rt;
        uniformity(&[lit(700, 700)]),
        Some(Ratio {
            lo: 1_000_000,
            hi: 1_000_000,
        })
    );
    assert_eq!(rt;
        uniformity(&[lit(700, 900), dark()]),
        Some(Ratio {
            lo: 777_777,
            hi: 1_000_000,
        })
    );
    Ok(())
}

#[test]
fn nearly_no_light_has_no_uniformity(rt: HostRuntime) -> Result<(), Fail> {
    assert_eq!(rt; uniformity(&[lit(0, 50), lit(1, 60)]), None);
    Ok(())
}

/// Two rows of two points, one of them covered.
fn two_rows() -> [PointValue; 4]
    ensures values { All IsValue result }
    ensures some { 0 < open_total result }
    ensures four { length result ≡ 4 }
{
    [
        lit(6_871_947_673_600, 6_871_947_673_600),
        dark(),
        lit(3_435_973_836_801, 3_435_973_836_802),
        lit(34_359_738_368, 848_383_171_991),
    ]
}

#[test]
fn reports_have_a_line_for_each_point(rt: HostRuntime) -> Result<(), Fail> {
    let values = [lit(15_833_998_232_125, 15_833_998_232_135), dark()];
    assert_eq!(rt;
        report_text(rt.alloc(), 2, &values)?.as_str(),
        "point 0 0 230.41 230.42\npoint 1 0 covered\naverage 230.41 230.42\nuniformity 0.999 1.000\n"
    );
    assert_eq!(rt;
        report_text(rt.alloc(), 2, &two_rows())?.as_str(),
        "point 0 0 100.00 100.00\npoint 1 0 covered\npoint 0 1 50.00 50.01\npoint 1 1 0.50 12.35\naverage 50.16 54.12\nuniformity 0.009 0.247\n"
    );
    assert_eq!(rt;
        report_text(rt.alloc(), 1, &[lit(0, 343_597_383)])?.as_str(),
        "point 0 0 0.00 0.01\naverage 0.00 0.01\nuniformity none\n"
    );
    Ok(())
}

#[test]
fn grids_have_a_record_for_each_point(rt: HostRuntime) -> Result<(), Fail> {
    let desk = lit(15_833_998_232_125, 15_833_998_232_135);
    let values = [desk, dark(), desk];
    assert_eq!(rt;
        grid_text(rt.alloc(), 3, &values)?.as_slice(),
        b"column,row,lower,upper\n0,0,230.41,230.42\n1,0,,\n2,0,230.41,230.42\n".as_slice()
    );
    Ok(())
}

#[test]
fn limits_are_held_against_printed_ends(rt: HostRuntime) -> Result<(), Fail> {
    let wanted = Ends {
        average_lo: 50_160,
        average_hi: 54_120,
        uniformity: Some((9, 247)),
    };
    assert_eq!(rt; ends(&two_rows()), wanted);
    assert_eq!(rt; report(rt.alloc(), 2, &two_rows())?.ends(), wanted);
    assert_eq!(rt;
        ends(&[lit(0, 343_597_383)]),
        Ends {
            average_lo: 0,
            average_hi: 10,
            uniformity: None,
        }
    );
    Ok(())
}
