//! Spans and rows against values from outside.
use crate::{TangentTable, cos_span, pi_span, sin_span};
use fx_base::{MICROS_IN_DEGREE, Micro, Span};
use std::test::Fail;

/// The value lies between tick `floor` and the next one, the span holds both, and it is at most 16 ticks wide.
fn holds(span: Span, floor: i64) -> bool {
    let (lo, hi) = (span.lo().0, span.hi().0);
    let tick = floor as i128;
    lo <= tick && tick < hi && tick < lo + 16 && hi <= lo + 16
}

#[test]
fn pi_lies_between_neighbouring_ticks(rt: HostRuntime) {
    let pi = pi_span();
    assert!(rt; pi.lo().0 <= 215_888_603_272);
    assert!(rt; pi.hi().0 >= 215_888_603_273);
    assert!(rt; pi.hi().0 <= pi.lo().0.saturating_add(8));
}

#[test]
fn sine_and_cosine_begin_at_0_and_1(rt: HostRuntime) {
    assert_eq!(rt; sin_span(Micro(0)).lo().0, 0);
    assert!(rt; cos_span(Micro(0)).hi().0 >= 68_719_476_736);
}

#[test]
fn sine_and_cosine_of_45_degrees_meet(rt: HostRuntime) {
    let sine = sin_span(Micro(45_000_000));
    let cosine = cos_span(Micro(45_000_000));
    assert!(rt; sine.lo().0 <= cosine.hi().0 && cosine.lo().0 <= sine.hi().0);
}

// The whole ticks below sin and cos, by mpmath at 60 digits: floor(sin(mpf(angle) * pi / 180000000) * 2**36).
#[test]
fn sines_and_cosines_hold_the_values_of_mpmath(rt: HostRuntime) {
    for (angle, sine, cosine) in [
        (1, 1_199, 68_719_476_735),
        (15_625, 18_740_329, 68_719_474_180),
        (15_000_000, 17_785_909_348, 66_377_917_348),
        (30_000_000, 34_359_738_367, 59_512_812_588),
        (45_000_000, 48_592_007_999, 48_592_007_999),
    ] {
        assert!(rt; holds(sin_span(Micro(angle)), sine), "sine of {angle}");
        assert!(rt; holds(cos_span(Micro(angle)), cosine), "cosine of {angle}");
    }
}

#[test]
fn rows_are_the_spans_of_their_angles(rt: HostRuntime) -> Result<(), Fail> {
    let table = TangentTable::build(rt.alloc())?;
    for row in [0, 1, 1_920, TangentTable::ROWS - 1] {
        let angle = Micro(row as i64 * 15_625);
        assert_eq!(rt;
            table.sin(row).lo(),
            sin_span(angle).lo(),
            "sine of row {row}"
        );
        assert_eq!(rt;
            table.cos(row).hi(),
            cos_span(angle).hi(),
            "cosine of row {row}"
        );
    }
    Ok(())
}

#[test]
fn the_rows_go_from_0_to_45_degrees(rt: HostRuntime) {
    // 45 * 64 + 1 rows, of a degree by 64 each
    assert_eq!(rt; TangentTable::ROWS, 2_881);
    assert_eq!(rt; TangentTable::STEP * 64, MICROS_IN_DEGREE);
}
