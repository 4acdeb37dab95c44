//! Verdicts by table. What is expected is worked out by hand: the ends and the limits are whole thousandths, and each row says on which
//! side of the limit its ends lie.
ghost use Rattle.std.specs.Prelude.{◌≤◌, IfSome};

use crate::{Verdict, Verdicts, judge, verdict_text, verdicts};
use room_layout::Limits;
use std::alloc::Global;
use std::test::Fail;

#[test]
fn a_verdict_turns_at_the_limit_itself(rt: HostRuntime) {
    assert_eq!(rt; judge(300_000, 299_980, 300_020), Verdict::Undecided);
    assert_eq!(rt; judge(300_000, 300_000, 300_040), Verdict::Met);
    assert_eq!(rt; judge(300_000, 299_999, 300_040), Verdict::Undecided);
    assert_eq!(rt; judge(300_000, 299_950, 299_990), Verdict::Missed);
    assert_eq!(rt; judge(300_000, 299_950, 299_999), Verdict::Missed);
    assert_eq!(rt; judge(300_000, 299_950, 300_000), Verdict::Undecided);
    assert_eq!(rt; judge(0, 0, 0), Verdict::Met);
    assert_eq!(rt; judge(u128::MAX, u128::MAX, u128::MAX), Verdict::Met);
}

#[test]
fn missed_goes_before_undecided_and_undecided_before_met(rt: HostRuntime) {
    let (met, missed, undecided) = (Verdict::Met, Verdict::Missed, Verdict::Undecided);
    let wanted = [
        (met, met, met),
        (met, missed, missed),
        (met, undecided, undecided),
        (missed, met, missed),
        (missed, missed, missed),
        (missed, undecided, missed),
        (undecided, met, undecided),
        (undecided, missed, missed),
        (undecided, undecided, undecided),
    ];
    for (average, uniformity, overall) in wanted {
        let both = Verdicts {
            average: Some(average),
            uniformity: Some(uniformity),
        };
        assert_eq!(rt; both.overall(), overall, "{average} {uniformity}");
    }
}

#[test]
fn a_limit_that_is_not_given_has_no_verdict(rt: HostRuntime) {
    let limits = Limits {
        average: None,
        uniformity: Some(500),
    };
    let uniformity_alone = verdicts(&limits, 0, 10, Some((500, 501)));
    assert_eq!(rt; uniformity_alone.average, None);
    assert_eq!(rt; uniformity_alone.uniformity, Some(Verdict::Met));
    let limits = Limits {
        average: None,
        uniformity: None,
    };
    let neither = verdicts(&limits, 0, 10, None);
    assert_eq!(rt; neither.uniformity, None);
    assert_eq!(rt; neither.overall(), Verdict::Met);
}

/// The lines of these limits by these ends.
fn lines(
    alloc: Global,
    limits: Limits,
    average: (u128, u128),
    uniformity: Option<(u32, u32)>,
) -> Result<String, Fail>
    requires average_in_order { average.0 ≤ average.1 }
    requires uniformity_in_order { IfSome uniformity (λ e. e.0 ≤ e.1) }
{
    let text = verdict_text(alloc, &limits, average.0, average.1, uniformity);
    let text = text.ok().ok_or("memory")?;
    Ok(text)
}

#[test]
fn the_average_has_its_line(rt: HostRuntime) -> Result<(), Fail> {
    let wanted = [
        (555_555, "limit average 555.555 undecided\n"),
        (555_550, "limit average 555.550 met\n"),
        (555_561, "limit average 555.561 missed\n"),
    ];
    for (least, line) in wanted {
        let limits = Limits {
            average: Some(least),
            uniformity: None,
        };
        let text = lines(rt.alloc(), limits, (555_550, 555_560), Some((999, 1000)))?;
        assert_eq!(rt; text.as_str(), line);
    }
    Ok(())
}

#[test]
fn the_uniformity_has_its_line(rt: HostRuntime) -> Result<(), Fail> {
    let wanted = [
        (500, "limit uniformity 0.500 met\n"),
        (523, "limit uniformity 0.523 undecided\n"),
        (600, "limit uniformity 0.600 missed\n"),
    ];
    for (least, line) in wanted {
        let limits = Limits {
            average: None,
            uniformity: Some(least),
        };
        let text = lines(rt.alloc(), limits, (383_500, 383_510), Some((522, 523)))?;
        assert_eq!(rt; text.as_str(), line);
    }
    Ok(())
}

#[test]
fn the_line_of_the_average_comes_first(rt: HostRuntime) -> Result<(), Fail> {
    let limits = Limits {
        average: Some(1000),
        uniformity: Some(500),
    };
    let in_the_dark = lines(rt.alloc(), limits, (0, 10), None)?;
    assert_eq!(rt;
        in_the_dark.as_str(),
        "limit average 1.000 missed\nlimit uniformity 0.500 undecided\n"
    );
    let limits = Limits {
        average: None,
        uniformity: None,
    };
    let without_limits = lines(rt.alloc(), limits, (0, 10), None)?;
    assert_eq!(rt; without_limits.as_str(), "");
    Ok(())
}
