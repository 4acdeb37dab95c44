//! Tables of texts and numbers, and what is expected of each by hand: a number of a file times 1,000,000, and the quotient and the
//! remainder by Python's `divmod(n, 100)` and `divmod(n, 1000)`, the remainder with zeros before it.

use crate::{Hundredths, Mark, NumberFault, Thousandths, cents_text, milli_text, read_number};
use fx_base::Micro;
use std::test::Fail;

const NOT_NUMBER: Result<Micro, NumberFault> = Err(NumberFault::NotNumber);

const TOO_LARGE: Result<Micro, NumberFault> = Err(NumberFault::TooLarge);

#[test]
fn numbers_with_a_point(rt: HostRuntime) {
    let wanted = [
        ("0.0000019", Ok(Micro(1))),
        ("-.25", Ok(Micro(-250_000))),
        ("-0.0", Ok(Micro(0))),
        ("0000000001", Ok(Micro(1_000_000))),
        ("999999999.9999999", Ok(Micro(999_999_999_999_999))),
        ("1234567890", TOO_LARGE),
        ("12,5", NOT_NUMBER),
        ("1e3", NOT_NUMBER),
        (".", NOT_NUMBER),
        ("", NOT_NUMBER),
        ("+-1", NOT_NUMBER),
        ("1.5 ", NOT_NUMBER),
    ];
    for (text, number) in wanted {
        assert_eq!(rt; read_number(text.as_bytes(), Mark::Point), number, "{text}");
    }
}

#[test]
fn numbers_with_a_point_or_a_comma(rt: HostRuntime) {
    let wanted = [
        ("12,5", Ok(Micro(12_500_000))),
        ("12.5", Ok(Micro(12_500_000))),
        (",5", Ok(Micro(500_000))),
        ("5,", Ok(Micro(5_000_000))),
        ("1,234.5", NOT_NUMBER),
    ];
    for (text, number) in wanted {
        assert_eq!(rt;
            read_number(text.as_bytes(), Mark::PointOrComma),
            number,
            "{text}"
        );
    }
}

#[test]
fn hundredths_have_two_digits(rt: HostRuntime) -> Result<(), Fail> {
    let wanted = [
        (0, "0.00"),
        (5, "0.05"),
        (99, "0.99"),
        (100, "1.00"),
        (40_793, "407.93"),
        (u128::MAX, "3402823669209384634633746074317682114.55"),
    ];
    for (cents, text) in wanted {
        assert_eq!(rt;
            cents_text(rt.alloc(), cents).ok().ok_or("memory")?.as_str(),
            text
        );
    }
    Ok(())
}

#[test]
fn thousandths_have_three_digits(rt: HostRuntime) -> Result<(), Fail> {
    let wanted = [
        (0, "0.000"),
        (5, "0.005"),
        (99, "0.099"),
        (100, "0.100"),
        (40_793, "40.793"),
        (u128::MAX, "340282366920938463463374607431768211.455"),
    ];
    for (millis, text) in wanted {
        assert_eq!(rt;
            milli_text(rt.alloc(), millis)
                .ok()
                .ok_or("memory")?
                .as_str(),
            text
        );
    }
    Ok(())
}

#[test]
fn both_are_written_among_other_text(rt: HostRuntime) -> Result<(), Fail> {
    let text = format!(in rt.alloc(); "{} lx, {}", Hundredths(40_793), Thousandths(500))?;
    assert_eq!(rt; text.as_str(), "407.93 lx, 0.500");
    Ok(())
}
