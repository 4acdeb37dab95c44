//! Ends of lines, blank lines, and what may stand behind the last intensity: worked out by hand.
use super::answer;
use std::alloc::Global;
use std::test::Fail;

/// A file of one half-plane and two gammas, up to line 42.
const HEAD: &str =
    "-\n-\n1\n1\n-\n2\n-\n-\n-\n-\n-\n-\n-\n-\n-\n-\n-\n-\n-\n-\n-\n-\n-\n1\n-\n1\n-\nLED\n2000\n-\n-\n-\n-\n-\n-\n-\n-\n-\n-\n-\n-\n-\n";

const READ: &str = "planes 1 gammas 2 greatest 200.00 200.00\n";

/// The file with this from line 43 on, and with these ends of lines before.
fn file(alloc: Global, end: &str, rest: &str) -> Result<String, Fail> {
    let mut text = String::new(alloc);
    for line in HEAD.lines() {
        text.push_str(line)?;
        text.push_str(end)?;
    }
    text.push_str(rest)?;
    Ok(text)
}

#[test]
fn lines_end_with_lf_or_cr_and_lf(rt: HostRuntime) -> Result<(), Fail> {
    let cases = [
        ("\n", "0\n0\n180\n100\n100\n", READ),
        ("\n", "0\n0\n180\n100\n100", READ),
        ("\r\n", "0\r\n0\r\n180\r\n100\r\n100\r\n", READ),
        ("\r\n", "0\r\n0\r\n180\r\n100\r\n100", READ),
        ("\n", "0\n0\n180\n100\n100\r", READ),
        // one CR is taken off, and two aren't a number's
        ("\n", "0\n0\n180\n100\r\r\n100\n", "2 Number 46"),
        // a CR alone ends no line
        ("\r", "0\r0\r180\r100\r100\r", "1 Short 2"),
        ("\n", "0\n0\n180\n100\r100\n", "2 Number 46"),
    ];
    for (end, rest, wanted) in cases {
        let text = file(rt.alloc(), end, rest)?;
        let line = answer(rt.alloc(), text.as_str().as_bytes(), 1)?;
        assert_eq!(rt; line.as_str(), wanted, "{rest}");
    }
    Ok(())
}

#[test]
fn what_stands_behind_the_last_intensity(rt: HostRuntime) -> Result<(), Fail> {
    let cases = [
        ("\u{1a}", READ),
        ("\n\n\n", READ),
        (" \t\r\n\u{1a}\n", READ),
        ("\r", READ),
        ("x", "9 Trailing 48"),
        ("\n0\n", "9 Trailing 49"),
        ("\u{1a}\n \n.", "9 Trailing 50"),
        ("\u{b}\n", "9 Trailing 48"),
    ];
    for (behind, wanted) in cases {
        let rest = format!(in rt.alloc(); "0\n0\n180\n100\n100\n{behind}")?;
        let text = file(rt.alloc(), "\n", rest.as_str())?;
        let line = answer(rt.alloc(), text.as_str().as_bytes(), 1)?;
        assert_eq!(rt; line.as_str(), wanted, "{behind}");
    }
    Ok(())
}

#[test]
fn a_blank_line_within_is_no_number(rt: HostRuntime) -> Result<(), Fail> {
    let cases = [
        ("\n0\n0\n180\n100\n100\n", "2 Number 43"),
        ("0\n0\n \n180\n100\n100\n", "2 Number 45"),
        ("0\n0\n180\n100\n\n100\n", "2 Number 47"),
        ("0\n0\n180\n100\n\u{1a}\n", "2 Number 47"),
        ("0\n0\n180\n100 100\n", "2 Number 46"),
    ];
    for (rest, wanted) in cases {
        let text = file(rt.alloc(), "\n", rest)?;
        let line = answer(rt.alloc(), text.as_str().as_bytes(), 1)?;
        assert_eq!(rt; line.as_str(), wanted, "{rest}");
    }
    Ok(())
}
