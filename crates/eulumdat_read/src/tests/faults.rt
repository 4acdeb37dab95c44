//! Refused files: one sound file, of which one line is spoiled or from which one is cut off. What each answers is read off the rules
//! for its line.
use super::answer;
use std::alloc::Global;
use std::process::Abort;
use std::test::Fail;

/// Two lamp sets, the half-planes 0 and 180 with the mirror between them, and two gammas: the flux of set 1 stands in line 29 and that of
/// set 2 in line 35, the angles C in 49 and 50, the angles G in 51 and 52, and the intensities in 53 to 56.
const SOUND: &str =
    "-\n-\n2\n2\n-\n2\n-\n-\n-\n-\n-\n-\n-\n-\n-\n-\n-\n-\n-\n-\n-\n-\n-\n1\n-\n2\n-\nLED\n1000\n-\n-\n-\n-\nLED\n2000\n-\n-\n-\n-\n-\n-\n-\n-\n-\n-\n-\n-\n-\n0\n180\n0\n90\n10\n20\n30\n40\n";

const READ: &str = "planes 2 gammas 2 greatest 40.00 40.00\n";

/// How many lines it has.
const LINES: usize = 56;

/// The file with other text in line k.
fn spoiled(alloc: Global, k: usize, other: &str) -> Result<String, Fail> {
    let mut text = String::new(alloc);
    for (i, line) in SOUND.lines().enumerate() {
        text.push_str(if i + 1 == k { other } else { line })?;
        text.push_str("\n")?;
    }
    Ok(text)
}

/// The first n lines of the file.
fn cut(alloc: Global, n: usize) -> Result<String, Fail> {
    let mut text = String::new(alloc);
    for line in SOUND.lines().take(n) {
        text.push_str(line)?;
        text.push_str("\n")?;
    }
    Ok(text)
}

/// What the file answers with another text in one of its lines: cases of the line's number, the text and the answer.
fn check(rt: &impl Abort, alloc: Global, cases: &str) -> Result<(), Fail> {
    for case in cases.lines() {
        let (number, rest) = case.split_once(" | ").ok_or("a number")?;
        let (other, wanted) = rest.split_once(" | ").ok_or("a text")?;
        let k: usize = number.parse().ok().ok_or("a number")?;
        let text = spoiled(alloc, k, other)?;
        let line = answer(alloc, text.as_str().as_bytes(), 1)?;
        assert_eq!(rt; line.as_str().trim_end(), wanted, "{case}");
    }
    Ok(())
}

/// In a line of the head: its number, the text in it, and the answer.
const HEAD_FAULTS: &str = "3 | x | 2 Number 3
3 |  | 2 Number 3
3 | 5 | 3 Range 3
3 | 0.5 | 3 Range 3
3 | -1 | 3 Range 3
4 | 2 2 | 2 Number 4
4 | 0 | 3 Range 4
4 | 721 | 3 Range 4
4 | 2.000001 | 3 Range 4
4 | 3 | 7 Expand 1 PlaneCount
6 | 2e0 | 2 Number 6
6 | 1 | 3 Range 6
6 | 722 | 3 Range 6
24 | . | 2 Number 24
24 | -0.000001 | 3 Range 24
24 | 1000.000001 | 3 Range 24
24 | 1234567890 | 3 Range 24
26 | two | 2 Number 26
26 | 0 | 3 Range 26
26 | 21 | 3 Range 26";

#[test]
fn lines_of_the_head(rt: HostRuntime) -> Result<(), Fail> {
    check(&rt, rt.alloc(), HEAD_FAULTS)
}

/// In a line behind it.
const BODY_FAULTS: &str = "29 | LED | 2 Number 29
29 | -1 | 3 Range 29
29 | 10000000.000001 | 3 Range 29
35 | +-1 | 2 Number 35
35 | -1 | 3 Range 35
35 | 99999999 | 3 Range 35
49 | 0: | 2 Number 49
49 | -1 | 3 Range 49
49 | 360 | 3 Range 49
50 | 0 | 5 Order 50
50 | 360 | 3 Range 50
50 | 170 | 7 Expand 2 PlaneAngle
49 | 1 | 7 Expand 2 PlaneAngle
51 | 90 | 5 Order 52
52 |  | 2 Number 52
52 | -0.5 | 3 Range 52
52 | 180.000001 | 3 Range 52
53 | -0.5 | 6 Negative 53
54 | 1,2,3 | 2 Number 54
55 | 10000000.000001 | 8 Intensity 55
56 | 1234567890 | 3 Range 56";

#[test]
fn lines_of_the_body(rt: HostRuntime) -> Result<(), Fail> {
    check(&rt, rt.alloc(), BODY_FAULTS)
}

/// Numbers at the ends of their ranges.
const EDGES: &str = "24 | 0 | planes 2 gammas 2 greatest 0.00 0.00
24 | 1000 | planes 2 gammas 2 greatest 40000.00 40000.00
29 | 0 | planes 2 gammas 2 greatest 0.00 0.00
35 | 10000000 | planes 2 gammas 2 greatest 40.00 40.00
51 | -0 | planes 2 gammas 2 greatest 40.00 40.00
52 | 180 | planes 2 gammas 2 greatest 40.00 40.00
53 | 10000000 | planes 2 gammas 2 greatest 10000000.00 10000000.00";

#[test]
fn the_ends_of_the_ranges_are_read(rt: HostRuntime) -> Result<(), Fail> {
    check(&rt, rt.alloc(), EDGES)
}

#[test]
fn lines_that_are_passed_over_hold_anything(rt: HostRuntime) -> Result<(), Fail> {
    for k in [
        1, 2, 5, 7, 12, 13, 21, 22, 23, 25, 27, 28, 30, 32, 33, 38, 39, 48,
    ] {
        for other in ["", "x", "-1", "\u{1a}\r\t", "1234567890"] {
            let text = spoiled(rt.alloc(), k, other)?;
            let line = answer(rt.alloc(), text.as_str().as_bytes(), 1)?;
            assert_eq!(rt; line.as_str(), READ, "{k} {other}");
        }
    }
    Ok(())
}

#[test]
fn a_file_that_is_cut_off_is_short_of_its_next_line(rt: HostRuntime) -> Result<(), Fail> {
    for n in 0..LINES {
        let text = cut(rt.alloc(), n)?;
        let line = answer(rt.alloc(), text.as_str().as_bytes(), 1)?;
        let wanted = format!(in rt.alloc(); "1 Short {}", n + 1)?;
        assert_eq!(rt; line.as_str(), wanted.as_str());
    }
    let whole = cut(rt.alloc(), LINES)?;
    let line = answer(rt.alloc(), whole.as_str().as_bytes(), 1)?;
    assert_eq!(rt; line.as_str(), READ);
    Ok(())
}
