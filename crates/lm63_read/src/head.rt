//! The lines before the items.
ghost use Rattle.std.specs.Prelude.{◌≡◌, ◌≤◌, MatchOption, MatchResult, None, Some, Ok, Err, drop, length, true};
ghost use Rattle.std.specs.List.{suffix_len};
ghost use Rattle.lm63_read.specs.Head.{begins_tilt, first_line, header_of, is_blank, line_len, next_lines, tilt_from, tilted, trimmed};

use crate::fault::IesFault;
use crate::items::behind;

/// The edition of LM-63 that a file names in its first line.
#[derive(Clone, Copy, Debug, PartialEq, Eq)]
pub enum Header {
    /// `IESNA:LM-63-2002`
    Of2002,
    /// `IESNA:LM-63-1995`
    Of1995,
    /// `IESNA91`
    Of1991,
}

/// How many bytes stand before the first LF.
fn line_len(bytes: &[u8]) -> usize
    ensures len { result ≡ line_len bytes.now }
    ensures within { result ≤ length bytes.now }
{
    bytes.iter().take_while(|b| **b != b'\n').count()
}

/// The bytes before the first LF.
pub fn first_line(bytes: &[u8]) -> &[u8]
    ensures { result.now ≡ first_line bytes.now }
{
    &bytes[..line_len(bytes)]
}

/// What stands behind the first LF.
pub fn next_lines(bytes: &[u8]) -> &[u8]
    ensures { result.now ≡ next_lines bytes.now }
{
    let len = line_len(bytes);
    if len == bytes.len() {
        &[]
    } else {
        behind(bytes, len + 1)
    }
}

/// How many spaces, tabs and CR stand at the end.
#[tactic(auto, using(crate::proofs::Heads::within))]
fn blank_count(line: &[u8]) -> usize
    ensures count { result ≡ suffix_len is_blank line.now }
    ensures within { result ≤ length line.now }
{
    line.iter()
        .rev()
        .take_while(|b| matches!(**b, b' ' | b'\t' | b'\r'))
        .count()
}

/// A line without spaces, tabs and CR at its end.
pub fn trimmed(line: &[u8]) -> &[u8]
    ensures { result.now ≡ trimmed line.now }
{
    &line[..line.len() - blank_count(line)]
}

/// The edition that a first line names.
#[tactic(auto, unfolding(crate::specs::Head::header_of))]
pub fn header_of(text: &[u8]) -> Result<Header, IesFault>
    ensures { result ≡ header_of text.now }
{
    if text == b"IESNA:LM-63-2002".as_slice() {
        Ok(Header::Of2002)
    } else if text == b"IESNA:LM-63-1995".as_slice() {
        Ok(Header::Of1995)
    } else if text == b"IESNA91".as_slice() {
        Ok(Header::Of1991)
    } else {
        Err(IesFault::Version)
    }
}

/// Whether bytes begin with `TILT=`.
fn begins_tilt(bytes: &[u8]) -> bool
    ensures { result ≡ begins_tilt bytes.now }
{
    bytes.starts_with(b"TILT=")
}

/// The lines from the first on that begins with `TILT=`.
pub fn tilt_lines(bytes: &[u8]) -> Option<&[u8]>
    ensures { MatchOption result (tilt_from true bytes.now ≡ None) (λ lines. tilt_from true bytes.now ≡ Some lines.now) }
{
    let mut fresh = true;
    for i in 0..bytes.len() {
        let lines = behind(bytes, i);
        if fresh && begins_tilt(lines) {
            return Some(lines);
        }
        fresh = bytes[i] == b'\n';
    }
    None
}

/// What follows `TILT=` in a line that begins with it, without spaces, tabs and CR at its end.
pub fn tilt_text(line: &[u8]) -> &[u8]
    ensures { result.now ≡ drop 5 (trimmed line.now) }
{
    let line = trimmed(line);
    if line.len() < 5 { &[] } else { behind(line, 5) }
}

/// Whether the tilt is among the items, by what follows `TILT=`.
#[tactic(auto, unfolding(crate::specs::Head::tilted))]
pub fn tilted(text: &[u8]) -> Result<bool, IesFault>
    ensures { result ≡ tilted text.now }
{
    if text == b"NONE".as_slice() {
        Ok(false)
    } else if text == b"INCLUDE".as_slice() {
        Ok(true)
    } else {
        Err(IesFault::TiltFile)
    }
}
