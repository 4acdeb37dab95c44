//! The lines of a file, one after the other.
ghost use Rattle.std.specs.Prelude.{◌≡◌, ℕ, ◌+◌, ◌<◌, ◌≤◌, length, drop, reverse, not, ◌==◌, MatchOption, MatchResult, Ok, Err};
ghost use Rattle.std.specs.List.{prefix_len};
ghost use Rattle.eulumdat_read.specs.Items.{line_at};
ghost use Rattle.eulumdat_read.specs.Lines.{is_space, lines_of, trimmed, without_cr};
ghost use Rattle.eulumdat_read.specs.Cursors.{IsAt, Takes, IsAtEnd};

use crate::fault::LdtFault;

/// How far a file was read: the place of the next byte, and how many lines lie before it.
#[derive(Clone, Copy)]
pub struct Cursor {
    pub at: usize,
    pub line: u32,
}

/// What stands behind the first n bytes.
fn behind(bytes: &[u8], n: usize) -> &[u8]
    requires { n ≤ length bytes.now }
    ensures { result.now ≡ drop n bytes.now }
{
    &bytes[n..]
}

/// How many bytes stand before the first LF.
fn length_of_line(bytes: &[u8]) -> usize
    ensures count { result ≡ prefix_len (λ b. not (b == 10)) bytes.now }
    ensures within { result ≤ length bytes.now }
{
    bytes.iter().take_while(|b| **b != b'\n').count()
}

/// A line without the CR at its end.
fn without_return(line: &[u8]) -> &[u8]
    ensures { result.now ≡ without_cr line.now }
{
    match line {
        [rest @ .., b'\r'] => rest,
        _ => line,
    }
}

/// The next line, and None where there is none.
pub fn next_line<'a>(bytes: &'a [u8], cursor: &mut Cursor) -> Option<&'a [u8]>
    requires at { IsAt bytes.now cursor.old }
    requires size { length bytes.now ≤ 16777216 }
    ensures { MatchOption result (IsAtEnd bytes.now cursor.old × (cursor.new ≡ cursor.old)) (λ line. Takes bytes.now cursor.old cursor.new line.now) }
{
    let rest = behind(bytes, cursor.at);
    let n = length_of_line(rest);
    let line = without_return(&rest[..n]);
    if n < rest.len() {
        cursor.at += n + 1;
    } else if line.is_empty() {
        return None;
    } else {
        cursor.at += n;
    }
    cursor.line += 1;
    Some(line)
}

/// The line after the one that was read last, which is asked for as line k or on the way there.
fn take_line<'a>(bytes: &'a [u8], cursor: &mut Cursor) -> Result<&'a [u8], LdtFault>
    requires at { IsAt bytes.now cursor.old }
    requires size { length bytes.now ≤ 16777216 }
    ensures { MatchResult result
        (λ line. (line_at (lines_of bytes.now) (cursor.old.line + 1) ≡ Ok line.now) × (IsAt bytes.now cursor.new × (cursor.new.line ≡ cursor.old.line + 1)))
        (λ e. (k : ℕ) → cursor.old.line < k → line_at (lines_of bytes.now) k ≡ Err e) }
{
    match next_line(bytes, cursor) {
        Some(line) => Ok(line),
        None => Err(LdtFault::Short(cursor.line + 1)),
    }
}

/// Line k. What lies before it is passed over.
pub fn read_line<'a>(bytes: &'a [u8], cursor: &mut Cursor, k: u32) -> Result<&'a [u8], LdtFault>
    requires at { IsAt bytes.now cursor.old }
    requires size { length bytes.now ≤ 16777216 }
    requires k { cursor.old.line < k }
    ensures { MatchResult result
        (λ line. (line_at (lines_of bytes.now) k ≡ Ok line.now) × (IsAt bytes.now cursor.new × (cursor.new.line ≡ k)))
        (λ e. line_at (lines_of bytes.now) k ≡ Err e) }
{
    while cursor.line + 1 < k {
        take_line(bytes, cursor)?;
    }
    take_line(bytes, cursor)
}

/// How many spaces and tabs stand at the front.
fn space_count(line: &[u8]) -> usize
    ensures count { result ≡ prefix_len is_space line.now }
    ensures within { result ≤ length line.now }
{
    line.iter()
        .take_while(|b| **b == b' ' || **b == b'\t')
        .count()
}

/// How many stand at the end.
fn space_count_back(line: &[u8]) -> usize
    ensures count { result ≡ prefix_len is_space (reverse line.now) }
    ensures within { result ≤ length line.now }
{
    line.iter()
        .rev()
        .take_while(|b| **b == b' ' || **b == b'\t')
        .count()
}

/// A line without spaces and tabs at both ends.
pub fn without_spaces(line: &[u8]) -> &[u8]
    ensures { result.now ≡ trimmed line.now }
{
    let rest = behind(line, space_count(line));
    &rest[..rest.len() - space_count_back(rest)]
}
