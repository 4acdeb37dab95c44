//! The items of a file, one after the other.
ghost use Rattle.std.specs.Prelude.{◌≡◌, ◌+◌, ◌<◌, ◌≤◌, MatchOption, MatchResult, IfOk, Ok, Err, drop, length};
ghost use Rattle.std.specs.List.{prefix_len};
ghost use Rattle.lm63_read.specs.Items.{is_of_item, is_separator, items_of};
ghost use Rattle.lm63_read.specs.Reads.{item_at};
ghost use Rattle.lm63_read.specs.Cursors.{IsAt, IsAfter, IsAtEnd, IsMissing, Takes};

use crate::fault::IesFault;

/// Where a reader stands among the bytes, and how many items it has passed.
#[derive(Clone, Copy)]
pub struct Cursor {
    pub at: usize,
    pub count: u32,
}

/// What stands behind the first n bytes.
pub fn behind(bytes: &[u8], n: usize) -> &[u8]
    requires { n ≤ length bytes.now }
    ensures { result.now ≡ drop n bytes.now }
{
    &bytes[n..]
}

/// How many separators stand at the front.
fn separator_count(bytes: &[u8]) -> usize
    ensures count { result ≡ prefix_len is_separator bytes.now }
    ensures within { result ≤ length bytes.now }
{
    bytes
        .iter()
        .take_while(|b| matches!(**b, b' ' | b'\t' | b'\r' | b'\n' | b',' | 0x1A))
        .count()
}

/// How many bytes the item at the front has.
fn item_len(bytes: &[u8]) -> usize
    ensures count { result ≡ prefix_len is_of_item bytes.now }
    ensures within { result ≤ length bytes.now }
{
    bytes
        .iter()
        .take_while(|b| !matches!(**b, b' ' | b'\t' | b'\r' | b'\n' | b',' | 0x1A))
        .count()
}

/// The next item, which is passed. There is none where nothing but separators is left.
pub fn next_item<'a>(bytes: &'a [u8], cursor: &mut Cursor) -> Option<&'a [u8]>
    requires at { IsAt bytes.now cursor.old }
    requires few { cursor.old.count ≤ 600000 }
    ensures { MatchOption result (IsAtEnd bytes.now cursor.old) (λ item. Takes bytes.now cursor.old cursor.new item.now) }
{
    let start = cursor.at + separator_count(behind(bytes, cursor.at));
    let rest = behind(bytes, start);
    let len = item_len(rest);
    if len == 0 {
        return None;
    }
    cursor.at = start + len;
    cursor.count += 1;
    Some(&rest[..len])
}

/// The next item, which is passed. Where there is none, it is the one that is missing.
fn take_item<'a>(bytes: &'a [u8], cursor: &mut Cursor) -> Result<&'a [u8], IesFault>
    requires at { IsAt bytes.now cursor.old }
    requires few { cursor.old.count ≤ 600000 }
    ensures item { MatchResult result (λ item. item_at (items_of bytes.now) (cursor.old.count + 1) ≡ Ok item.now) (λ e. IsMissing bytes.now cursor.old e) }
    ensures after { IfOk result (λ _. IsAfter bytes.now cursor.new (cursor.old.count + 1)) }
{
    let missing = cursor.count + 1;
    match next_item(bytes, cursor) {
        Some(item) => Ok(item),
        None => Err(IesFault::Short(missing)),
    }
}

/// Item k. Those before it are passed over.
pub fn read_item<'a>(bytes: &'a [u8], cursor: &mut Cursor, k: u32) -> Result<&'a [u8], IesFault>
    requires at { IsAt bytes.now cursor.old }
    requires ahead { cursor.old.count < k }
    requires few { k ≤ 600000 }
    ensures item { MatchResult result (λ item. item_at (items_of bytes.now) k ≡ Ok item.now) (λ e. item_at (items_of bytes.now) k ≡ Err e) }
    ensures after { IfOk result (λ _. IsAfter bytes.now cursor.new k) }
{
    while cursor.count + 1 < k {
        take_item(bytes, cursor)?;
    }
    take_item(bytes, cursor)
}
