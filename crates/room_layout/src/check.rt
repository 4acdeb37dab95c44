//! How the value of one key is checked: whether it has to be there, its kind, then its range.
ghost use Rattle.std.specs.Prelude.{◌≡◌, ℕ, ◌&&◌, nat_le, List, length, map, Option, Some, None, option_map, is_some, string_bytes, Result, Ok, Err, IfOk, IfErr};
ghost use Rattle.std.specs.BTreeMap.{keys};
ghost use Rattle.std.specs.List.{list_all};
ghost use Rattle.toml.specs.Data.{get_member};
ghost use Rattle.toml.specs.View.{view, table_view};
ghost use Rattle.room_layout.specs.Checks.{number, numbers, all_numbers, each, array, is_integer, name_text, table_with, elements, required, optional, where_given, is_printable, is_among, has_only, is_printed};

use crate::{RoomFault, Spot};
use toml::{Table, Value};

/// The value at a key, where the table has the key.
pub fn member<'a>(table: &'a Table, key: &str) -> Option<&'a Value>
    ensures { option_map (λ v. view v.now) result ≡ get_member key.now (table_view table.now) }
{
    table.get(key)
}

/// An integer from `least` to `most`.
pub fn number(value: &Value, least: u32, most: u32, spot: Spot) -> Result<u32, RoomFault>
    ensures { result ≡ number least most spot (view value.now) }
{
    let Some(number) = value.as_integer() else {
        return Err(RoomFault::Kind(spot));
    };
    if number < i64::from(least) || number > i64::from(most) {
        return Err(RoomFault::Range(spot));
    }
    Ok(number as u32)
}

/// The items of an array.
pub fn array(value: &Value, spot: Spot) -> Result<&[Value], RoomFault>
    ensures given { IfOk result (λ items. array spot (view value.now) ≡ Ok (map view items.now)) }
    ensures refused { IfErr result (λ e. array spot (view value.now) ≡ Err e) }
{
    match value.as_array() {
        Some(items) => Ok(items.as_slice()),
        None => Err(RoomFault::Kind(spot)),
    }
}

/// An array of N integers, each from `least` to `most`.
pub fn numbers<const N: usize>(
    value: &Value,
    least: u32,
    most: u32,
    spot: Spot,
) -> Result<[u32; N], RoomFault>
    ensures { result ≡ numbers N least most spot (view value.now) }
{
    let items = array(value, spot)?;
    all_numbers(items, least, most, spot)
}

/// N integers, each from `least` to `most`. That all are integers is checked before the first range.
fn all_numbers<const N: usize>(
    items: &[Value],
    least: u32,
    most: u32,
    spot: Spot,
) -> Result<[u32; N], RoomFault>
    ensures { result ≡ all_numbers N least most spot (map view items.now) }
{
    if items.len() != N {
        return Err(RoomFault::Kind(spot));
    }
    if !are_integers(items) {
        return Err(RoomFault::Kind(spot));
    }
    each_number(items, least, most, spot)
}

/// The numbers of N integers, or the first fault.
fn each_number<const N: usize>(
    items: &[Value],
    least: u32,
    most: u32,
    spot: Spot,
) -> Result<[u32; N], RoomFault>
    requires { length items.now ≡ N }
    ensures { result ≡ each (number least most spot) (map view items.now) }
{
    let mut numbers = [0; N];
    for i in 0..N {
        numbers[i] = number(&items[i], least, most, spot)?;
    }
    Ok(numbers)
}

/// Whether each value is an integer.
fn are_integers(items: &[Value]) -> bool
    ensures { result ≡ list_all (λ item. is_integer (view item)) items.now }
{
    items.iter().all(|item| item.is_integer())
}

/// How many bytes the name of a file has at most.
const LONGEST_NAME: usize = 255;

/// A text that may name a file.
pub fn name_text(value: &Value, spot: Spot) -> Result<&str, RoomFault>
    ensures given { IfOk result (λ text. name_text spot (view value.now) ≡ Ok text.now) }
    ensures refused { IfErr result (λ e. name_text spot (view value.now) ≡ Err e) }
{
    let Some(text) = value.as_str() else {
        return Err(RoomFault::Kind(spot));
    };
    if !is_printable(text, LONGEST_NAME) {
        return Err(RoomFault::Range(spot));
    }
    Ok(text)
}

/// Whether a text has 1 to `most` bytes and no control character, neither below 0x20 nor 0x7F.
pub fn is_printable(text: &str, most: usize) -> bool
    ensures { result ≡ is_printable most text.now }
{
    let length_fits = 1 <= text.len() && text.len() <= most;
    length_fits && all_printed(text.as_bytes())
}

/// Whether no byte is a control character.
fn all_printed(bytes: &[u8]) -> bool
    ensures { result ≡ list_all is_printed bytes.now }
{
    bytes.iter().all(|byte| 0x20 <= *byte && *byte != 0x7F)
}

/// A table with no other keys than these.
pub fn table_with<'a>(value: &'a Value, known: &[&str], spot: Spot) -> Result<&'a Table, RoomFault>
    ensures given { IfOk result (λ table. table_with (map (λ k. k.now) known.now) spot (view value.now) ≡ Ok (table_view table.now)) }
    ensures refused { IfErr result (λ e. table_with (map (λ k. k.now) known.now) spot (view value.now) ≡ Err e) }
{
    let Some(table) = value.as_table() else {
        return Err(RoomFault::Kind(spot));
    };
    if !has_only(table, known) {
        return Err(RoomFault::Unknown(spot));
    }
    Ok(table)
}

/// Whether the table has no other keys than these.
pub fn has_only(table: &Table, known: &[&str]) -> bool
    ensures { result ≡ has_only (map (λ k. k.now) known.now) (table_view table.now) }
{
    keys_are_among(known, table)
}

/// Whether each key of the table is one of these.
fn keys_are_among(known: &[&str], table: &Table) -> bool
    ensures { result ≡ list_all (λ key. is_among (map (λ k. k.now) known.now) (string_bytes key)) (keys table.now) }
{
    table.keys().all(|key| is_among(known, key.as_str()))
}

/// Whether the key is one of these.
fn is_among(known: &[&str], key: &str) -> bool
    ensures { result ≡ is_among (map (λ k. k.now) known.now) key.now }
{
    known.contains(&key)
}

/// The elements of an array that has at most `most`.
pub fn elements(value: &Value, most: usize, spot: Spot) -> Result<&[Value], RoomFault>
    ensures given { IfOk result (λ items. elements most spot (view value.now) ≡ Ok (map view items.now)) }
    ensures refused { IfErr result (λ e. elements most spot (view value.now) ≡ Err e) }
{
    let items = array(value, spot)?;
    if items.len() > most {
        return Err(RoomFault::TooMany(spot));
    }
    Ok(items)
}

/// The table at a key, which has to be there.
pub fn required_table<'a>(
    table: &'a Table,
    key: &str,
    known: &[&str],
    spot: Spot,
) -> Result<&'a Table, RoomFault>
    ensures given { IfOk result (λ t. required spot (table_with (map (λ k. k.now) known.now)) (get_member key.now (table_view table.now)) ≡ Ok (table_view t.now)) }
    ensures refused { IfErr result (λ e. required spot (table_with (map (λ k. k.now) known.now)) (get_member key.now (table_view table.now)) ≡ Err e) }
{
    match member(table, key) {
        Some(value) => table_with(value, known, spot),
        None => Err(RoomFault::Missing(spot)),
    }
}

/// The number at a key, which has to be there.
pub fn required_number(
    table: &Table,
    key: &str,
    least: u32,
    most: u32,
    spot: Spot,
) -> Result<u32, RoomFault>
    ensures { result ≡ required spot (number least most) (get_member key.now (table_view table.now)) }
{
    match member(table, key) {
        Some(value) => number(value, least, most, spot),
        None => Err(RoomFault::Missing(spot)),
    }
}

/// The number at a key, or the default where the key isn't given.
pub fn optional_number(
    table: &Table,
    key: &str,
    default: u32,
    least: u32,
    most: u32,
    spot: Spot,
) -> Result<u32, RoomFault>
    ensures { result ≡ optional default spot (number least most) (get_member key.now (table_view table.now)) }
{
    match member(table, key) {
        Some(value) => number(value, least, most, spot),
        None => Ok(default),
    }
}

/// The number at a key, where the key is given.
pub fn number_where_given(
    table: &Table,
    key: &str,
    least: u32,
    most: u32,
    spot: Spot,
) -> Result<Option<u32>, RoomFault>
    ensures { result ≡ where_given spot (number least most) (get_member key.now (table_view table.now)) }
{
    match member(table, key) {
        Some(value) => {
            let number = number(value, least, most, spot)?;
            Ok(Some(number))
        }
        None => Ok(None),
    }
}

/// The numbers at a key, which has to be there.
pub fn required_numbers<const N: usize>(
    table: &Table,
    key: &str,
    least: u32,
    most: u32,
    spot: Spot,
) -> Result<[u32; N], RoomFault>
    ensures { result ≡ required spot (numbers N least most) (get_member key.now (table_view table.now)) }
{
    match member(table, key) {
        Some(value) => numbers(value, least, most, spot),
        None => Err(RoomFault::Missing(spot)),
    }
}

/// The numbers at a key, or the default where the key isn't given.
pub fn optional_numbers<const N: usize>(
    table: &Table,
    key: &str,
    default: [u32; N],
    least: u32,
    most: u32,
    spot: Spot,
) -> Result<[u32; N], RoomFault>
    ensures { result ≡ optional default.entry spot (numbers N least most) (get_member key.now (table_view table.now)) }
{
    match member(table, key) {
        Some(value) => numbers(value, least, most, spot),
        None => Ok(default),
    }
}

/// The text at a key that names a file, where the key is given.
pub fn name_where_given<'a>(
    table: &'a Table,
    key: &str,
    spot: Spot,
) -> Result<Option<&'a str>, RoomFault>
    ensures given { IfOk result (λ name. where_given spot name_text (get_member key.now (table_view table.now)) ≡ Ok (option_map (λ text. text.now) name)) }
    ensures refused { IfErr result (λ e. where_given spot name_text (get_member key.now (table_view table.now)) ≡ Err e) }
{
    match member(table, key) {
        Some(value) => {
            let name = name_text(value, spot)?;
            Ok(Some(name))
        }
        None => Ok(None),
    }
}
