//! The words of the command line.
ghost use Rattle.std.specs.Prelude.{◌≡◌, ◌*◌, ◌-◌, ◌<◌, ◌≤◌, drop, min, map, string_bytes, length, slice_index_or, [], IfOk, IfSome, IsTrue, pos};
ghost use Rattle.std.specs.List.{list_all};
ghost use Rattle.std.specs.Option.{option_map};
ghost use Rattle.room_layout.specs.Place.{place_of_size, point_of};
ghost use Rattle.sight_line.specs.Reach.{IsInReach};
ghost use Rattle.escape_route.specs.Routes.{IsWithinReach as IsRouteWithinReach};
ghost use Rattle.lux_core.specs.Commands.{asked_of, are_rising, check_of, chosen_set, coordinate, dim_of, escape_of, file_name, flux_of, format_of, is_digit, is_number, is_plain, is_trial, lamp_number, light_of, marked_lamps, marks_lamps, names_a_file, names_file, names_lm63, number_after, number_within, point_at, question_of, route_at, second_name, sight_of, summary_of, trial_of};
ghost use Rattle.lux_core.specs.Questions.{IsFormat, IsInRange, IsLampSet};

use escape_route::{Route, RouteLimits};
use fx_base::Memory;
use room_layout::Point;
use std::alloc::Global;

const LONGEST_NAME: usize = 4096;

/// The greatest number of a lamp set.
const LAST_SET: u32 = 20;

/// The greatest coordinate in mm.
const GREATEST_COORDINATE: u32 = 100_000;

/// The greatest number of a made room.
const LAST_ROOM: u32 = 40;

/// The greatest number of lumens that a flux is held against.
const MOST_LUMENS: u32 = 1_000_000;

/// The greatest number of a lamp.
const LAST_LAMP: u32 = 255;

/// The most lamps that are marked.
const MOST_LAMPS: usize = 16;

/// The greatest light that is asked for, in thousandths of a lux.
const MOST_MILLILUX: u32 = 1_000_000_000;

/// The greatest ratio that is asked of a route.
const MOST_RATIO: u32 = 1_000;

/// Above every number that a word may say.
const TOO_LARGE: u64 = 10_000_000_000;

/// In which form a report is written.
#[derive(Clone, Copy, Debug, PartialEq, Eq)]
pub enum Spelling {
    /// As lines: the task points, the average, the uniformity, and each limit with its verdict.
    Lines,
    /// As comma-separated values: a record for each task point.
    Records,
    /// As the summary of the room that this number makes: its counts, the average and the uniformity.
    Summary(u32),
    /// As one page with plans of the room: the task points, the average, the uniformity, each limit with its verdict, and the room.
    Page,
}

/// What is asked of the light of a room.
#[derive(Clone, Copy, Debug, PartialEq, Eq)]
pub enum LightQuestion {
    /// The report of its task points, in this form.
    Report(Spelling),
    /// A claim on the light of its patches, which another party can check.
    Claim,
}

/// What is asked of a room.
#[derive(Clone, Copy, Debug, PartialEq, Eq)]
pub enum RoomQuestion {
    /// Something of its light.
    Light(LightQuestion),
    /// Whether it shows the claim that a second file holds.
    Check,
    /// The plans of least power that reach this average, in thousandths of a lux, by the plan that a second file holds.
    Dim(u32),
    /// Whether two points, in half mm, see each other.
    Sight(Point, Point),
    /// Whether the light along a route is within these limits.
    Escape(Route, RouteLimits),
}

/// As what a photometric file is read.
#[derive(Clone, Copy, Debug, PartialEq, Eq)]
pub enum Format {
    /// IES LM-63, which knows no lamp sets.
    Lm63,
    /// EULUMDAT, with the flux of the lamp set of this number, from 1 to 20.
    Eulumdat(u32),
}

/// What is asked of a photometric file.
#[derive(Clone, Copy, Debug, PartialEq, Eq)]
pub enum PhotometryQuestion {
    /// A summary of its table.
    Summary,
    /// The flux of its table, held against this number of lumens, from 0 to 1,000,000.
    Flux(u32),
}

/// What is asked of a file.
#[derive(Clone, Copy, Debug, PartialEq, Eq)]
pub enum FileQuestion {
    /// Something of the room whose layout it is.
    Room(RoomQuestion),
    /// Something of the luminaire whose photometry it is.
    Photometry(Format, PhotometryQuestion),
}

/// What is asked.
#[derive(Clone, Copy, Debug, PartialEq, Eq)]
pub enum Question {
    /// Something of the file that the second word names.
    File(FileQuestion),
    /// The summary of the room that this number, from 1 to 40, makes.
    Trial(u32),
}

/// Whether no byte is a control character.
fn is_plain_text(bytes: &[u8]) -> bool
    ensures { result ≡ list_all is_plain bytes.now }
{
    bytes.iter().all(|byte| 32 <= *byte && *byte != 127)
}

/// Whether a word may name a file: 1 to 4,096 bytes, no control character among them.
pub fn is_file_name(word: &str) -> bool
    ensures { result ≡ names_file word.now }
{
    let bytes = word.as_bytes();
    if bytes.len() < 1 || LONGEST_NAME < bytes.len() {
        return false;
    }
    is_plain_text(bytes)
}

/// Whether all bytes are decimal digits.
fn are_digits(bytes: &[u8]) -> bool
    ensures { result ≡ list_all is_digit bytes.now }
{
    bytes.iter().all(|byte| 48 <= *byte && *byte <= 57)
}

/// Whether a word is a number: decimal digits without sign, and without leading zeros other than the word 0.
fn is_number(bytes: &[u8]) -> bool
    ensures { result ≡ is_number bytes.now }
{
    if bytes.is_empty() {
        return false;
    }
    if bytes[0] == 48 && bytes.len() != 1 {
        return false;
    }
    are_digits(bytes)
}

/// The number that digits say, and 10,000,000,000 where it is more.
fn number_of(bytes: &[u8]) -> u64
    requires { list_all is_digit bytes.now ≡ Rattle.std.specs.Prelude.true }
    ensures { result ≡ min (number_after 0 bytes.now) 10000000000 }
{
    let mut number = 0u64;
    for byte in bytes {
        number = (number * 10 + (*byte - 48) as u64).min(TOO_LARGE);
    }
    number
}

/// The number that a word says, where it lies from the least to the most.
fn number_within(least: u32, most: u32, word: &str) -> Option<u32>
    ensures number { result ≡ number_within least most word.now }
    ensures within { IfSome result (λ n. (least ≤ n) × (n ≤ most)) }
{
    let bytes = word.as_bytes();
    if !is_number(bytes) {
        return None;
    }
    let number = number_of(bytes);
    if number < least as u64 || (most as u64) < number {
        return None;
    }
    Some(number as u32)
}

/// The point, in half mm, whose coordinates in mm three words say.
fn point_of(x: &str, y: &str, z: &str) -> Option<Point>
    ensures point { result ≡ point_at (coordinate x.now) (coordinate y.now) (coordinate z.now) }
    ensures within { IfSome result IsInReach }
{
    let x = number_within(0, GREATEST_COORDINATE, x)?;
    let y = number_within(0, GREATEST_COORDINATE, y)?;
    let z = number_within(0, GREATEST_COORDINATE, z)?;
    Some(Point {
        x: (2 * x) as i32,
        y: (2 * y) as i32,
        z: (2 * z) as i32,
    })
}

/// What `sight ROOM X Y Z X Y Z` asks, where its numbers are coordinates.
fn sight_of(words: &[String]) -> Option<Question>
    requires { length words.now ≡ 8 }
    ensures asked { result ≡ sight_of (map string_bytes words.now) }
    ensures within { IfSome result IsInRange }
{
    let from = point_of(words[2].as_str(), words[3].as_str(), words[4].as_str())?;
    let to = point_of(words[5].as_str(), words[6].as_str(), words[7].as_str())?;
    Some(Question::File(FileQuestion::Room(RoomQuestion::Sight(from, to))))
}

/// The route whose ends' coordinates in mm four words say.
fn route_of(x0: &str, y0: &str, x1: &str, y1: &str) -> Option<Route>
    ensures route { result ≡ route_at (coordinate x0.now) (coordinate y0.now) (coordinate x1.now) (coordinate y1.now) }
    ensures within { IfSome result IsRouteWithinReach }
{
    let x0 = number_within(0, GREATEST_COORDINATE, x0)?;
    let y0 = number_within(0, GREATEST_COORDINATE, y0)?;
    let x1 = number_within(0, GREATEST_COORDINATE, x1)?;
    let y1 = number_within(0, GREATEST_COORDINATE, y1)?;
    Some(Route { x0, y0, x1, y1 })
}

/// Whether the words are numbers of lamps that rise from one to the next.
fn are_rising(words: &[String]) -> bool
    ensures { result ≡ are_rising 0 (map string_bytes words.now) }
{
    let mut least = 0u32;
    for word in words {
        let Some(number) = number_within(least, LAST_LAMP, word.as_str()) else {
            return false;
        };
        least = number + 1;
    }
    true
}

/// Whether the words after the eighth mark lamps: 1 to 16 of them.
fn marks_lamps(words: &[String]) -> bool
    ensures marks { result ≡ marks_lamps (map string_bytes words.now) }
    ensures nine { IsTrue result → 9 ≤ length words.now }
{
    if words.len() < 9 || 8 + MOST_LAMPS < words.len() {
        return false;
    }
    are_rising(&words[8..])
}

/// What `escape ROOM X Y X Y MILLILUX RATIO LAMP ..` asks.
fn escape_of(words: &[String]) -> Option<Question>
    requires { 2 ≤ length words.now }
    ensures asked { result ≡ escape_of (map string_bytes words.now) }
    ensures within { IfSome result IsInRange }
{
    if !marks_lamps(words) {
        return None;
    }
    let route = route_of(
        words[2].as_str(),
        words[3].as_str(),
        words[4].as_str(),
        words[5].as_str(),
    )?;
    let least = number_within(0, MOST_MILLILUX, words[6].as_str())?;
    let ratio = number_within(1, MOST_RATIO, words[7].as_str())?;
    let limits = RouteLimits { least, ratio };
    Some(Question::File(FileQuestion::Room(RoomQuestion::Escape(route, limits))))
}

/// The last four bytes, and all of them where there are fewer.
fn last_four(bytes: &[u8]) -> &[u8]
    ensures end { result.now ≡ drop (length bytes.now - 4) bytes.now }
{
    &bytes[bytes.len().saturating_sub(4)..]
}

/// Whether a file of this name is read as LM-63: its name ends in `.ies`, in any mixture of capitals.
fn is_lm63(name: &str) -> bool
    ensures { result ≡ names_lm63 name.now }
{
    let end = last_four(name.as_bytes());
    end.eq_ignore_ascii_case(b".ies")
}

/// As what a file of this name is read, for a lamp set.
pub fn format_of(name: &str, set: u32) -> Format
    requires { IsLampSet set }
    ensures format { result ≡ format_of name.now set }
    ensures within { IsFormat result }
{
    if is_lm63(name) {
        return Format::Lm63;
    }
    Format::Eulumdat(set)
}

/// The lamp set that the words choose, the first where they name none.
fn chosen_set(words: &[String]) -> Option<u32>
    ensures set { result ≡ chosen_set (map string_bytes words.now) }
    ensures within { IfSome result IsLampSet }
{
    if words.len() == 2 {
        return Some(1);
    }
    if words.len() == 3 {
        return number_within(1, LAST_SET, words[2].as_str());
    }
    None
}

/// What `read FILE` or `read FILE SET` asks.
fn summary_of(words: &[String]) -> Option<Question>
    requires { 2 ≤ length words.now }
    ensures asked { result ≡ summary_of (map string_bytes words.now) }
    ensures within { IfSome result IsInRange }
{
    let set = chosen_set(words)?;
    let format = format_of(words[1].as_str(), set);
    Some(Question::File(FileQuestion::Photometry(format, PhotometryQuestion::Summary)))
}

/// What `flux FILE SET LUMENS` asks.
fn flux_of(words: &[String]) -> Option<Question>
    requires { length words.now ≡ 4 }
    ensures asked { result ≡ flux_of (map string_bytes words.now) }
    ensures within { IfSome result IsInRange }
{
    let set = number_within(1, LAST_SET, words[2].as_str())?;
    let lumens = number_within(0, MOST_LUMENS, words[3].as_str())?;
    let format = format_of(words[1].as_str(), set);
    Some(Question::File(FileQuestion::Photometry(format, PhotometryQuestion::Flux(lumens))))
}

/// Whether the second word names a file.
fn names_a_file(words: &[String]) -> bool
    ensures named { result ≡ names_a_file (map string_bytes words.now) }
    ensures two { IsTrue result → 2 ≤ length words.now }
{
    words.len() >= 2 && is_file_name(words[1].as_str())
}

/// What `report ROOM`, `grid ROOM` and `certify ROOM` ask of the room's light.
fn light_of(words: &[String]) -> Option<Question>
    requires { 2 ≤ length words.now }
    ensures asked { result ≡ light_of (map string_bytes words.now) }
    ensures within { IfSome result IsInRange }
{
    let command = words[0].as_str();
    let asked = if command == "report" {
        LightQuestion::Report(Spelling::Lines)
    } else if command == "grid" {
        LightQuestion::Report(Spelling::Records)
    } else if command == "certify" {
        LightQuestion::Claim
    } else {
        return None;
    };
    Some(Question::File(FileQuestion::Room(RoomQuestion::Light(asked))))
}

/// What `check ROOM CLAIM` asks.
fn check_of(words: &[String]) -> Option<Question>
    requires { 3 ≤ length words.now }
    ensures asked { result ≡ check_of (map string_bytes words.now) }
    ensures within { IfSome result IsInRange }
{
    if words[0].as_str() == "check" && is_file_name(words[2].as_str()) {
        return Some(Question::File(FileQuestion::Room(RoomQuestion::Check)));
    }
    None
}

/// What `dim ROOM PLAN MILLILUX` asks.
fn dim_of(words: &[String]) -> Option<Question>
    requires { length words.now ≡ 4 }
    ensures asked { result ≡ dim_of (map string_bytes words.now) }
    ensures within { IfSome result IsInRange }
{
    if !is_file_name(words[2].as_str()) {
        return None;
    }
    let least = number_within(0, MOST_MILLILUX, words[3].as_str())?;
    Some(Question::File(FileQuestion::Room(RoomQuestion::Dim(least))))
}

/// What is asked of the file that the second word names.
fn asked_of(words: &[String]) -> Option<Question>
    requires { 2 ≤ length words.now }
    ensures asked { result ≡ asked_of (map string_bytes words.now) }
    ensures within { IfSome result IsInRange }
{
    if words[0].as_str() == "read" {
        return summary_of(words);
    }
    if words[0].as_str() == "escape" {
        return escape_of(words);
    }
    if words.len() == 2 {
        return light_of(words);
    }
    if words.len() == 3 {
        return check_of(words);
    }
    if words.len() == 4 && words[0].as_str() == "flux" {
        return flux_of(words);
    }
    if words.len() == 4 && words[0].as_str() == "dim" {
        return dim_of(words);
    }
    if words.len() == 8 && words[0].as_str() == "sight" {
        return sight_of(words);
    }
    None
}

/// Whether the words are `trial` and one more.
fn is_trial(words: &[String]) -> bool
    ensures trial { result ≡ is_trial (map string_bytes words.now) }
    ensures two { IsTrue result → length words.now ≡ 2 }
{
    words.len() == 2 && words[0].as_str() == "trial"
}

/// What `trial N` asks.
fn trial_of(words: &[String]) -> Option<Question>
    requires { 2 ≤ length words.now }
    ensures asked { result ≡ trial_of (map string_bytes words.now) }
    ensures within { IfSome result IsInRange }
{
    let number = number_within(1, LAST_ROOM, words[1].as_str())?;
    Some(Question::Trial(number))
}

/// What the words ask; nothing where they are no command.
pub fn question_of(words: &[String]) -> Option<Question>
    ensures asked { result ≡ question_of (map string_bytes words.now) }
    ensures within { IfSome result IsInRange }
    ensures named { IfSome result (λ _. 2 ≤ length words.now) }
{
    if is_trial(words) {
        return trial_of(words);
    }
    if !names_a_file(words) {
        return None;
    }
    asked_of(words)
}

/// The name of the file.
pub fn file_name(words: &[String]) -> &str
    requires { 2 ≤ length words.now }
    ensures { result.now ≡ file_name (map string_bytes words.now) }
{
    words[1].as_str()
}

/// The name of the second file, that of a claim or of a plan; of fewer words it is empty.
pub fn second_name(words: &[String]) -> &str
    ensures { result.now ≡ second_name (map string_bytes words.now) }
{
    match words.get(2) {
        Some(name) => name.as_str(),
        None => "",
    }
}

/// The number of a lamp that a word says, and 0 where it says none.
fn lamp_number(word: &str) -> u32
    ensures { result ≡ lamp_number word.now }
{
    number_within(0, LAST_LAMP, word).unwrap_or(0)
}

/// The numbers of the marked lamps of `escape`, in the words after the eighth; of fewer words there are none.
pub fn marked_lamps(alloc: Global, words: &[String]) -> Result<Vec<u32>, Memory>
    ensures lamps { IfOk result (λ v. v.items ≡ marked_lamps (map string_bytes words.now)) }
    ensures few { IfOk result (λ v. length v.items ≤ 16) }
{
    let mut lamps = Vec::new(alloc);
    for k in 8..words.len().min(8 + MOST_LAMPS) {
        lamps.push(lamp_number(words[k].as_str()))?;
    }
    Ok(lamps)
}

/// The line that is written where the words are no command.
pub const USAGE: &str =
    "usage: lux report ROOM | grid ROOM | read FILE [SET] | sight ROOM X Y Z X Y Z | certify ROOM | check ROOM CLAIM | trial N | flux FILE SET LUMENS | dim ROOM PLAN MILLILUX | escape ROOM X Y X Y MILLILUX RATIO LAMP ..\n";
