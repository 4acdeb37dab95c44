//! Photometric files that end too early, at each of their lines or items, and rooms with a byte that is none of a text.
use super::cube::CUBE_ROOM;
use super::{answers, each_answers, joined, put, shelf_with};
use lux_core::Status;
use lux_io::MemShelf;
use std::alloc::{AllocError, Global};
use std::process::Abort;
use std::test::Fail;
use std::thread::Threads;

/// Two lamp sets; half-planes at C 0, 90 and 180 and gammas to 90, falling from 120 cd by 1,000 lumens. Its 64 lines are six of the head,
/// twenty before the sets, six for each set, ten after them, four half-planes, three gammas, and three by three intensities.
pub const FALLING: &str = "\
-\n-\n2\n4\n-\n3\n-\n-\n-\n-\n-\n-\n-\n-\n-\n-\n-\n-\n-\n-\n-\n-\n-\n1\n-\n2\n1\nLED\n2000\n-\n-\n-\n1\nLED\n3000\n-\n-\n-\n\
-\n-\n-\n-\n-\n-\n-\n-\n-\n-\n0\n90\n180\n270\n0\n45\n90\n120\n80\n0\n120\n90\n10\n120\n70\n5\n";

/// `read` and `flux` of a file with these bytes refuse it as one that ends before this line or item.
fn is_short(
    rt: &(impl Abort + Threads + Sync),
    alloc: Global,
    shelf: &mut MemShelf,
    name: &str,
    text: &str,
    fault: &str,
    place: usize,
) -> Result<(), Fail> {
    put(shelf, name, text.as_bytes())?;
    let number = format!(in alloc; "{place}")?;
    let number = number.as_str();
    let line = joined(alloc, &["refused ", name, " ", fault, " ", number, "\n"])?;
    let commands = ["read NAME", "flux NAME 1 0"];
    let refused = Status::Refused;
    each_answers(rt, alloc, &commands, name, shelf, refused, line.as_str())
}

/// A line is there with its end or without.
#[test]
fn a_luminaire_is_cut_after_each_line(rt: HostRuntime) -> Result<(), Fail> {
    let alloc = rt.alloc();
    let (name, fault) = ("f.ldt", "1 Short");
    let mut shelf = shelf_with(alloc, &[], &[], CUBE_ROOM)?;
    let mut text = String::new(alloc);
    let mut place = 1_usize;
    for line in FALLING.lines() {
        is_short(&rt, alloc, &mut shelf, name, text.as_str(), fault, place)?;
        // an empty text has no line without its end
        if let Some(cut) = text.as_str().strip_suffix("\n") {
            is_short(&rt, alloc, &mut shelf, name, cut, fault, place)?;
        }
        text.push_str(line)?;
        text.push_str("\n")?;
        place = place.saturating_add(1);
    }
    assert_eq!(rt; place, 65);
    put(&mut shelf, name, text.as_bytes())?;
    // 120 * 2000 / 1000 candela straight down
    let summary = "planes 4 gammas 3 greatest 240.00 240.00\n";
    answers(&rt, alloc, "read f.ldt", &mut shelf, Status::Done, summary)
}

#[test]
fn a_luminaire_is_cut_after_each_item(rt: HostRuntime) -> Result<(), Fail> {
    let alloc = rt.alloc();
    let (name, fault) = ("d.ies", "4 Short");
    let mut shelf = shelf_with(alloc, &[], &[], CUBE_ROOM)?;
    let mut text = String::from_str(alloc, "IESNA:LM-63-2002\nTILT=NONE\n")?;
    let mut place = 1_usize;
    for item in "1 -1 1 2 1 1 2 0 0 0 1 1 0 0 180 0 200 200".split(' ') {
        is_short(&rt, alloc, &mut shelf, name, text.as_str(), fault, place)?;
        text.push_str(item)?;
        text.push_str("\n")?;
        place = place.saturating_add(1);
    }
    assert_eq!(rt; place, 19);
    put(&mut shelf, name, text.as_bytes())?;
    let summary = "planes 1 gammas 2 greatest 200.00 200.00\n";
    answers(&rt, alloc, "read d.ies", &mut shelf, Status::Done, summary)
}

/// A black hall, whose points lie 0.5 and 2.5 m beside its lamp.
pub const HALL: &str =
    "version = 1\n[room]\nsize = [6000, 6000, 3000]\npatch = 3000\n[[lamp]]\nat = [2000, 3000, 3000]\ncandela = 5000\n[task]\nfrom = [0, 0]\nto = [6000, 6000]\nheight = 0\npoints = [2, 1]\n";

/// 15000 / 9.25^1.5 = 533.1859.., 15000 / 15.25^1.5 = 251.8758.., their average 392.5308.., and 0.6416.. by it.
pub const HALL_TEXT: &str =
    "point 0 0 533.18 533.19\npoint 1 0 251.87 251.88\naverage 392.53 392.54\nuniformity 0.641 0.642\n";

/// The text with a byte 0xFF in place of that at one place.
fn spoiled(alloc: Global, text: &str, place: usize) -> Result<Vec<u8>, AllocError> {
    let mut bytes = Vec::new(alloc);
    for (at, byte) in text.as_bytes().iter().enumerate() {
        bytes.push(if at == place { 0xFF } else { *byte })?;
    }
    Ok(bytes)
}

#[test]
fn a_byte_that_is_none_of_a_text_is_no_toml(rt: HostRuntime) -> Result<(), Fail> {
    let alloc = rt.alloc();
    let mut shelf = shelf_with(alloc, &[], &[], HALL)?;
    let (words, line) = ("report room.toml", "refused room 1 NotToml\n");
    for place in 0..HALL.len() {
        let bytes = spoiled(alloc, HALL, place)?;
        put(&mut shelf, "room.toml", bytes.as_slice())?;
        answers(&rt, alloc, words, &mut shelf, Status::Refused, line)?;
    }
    put(&mut shelf, "room.toml", HALL.as_bytes())?;
    answers(&rt, alloc, words, &mut shelf, Status::Done, HALL_TEXT)
}
