//! Words that are no command: a word too few or too many for each, and names of files that are none.
use super::cube::{CUBE_FILES, CUBE_ROOM};
use super::{answers, each_answers, is_served, joined, shelf_with};
use lux_core::Status;
use std::test::Fail;

const USAGE: &str =
    "usage: lux report ROOM | grid ROOM | read FILE [SET] | sight ROOM X Y Z X Y Z | certify ROOM | check ROOM CLAIM | trial N | flux FILE SET LUMENS | dim ROOM PLAN MILLILUX | escape ROOM X Y X Y MILLILUX RATIO LAMP ..\n";

/// A word too few, and one too many.
const NO_COMMANDS: [&str; 20] = [
    "report",
    "report room.toml room.toml",
    "grid",
    "grid room.toml room.toml",
    "certify",
    "certify room.toml room.toml",
    "check room.toml",
    "check room.toml claim.csv claim.csv",
    "read",
    "read even.ldt 1 1",
    "flux even.ldt 1",
    "flux even.ldt 1 1 1",
    "sight room.toml 0 0 0 0 0",
    "sight room.toml 0 0 0 0 0 0 0",
    "trial",
    "trial 4 4",
    "dim room.toml plan.csv",
    "dim room.toml plan.csv 1 1",
    "escape room.toml 0 0 0 0 0 1",
    "escape room.toml 0 0 0 0 0 1 0 0",
];

/// The first call to the shelf fails, and words that are no command make none.
#[test]
fn a_word_too_few_or_too_many(rt: HostRuntime) -> Result<(), Fail> {
    let alloc = rt.alloc();
    let mut shelf = shelf_with(alloc, &[0], &CUBE_FILES, CUBE_ROOM)?;
    for words in NO_COMMANDS {
        answers(&rt, alloc, words, &mut shelf, Status::Usage, USAGE)?;
    }
    let words = "report room.toml";
    let fault = "read fault room.toml\n";
    answers(&rt, alloc, words, &mut shelf, Status::ReadFault, fault)?;
    is_served(&rt, alloc, &mut shelf)
}

/// The commands that name a file, in each of their places for one.
const NAMING: [&str; 11] = [
    "report NAME",
    "grid NAME",
    "certify NAME",
    "check NAME claim.csv",
    "check room.toml NAME",
    "read NAME",
    "flux NAME 1 0",
    "sight NAME 0 0 0 0 0 0",
    "dim NAME plan.csv 0",
    "dim room.toml NAME 0",
    "escape NAME 0 0 0 0 0 1 0",
];

/// A name has 1 to 4,096 bytes, none of them a control character.
#[test]
fn a_name_that_is_none(rt: HostRuntime) -> Result<(), Fail> {
    let alloc = rt.alloc();
    let mut longest = String::new(alloc);
    for _ in 0..4096 {
        longest.push_str("n")?;
    }
    let longest = longest.as_str();
    let longer = joined(alloc, &[longest, "n"])?;
    let line = joined(alloc, &["refused ", longest, " Absent\n"])?;
    let line = line.as_str();
    let mut shelf = shelf_with(alloc, &[], &CUBE_FILES, CUBE_ROOM)?;
    for name in ["", "a\nb", "a\u{7f}b", "\t", longer.as_str()] {
        let usage = Status::Usage;
        each_answers(&rt, alloc, &NAMING, name, &mut shelf, usage, USAGE)?;
    }
    let refused = Status::Refused;
    each_answers(&rt, alloc, &NAMING, longest, &mut shelf, refused, line)?;
    is_served(&rt, alloc, &mut shelf)
}
