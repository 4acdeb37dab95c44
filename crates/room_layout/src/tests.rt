//! Layouts by table. What is expected of each text is worked out by hand from docs/LAYOUT.md.
use crate::{FileUses, Key, Name, RoomFault, Shine, Spot, read_room};
use std::alloc::{AllocError, Global};
use std::test::Fail;

mod edits;
mod places;
mod selection;

use edits::{EDITS, EVERY_KEY};

/// One lamp overhead, in the form in which a designer writes it.
const HALL: &str = "version = 1
[room]
size = [6000, 6000, 3000]
[[lamp]]
at = [3000, 3000, 3000]
candela = 5000
[task]
from = [0, 0]
to = [6000, 6000]
height = 0
points = [1, 1]
";

/// Changes of the hall: the line that is replaced, its new text, and what is printed.
const HALL_FAULTS: &str = "version = 1 | version = | 1 NotToml
version = 1 | version = 3 | 2 Version
[room] | [room] # a comment | accepted
size = [6000, 6000, 3000] | size = [6000, 6000, 3000];colour = 1 | 4 Unknown room
size = [6000, 6000, 3000] | size = [6000, 6000] | 5 Kind room.size
size = [6000, 6000, 3000] | size = [499, 6000, 3000] | 6 Range room.size
at = [3000, 3000, 3000] | at = [6001, 0, 0] | 7 Outside lamp 0
points = [1, 1] | points = [33, 32] | 8 TooMany task.points
points = [1, 1] | points = [32, 32] | accepted
candela = 5000 | candela = 5000;turn = 0 | accepted
candela = 5000 | file = 'a.ldt' | accepted
points = [1, 1] | points = [1, 1];[limits] | accepted";

/// Reflecting surfaces, a longest edge of a patch and two boxes.
const FURNISHED: &str = "version = 1
[room]
size = [6000, 5000, 3000]
reflect = [201, 702, 503, 504, 505, 506]
patch = 650
[[box]]
lo = [1, 2, 3]
hi = [1004, 505, 706]
reflect = 307
[[box]]
lo = [2000, 2001, 0]
hi = [6000, 5000, 3000]
[task]
from = [0, 0]
to = [6000, 5000]
height = 700
points = [9, 7]
";

/// What is printed after `refused room `, or `accepted`.
fn answer(alloc: Global, text: &str) -> Result<String, AllocError> {
    match read_room(alloc, text.as_bytes()) {
        Ok(_) => String::from_str(alloc, "accepted"),
        Err(fault) => fault.text(alloc),
    }
}

/// The text with one line replaced; a `;` in the new line begins another.
fn with_line(alloc: Global, text: &str, old: &str, new: &str) -> Result<String, AllocError> {
    let mut changed = String::new(alloc);
    for line in text.lines() {
        if line == old {
            for part in new.split(';') {
                changed.push_str(part)?;
                changed.push_str("\n")?;
            }
        } else {
            changed.push_str(line)?;
            changed.push_str("\n")?;
        }
    }
    Ok(changed)
}

/// The key that a line gives a value.
fn key_of(line: &str) -> &str {
    match line.split_once(" = ") {
        Some((key, _)) => key,
        None => line,
    }
}

/// `EVERY_KEY` with some of its lines replaced. A key alone takes its line away.
fn edited(alloc: Global, edit: &str) -> Result<String, AllocError> {
    let mut text = String::new(alloc);
    for line in edit.split("; ") {
        if line.contains(" = ") {
            text.push_str(line)?;
            text.push_str("\n")?;
        }
    }
    for line in EVERY_KEY.lines() {
        let mut is_kept = true;
        for other in edit.split("; ") {
            if key_of(other) == key_of(line) {
                is_kept = false;
            }
        }
        if is_kept {
            text.push_str(line)?;
            text.push_str("\n")?;
        }
    }
    Ok(text)
}

/// A layout without limits, whose boxes or lamps are so many of the same.
fn repeated(alloc: Global, key: &str, element: &str, count: u32) -> Result<String, AllocError> {
    let mut line = format!(in alloc; "{key} = [")?;
    for _i in 0..count {
        line.push_str(element)?;
        line.push_str(", ")?;
    }
    line.push_str("]; limits")?;
    edited(alloc, line.as_str())
}

/// A layout without limits, with lamps that use so many pairs of file and set, each of them `times` times. The pairs differ by name or by
/// set.
fn with_files(alloc: Global, pairs: u32, by_name: bool, times: u32) -> Result<String, AllocError> {
    let mut line = String::from_str(alloc, "lamp = [")?;
    for i in 0..pairs {
        let lamp = if by_name {
            format!(in alloc; "{{ at = [0, 0, 0], file = 'f{i}' }}, ")?
        } else {
            format!(in alloc;
                "{{ at = [0, 0, 0], file = 'f', set = {} }}, ",
                i.saturating_add(1)
            )?
        };
        for _j in 0..times {
            line.push_str(lamp.as_str())?;
        }
    }
    line.push_str("]; limits")?;
    edited(alloc, line.as_str())
}

#[test]
fn the_hall_is_read(rt: HostRuntime) -> Result<(), Fail> {
    let room = read_room(rt.alloc(), HALL.as_bytes())?;
    assert_eq!(rt; (room.size.x, room.size.y, room.size.z), (6000, 6000, 3000));
    assert_eq!(rt; room.lamps.len(), 1);
    let lamp = room.lamps.as_slice().first().ok_or("a lamp")?;
    assert_eq!(rt; (lamp.at.x, lamp.at.y, lamp.at.z), (3000, 3000, 3000));
    assert_eq!(rt; lamp.shine, Shine::Even(5000));
    assert_eq!(rt;
        (room.task.to_x, room.task.to_y, room.task.nx, room.task.ny),
        (6000, 6000, 1, 1)
    );
    assert!(rt; room.limits.average.is_none());
    Ok(())
}

#[test]
fn a_changed_hall_is_refused_by_name_and_spot(rt: HostRuntime) -> Result<(), Fail> {
    let alloc = rt.alloc();
    for line in HALL_FAULTS.lines() {
        let (old, rest) = line.split_once(" | ").ok_or("a line")?;
        let (new, expected) = rest.split_once(" | ").ok_or("a change")?;
        let text = with_line(alloc, HALL, old, new)?;
        let printed = answer(alloc, text.as_str())?;
        assert_eq!(rt; printed.as_str(), expected, "at {new}");
    }
    let (without_task, _) = HALL.split_once("[task]").ok_or("a task")?;
    let printed = answer(alloc, without_task)?;
    assert_eq!(rt; printed.as_str(), "3 Missing task");
    Ok(())
}

#[test]
fn a_furnished_room_is_read(rt: HostRuntime) -> Result<(), Fail> {
    let room = read_room(rt.alloc(), FURNISHED.as_bytes())?;
    let reflect = room.reflect;
    assert_eq!(rt; (reflect.floor, reflect.ceiling), (201, 702));
    assert_eq!(rt;
        (reflect.x0, reflect.x1, reflect.y0, reflect.y1),
        (503, 504, 505, 506)
    );
    assert_eq!(rt; room.patch, 650);
    assert_eq!(rt; room.blocks.len(), 2);
    let first = room.blocks.as_slice().first().ok_or("a box")?;
    assert_eq!(rt; (first.lo.x, first.lo.y, first.lo.z), (1, 2, 3));
    assert_eq!(rt; (first.hi.x, first.hi.y, first.hi.z), (1004, 505, 706));
    assert_eq!(rt; first.reflect, 307);
    let second = room.blocks.as_slice().get(1).ok_or("a second box")?;
    assert_eq!(rt; (second.lo.x, second.lo.y, second.lo.z), (2000, 2001, 0));
    assert_eq!(rt; (second.hi.x, second.hi.y, second.hi.z), (6000, 5000, 3000));
    assert_eq!(rt; second.reflect, 0);
    Ok(())
}

#[test]
fn each_key_is_refused_at_each_of_its_faults(rt: HostRuntime) -> Result<(), Fail> {
    let alloc = rt.alloc();
    for line in EDITS.lines() {
        let (edit, expected) = line.split_once(" > ").ok_or("an edit")?;
        let text = edited(alloc, edit)?;
        let printed = answer(alloc, text.as_str())?;
        assert_eq!(rt; printed.as_str(), expected, "at {edit}");
    }
    Ok(())
}

#[test]
fn each_key_of_a_lamp_is_read(rt: HostRuntime) -> Result<(), Fail> {
    let alloc = rt.alloc();
    let text = edited(
        alloc,
        "lamp = [{ at = [1001, 1002, 2503], file = 'a.ldt', set = 2, turn = 45, maintenance = 806, size = [607, 608], split = [2, 3] }]; limits",
    )?;
    let room = read_room(alloc, text.as_bytes())?;
    let lamp = room.lamps.as_slice().first().ok_or("a lamp")?;
    assert_eq!(rt; (lamp.at.x, lamp.at.y, lamp.at.z), (1001, 1002, 2503));
    assert_eq!(rt; lamp.shine, Shine::File(0));
    assert_eq!(rt; (lamp.turn, lamp.maintenance), (45, 806));
    assert_eq!(rt; (lamp.size_x, lamp.size_y), (607, 608));
    assert_eq!(rt; (lamp.split_x, lamp.split_y), (2, 3));
    let used = room.files.as_slice().first().ok_or("a file")?;
    assert_eq!(rt; (used.name.text(), used.set), ("a.ldt", 2));
    Ok(())
}

#[test]
fn both_limits_are_read(rt: HostRuntime) -> Result<(), Fail> {
    let alloc = rt.alloc();
    let text = edited(
        alloc,
        "limits = { average_millilux = 500001, uniformity_permille = 402 }",
    )?;
    let room = read_room(alloc, text.as_bytes())?;
    assert_eq!(rt;
        (room.limits.average, room.limits.uniformity),
        (Some(500_001), Some(402))
    );
    let text = edited(alloc, "limits = { uniformity_permille = 0 }")?;
    let room = read_room(alloc, text.as_bytes())?;
    assert_eq!(rt;
        (room.limits.average, room.limits.uniformity),
        (None, Some(0))
    );
    Ok(())
}

#[test]
fn a_pair_of_file_and_set_is_there_once_in_order_of_first_use(rt: HostRuntime) -> Result<(), Fail> {
    let alloc = rt.alloc();
    let text = edited(
        alloc,
        "lamp = [{ at = [0, 0, 0], file = 'b', set = 2 }, { at = [0, 0, 0], candela = 7 }, { at = [0, 0, 0], file = 'b' }, { at = [0, 0, 0], file = 'a', set = 2 }, { at = [0, 0, 0], file = 'b', set = 1 }]; limits",
    )?;
    let room = read_room(alloc, text.as_bytes())?;
    assert_eq!(rt; room.lamps.len(), 5);
    for (i, expected) in [
        (0, Shine::File(0)),
        (1, Shine::Even(7)),
        (2, Shine::File(1)),
        (3, Shine::File(2)),
        (4, Shine::File(1)),
    ] {
        let lamp = room.lamps.as_slice().get(i).ok_or("a lamp")?;
        assert_eq!(rt; lamp.shine, expected, "lamp {i}");
    }
    assert_eq!(rt; room.files.len(), 3);
    for (k, name, set) in [(0, "b", 2), (1, "b", 1), (2, "a", 2)] {
        let used = room.files.as_slice().get(k).ok_or("a file")?;
        assert_eq!(rt; (used.name.text(), used.set), (name, set), "file {k}");
    }
    Ok(())
}

#[test]
fn one_element_too_many_is_refused_before_any_of_them(rt: HostRuntime) -> Result<(), Fail> {
    let alloc = rt.alloc();
    let block = "{ lo = [0, 0, 0], hi = [1, 1, 1] }";
    let lamp = "{ at = [0, 0, 0], candela = 1 }";
    for (key, element, count, expected) in [
        ("box", block, 64, "accepted"),
        ("box", "1", 65, "8 TooMany box 0"),
        ("lamp", lamp, 256, "accepted"),
        ("lamp", "1", 257, "8 TooMany lamp 0"),
    ] {
        let text = repeated(alloc, key, element, count)?;
        let printed = answer(alloc, text.as_str())?;
        assert_eq!(rt; printed.as_str(), expected, "{count} of {key}");
    }
    Ok(())
}

#[test]
fn the_seventeenth_pair_of_file_and_set_is_refused(rt: HostRuntime) -> Result<(), Fail> {
    let alloc = rt.alloc();
    // pair k is first used by lamp k * times
    for (pairs, by_name, times, expected) in [
        (16, true, 16, "accepted"),
        (17, true, 1, "8 TooMany lamp.file 16"),
        (17, true, 2, "8 TooMany lamp.file 32"),
        (16, false, 2, "accepted"),
        (17, false, 2, "8 TooMany lamp.file 32"),
    ] {
        let text = with_files(alloc, pairs, by_name, times)?;
        let printed = answer(alloc, text.as_str())?;
        assert_eq!(rt; printed.as_str(), expected, "{pairs} pairs, {times} times");
    }
    Ok(())
}

#[test]
fn bytes_that_are_no_text_are_no_toml(rt: HostRuntime) -> Result<(), Fail> {
    let alloc = rt.alloc();
    assert!(rt; matches!(read_room(alloc, &[118, 0xFF]), Err(RoomFault::NotToml)));
    let printed = answer(alloc, "version = 18446744073709551616")?;
    assert_eq!(rt; printed.as_str(), "1 NotToml");
    Ok(())
}

#[test]
fn a_name_keeps_its_text(rt: HostRuntime) -> Result<(), Fail> {
    let name = Name::from_text(rt.alloc(), "a.ldt")?;
    assert_eq!(rt; name.text(), "a.ldt");
    let files = FileUses::from_vec(Vec::new(rt.alloc()));
    assert_eq!(rt; files.len(), 0);
    assert_eq!(rt; Spot::at(Key::Lamp, 3).key.text(), "lamp");
    Ok(())
}
