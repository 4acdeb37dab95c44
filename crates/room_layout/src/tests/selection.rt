//! Rooms with some of their lamps, by hand.
use crate::{Room, Shine, read_room};
use std::alloc::Global;
use std::test::Fail;

/// A box, a lamp of 2,500 cd in the middle of the ceiling, another there, and a lamp that shines by a file.
const THREE_LAMPS: &str = "version = 1
[room]
size = [6000, 6000, 3000]
[[box]]
lo = [0, 0, 0]
hi = [1000, 1000, 700]
[[lamp]]
at = [3000, 3000, 3000]
candela = 2500
[[lamp]]
at = [3000, 3000, 3000]
candela = 2499
[[lamp]]
at = [1000, 3000, 3000]
file = 'a.ldt'
set = 2
[task]
from = [0, 0]
to = [6000, 6000]
height = 0
points = [1, 1]
";

/// The room with the lamps that are kept.
fn room_with(alloc: Global, keep: &[bool]) -> Option<Room> {
    let room = read_room(alloc, THREE_LAMPS.as_bytes()).ok()?;
    if room.lamps.len() != keep.len() {
        return None;
    }
    room.without(alloc, keep).ok()
}

#[test]
fn a_room_without_its_first_lamp_has_the_others(rt: HostRuntime) -> Result<(), Fail> {
    let room = room_with(rt.alloc(), &[false, true, true]).ok_or("room")?;
    let lamps = room.lamps.as_slice();
    assert_eq!(rt; lamps.len(), 2);
    assert_eq!(rt; lamps[0].shine, Shine::Even(2499));
    assert_eq!(rt; lamps[1].shine, Shine::File(0));
    assert_eq!(rt; room.blocks.len(), 1);
    Ok(())
}

#[test]
fn a_room_without_its_last_lamp_keeps_its_file(rt: HostRuntime) -> Result<(), Fail> {
    let room = room_with(rt.alloc(), &[true, false, false]).ok_or("room")?;
    let lamps = room.lamps.as_slice();
    assert_eq!(rt; lamps.len(), 1);
    assert_eq!(rt; lamps[0].shine, Shine::Even(2500));
    let files = room.files.as_slice();
    assert_eq!(rt; files.len(), 1);
    assert_eq!(rt; files[0].name.text(), "a.ldt");
    assert_eq!(rt; files[0].set, 2);
    Ok(())
}

#[test]
fn a_room_may_keep_no_lamp(rt: HostRuntime) -> Result<(), Fail> {
    let room = room_with(rt.alloc(), &[false, false, false]).ok_or("room")?;
    assert_eq!(rt; room.lamps.len(), 0);
    Ok(())
}
