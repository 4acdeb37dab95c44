//! The rooms of `trial`: the layout reads each made text as the room that its formulas give. What is expected is in another form than
//! `room_make`'s: the room's edges and the rectangle of the task as multiples, the counts as tables by tens and twenties or as bits, the
//! places of lamps by what is below and above them.
ghost use Rattle.std.specs.Prelude.{◌≤◌};

use room_layout::{Block, Face, Lamp, Limits, Reflects, Room, Shine, Size, TaskGrid, read_room};
use room_make::make_room;
use std::process::Abort;
use std::test::Fail;

/// How many lamps stand along x and along y.
fn lamp_counts(n: u32) -> (usize, usize) {
    let columns = match n {
        0..=9 => 1,
        10..=19 => 2,
        20..=29 => 3,
        30..=39 => 4,
        _ => 5,
    };
    let rows = match n {
        0..=19 => 1,
        20..=39 => 2,
        _ => 3,
    };
    (columns, rows)
}

/// Whether a place is the middle, rounded down, of the part with this number of an edge: so many halves of a part lie before it, and
/// less than a millimetre more.
fn is_middle(place: u32, edge: u32, parts: usize, number: usize) -> bool {
    let halves = (parts as u128).saturating_mul(2);
    let middle = (number as u128)
        .saturating_mul(2)
        .saturating_add(1)
        .saturating_mul(edge as u128);
    let below = halves.saturating_mul(place as u128);
    below <= middle && middle < below.saturating_add(halves)
}

/// The room's own values, its task and its limits are those for n.
fn expect_shell(rt: &impl Abort, n: u32, room: &Room)
    requires most { n ≤ 40 }
{
    let (x, y) = (200 * (10 + n), 50 * (40 + 3 * n));
    assert_eq!(rt; room.size, Size { x, y, z: 2500 }, "{n}");
    let reflect = Reflects {
        floor: 200,
        ceiling: 500,
        x0: 400,
        x1: 400,
        y0: 300,
        y1: 300,
    };
    assert_eq!(rt; room.reflect, reflect, "{n}");
    assert_eq!(rt; room.patch, 500, "{n}");
    let task = TaskGrid {
        from_x: 200,
        from_y: 200,
        to_x: 200 * (9 + n),
        to_y: 50 * (36 + 3 * n),
        height: 800,
        nx: (8 + n) >> 2,
        ny: (20 + 2 * n) / 10,
    };
    assert_eq!(rt; room.task, task, "{n}");
    assert_eq!(rt;
        room.limits,
        Limits {
            average: None,
            uniformity: None
        },
        "{n}"
    );
    assert_eq!(rt; room.files.len(), 0, "{n}");
}

/// There is a box for each four of n, each 800 beyond the one before it.
fn expect_blocks(rt: &impl Abort, n: u32, room: &Room) {
    assert_eq!(rt; room.blocks.len(), (n >> 2) as usize, "{n}");
    let mut left = 300u32;
    for block in room.blocks.as_slice() {
        let wanted = Block {
            lo: Size {
                x: left,
                y: 400,
                z: 0,
            },
            hi: Size {
                x: left.saturating_add(500),
                y: 1000,
                z: 700,
            },
            reflect: 300,
        };
        assert_eq!(rt; *block, wanted, "{n}");
        left = left.saturating_add(800);
    }
}

/// The lamps stand row by row, each in the middle of its part of the ceiling.
fn expect_lamps(rt: &impl Abort, n: u32, room: &Room) {
    let (columns, rows) = lamp_counts(n);
    assert_eq!(rt; room.lamps.len(), columns.saturating_mul(rows), "{n}");
    let (mut row, mut column) = (0usize, 0usize);
    for lamp in room.lamps.as_slice() {
        assert!(rt; is_middle(lamp.at.x, room.size.x, columns, column), "{n}");
        assert!(rt; is_middle(lamp.at.y, room.size.y, rows, row), "{n}");
        let wanted = Lamp {
            at: Size {
                x: lamp.at.x,
                y: lamp.at.y,
                z: 2500,
            },
            shine: Shine::Even(400),
            turn: 0,
            maintenance: 1000,
            size_x: 0,
            size_y: 0,
            split_x: 1,
            split_y: 1,
            aim: Face::Down,
        };
        assert_eq!(rt; *lamp, wanted, "{n}");
        column = column.saturating_add(1);
        if column == columns {
            column = 0;
            row = row.saturating_add(1);
        }
    }
}

#[test]
fn every_made_room_is_read(rt: HostRuntime) -> Result<(), Fail> {
    for n in 1..41u32 {
        let text = make_room(rt.alloc(), n).ok().ok_or("memory")?;
        let room = read_room(rt.alloc(), text.as_slice())
            .ok()
            .ok_or("refused")?;
        expect_shell(&rt, n, &room);
        expect_blocks(&rt, n, &room);
        expect_lamps(&rt, n, &room);
    }
    Ok(())
}
