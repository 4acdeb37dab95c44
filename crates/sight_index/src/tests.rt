//! Look-ups by cells: the worked rows of a room of 3000 mm on each edge, and tables of a room with odd edges.
ghost use Rattle.std.specs.Prelude.{◌≡◌, ◌≤◌, length};
ghost use Rattle.room_layout.specs.Accepted.{IsRoomSize};
ghost use Rattle.sight_index.specs.Cells.{IsAlong, IsPointIn};
ghost use Rattle.sight_index.specs.Index.{IsIndexOf};

use crate::{BlockProbe, Probe, SightIndex};
use room_layout::{Block, Point, Size};
use sight_line::blocked_by;
use std::test::Fail;

mod odd_room;

use odd_room::{CELLS, ROOM, SEGMENTS, TOUCHED, blocks};

/// The room of the worked rows.
const CUBE: Size = Size {
    x: 3000,
    y: 3000,
    z: 3000,
};

/// A box near the first corner of the room.
const SMALL: Block = Block {
    lo: Size {
        x: 100,
        y: 100,
        z: 100,
    },
    hi: Size {
        x: 200,
        y: 200,
        z: 200,
    },
    reflect: 0,
};

/// The box of the worked rows.
const BLOCK: Block = Block {
    lo: Size {
        x: 1000,
        y: 1000,
        z: 1000,
    },
    hi: Size {
        x: 2000,
        y: 2000,
        z: 2000,
    },
    reflect: 0,
};

/// Says of boxes what it was told.
#[derive(Drop)]
struct Told<'a> {
    truths: &'a [bool],
    asked: u64,
    ghost few: { length truths.now ≤ 64 },
}

impl<'a> Probe for Told<'a> {
    ghost truths = { λ told. told.truths.now };

    ghost asked = { λ told. told.asked };

    fn meets(&mut self, index: usize) -> bool {
        self.asked |= 1 << index;
        self.truths[index]
    }
}

/// A coordinate of at most so many millimetres.
fn coordinate(edge: u32, at: u32) -> i32
    requires { edge ≤ 100000 }
    ensures { IsAlong edge result }
{
    at.min(2 * edge) as i32
}

/// The point at so many half millimetres, which lies in the room.
fn point(room: Size, at: [u32; 3]) -> Point
    requires { IsRoomSize room }
    ensures { IsPointIn room result }
{
    Point {
        x: coordinate(room.x, at[0]),
        y: coordinate(room.y, at[1]),
        z: coordinate(room.z, at[2]),
    }
}

/// The box that the segment between two places meets first, by cells and by asking every box.
fn both(
    index: &SightIndex,
    room: Size,
    blocks: &[Block],
    from: [u32; 3],
    to: [u32; 3],
) -> (Option<usize>, Option<usize>)
    requires room { IsRoomSize room }
    requires few { length blocks.now ≤ 64 }
    requires index { IsIndexOf room blocks.now index.now }
{
    let from = point(room, from);
    let to = point(room, to);
    let mut probe = BlockProbe::new(blocks, from, to);
    (
        index.blocked_by(from, to, &mut probe),
        blocked_by(blocks, from, to),
    )
}

/// Bit by bit.
fn truths_of(mask: u64) -> [bool; 8] {
    let mut truths = [false; 8];
    for b in 0..8 {
        truths[b] = mask >> b & 1 == 1;
    }
    truths
}

#[test]
fn near_boxes_alone_are_asked(rt: HostRuntime) -> Result<(), Fail> {
    let blocks = [SMALL, BLOCK];
    let index = SightIndex::build(rt.alloc(), CUBE, &blocks)?;
    let from = point(CUBE, [0, 3000, 3000]);
    let to = point(CUBE, [6000, 3000, 3000]);
    for (truths, answer) in [([true, true], Some(1)), ([false, false], None)] {
        let mut probe = Told {
            truths: &truths,
            asked: 0,
        };
        assert_eq!(rt; index.blocked_by(from, to, &mut probe), answer);
        assert_eq!(rt; probe.asked, 2);
    }
    assert_eq!(rt; index.cell(0, 0, 0), 1);
    assert_eq!(rt; index.cell(8, 8, 8), 2);
    Ok(())
}

#[test]
fn a_box_between_two_points_blocks_their_sight_by_both_calls(rt: HostRuntime) -> Result<(), Fail> {
    let blocks = [BLOCK];
    let index = SightIndex::build(rt.alloc(), CUBE, &blocks)?;
    let met = both(&index, CUBE, &blocks, [0, 3000, 3000], [6000, 3000, 3000]);
    assert_eq!(rt; met, (Some(0), Some(0)));
    Ok(())
}

#[test]
fn touching_a_box_is_clear_by_both_calls(rt: HostRuntime) -> Result<(), Fail> {
    let blocks = [BLOCK];
    let index = SightIndex::build(rt.alloc(), CUBE, &blocks)?;
    for (from, to, how) in [
        ([0, 2000, 3000], [6000, 2000, 3000], "along a face"),
        ([0, 4000, 3000], [4000, 0, 3000], "through an edge"),
        ([0, 3000, 3000], [2000, 3000, 3000], "ends on a face"),
        ([1000, 1000, 1000], [1000, 1000, 1000], "one point"),
    ] {
        let met = both(&index, CUBE, &blocks, from, to);
        assert_eq!(rt; met, (None, None), "{how}");
    }
    Ok(())
}

#[test]
fn cells_of_odd_edges_have_the_boxes_that_touch_them(rt: HostRuntime) -> Result<(), Fail> {
    let blocks = blocks();
    let index = SightIndex::build(rt.alloc(), ROOM, &blocks)?;
    for ((i, j, k), mask) in CELLS {
        assert!(rt; i < 16 && j < 16 && k < 16);
        assert_eq!(rt; index.cell(i, j, k), mask, "cell {i} {j} {k}");
    }
    Ok(())
}

#[test]
fn each_box_touches_the_stated_number_of_cells(rt: HostRuntime) -> Result<(), Fail> {
    let blocks = blocks();
    let index = SightIndex::build(rt.alloc(), ROOM, &blocks)?;
    for (b, count) in TOUCHED.iter().enumerate() {
        let mut touched = 0u64;
        for cell in 0..4096 {
            let mask = index.cell(cell / 256, cell / 16 % 16, cell % 16);
            touched = touched.saturating_add(mask >> b & 1);
        }
        assert_eq!(rt; touched, *count, "box {b}");
    }
    Ok(())
}

#[test]
fn a_room_without_boxes_is_clear_and_asks_nothing(rt: HostRuntime) -> Result<(), Fail> {
    let index = SightIndex::build(rt.alloc(), CUBE, &[])?;
    let from = index.vantage(point(CUBE, [0, 0, 0]));
    let to = index.vantage(point(CUBE, [6000, 6000, 6000]));
    let mut probe = Told {
        truths: &[],
        asked: 0,
    };
    assert_eq!(rt; index.blocked_between(&from, &to, &mut probe), None);
    assert_eq!(rt; probe.asked, 0);
    Ok(())
}

#[test]
fn the_last_of_sixty_four_boxes_is_found(rt: HostRuntime) -> Result<(), Fail> {
    let index = SightIndex::build(rt.alloc(), CUBE, &[BLOCK; 64])?;
    let from = index.vantage(point(CUBE, [0, 3000, 3000]));
    let to = index.vantage(point(CUBE, [6000, 3000, 3000]));
    let mut truths = [false; 64];
    truths[63] = true;
    let mut probe = Told {
        truths: &truths,
        asked: 0,
    };
    assert_eq!(rt; index.blocked_between(&from, &to, &mut probe), Some(63));
    assert_eq!(rt; probe.asked, u64::MAX);
    assert_eq!(rt; index.cell(8, 8, 8), u64::MAX);
    Ok(())
}

/// The largest room.
const WIDE: Size = Size {
    x: 100_000,
    y: 100_000,
    z: 100_000,
};

/// A box in its last corner.
const LAST: Block = Block {
    lo: Size {
        x: 99_999,
        y: 99_999,
        z: 99_999,
    },
    hi: WIDE,
    reflect: 0,
};

// The cells are 6,250 mm long.
#[test]
fn the_last_corner_of_the_largest_room_is_in_the_last_cell(rt: HostRuntime) -> Result<(), Fail> {
    let blocks = [BLOCK, LAST];
    let index = SightIndex::build(rt.alloc(), WIDE, &blocks)?;
    for ((i, j, k), mask) in [
        ((15, 15, 15), 2),
        ((14, 15, 15), 0),
        ((0, 0, 0), 1),
        ((1, 0, 0), 0),
    ] {
        assert_eq!(rt; index.cell(i, j, k), mask, "cell {i} {j} {k}");
    }
    let corner = [200_000, 200_000, 200_000];
    for (from, met) in [
        ([0, 0, 0], Some(0)),
        ([190_000, 190_000, 190_000], Some(1)),
        ([200_000, 0, 200_000], None),
    ] {
        assert_eq!(rt; both(&index, WIDE, &blocks, from, corner), (met, met));
    }
    Ok(())
}

fn shared<T: Send + Sync>(_value: &T) {}

#[test]
fn an_index_may_be_shared_between_threads(rt: HostRuntime) -> Result<(), Fail> {
    let index = SightIndex::build(rt.alloc(), CUBE, &[SMALL])?;
    let vantage = index.vantage(point(CUBE, [300, 300, 300]));
    shared(&index);
    shared(&vantage);
    assert_eq!(rt; vantage.at, point(CUBE, [300, 300, 300]));
    Ok(())
}

#[test]
fn along_borders_faces_and_in_corners_the_stated_boxes_are_asked(
    rt: HostRuntime,
) -> Result<(), Fail> {
    let blocks = blocks();
    let index = SightIndex::build(rt.alloc(), ROOM, &blocks)?;
    for (from, to, met, asked, first) in SEGMENTS {
        let truths = truths_of(met);
        let mut probe = Told {
            truths: &truths,
            asked: 0,
        };
        let answer = index.blocked_by(point(ROOM, from), point(ROOM, to), &mut probe);
        assert_eq!(rt; answer, first, "from {from:?} to {to:?}");
        assert_eq!(rt; probe.asked, asked, "from {from:?} to {to:?}");
        assert_eq!(rt; both(&index, ROOM, &blocks, from, to), (first, first));
    }
    Ok(())
}
