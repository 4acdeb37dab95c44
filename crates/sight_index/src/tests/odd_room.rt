//! A room none of whose edges is a multiple of 16: its boxes, the masks of some cells, and what is asked along segments. All of it is
//! what expected/cells.py prints, which tries every cell over fractions. Ends of segments are in half millimetres.
ghost use Rattle.std.specs.Prelude.{◌≡◌, All};
ghost use Rattle.room_layout.specs.Accepted.{IsBlockIn};

use room_layout::{Block, Size};

pub const ROOM: Size = Size {
    x: 1001,
    y: 2503,
    z: 517,
};

fn block(lo: (u32, u32, u32), hi: (u32, u32, u32)) -> Block
    ensures { result ≡ record { lo = record { x = lo.0; y = lo.1; z = lo.2 }; hi = record { x = hi.0; y = hi.1; z = hi.2 }; reflect = 0 } }
{
    Block {
        lo: Size {
            x: lo.0,
            y: lo.1,
            z: lo.2,
        },
        hi: Size {
            x: hi.0,
            y: hi.1,
            z: hi.2,
        },
        reflect: 0,
    }
}

/// A box that is just a cell, one a millimetre smaller on each side, one in the first corner and one in the last, a sheet across the room,
/// the last cell, a box that ends where the last slab begins, and a wall that begins at a border.
pub fn blocks() -> [Block; 8]
    ensures { All (IsBlockIn ROOM) result }
{
    [
        block((250, 938, 258), (312, 1095, 290)),
        block((251, 939, 259), (311, 1094, 289)),
        block((0, 0, 0), (1, 1, 1)),
        block((1000, 2502, 516), (1001, 2503, 517)),
        block((0, 0, 200), (1001, 2503, 201)),
        block((938, 2346, 484), (1001, 2503, 517)),
        block((875, 0, 0), (938, 156, 32)),
        block((500, 0, 0), (501, 2503, 517)),
    ]
}

/// Cells, and the masks of the boxes that touch them.
pub const CELLS: [((usize, usize, usize), u64); 22] = [
    ((0, 0, 0), 4),
    ((0, 0, 6), 16),
    ((3, 5, 7), 1),
    ((4, 6, 8), 3),
    ((5, 7, 9), 1),
    ((6, 7, 9), 0),
    ((5, 8, 9), 0),
    ((3, 6, 8), 1),
    ((2, 6, 8), 0),
    ((7, 3, 6), 144),
    ((7, 3, 7), 128),
    ((8, 3, 5), 128),
    ((8, 15, 15), 128),
    ((9, 0, 0), 0),
    ((13, 0, 0), 64),
    ((12, 0, 0), 0),
    ((14, 1, 1), 64),
    ((15, 0, 0), 64),
    ((15, 2, 0), 0),
    ((14, 14, 14), 32),
    ((13, 14, 14), 0),
    ((15, 15, 15), 40),
];

/// How many cells each box touches.
pub const TOUCHED: [u64; 8] = [27, 1, 1, 1, 256, 8, 12, 512];

/// The ends of a segment, the boxes that it meets and those that are asked, as masks, and the first that is met.
pub const SEGMENTS: [([u32; 3], [u32; 3], u64, u64, Option<usize>); 24] = [
    ([500, 0, 516], [500, 5006, 516], 0, 3, None),
    ([520, 1876, 300], [520, 1876, 600], 16, 19, Some(4)),
    ([520, 1877, 410], [520, 1877, 600], 1, 1, Some(0)),
    ([373, 1900, 520], [373, 2000, 540], 0, 0, None),
    ([374, 1900, 520], [374, 2000, 540], 0, 1, None),
    ([10, 10, 402], [700, 4900, 402], 0, 16, None),
    ([10, 10, 402], [700, 4900, 401], 16, 16, Some(4)),
    ([500, 1876, 516], [500, 1876, 516], 0, 3, None),
    ([518, 1894, 534], [518, 1894, 534], 3, 1, Some(0)),
    ([300, 300, 400], [300, 300, 400], 0, 16, None),
    ([1, 1, 1], [1, 1, 1], 4, 4, Some(2)),
    ([0, 0, 0], [0, 0, 0], 0, 4, None),
    ([2002, 5006, 1034], [2002, 5006, 1034], 0, 40, None),
    ([2001, 5005, 1033], [2001, 5005, 1033], 40, 8, Some(3)),
    ([1876, 4692, 968], [2002, 5006, 1034], 40, 8, Some(3)),
    ([2000, 5006, 1031], [2002, 5004, 1034], 40, 8, Some(3)),
    ([2002, 0, 1034], [2002, 5006, 1034], 0, 40, None),
    ([1876, 4692, 968], [0, 0, 1034], 128, 168, Some(7)),
    ([1000, 0, 0], [1000, 5006, 300], 0, 128, None),
    ([1876, 5, 5], [2002, 60, 60], 0, 64, None),
    ([1875, 5, 5], [2002, 60, 60], 64, 64, Some(6)),
    ([0, 0, 0], [2002, 5006, 1034], 188, 7, Some(2)),
    ([0, 5006, 0], [2002, 0, 1034], 144, 31, Some(4)),
    ([2002, 5006, 0], [0, 0, 1034], 144, 31, Some(4)),
];
