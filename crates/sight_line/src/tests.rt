//! Sight among boxes: the worked rows of a room of 3000 mm on each edge, and a table of segments.
ghost use Rattle.sight_line.specs.Reach.{IsInReach};

use crate::{blocked_by, meets_block};
use room_layout::{Block, Point, Size};

mod segments;

use segments::{SEGMENTS, blocks};

/// The box of the worked rows.
const BLOCK: Block = Block {
    lo: Size {
        x: 1000,
        y: 1000,
        z: 1000,
    },
    hi: Size {
        x: 2000,
        y: 2000,
        z: 2000,
    },
    reflect: 0,
};

/// The point at so many half millimetres.
fn point(place: [u16; 3]) -> Point
    ensures { IsInReach result }
{
    Point {
        x: i32::from(place[0]),
        y: i32::from(place[1]),
        z: i32::from(place[2]),
    }
}

/// The box that the segment between two places in half millimetres meets first.
fn first_met(blocks: &[Block], from: [u16; 3], to: [u16; 3]) -> Option<usize> {
    blocked_by(blocks, point(from), point(to))
}

#[test]
fn a_box_between_two_points_blocks_their_sight(rt: HostRuntime) {
    assert_eq!(rt;
        first_met(&[BLOCK], [0, 3000, 3000], [6000, 3000, 3000]),
        Some(0)
    );
    assert_eq!(rt; first_met(&[BLOCK], [3000, 3000, 3000], [0, 0, 0]), Some(0));
    assert_eq!(rt; first_met(&[], [0, 3000, 3000], [6000, 3000, 3000]), None);
    assert!(rt; meets_block(&BLOCK, point([0, 3000, 3000]), point([6000, 3000, 3000])));
}

#[test]
fn touching_a_box_is_clear(rt: HostRuntime) {
    assert_eq!(rt;
        first_met(&[BLOCK], [0, 2000, 3000], [6000, 2000, 3000]),
        None,
        "along a face"
    );
    assert_eq!(rt;
        first_met(&[BLOCK], [0, 4000, 3000], [4000, 0, 3000]),
        None,
        "through an edge"
    );
    assert_eq!(rt;
        first_met(&[BLOCK], [0, 3000, 3000], [2000, 3000, 3000]),
        None,
        "ends on a face"
    );
    assert_eq!(rt;
        first_met(&[BLOCK], [1000, 1000, 1000], [1000, 1000, 1000]),
        None,
        "one point"
    );
    assert!(rt; !meets_block(&BLOCK, point([0, 2000, 3000]), point([6000, 2000, 3000])));
}

#[test]
fn of_two_equal_boxes_the_first_is_named(rt: HostRuntime) {
    assert_eq!(rt;
        first_met(&[BLOCK, BLOCK], [0, 3000, 3000], [6000, 3000, 3000]),
        Some(0)
    );
}

#[test]
fn each_segment_of_the_table_meets_the_stated_box_first(rt: HostRuntime) {
    let blocks = blocks();
    for (from, to, first) in SEGMENTS.iter() {
        assert_eq!(rt;
            first_met(&blocks, *from, *to),
            *first,
            "from {from:?} to {to:?}"
        );
    }
}

/// The farthest points of which sight is asked, and the largest box that a number of 32 bits can say.
#[test]
fn sight_reaches_from_one_farthest_corner_to_the_other(rt: HostRuntime) {
    let from = Point { x: 0, y: 0, z: 0 };
    let to = Point {
        x: 200_000,
        y: 200_000,
        z: 200_000,
    };
    let beyond = Block {
        lo: Size {
            x: 99_999,
            y: 99_999,
            z: 99_999,
        },
        hi: Size {
            x: 4_294_967_295,
            y: 4_294_967_295,
            z: 4_294_967_295,
        },
        reflect: 0,
    };
    let outside = Block {
        lo: Size {
            x: 100_000,
            y: 0,
            z: 0,
        },
        hi: beyond.hi,
        reflect: 0,
    };
    assert_eq!(rt; blocked_by(&[outside, beyond], from, to), Some(1));
}
