//! Weights against values of mpmath. Those of a room of 100 m show that nothing passes 128 bits there.
ghost use Rattle.std.specs.Prelude.{◌<◌, ◌≤◌, ◌+◌, ◌^◌, ◌≤ℤ◌, pos};
ghost use Rattle.patch_mesh.specs.Bounds.{IsPatchIn, IsPointIn, largest_room};

use crate::quotient::{guess, quotient};
use crate::{factor, point_factor};
use fx_base::Weight;
use patch_mesh::Patch;
use room_layout::{Face, Point};

/// The value lies between the tick `floor` and the next one, the weight holds both, and it is at most 5 ticks wide.
fn holds(weight: Weight, floor: u64) -> bool {
    weight.lo <= floor && floor < weight.hi && floor <= u64::MAX - 5 && weight.hi - weight.lo <= 5
}

/// A tick count times 10^8, in whole units.
fn hundred_millionths(ticks: u64) -> u128 {
    ticks as u128 * 100_000_000 / 68_719_476_736
}

const FLOOR: Patch = Patch {
    centre: Point {
        x: 2000,
        y: 2000,
        z: 0,
    },
    face: Face::Up,
    area: 4_000_000,
    reflect: 500,
};

const CEILING: Patch = Patch {
    centre: Point {
        x: 2000,
        y: 2000,
        z: 4000,
    },
    face: Face::Down,
    area: 4_000_000,
    reflect: 500,
};

const WALLS: [Patch; 4] = [
    Patch {
        centre: Point {
            x: 0,
            y: 2000,
            z: 2000,
        },
        face: Face::East,
        area: 4_000_000,
        reflect: 500,
    },
    Patch {
        centre: Point {
            x: 4000,
            y: 2000,
            z: 2000,
        },
        face: Face::West,
        area: 4_000_000,
        reflect: 500,
    },
    Patch {
        centre: Point {
            x: 2000,
            y: 0,
            z: 2000,
        },
        face: Face::North,
        area: 4_000_000,
        reflect: 500,
    },
    Patch {
        centre: Point {
            x: 2000,
            y: 4000,
            z: 2000,
        },
        face: Face::South,
        area: 4_000_000,
        reflect: 500,
    },
];

// 0.5 / (pi + 1) to the ceiling, and 0.5 * (1 / 2) * 2 / (pi + 2) to each wall: mpmath at 60 digits, floor(x * 10**8) and
// floor(x * 2**36).
#[test]
fn surfaces_of_a_cube_of_2_m(rt: HostRuntime) {
    let facing = factor(&FLOOR, &CEILING, true);
    assert!(rt; holds(facing, 8_296_262_148));
    assert_eq!(rt; hundred_millionths(facing.lo), 12_072_650);
    assert_eq!(rt; hundred_millionths(facing.hi), 12_072_650);
    for wall in &WALLS {
        let weight = factor(&FLOOR, wall, true);
        assert!(rt; holds(weight, 6_682_703_333));
        assert_eq!(rt; hundred_millionths(weight.lo), 9_724_613);
        assert_eq!(rt; hundred_millionths(weight.hi), 9_724_613);
    }
}

#[test]
fn nothing_to_itself_and_nothing_where_the_way_is_not_clear(rt: HostRuntime) {
    let nothing = Weight { lo: 0, hi: 0 };
    assert_eq!(rt; factor(&FLOOR, &FLOOR, true), nothing);
    assert_eq!(rt; factor(&FLOOR, &CEILING, false), nothing);
    let desk = Point {
        x: 2000,
        y: 2000,
        z: 1500,
    };
    assert_eq!(rt; point_factor(desk, &FLOOR, true), nothing);
    assert_eq!(rt; point_factor(desk, &CEILING, false), nothing);
    // 0.5 * 16,000,000 / (pi * 2500**2 + 16,000,000)
    assert!(rt; holds(point_factor(desk, &CEILING, true), 15_427_431_520));
}

/// A patch of the floor at one corner of a room, and one of the ceiling at the opposite corner.
fn opposite(edge: i32, margin: i32, area: u64) -> Weight
    requires edge { (pos 0 ≤ℤ edge) × (edge ≤ℤ pos 200000) }
    requires margin { (pos 0 ≤ℤ margin) × (margin ≤ℤ edge) }
    requires area { (1 ≤ area) × (area ≤ 10000000000) }
{
    let floor = Patch {
        centre: Point {
            x: margin,
            y: margin,
            z: 0,
        },
        face: Face::Up,
        area,
        reflect: 950,
    };
    let ceiling = Patch {
        centre: Point {
            x: edge - margin,
            y: edge - margin,
            z: edge,
        },
        face: Face::Down,
        area,
        reflect: 950,
    };
    factor(&floor, &ceiling, true)
}

// 0.95 * (d**2 / R) * A / (pi * R + A): mpmath at 60 digits, floor(x * 2**36), with d the edge and R = 2 (d - 2 m)**2 + d**2.
#[test]
fn the_farthest_pairs_of_rooms_of_50_m_and_100_m_and_the_nearest(rt: HostRuntime) {
    assert!(rt; holds(opposite(100_000, 1_000, 1_000_000), 974_296));
    assert!(rt; holds(opposite(100_000, 50, 2_500), 2_315));
    assert!(rt; holds(opposite(200_000, 1_000, 1_000_000), 237_141));
    assert!(rt; holds(opposite(200_000, 50, 2_500), 578));
    assert!(rt; holds(opposite(200_000, 50_000, 2_500_000_000), 2_192_610_023));
    assert!(rt; holds(opposite(200_000, 100_000, 10_000_000_000), 15_762_898_082));
}

// Only a division would show that a guess fails, since the quotient is right either way.
#[test]
fn quotients_are_guessed(rt: HostRuntime) {
    for i in 0..200u64 {
        let under = (1 << 35) + i.wrapping_mul(46_116_860_184_273_879);
        let lo = i.wrapping_mul(343_597_383);
        let over = under as u128 * lo as u128 + under as u128 / 3;
        assert_eq!(rt; guess(over, under), lo);
        assert_eq!(rt; quotient(over, under), lo);
    }
}
