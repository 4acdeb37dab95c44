//! Places and names, by hand.
use crate::{Face, Point, in_front, is_printable, position_of, squared_distance};

#[test]
fn the_square_of_a_distance_has_all_three_axes(rt: HostRuntime) {
    // 3 * 3 + 4 * 4 + 12 * 12 = 13 * 13
    let here = position_of(Point { x: 4, y: 0, z: 12 });
    let there = position_of(Point { x: 1, y: 4, z: 0 });
    assert_eq!(rt; squared_distance(&here, &there), 169);
    // from the corner to the farthest place: 3 * 200,000^2
    let corner = position_of(Point { x: 0, y: 0, z: 0 });
    let far = position_of(Point {
        x: 200_000,
        y: 200_000,
        z: 200_000,
    });
    assert_eq!(rt; squared_distance(&far, &corner), 120_000_000_000);
}

#[test]
fn a_place_lies_in_front_of_the_planes_that_face_it(rt: HostRuntime) {
    let here = position_of(Point {
        x: 10,
        y: 20,
        z: 30,
    });
    let there = position_of(Point {
        x: 13,
        y: 25,
        z: 37,
    });
    for (face, ahead, back) in [
        (Face::Up, 7, 0),
        (Face::Down, 0, 7),
        (Face::East, 3, 0),
        (Face::West, 0, 3),
        (Face::North, 5, 0),
        (Face::South, 0, 5),
    ] {
        assert_eq!(rt; in_front(face, &here, &there), ahead, "{face:?}");
        assert_eq!(rt; in_front(face, &there, &here), back, "{face:?}");
    }
}

#[test]
fn a_printable_text_has_a_byte_and_no_control_character(rt: HostRuntime) {
    for (text, printable) in [
        ("", false),
        ("a", true),
        ("a b.ldt", true),
        ("länge", true),
        ("a\tb", false),
        ("a\u{1f}", false),
        ("a ", true),
        ("a~", true),
        ("a\u{7f}", false),
        ("12345678", true),
        ("123456789", false),
    ] {
        assert_eq!(rt; is_printable(text, 8), printable, "{text:?}");
    }
}
