//! Spans, shares and printed numbers. Each value is worked out by hand or with Python's fractions; a tick is 2^-36, and 2^36 is 68,719,476,736.
use crate::{
    MICROS_IN_DEGREE, MICROS_IN_TURN, Memory, Span, TICKS_IN_ONE, Tick, Weight, ceil_cent,
    ceil_thousandth, end_ticks, floor_cent, share_above, share_below,
};
use std::alloc::{AllocError, AllocFailed};

const ONE: i128 = 68_719_476_736;

#[test]
fn a_third_is_rounded_to_either_side(rt: HostRuntime) {
    // 2^36 / 3 = 22,906,492,245.33
    for third in [
        Span::whole(1).scale_div(1, 3),
        Span::whole(1).div(Span::whole(3)),
        Span::of_fraction(1, 3),
    ] {
        assert_eq!(rt; third.lo(), Tick(22_906_492_245));
        assert_eq!(rt; third.hi(), Tick(22_906_492_246));
    }
}

#[test]
fn a_whole_root_is_exact_and_another_lies_between_two_ticks(rt: HostRuntime) {
    let three = Span::root(9);
    assert_eq!(rt; three.lo(), Tick(3 * ONE));
    assert_eq!(rt; three.hi(), Tick(3 * ONE));
    // Python: math.isqrt(2 * 4**36) = 97184015999
    let root = Span::root(2);
    assert_eq!(rt; root.lo(), Tick(97_184_015_999));
    assert_eq!(rt; root.hi(), Tick(97_184_016_000));
}

#[test]
fn a_printed_value_is_rounded_outward(rt: HostRuntime) {
    // 5000 / 9 lux is 555.555..
    let value = Span::whole(5000).scale_div(1, 9);
    assert_eq!(rt; floor_cent(value.lo()), 55_555);
    assert_eq!(rt; ceil_cent(value.hi()), 55_556);
    let sum = value.add(Span::new(Tick(0), Tick(1)));
    assert_eq!(rt; sum.lo(), value.lo());
}

#[test]
fn a_product_is_rounded_to_either_side(rt: HostRuntime) {
    // (2^36 / 3 rounded down) squared by 2^36 is 7,635,497,414.89, and rounded up it is 7,635,497,415.56
    let third = Span::of_fraction(1, 3);
    let ninth = third.mul(third);
    assert_eq!(rt; ninth.lo(), Tick(7_635_497_414));
    assert_eq!(rt; ninth.hi(), Tick(7_635_497_416));
}

#[test]
fn a_printed_thousandth_is_rounded_up(rt: HostRuntime) {
    // 5000 / 9 lux is 555.5555..
    let value = Span::whole(5000).scale_div(1, 9);
    assert_eq!(rt; ceil_thousandth(value.hi()), 555_556);
    assert_eq!(rt; ceil_thousandth(Tick(2 * ONE)), 2_000);
}

#[test]
fn a_share_is_rounded_to_either_side(rt: HostRuntime) {
    // a third, rounded down, of 7 ticks is 2.33 ticks
    assert_eq!(rt; share_below(22_906_492_245, end_ticks(Tick(7))), 2);
    assert_eq!(rt; share_above(22_906_492_245, end_ticks(Tick(7))), 3);
    // all of a light, and nothing of it
    assert_eq!(rt; share_below(68_719_476_736, 12_345), 12_345);
    assert_eq!(rt; share_above(68_719_476_736, 12_345), 12_345);
    assert_eq!(rt; share_above(Weight::NONE.hi, 12_345), 0);
}

#[test]
fn a_unit_has_so_many_parts(rt: HostRuntime) {
    // 2^36, and 360 degrees of a million parts
    assert_eq!(rt; TICKS_IN_ONE, 1 << 36);
    assert_eq!(rt; MICROS_IN_DEGREE, 1_000_000);
    assert_eq!(rt; MICROS_IN_TURN, 360_000_000);
}

#[test]
fn want_of_memory_is_handed_on(rt: HostRuntime) {
    assert_eq!(rt; Memory::from(AllocError), Memory);
    assert_eq!(rt; Memory::from(AllocFailed { value: 7 }), Memory);
}
