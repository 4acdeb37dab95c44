//! Systems and rows hold what was put in; their sums and the light that they send, worked out by hand.
ghost use Rattle.std.specs.Prelude.{◌≡◌, ℕ, ◌<◌, ◌≤◌, ◌^◌, length};

use crate::{Heavy, IntervalSystem, Row};
use fx_base::{Span, Tick, Weight};
use std::test::Fail;

const QUARTER: Weight = Weight {
    lo: 17_179_869_183,
    hi: 17_179_869_184,
};

const WHOLE: Weight = Weight {
    lo: 68_719_476_736,
    hi: 68_719_476_736,
};

#[test]
fn a_row_holds_what_was_put_in(rt: HostRuntime) -> Result<(), Fail> {
    let mut row = Row::new(rt.alloc(), 3)?;
    row.put(1, QUARTER);
    assert_eq!(rt; row.len(), 3);
    assert!(rt; !row.is_empty());
    assert_eq!(rt; row.weight(1), QUARTER);
    assert_eq!(rt; row.weight(2), Weight { lo: 0, hi: 0 });
    assert_eq!(rt; row.sum(), 17_179_869_184);
    Ok(())
}

#[test]
fn a_row_is_made_of_its_weights(rt: HostRuntime) -> Result<(), Fail> {
    let row = Row::from_weights(vec![in rt.alloc(); QUARTER, WHOLE]?);
    assert_eq!(rt; row.len(), 2);
    assert_eq!(rt; row.weight(0), QUARTER);
    assert_eq!(rt; row.weight(1), WHOLE);
    Ok(())
}

#[test]
fn the_first_row_above_255_parts_in_256_is_heavy(rt: HostRuntime) -> Result<(), Fail> {
    let mut system = IntervalSystem::new(rt.alloc(), 3)?;
    assert_eq!(rt; system.heavy_row(), None);
    system.set_weight(0, 1, QUARTER);
    system.set_weight(1, 0, QUARTER);
    system.set_weight(1, 1, WHOLE);
    system.set_weight(2, 2, WHOLE);
    system.set_direct(2, Span::whole(5));
    assert_eq!(rt; system.size(), 3);
    assert_eq!(rt; system.weight(0, 1), QUARTER);
    assert_eq!(rt; system.direct(2).hi().0, 343_597_383_680);
    assert_eq!(rt; system.row_sum(0), 17_179_869_184);
    let heavy = Heavy {
        row: 1,
        upper: 85_899_345_920,
    };
    assert_eq!(rt; system.heavy_row(), Some(heavy));
    Ok(())
}

#[test]
fn a_system_is_made_from_its_rows(rt: HostRuntime) -> Result<(), Fail> {
    let mut row = Row::new(rt.alloc(), 1)?;
    row.put(0, QUARTER);
    let rows = vec![in rt.alloc(); row]?;
    let direct = vec![in rt.alloc(); Span::whole(7)]?;
    let system = IntervalSystem::from_rows(rows, direct);
    assert_eq!(rt; system.weight(0, 0), QUARTER);
    assert_eq!(rt; system.direct(0).lo().0, 481_036_337_152);
    Ok(())
}

// floor and ceil of the products by 2^36, added: Python's fractions
#[test]
fn a_row_sends_its_share_of_each_light(rt: HostRuntime) -> Result<(), Fail> {
    let mut row = Row::new(rt.alloc(), 3)?;
    row.put(0, QUARTER);
    row.put(2, WHOLE);
    let light = [Tick(1_000_000_000_001), Tick(77), Tick(12_345)];
    assert_eq!(rt; row.sent_below(&light), 250_000_012_330);
    assert_eq!(rt; row.sent_above(&light), 250_000_012_346);
    Ok(())
}
