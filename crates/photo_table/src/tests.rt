//! Hulls of small tables, worked out by hand.
ghost use Rattle.std.specs.Prelude.{◌≡◌};

use crate::{PhotoTable, summary_text};
use fx_base::{Bracket, Micro, Span};
use std::alloc::{AllocError, Global};
use std::test::Fail;

/// 2^-31 cd, in ticks.
const NARROW: i128 = 32;

/// 1/3 cd in ticks, rounded down.
const THIRD: i128 = 22_906_492_245;

/// 100 cd in ticks.
const HUNDRED: i128 = 6_871_947_673_600;

fn bracket(lo: i64, hi: i64) -> Bracket
    ensures low { result.lo.0 ≡ lo }
    ensures high { result.hi.0 ≡ hi }
{
    Bracket {
        lo: Micro(lo),
        hi: Micro(hi),
    }
}

/// 100, 200, 300 and 400 cd in the half-planes 0, 90, 180 and 270, the same at gammas 0 and 180.
fn four_planes(alloc: Global) -> Result<PhotoTable, AllocError> {
    let planes = vec![in alloc;
        Micro(0),
        Micro(90_000_000),
        Micro(180_000_000),
        Micro(270_000_000),
    ]?;
    let gammas = vec![in alloc; Micro(0), Micro(180_000_000)]?;
    let values = vec![in alloc;
        Span::whole(100),
        Span::whole(100),
        Span::whole(200),
        Span::whole(200),
        Span::whole(300),
        Span::whole(300),
        Span::whole(400),
        Span::whole(400),
    ]?;
    Ok(PhotoTable::new(planes, gammas, values))
}

/// 300 cd at gamma 0 and 0 cd at gamma 90, all round.
fn one_plane(alloc: Global) -> Result<PhotoTable, AllocError> {
    let planes = vec![in alloc; Micro(0)]?;
    let gammas = vec![in alloc; Micro(0), Micro(90_000_000)]?;
    let values = vec![in alloc; Span::whole(300), Span::whole(0)]?;
    Ok(PhotoTable::new(planes, gammas, values))
}

#[test]
fn halfway_between_the_last_plane_and_the_first(rt: HostRuntime) -> Result<(), Fail> {
    let table = four_planes(rt.alloc())?;
    let hull = table.hull(
        bracket(315_000_000, 315_000_000),
        bracket(90_000_000, 90_000_000),
    );
    assert!(rt; hull.lo().0 <= 250 * HUNDRED / 100);
    assert!(rt; hull.hi().0 >= 250 * HUNDRED / 100);
    assert!(rt; hull.hi().0 <= hull.lo().0.saturating_add(NARROW));
    Ok(())
}

#[test]
fn planes_are_counted_from_the_first(rt: HostRuntime) -> Result<(), Fail> {
    let table = four_planes(rt.alloc())?;
    assert_eq!(rt; table.planes(), 4);
    assert_eq!(rt; table.plane_angle(0).0, 0);
    assert_eq!(rt; table.plane_angle(2).0, 180_000_000);
    assert_eq!(rt; table.plane_angle(3).0, 270_000_000);
    Ok(())
}

#[test]
fn a_bracket_over_the_end_of_a_turn(rt: HostRuntime) -> Result<(), Fail> {
    let table = four_planes(rt.alloc())?;
    let hull = table.hull(
        bracket(359_900_000, 360_100_000),
        bracket(90_000_000, 90_000_000),
    );
    assert!(rt; hull.lo().0 <= HUNDRED);
    assert!(rt; hull.hi().0 > HUNDRED + THIRD);
    assert!(rt; hull.hi().0 <= hull.lo().0.saturating_add(THIRD + NARROW));
    Ok(())
}

#[test]
fn the_plane_within_a_bracket_counts(rt: HostRuntime) -> Result<(), Fail> {
    let table = four_planes(rt.alloc())?;
    let hull = table.hull(bracket(269_900_000, 270_100_000), bracket(0, 0));
    assert!(rt; hull.hi().0 >= 4 * HUNDRED);
    assert!(rt; hull.lo().0 <= 4 * HUNDRED - THIRD);
    assert!(rt; hull.hi().0 <= hull.lo().0.saturating_add(THIRD + NARROW));
    Ok(())
}

#[test]
fn beyond_the_last_gamma_there_is_no_light(rt: HostRuntime) -> Result<(), Fail> {
    let table = one_plane(rt.alloc())?;
    let hull = table.hull(
        bracket(17_000_000, 17_000_000),
        bracket(89_900_000, 90_100_000),
    );
    assert_eq!(rt; hull.lo().0, 0);
    assert!(rt; hull.hi().0 > THIRD);
    assert!(rt; hull.hi().0 <= THIRD + NARROW);
    let first = table.hull(bracket(0, 0), bracket(0, 0));
    assert_eq!(rt; first.lo().0, 3 * HUNDRED);
    assert_eq!(rt; first.hi().0, 3 * HUNDRED);
    let dark = table.hull(bracket(0, 0), bracket(90_000_001, 90_500_000));
    assert_eq!(rt; dark.hi().0, 0);
    Ok(())
}

#[test]
fn an_even_table_is_the_same_everywhere(rt: HostRuntime) -> Result<(), Fail> {
    let table = PhotoTable::even(rt.alloc(), 100)?;
    assert_eq!(rt; table.planes(), 1);
    assert_eq!(rt; table.gammas(), 2);
    assert_eq!(rt; table.greatest().0, HUNDRED);
    let hull = table.hull(
        bracket(123_456_789, 123_987_654),
        bracket(45_000_001, 45_678_901),
    );
    assert_eq!(rt; hull.lo().0, HUNDRED);
    assert_eq!(rt; hull.hi().0, HUNDRED);
    Ok(())
}

#[test]
fn a_summary_is_a_line_of_counts_and_hundredths(rt: HostRuntime) -> Result<(), Fail> {
    let table = PhotoTable::even(rt.alloc(), 200)?;
    let text = summary_text(rt.alloc(), &table)?;
    assert_eq!(rt; text.as_str(), "planes 1 gammas 2 greatest 200.00 200.00\n");
    Ok(())
}
