//! The plans of least power of small groups, as `expected/plans.py` finds them by trying all plans, and plan files with each fault at its
//! border.
ghost use Rattle.std.specs.Prelude.{◌≤◌, ◌^◌, All};
ghost use Rattle.dimming_plan.specs.Steps.{IsGroup};

use crate::{
    Found, Group, PlanFault, PlanLamp, PowerBracket, group_watts, least_power, members, plan_text,
    read_plan,
};
use fx_base::{Span, tick_of};
use std::test::Fail;

mod groups;

/// The ticks in a lux.
const LUX: u128 = 68_719_476_736;

/// A group whose average lies between these ends in ticks.
fn group(low: u128, high: u128, watts: u32) -> Group
    requires order { low ≤ high }
    requires most { high ≤ 2 ^ 105 }
    requires watts { watts ≤ 2560000 }
    ensures { IsGroup result }
{
    Group {
        average: Span::new(tick_of(low), tick_of(high)),
        watts,
    }
}

/// A group without lamps.
fn no_lamps() -> Group
    ensures { IsGroup result }
{
    group(0, 0, 0)
}

/// Six groups in their order.
fn six(a: Group, b: Group, c: Group, d: Group, e: Group, f: Group) -> [Group; 6]
    requires first { IsGroup a }
    requires second { IsGroup b }
    requires third { IsGroup c }
    requires fourth { IsGroup d }
    requires fifth { IsGroup e }
    requires sixth { IsGroup f }
    ensures { All IsGroup result }
{
    [a, b, c, d, e, f]
}

/// Six groups of which the first alone has lamps.
fn alone(low: u128, high: u128, watts: u32) -> [Group; 6]
    requires order { low ≤ high }
    requires most { high ≤ 2 ^ 105 }
    requires watts { watts ≤ 2560000 }
    ensures { All IsGroup result }
{
    six(
        group(low, high, watts),
        no_lamps(),
        no_lamps(),
        no_lamps(),
        no_lamps(),
        no_lamps(),
    )
}

/// The first group at a step, and the others dark.
const fn first_at(step: u8, tenths: u64) -> Found {
    Found {
        tenths,
        steps: [step, 0, 0, 0, 0, 0],
    }
}

#[test]
fn what_may_be_enough_is_told_apart_from_what_is(rt: HostRuntime) -> Result<(), Fail> {
    let found = least_power(&alone(LUX, 3 * LUX, 10), 1_500);
    assert_eq!(rt; found.met, None);
    assert_eq!(rt; found.possible, Some(first_at(5, 50)));
    Ok(())
}

#[test]
fn a_limit_is_reached_exactly_or_just_not(rt: HostRuntime) -> Result<(), Fail> {
    let group = alone(40 * LUX, 40 * LUX, 10);
    let exactly = least_power(&group, 40_000);
    assert_eq!(rt; exactly.met, Some(first_at(10, 100)));
    assert_eq!(rt; exactly.possible, Some(first_at(10, 100)));
    let more = least_power(&group, 40_001);
    assert_eq!(rt; more.met, None);
    assert_eq!(rt; more.possible, None);
    Ok(())
}

#[test]
fn nothing_is_lit_where_nothing_is_asked(rt: HostRuntime) -> Result<(), Fail> {
    let found = least_power(&alone(LUX, LUX, 1), 0);
    assert_eq!(rt; found.met, Some(first_at(0, 0)));
    assert_eq!(rt; found.possible, Some(first_at(0, 0)));
    Ok(())
}

#[test]
fn of_equal_powers_the_first_plan_counts(rt: HostRuntime) -> Result<(), Fail> {
    let equal = 100 * LUX;
    let groups = six(
        group(equal, equal, 10),
        group(equal, equal, 10),
        group(equal, equal, 10),
        group(equal, equal, 10),
        group(equal, equal, 10),
        group(equal, equal, 10),
    );
    let found = least_power(&groups, 30_000);
    let last_alone = Found {
        tenths: 30,
        steps: [0, 0, 0, 0, 0, 3],
    };
    assert_eq!(rt; found.met, Some(last_alone));
    assert_eq!(rt; found.possible, Some(last_alone));
    Ok(())
}

#[test]
fn six_groups_are_searched_whole(rt: HostRuntime) -> Result<(), Fail> {
    let groups = six(
        group(5_711_962_906_296, 6_192_999_243_448, 36),
        group(2_817_979_582_513, 3_299_015_919_665, 14),
        group(8_314_987_965_579, 8_796_024_302_731, 58),
        group(4_501_125_726_208, 4_982_162_063_360, 22),
        group(618_544_010_100, 1_099_580_347_252, 6),
        group(16_517_413_428_264, 16_998_449_765_416, 130),
    );
    let found = least_power(&groups, 300_000);
    let met = Found {
        tenths: 1254,
        steps: [10, 10, 9, 10, 2, 0],
    };
    let possible = Found {
        tenths: 1116,
        steps: [10, 10, 6, 10, 8, 0],
    };
    assert_eq!(rt; found.met, Some(met));
    assert_eq!(rt; found.possible, Some(possible));
    Ok(())
}

#[test]
fn a_plan_has_a_group_and_watts_for_each_lamp(rt: HostRuntime) -> Result<(), Fail> {
    let text = b"\xEF\xBB\xBFlamp,group,watts\r\n0,5,10000\r\n\n\"1\",\"0\",0";
    let plan = read_plan(rt.alloc(), text, 2)?;
    let first = PlanLamp {
        group: 5,
        watts: 10_000,
    };
    let second = PlanLamp { group: 0, watts: 0 };
    assert_eq!(rt; plan[0], first);
    assert_eq!(rt; plan[1], second);
    Ok(())
}

#[test]
fn a_record_is_a_lamp_a_group_and_watts_in_their_ranges(rt: HostRuntime) -> Result<(), Fail> {
    let alloc = rt.alloc();
    let first = Some(PlanFault::Record(1));
    let second = Some(PlanFault::Record(2));
    assert_eq!(rt; read_plan(alloc, b"a,b,c\n0,6,50\n", 1).err(), first);
    assert_eq!(rt; read_plan(alloc, b"a,b,c\n0,0,10001\n", 1).err(), first);
    assert_eq!(rt; read_plan(alloc, b"a,b\n0,0,50\n", 1).err(), first);
    assert_eq!(rt; read_plan(alloc, b"a,b,c\n0,-1,50\n", 1).err(), first);
    assert_eq!(rt; read_plan(alloc, b"a,b,c\n0,0,5.5\n", 1).err(), first);
    assert_eq!(rt;
        read_plan(alloc, b"a,b,c\n0,0,50\n1,00,50\n", 2).err(),
        second
    );
    let forty_digits = b"a,b,c\n0,0,1000000000000000000000000000000000000000\n";
    assert_eq!(rt; read_plan(alloc, forty_digits, 1).err(), first);
    // a broken record is told before its place
    assert_eq!(rt; read_plan(alloc, b"a,b,c\n7,6,50\n", 1).err(), first);
    Ok(())
}

#[test]
fn lamps_come_in_order_and_each_once(rt: HostRuntime) -> Result<(), Fail> {
    let alloc = rt.alloc();
    let order = Some(PlanFault::Order(2));
    let count = Some(PlanFault::Count);
    assert_eq!(rt;
        read_plan(alloc, b"a,b,c\n0,0,50\n0,0,50\n", 2).err(),
        order
    );
    assert_eq!(rt; read_plan(alloc, b"a,b,c\n0,0,50\n", 2).err(), count);
    assert_eq!(rt;
        read_plan(alloc, b"a,b,c\n0,0,50\n1,0,50\n", 1).err(),
        count
    );
    assert_eq!(rt; read_plan(alloc, b"a,b,c\n", 1).err(), count);
    assert_eq!(rt; read_plan(alloc, b"", 1).err(), count);
    Ok(())
}

#[test]
fn a_fault_is_told_by_its_number_its_name_and_its_record(rt: HostRuntime) -> Result<(), Fail> {
    let record = PlanFault::Record(1).text(rt.alloc())?;
    let count = PlanFault::Count.text(rt.alloc())?;
    let order = PlanFault::Order(7).text(rt.alloc())?;
    assert!(rt; record.as_str() == "1 Record 1");
    assert!(rt; count.as_str() == "2 Count");
    assert!(rt; order.as_str() == "3 Order 7");
    Ok(())
}

#[test]
fn the_plans_are_told_with_their_power_and_steps(rt: HostRuntime) -> Result<(), Fail> {
    let found = PowerBracket {
        met: Some(Found {
            tenths: 450,
            steps: [1, 10, 0, 0, 0, 0],
        }),
        possible: None,
    };
    let text = plan_text(rt.alloc(), &found)?;
    assert!(rt; text.as_str() == "met 45.0 1 10 0 0 0 0\npossible none\n");
    Ok(())
}

#[test]
fn a_group_has_its_lamps_and_their_watts(rt: HostRuntime) -> Result<(), Fail> {
    let plan = read_plan(rt.alloc(), b"a,b,c\n0,0,50\n1,1,40\n2,0,7\n", 3)?;
    let inside = members(rt.alloc(), plan.as_slice(), 0)?;
    assert!(rt; inside.as_slice() == [true, false, true].as_slice());
    assert_eq!(rt; group_watts(plan.as_slice(), 0), 57);
    assert_eq!(rt; group_watts(plan.as_slice(), 1), 40);
    assert_eq!(rt; group_watts(plan.as_slice(), 5), 0);
    Ok(())
}
