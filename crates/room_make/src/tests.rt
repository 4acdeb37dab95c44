//! Texts of made rooms. What is expected was written by a Python program from the formulas, and its lengths are Python's `len`.
ghost use Rattle.std.specs.Prelude.{◌≤◌};

use crate::make_room;
use std::alloc::Global;
use std::test::Fail;

const FOR_ONE: &str = "version = 1
[room]
size = [2200, 2150, 2500]
reflect = [200, 500, 400, 400, 300, 300]
patch = 500
[[lamp]]
at = [1100, 1075, 2500]
candela = 400
[task]
from = [200, 200]
to = [2000, 1950]
height = 800
points = [2, 2]
";

const FOR_FOUR: &str = "version = 1
[room]
size = [2800, 2600, 2500]
reflect = [200, 500, 400, 400, 300, 300]
patch = 500
[[box]]
lo = [300, 400, 0]
hi = [800, 1000, 700]
reflect = 300
[[lamp]]
at = [1400, 1300, 2500]
candela = 400
[task]
from = [200, 200]
to = [2600, 2400]
height = 800
points = [3, 2]
";

/// The first of the ten boxes for 40 follow the room's own lines.
const BEGIN_FOR_FORTY: &str = "version = 1
[room]
size = [10000, 8000, 2500]
reflect = [200, 500, 400, 400, 300, 300]
patch = 500
[[box]]
lo = [300, 400, 0]
hi = [800, 1000, 700]
reflect = 300
[[box]]
lo = [1100, 400, 0]
hi = [1600, 1000, 700]
reflect = 300
";

/// The last box for 40, before the first row of lamps.
const LAST_BOX_FOR_FORTY: &str = "[[box]]
lo = [7500, 400, 0]
hi = [8000, 1000, 700]
reflect = 300
[[lamp]]
at = [1000, 1333, 2500]
candela = 400
[[lamp]]
at = [3000, 1333, 2500]
candela = 400
";

/// The end of the first row of lamps for 40, and the begin of the second.
const ROWS_FOR_FORTY: &str = "[[lamp]]
at = [9000, 1333, 2500]
candela = 400
[[lamp]]
at = [1000, 4000, 2500]
candela = 400
";

const END_FOR_FORTY: &str = "[[lamp]]
at = [9000, 6666, 2500]
candela = 400
[task]
from = [200, 200]
to = [9800, 7800]
height = 800
points = [12, 10]
";

/// The text for a number of these three.
fn text_for(alloc: Global, n: u32) -> Result<String, Fail>
    requires from_one { 1 ≤ n }
    requires most { n ≤ 40 }
{
    let bytes = make_room(alloc, n).ok().ok_or("memory")?;
    let text = String::from_utf8(bytes).ok().ok_or("text")?;
    Ok(text)
}

#[test]
fn the_least_room_has_no_box(rt: HostRuntime) -> Result<(), Fail> {
    assert_eq!(rt; text_for(rt.alloc(), 1)?.as_str(), FOR_ONE);
    Ok(())
}

#[test]
fn the_fourth_room_has_one_box(rt: HostRuntime) -> Result<(), Fail> {
    assert_eq!(rt; text_for(rt.alloc(), 4)?.as_str(), FOR_FOUR);
    Ok(())
}

#[test]
fn the_greatest_room_has_ten_boxes_and_three_rows_of_lamps(rt: HostRuntime) -> Result<(), Fail> {
    let text = text_for(rt.alloc(), 40)?;
    assert_eq!(rt; text.len(), 1526);
    assert!(rt; text.as_str().starts_with(BEGIN_FOR_FORTY));
    assert!(rt; text.as_str().contains(LAST_BOX_FOR_FORTY));
    assert!(rt; text.as_str().contains(ROWS_FOR_FORTY));
    assert!(rt; text.as_str().ends_with(END_FOR_FORTY));
    Ok(())
}
