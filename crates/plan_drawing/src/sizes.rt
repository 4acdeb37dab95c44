//! How large a plan is and what is written on it, and where the cells of the task points lie, in millimetres of the room.
ghost use Rattle.std.specs.Prelude.{◌≡◌, ◌<◌, ◌≤◌};
ghost use Rattle.room_layout.specs.Accepted.{IsAccepted, IsBlockIn, IsRoomSize};
ghost use Rattle.plan_drawing.specs.Sizes.{bar_length, box_area, cell_area, cut_at, floor_area, is_fine, label_size, lamp_radius, longer_edge, number_size, numbers_fit, point_at, task_area, unit, view_height, view_width};

use crate::metres::Area;
use room_layout::{Block, Room, Size};

/// The longer edge of the floor.
fn longer_edge(size: &Size) -> u32
    ensures { result ≡ longer_edge size.now }
{
    size.x.max(size.y)
}

/// A thirty-second of the longer edge, in which margins, marks and letters are counted.
pub fn unit(size: &Size) -> u32
    requires size { IsRoomSize size.now }
    ensures unit { result ≡ unit size.now }
    ensures most { result ≤ 3125 }
{
    longer_edge(size) / 32
}

/// How wide the plan is with its margins.
pub fn view_width(size: &Size) -> u32
    requires size { IsRoomSize size.now }
    ensures { result ≡ view_width size.now }
{
    size.x.max(longer_edge(size) / 3) + 4 * unit(size)
}

/// How high the plan is with its margins.
pub fn view_height(size: &Size) -> u32
    requires size { IsRoomSize size.now }
    ensures { result ≡ view_height size.now }
{
    size.y + 3 * unit(size)
}

/// How long the scale bar is: the longest of 0.1, 0.5, 1, 5 and 10 m that is at most a quarter of the longer edge.
pub fn bar_length(size: &Size) -> u32
    ensures length { result ≡ bar_length size.now }
    ensures most { result ≤ 10000 }
{
    let edge = longer_edge(size);
    if edge < 2000 {
        100
    } else if edge < 4000 {
        500
    } else if edge < 20_000 {
        1000
    } else if edge < 40_000 {
        5000
    } else {
        10_000
    }
}

/// The whole floor.
pub fn floor_area(size: &Size) -> Area
    ensures { result ≡ floor_area size.now }
{
    Area {
        x: 0,
        y: 0,
        width: size.x,
        height: size.y,
    }
}

/// Where an edge from `from` to `to` that is cut into `parts` parts is cut before part `i`.
fn cut_at(from: u32, to: u32, parts: u32, i: u32) -> u32
    requires in_order { from < to }
    requires edge { to ≤ 100000 }
    requires parts { 1 ≤ parts }
    requires few { i ≤ 1024 }
    ensures { result ≡ cut_at from to parts i }
{
    from + (to - from) * i / parts
}

/// The cell of a column and a row: the part of the task rectangle round that task point.
pub fn cell_area(room: &Room, column: u32, row: u32) -> Area
    requires accepted { IsAccepted room.now }
    requires column { column < 1024 }
    requires row { row < 1024 }
    ensures { result ≡ cell_area room.now column row }
{
    let task = &room.task;
    let left = cut_at(task.from_x, task.to_x, task.nx, column);
    let right = cut_at(task.from_x, task.to_x, task.nx, column + 1);
    let low = cut_at(task.from_y, task.to_y, task.ny, row);
    let high = cut_at(task.from_y, task.to_y, task.ny, row + 1);
    Area {
        x: left,
        y: room.size.y.saturating_sub(high),
        width: right.saturating_sub(left),
        height: high.saturating_sub(low),
    }
}

/// The middle of part `i` of such an edge, rounded down to millimetres.
pub fn point_at(from: u32, to: u32, parts: u32, i: u32) -> u32
    requires in_order { from < to }
    requires edge { to ≤ 100000 }
    requires parts { 1 ≤ parts }
    requires few { i < 1024 }
    ensures { result ≡ point_at from to parts i }
{
    (2 * from + (2 * i + 1) * (to - from) / parts) / 2
}

/// The task rectangle.
pub fn task_area(room: &Room) -> Area
    requires { IsAccepted room.now }
    ensures { result ≡ task_area room.now }
{
    let task = &room.task;
    Area {
        x: task.from_x,
        y: room.size.y - task.to_y,
        width: task.to_x - task.from_x,
        height: task.to_y - task.from_y,
    }
}

/// A box as it is seen from above.
pub fn box_area(size: &Size, block: &Block) -> Area
    requires { IsBlockIn size.now block.now }
    ensures { result ≡ box_area size.now.y block.now }
{
    Area {
        x: block.lo.x,
        y: size.y - block.hi.y,
        width: block.hi.x - block.lo.x,
        height: block.hi.y - block.lo.y,
    }
}

/// How high the numbers in the cells are: six of them would stand side by side in a cell, and three above one another.
pub fn number_size(room: &Room) -> u32
    requires accepted { IsAccepted room.now }
    ensures size { result ≡ number_size room.now }
    ensures most { result ≤ 3125 }
{
    let task = &room.task;
    let across = (task.to_x - task.from_x) / task.nx / 6;
    let along = (task.to_y - task.from_y) / task.ny / 3;
    across.min(along).min(unit(&room.size))
}

/// Whether the intervals are printed in the cells: their letters would be a ninetieth of the longer edge or more.
pub fn numbers_fit(room: &Room) -> bool
    requires accepted { IsAccepted room.now }
    ensures { result ≡ numbers_fit room.now }
{
    longer_edge(&room.size) <= 90 * number_size(room)
}

/// Whether they are printed, and can be read on a narrow screen only on a plan that is wider than it.
pub fn is_fine(room: &Room) -> bool
    requires accepted { IsAccepted room.now }
    ensures { result ≡ is_fine room.now }
{
    numbers_fit(room) && 50 * number_size(room) < longer_edge(&room.size)
}

/// How high the label of a box is, where the plan's unit is `unit`.
pub fn label_size(unit: u32, area: Area) -> u32
    requires unit { unit ≤ 3125 }
    requires width { area.width ≤ 100000 }
    requires height { area.height ≤ 100000 }
    ensures size { result ≡ label_size unit area }
    ensures most { result ≤ 3125 }
{
    let longer = area.width.max(area.height);
    let shorter = area.width.min(area.height);
    (3 * unit / 4).min(3 * longer / 10).min(7 * shorter / 10)
}

/// The radius of a lamp's circle among so many lamps.
pub fn lamp_radius(size: &Size, lamps: usize) -> u32
    requires size { IsRoomSize size.now }
    ensures radius { result ≡ lamp_radius size.now lamps }
    ensures most { result ≤ 2500 }
{
    let most = size.x.min(size.y) / 10;
    let u = unit(size);
    if lamps <= 64 {
        (4 * u / 5).min(most)
    } else {
        (2 * u / 5).min(most)
    }
}
