//! What both plans begin and end with.
ghost use Rattle.std.specs.Prelude.{◌≡◌, ◌≤◌, ◌++◌, IfOk, string_bytes};
ghost use Rattle.room_layout.specs.Accepted.{IsRoomSize};
ghost use Rattle.plan_drawing.specs.Frame.{bar_drawn, bar_label, edge_letters, figure_end, hatching, plan_end, plan_floor, plan_head, scale_bar, wall, x_label, x_letters, y_label, y_letters};

use crate::metres::Metres;
use crate::sizes::{floor_area, unit};
use room_layout::Size;
use std::alloc::AllocError;

/// Adds the head of a figure and of its plan, which has this class and this name and is so wide and so high.
#[tactic(auto, unfolding(crate::specs::Frame::plan_head))]
pub fn push_plan_head(
    text: &mut String,
    class: &str,
    name: &str,
    width: u32,
    height: u32,
) -> Result<(), AllocError>
    ensures { IfOk result (λ _. string_bytes text.new ≡ string_bytes text.old ++ plan_head class.now name.now width height) }
{
    write!(
        text,
        "<figure>\n<div class='scroll'><svg class='{class}' viewBox='0 0 {width} {height}' role='img' aria-label='{name}'>\n"
    )
}

/// Adds the plan's origin within its margins, and the floor.
#[tactic(auto, unfolding(crate::specs::Frame::plan_floor))]
pub fn push_plan_floor(text: &mut String, size: &Size) -> Result<(), AllocError>
    requires size { IsRoomSize size.now }
    ensures { IfOk result (λ _. string_bytes text.new ≡ string_bytes text.old ++ plan_floor size.now) }
{
    let right = 2 * unit(size);
    let down = unit(size) / 2;
    let floor = floor_area(size);
    write!(
        text,
        "<g transform='translate({right} {down})'>\n<rect class='floor' {floor}/>\n"
    )
}

/// Adds the outline of the room.
#[tactic(auto, unfolding(crate::specs::Frame::wall))]
pub fn push_wall(text: &mut String, size: &Size) -> Result<(), AllocError>
    ensures { IfOk result (λ _. string_bytes text.new ≡ string_bytes text.old ++ wall size.now) }
{
    let floor = floor_area(size);
    write!(text, "<rect class='wall' {floor}/>\n")
}

/// Adds the end of the plan.
#[tactic(auto, unfolding(crate::specs::Frame::plan_end))]
pub fn push_plan_end(text: &mut String) -> Result<(), AllocError>
    ensures { IfOk result (λ _. string_bytes text.new ≡ string_bytes text.old ++ plan_end) }
{
    text.push_str("</g>\n</svg></div>\n")
}

/// Adds the end of the figure.
#[tactic(auto, unfolding(crate::specs::Frame::figure_end))]
pub fn push_figure_end(text: &mut String) -> Result<(), AllocError>
    ensures { IfOk result (λ _. string_bytes text.new ≡ string_bytes text.old ++ figure_end) }
{
    text.push_str("</figure>\n")
}

/// Adds the pattern of covered cells.
#[tactic(auto, unfolding(crate::specs::Frame::hatching))]
pub fn push_hatching(text: &mut String, u: u32) -> Result<(), AllocError>
    ensures { IfOk result (λ _. string_bytes text.new ≡ string_bytes text.old ++ hatching u) }
{
    let third = u / 3;
    write!(
        text,
        "<defs><pattern id='covered' width='{u}' height='{u}' patternUnits='userSpaceOnUse' patternTransform='rotate(45)'><path d='M0 0V{u}' stroke='#555' stroke-width='{third}'/></pattern></defs>\n"
    )
}

/// Adds a bar of this length, at this height of the plan.
#[tactic(auto, unfolding(crate::specs::Frame::bar_drawn))]
fn push_bar(text: &mut String, y: u32, bar: u32) -> Result<(), AllocError>
    ensures { IfOk result (λ _. string_bytes text.new ≡ string_bytes text.old ++ bar_drawn y bar) }
{
    write!(text, "<path class='bar' d='M0 {y}h{bar}'/>")
}

/// Adds how long the bar is, with letters of this size at this place.
#[tactic(auto, unfolding(crate::specs::Frame::bar_label))]
fn push_bar_label(text: &mut String, size: u32, x: u32, y: u32, bar: u32) -> Result<(), AllocError>
    ensures { IfOk result (λ _. string_bytes text.new ≡ string_bytes text.old ++ bar_label size x y bar) }
{
    let metres = Metres(bar);
    write!(
        text,
        "<text class='label' font-size='{size}' x='{x}' y='{y}'>{metres} m</text>\n"
    )
}

/// Adds the scale bar of this length, below a floor that measures so much along y.
pub fn push_scale_bar(text: &mut String, u: u32, bar: u32, edge: u32) -> Result<(), AllocError>
    requires unit { u ≤ 3125 }
    requires bar { bar ≤ 10000 }
    requires edge { edge ≤ 100000 }
    ensures { IfOk result (λ _. string_bytes text.new ≡ string_bytes text.old ++ scale_bar u bar edge) }
{
    push_bar(text, edge + u, bar)?;
    push_bar_label(text, 4 * u / 5, bar + u / 2, edge + 5 * u / 4, bar)
}

/// How high the letters along an edge of this length are, with such a margin.
fn edge_letters(u: u32, margin: u32, edge: u32) -> u32
    requires margin { margin ≤ 12500 }
    requires edge { edge ≤ 100000 }
    ensures { result ≡ edge_letters u margin edge }
{
    u.min((edge + margin) / 6)
}

/// How high the letters along the edge on the x axis are.
pub fn x_letters(size: &Size) -> u32
    requires size { IsRoomSize size.now }
    ensures { result ≡ x_letters size.now }
{
    let u = unit(size);
    edge_letters(u, 4 * u, size.x)
}

/// How high the letters along the edge on the y axis are.
pub fn y_letters(size: &Size) -> u32
    requires size { IsRoomSize size.now }
    ensures { result ≡ y_letters size.now }
{
    let u = unit(size);
    edge_letters(u, u, size.y)
}

/// Adds the length along x, in the margin below, with letters of this size.
#[tactic(auto, unfolding(crate::specs::Frame::x_label))]
pub fn push_x_label(text: &mut String, letters: u32, u: u32, size: &Size) -> Result<(), AllocError>
    requires unit { u ≤ 3125 }
    requires size { IsRoomSize size.now }
    ensures { IfOk result (λ _. string_bytes text.new ≡ string_bytes text.old ++ x_label letters u size.now) }
{
    let (x, y, metres) = (size.x / 2, size.y + 3 * u / 2, Metres(size.x));
    write!(
        text,
        "<text class='label middle' font-size='{letters}' x='{x}' y='{y}'>x: {metres} m</text>\n"
    )
}

/// Adds the length along y, in the margin on the left, with letters of this size.
#[tactic(auto, unfolding(crate::specs::Frame::y_label))]
pub fn push_y_label(text: &mut String, letters: u32, u: u32, size: &Size) -> Result<(), AllocError>
    requires unit { u ≤ 3125 }
    requires size { IsRoomSize size.now }
    ensures { IfOk result (λ _. string_bytes text.new ≡ string_bytes text.old ++ y_label letters u size.now) }
{
    let (left, y, metres) = (3 * u / 4, size.y / 2, Metres(size.y));
    write!(
        text,
        "<text class='label middle' font-size='{letters}' transform='translate(-{left} {y}) rotate(-90)'>y: {metres} m</text>\n"
    )
}
