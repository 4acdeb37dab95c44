//! The two figures of a room.
ghost use Rattle.std.specs.Prelude.{◌≡◌, ◌<◌, ◌≤◌, ◌++◌, IfOk, length, string_bytes};
ghost use Rattle.room_layout.specs.Accepted.{IsAccepted};
ghost use Rattle.plan_drawing.specs.Figures.{all_numbers, cells, each_number, lamps, light_class, light_end, light_figure, light_head, numbers, numbers_end, numbers_head, outlines, things, things_end, things_figure, things_head, things_plan};

use crate::captions::{push_legend, push_light_caption, push_things_caption};
use crate::frame::{
    push_figure_end, push_hatching, push_plan_end, push_plan_floor, push_plan_head, push_scale_bar,
    push_wall, push_x_label, push_y_label, x_letters, y_letters,
};
use crate::lamps::Luminaires;
use crate::light::{Cells, Numbers, Outlines};
use crate::pieces::push_pieces;
use crate::sizes::{bar_length, is_fine, number_size, numbers_fit, unit, view_height, view_width};
use crate::things::{Boxes, push_task_outline};
use fx_base::Memory;
use report_form::Report;
use room_layout::Room;
use std::alloc::AllocError;

/// The class of the plan of the light: `fine` where its numbers are small.
fn light_class(fine: bool) -> &'static str
    ensures { result.now ≡ light_class fine }
{
    if fine { "light fine" } else { "light" }
}

/// Adds the head of the light, with the pattern of covered cells.
#[tactic(auto, unfolding(crate::specs::Figures::light_head))]
fn push_light_head(text: &mut String, room: &Room) -> Result<(), AllocError>
    requires accepted { IsAccepted room.now }
    ensures { IfOk result (λ _. string_bytes text.new ≡ string_bytes text.old ++ light_head room.now) }
{
    let class = light_class(is_fine(room));
    let (width, height) = (view_width(&room.size), view_height(&room.size));
    let name = "Plan with the illuminance at each task point";
    push_plan_head(text, class, name, width, height)?;
    push_hatching(text, unit(&room.size))?;
    push_plan_floor(text, &room.size)?;
    Ok(())
}

/// Adds the cells.
#[tactic(auto, unfolding(crate::specs::Figures::cells))]
fn push_cells(text: &mut String, room: &Room, report: &Report) -> Result<(), AllocError>
    requires accepted { IsAccepted room.now }
    requires columns { 0 < report.now.columns }
    requires few { length report.now.points ≤ 1024 }
    ensures { IfOk result (λ _. string_bytes text.new ≡ string_bytes text.old ++ cells room.now report.now) }
{
    let count = report.points.as_slice().len();
    push_pieces(text, &Cells { room, report }, count)
}

/// Adds the outlines of the boxes.
#[tactic(auto, unfolding(crate::specs::Figures::outlines))]
fn push_outlines(text: &mut String, room: &Room) -> Result<(), AllocError>
    requires accepted { IsAccepted room.now }
    ensures { IfOk result (λ _. string_bytes text.new ≡ string_bytes text.old ++ outlines room.now) }
{
    push_pieces(text, &Outlines { room }, room.blocks.len())
}

/// Adds the head of a group of numbers of this size.
#[tactic(auto, unfolding(crate::specs::Figures::numbers_head))]
fn push_numbers_head(text: &mut String, size: u32) -> Result<(), AllocError>
    ensures { IfOk result (λ _. string_bytes text.new ≡ string_bytes text.old ++ numbers_head size) }
{
    write!(text, "<g class='values' font-size='{size}'>\n")
}

/// Adds the end of that group.
#[tactic(auto, unfolding(crate::specs::Figures::numbers_end))]
fn push_numbers_end(text: &mut String) -> Result<(), AllocError>
    ensures { IfOk result (λ _. string_bytes text.new ≡ string_bytes text.old ++ numbers_end) }
{
    text.push_str("</g>\n")
}

/// Adds the number of each cell.
#[tactic(auto, unfolding(crate::specs::Figures::each_number))]
fn push_each_number(text: &mut String, room: &Room, report: &Report) -> Result<(), AllocError>
    requires accepted { IsAccepted room.now }
    requires columns { 0 < report.now.columns }
    requires few { length report.now.points ≤ 1024 }
    ensures { IfOk result (λ _. string_bytes text.new ≡ string_bytes text.old ++ each_number room.now report.now) }
{
    let count = report.points.as_slice().len();
    push_pieces(text, &Numbers { room, report }, count)
}

/// Adds the group of the numbers of all cells.
#[tactic(auto, unfolding(crate::specs::Figures::all_numbers))]
fn push_all_numbers(text: &mut String, room: &Room, report: &Report) -> Result<(), AllocError>
    requires accepted { IsAccepted room.now }
    requires columns { 0 < report.now.columns }
    requires few { length report.now.points ≤ 1024 }
    ensures { IfOk result (λ _. string_bytes text.new ≡ string_bytes text.old ++ all_numbers room.now report.now) }
{
    push_numbers_head(text, number_size(room))?;
    push_each_number(text, room, report)?;
    push_numbers_end(text)?;
    Ok(())
}

/// Adds the numbers, where they are large enough.
#[tactic(auto, unfolding(crate::specs::Figures::numbers))]
fn push_numbers(text: &mut String, room: &Room, report: &Report) -> Result<(), AllocError>
    requires accepted { IsAccepted room.now }
    requires columns { 0 < report.now.columns }
    requires few { length report.now.points ≤ 1024 }
    ensures { IfOk result (λ _. string_bytes text.new ≡ string_bytes text.old ++ numbers room.now report.now) }
{
    if numbers_fit(room) {
        push_all_numbers(text, room, report)
    } else {
        Ok(())
    }
}

/// Adds the scale bar, the words below and the legend.
#[tactic(auto, unfolding(crate::specs::Figures::light_end))]
fn push_light_end(text: &mut String, room: &Room) -> Result<(), AllocError>
    requires accepted { IsAccepted room.now }
    ensures { IfOk result (λ _. string_bytes text.new ≡ string_bytes text.old ++ light_end room.now) }
{
    let (u, bar) = (unit(&room.size), bar_length(&room.size));
    push_scale_bar(text, u, bar, room.size.y)?;
    push_plan_end(text)?;
    push_light_caption(text, numbers_fit(room))?;
    push_legend(text)?;
    push_figure_end(text)?;
    Ok(())
}

/// Adds the figure of the light at the task points: a cell for each with the colour of its step and its interval, the outlines of the
/// boxes, a scale bar and the legend. Memory: none was left for the text.
#[tactic(auto, unfolding(crate::specs::Figures::light_figure))]
pub fn push_light(text: &mut String, room: &Room, report: &Report) -> Result<(), Memory>
    requires accepted { IsAccepted room.now }
    requires columns { 0 < report.now.columns }
    requires few { length report.now.points ≤ 1024 }
    ensures { IfOk result (λ _. string_bytes text.new ≡ string_bytes text.old ++ light_figure room.now report.now) }
{
    push_light_head(text, room)?;
    push_cells(text, room, report)?;
    push_outlines(text, room)?;
    push_wall(text, &room.size)?;
    push_numbers(text, room, report)?;
    push_light_end(text, room)?;
    Ok(())
}

/// Adds the head of a plan of the things that is so wide and so high.
#[tactic(auto, unfolding(crate::specs::Figures::things_plan))]
fn push_things_plan(text: &mut String, width: u32, height: u32) -> Result<(), AllocError>
    ensures { IfOk result (λ _. string_bytes text.new ≡ string_bytes text.old ++ things_plan width height) }
{
    let name = "Plan of the boxes, the lamps and the task area";
    push_plan_head(text, "things", name, width, height)
}

/// Adds the head of the things.
#[tactic(auto, unfolding(crate::specs::Figures::things_head))]
fn push_things_head(text: &mut String, room: &Room) -> Result<(), AllocError>
    requires accepted { IsAccepted room.now }
    ensures { IfOk result (λ _. string_bytes text.new ≡ string_bytes text.old ++ things_head room.now) }
{
    let (width, height) = (view_width(&room.size), view_height(&room.size));
    push_things_plan(text, width, height)?;
    push_plan_floor(text, &room.size)?;
    Ok(())
}

/// Adds the boxes.
#[tactic(auto, unfolding(crate::specs::Figures::things))]
fn push_boxes(text: &mut String, room: &Room) -> Result<(), AllocError>
    requires accepted { IsAccepted room.now }
    ensures { IfOk result (λ _. string_bytes text.new ≡ string_bytes text.old ++ things room.now) }
{
    push_pieces(text, &Boxes { room }, room.blocks.len())
}

/// Adds the lamps.
#[tactic(auto, unfolding(crate::specs::Figures::lamps))]
fn push_lamps(text: &mut String, room: &Room) -> Result<(), AllocError>
    requires accepted { IsAccepted room.now }
    ensures { IfOk result (λ _. string_bytes text.new ≡ string_bytes text.old ++ lamps room.now) }
{
    push_pieces(text, &Luminaires { room }, room.lamps.len())
}

/// Adds the lengths of the edges and the words below.
#[tactic(auto, unfolding(crate::specs::Figures::things_end))]
fn push_things_end(text: &mut String, room: &Room) -> Result<(), AllocError>
    requires accepted { IsAccepted room.now }
    ensures { IfOk result (λ _. string_bytes text.new ≡ string_bytes text.old ++ things_end room.now) }
{
    let u = unit(&room.size);
    push_x_label(text, x_letters(&room.size), u, &room.size)?;
    push_y_label(text, y_letters(&room.size), u, &room.size)?;
    push_plan_end(text)?;
    push_things_caption(text)?;
    push_figure_end(text)?;
    Ok(())
}

/// Adds the figure of the things: the boxes with the heights of their tops, the task area, and the lamps with their numbers, their
/// rectangles and their aims. Memory: none was left for the text.
#[tactic(auto, unfolding(crate::specs::Figures::things_figure))]
pub fn push_things(text: &mut String, room: &Room) -> Result<(), Memory>
    requires accepted { IsAccepted room.now }
    ensures { IfOk result (λ _. string_bytes text.new ≡ string_bytes text.old ++ things_figure room.now) }
{
    push_things_head(text, room)?;
    push_boxes(text, room)?;
    push_task_outline(text, room)?;
    push_wall(text, &room.size)?;
    push_lamps(text, room)?;
    push_things_end(text, room)?;
    Ok(())
}
