//! The beginning of a page.
ghost use Rattle.std.specs.Prelude.{◌≡◌, ◌++◌, IfOk, string_bytes};
ghost use Rattle.report_page.specs.Opening.{counted, extent, opening, page_head};

use crate::escape::push_escaped;
use crate::fixed::push_fixed;
use crate::style::push_style;
use plan_drawing::Metres;
use report_form::Report;
use room_layout::Room;
use std::alloc::AllocError;

/// Adds the head, up to the body: it says that the page's bytes are UTF-8, and names the room.
#[tactic(auto, using(plan_drawing::proofs::Growth::after), unfolding(crate::specs::Opening::page_head))]
pub(crate) fn push_head(text: &mut String, name: &str) -> Result<(), AllocError>
    ensures { IfOk result (λ _. string_bytes text.new ≡ string_bytes text.old ++ page_head name.now) }
{
    push_fixed(
        text,
        "<!DOCTYPE html>\n<html xmlns='http://www.w3.org/1999/xhtml' lang='en'>\n<head>\n<meta charset='utf-8'/>\n",
    )?;
    push_fixed(
        text,
        "<meta name='viewport' content='width=device-width, initial-scale=1'/>\n<title>",
    )?;
    push_escaped(text, name)?;
    push_fixed(text, " - Lux</title>\n<style>\n")?;
    push_style(text)?;
    push_fixed(text, "</style>\n</head>\n<body>\n")?;
    Ok(())
}

/// Adds a number of things, as `1 lamp` or `2 lamps`.
pub(crate) fn push_counted(
    text: &mut String,
    count: usize,
    one: &str,
    many: &str,
) -> Result<(), AllocError>
    ensures { IfOk result (λ _. string_bytes text.new ≡ string_bytes text.old ++ counted count one.now many.now) }
{
    if count == 1 {
        write!(text, "{count} {one}")
    } else {
        write!(text, "{count} {many}")
    }
}

/// Adds how high the task points lie, and in how large a room.
fn push_extent(text: &mut String, room: &Room) -> Result<(), AllocError>
    ensures { IfOk result (λ _. string_bytes text.new ≡ string_bytes text.old ++ extent room.now) }
{
    write!(
        text,
        ", {} m above the floor of a room of {} by {} m, {} m high, with ",
        Metres(room.task.height),
        Metres(room.size.x),
        Metres(room.size.y),
        Metres(room.size.z)
    )
}

/// Adds the heading, and one sentence with the counts.
#[tactic(auto, using(plan_drawing::proofs::Growth::after), unfolding(crate::specs::Opening::opening))]
pub(crate) fn push_opening(
    text: &mut String,
    name: &str,
    room: &Room,
    report: &Report,
) -> Result<(), AllocError>
    ensures { IfOk result (λ _. string_bytes text.new ≡ string_bytes text.old ++ opening name.now room.now report.now) }
{
    push_fixed(text, "<h1>Light in ")?;
    push_escaped(text, name)?;
    push_fixed(text, "</h1>\n<p>Illuminance at ")?;
    let points = report.points.as_slice().len();
    push_counted(text, points, "task point", "task points")?;
    push_extent(text, room)?;
    push_counted(text, room.lamps.len(), "lamp", "lamps")?;
    push_fixed(text, " and ")?;
    push_counted(text, room.blocks.len(), "box", "boxes")?;
    push_fixed(text, ".</p>\n")?;
    Ok(())
}
