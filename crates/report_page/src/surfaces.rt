//! The tables of a room's surfaces and of its boxes.
ghost use Rattle.std.specs.Prelude.{◌≡◌, ◌++◌, ◌<◌, IfOk, Some, length, string_bytes};
ghost use Rattle.plan_drawing.specs.Pieces.{first};
ghost use Rattle.report_page.specs.Surfaces.{box_row, box_table, boxes_told, count_text, patch_count_text, row_of_box, stretch, surface_head, surface_row, surface_rows, surface_table};

use crate::fixed::{push_fixed, push_table_end};
use crate::opening::push_counted;
use decimal_text::Thousandths;
use plan_drawing::{Metres, Pieces, push_pieces};
use report_form::Report;
use room_layout::{Block, Reflects, Room};
use std::alloc::AllocError;
use std::fmt;

/// From one end to the other, in millimetres.
#[derive(Clone, Copy)]
struct Stretch(u32, u32);

impl fmt::Display for Stretch {
    ghost output = { λ s. Some (stretch s.0 s.1) };

    #[tactic(auto, unfolding(crate::specs::Surfaces::stretch))]
    fn fmt<W: fmt::Write>(&self, f: &mut fmt::Formatter<W>) -> fmt::Result {
        write!(f, "{} to {}", Metres(self.0), Metres(self.1))
    }
}

/// Adds the row of a surface. `reflect` is in thousandths.
#[tactic(auto, unfolding(crate::specs::Surfaces::surface_row))]
fn push_surface(text: &mut String, name: &str, reflect: u16) -> Result<(), AllocError>
    ensures { IfOk result (λ _. string_bytes text.new ≡ string_bytes text.old ++ surface_row name.now reflect) }
{
    let reflect = Thousandths(u128::from(reflect));
    write!(text, "<tr><td>{name}</td><td>{reflect}</td></tr>\n")
}

/// Adds the rows of the room's own surfaces.
#[tactic(auto, using(plan_drawing::proofs::Growth::after), unfolding(crate::specs::Surfaces::surface_rows))]
fn push_reflects(text: &mut String, reflects: &Reflects) -> Result<(), AllocError>
    ensures { IfOk result (λ _. string_bytes text.new ≡ string_bytes text.old ++ surface_rows reflects.now) }
{
    push_surface(text, "Floor", reflects.floor)?;
    push_surface(text, "Ceiling", reflects.ceiling)?;
    push_surface(text, "Wall x = 0", reflects.x0)?;
    push_surface(text, "Far x wall", reflects.x1)?;
    push_surface(text, "Wall y = 0", reflects.y0)?;
    push_surface(text, "Far y wall", reflects.y1)
}

/// Adds how many patches there are, how long their edges are at most, and how many task points there are.
#[tactic(auto, unfolding(crate::specs::Surfaces::patch_count_text))]
fn push_patch_count(
    text: &mut String,
    patches: usize,
    patch: u32,
    points: usize,
) -> Result<(), AllocError>
    ensures { IfOk result (λ _. string_bytes text.new ≡ string_bytes text.old ++ patch_count_text patches patch points) }
{
    let patch = Metres(patch);
    write!(
        text,
        "<p>Patches: {patches}, with edges of at most {patch} m. Task points: {points}, in "
    )
}

/// Adds how many patches and task points there are.
#[tactic(auto, using(plan_drawing::proofs::Growth::after), unfolding(crate::specs::Surfaces::count_text))]
fn push_counts(
    text: &mut String,
    patches: usize,
    room: &Room,
    report: &Report,
) -> Result<(), AllocError>
    ensures { IfOk result (λ _. string_bytes text.new ≡ string_bytes text.old ++ count_text patches room.now report.now) }
{
    let points = report.points.as_slice().len();
    push_patch_count(text, patches, room.patch, points)?;
    push_counted(text, room.task.nx as usize, "column", "columns")?;
    push_fixed(text, " by ")?;
    push_counted(text, room.task.ny as usize, "row", "rows")?;
    push_fixed(text, ".</p>\n")
}

/// Adds the heading of the table.
#[tactic(auto, unfolding(crate::specs::Surfaces::surface_head))]
fn push_head(text: &mut String) -> Result<(), AllocError>
    ensures { IfOk result (λ _. string_bytes text.new ≡ string_bytes text.old ++ surface_head) }
{
    text.push_str(
        "<h2>Surfaces</h2>\n<div class='scroll'><table>\n<thead><tr><th>Surface</th><th>Reflectance</th></tr></thead>\n<tbody>\n",
    )
}

/// Adds the table of the surfaces, and the counts.
#[tactic(auto, using(plan_drawing::proofs::Growth::after), unfolding(crate::specs::Surfaces::surface_table))]
pub(crate) fn push_surfaces(
    text: &mut String,
    patches: usize,
    room: &Room,
    report: &Report,
) -> Result<(), AllocError>
    ensures { IfOk result (λ _. string_bytes text.new ≡ string_bytes text.old ++ surface_table patches room.now report.now) }
{
    push_head(text)?;
    push_reflects(text, &room.reflect)?;
    push_table_end(text)?;
    push_counts(text, patches, room, report)
}

/// The rows of a room's boxes.
#[derive(Clone, Copy)]
struct BoxRows<'a> {
    room: &'a Room,
}

impl<'a> Pieces for BoxRows<'a> {
    ghost has = { λ rows k. k < length rows.room.now.blocks };

    ghost piece = { λ rows k. box_row rows.room.now k };

    fn push_piece(&self, text: &mut String, index: usize) -> Result<(), AllocError> {
        let block = self.room.blocks.as_slice()[index];
        push_box(text, index, block)
    }
}

/// Adds the row of a box.
#[tactic(auto, unfolding(crate::specs::Surfaces::row_of_box))]
fn push_box(text: &mut String, index: usize, block: Block) -> Result<(), AllocError>
    ensures { IfOk result (λ _. string_bytes text.new ≡ string_bytes text.old ++ row_of_box index block) }
{
    write!(
        text,
        "<tr><td>{index}</td><td>{}</td><td>{}</td><td>{}</td><td>{}</td></tr>\n",
        Stretch(block.lo.x, block.hi.x),
        Stretch(block.lo.y, block.hi.y),
        Stretch(block.lo.z, block.hi.z),
        Thousandths(u128::from(block.reflect))
    )
}

/// Adds the rows of all boxes.
fn push_rows(text: &mut String, room: &Room) -> Result<(), AllocError>
    ensures { IfOk result (λ _. string_bytes text.new ≡ string_bytes text.old ++ first (length room.now.blocks) (box_row room.now)) }
{
    let count = room.blocks.len();
    push_pieces(text, &BoxRows { room }, count)
}

/// Adds the table of the boxes.
#[tactic(auto, using(plan_drawing::proofs::Growth::after), unfolding(crate::specs::Surfaces::box_table))]
fn push_table(text: &mut String, room: &Room) -> Result<(), AllocError>
    ensures { IfOk result (λ _. string_bytes text.new ≡ string_bytes text.old ++ box_table room.now) }
{
    push_fixed(
        text,
        "<h2>Boxes</h2>\n<div class='scroll'><table>\n<thead><tr><th>Box</th><th>x, m</th><th>y, m</th><th>z, m</th><th>Reflectance</th></tr></thead>\n<tbody>\n",
    )?;
    push_rows(text, room)?;
    push_table_end(text)?;
    Ok(())
}

/// Adds the table of the boxes, where there are any.
pub(crate) fn push_boxes(text: &mut String, room: &Room) -> Result<(), AllocError>
    ensures { IfOk result (λ _. string_bytes text.new ≡ string_bytes text.old ++ boxes_told room.now) }
{
    if room.blocks.len() == 0 {
        return Ok(());
    }
    push_table(text, room)
}
