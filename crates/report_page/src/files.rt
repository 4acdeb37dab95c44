//! The table of the photometric files that a room's lamps use.
ghost use Rattle.std.specs.Prelude.{◌≡◌, ◌++◌, ◌<◌, IfOk, length, map, string_bytes};
ghost use Rattle.plan_drawing.specs.Pieces.{first};
ghost use Rattle.report_page.specs.Files.{file_cells, file_row, file_table, files_told, row_of_file, AreSummaries};

use crate::escape::push_escaped;
use crate::fixed::{push_fixed, push_table_end};
use fx_base::Memory;
use photo_table::{PhotoTable, summary_text};
use plan_drawing::{Pieces, push_pieces};
use room_layout::Room;
use std::alloc::{AllocError, Global};

/// The line that sums up each table, in their order.
pub(crate) fn summaries_of(alloc: Global, photos: &[PhotoTable]) -> Result<Vec<String>, Memory>
    ensures { IfOk result (λ v. AreSummaries photos.now (map string_bytes v.items)) }
{
    let mut summaries = Vec::new(alloc);
    for photo in photos {
        summaries.push(summary_text(alloc, photo)?)?;
    }
    Ok(summaries)
}

/// The rows of a room's files.
#[derive(Clone, Copy)]
struct FileRows<'a> {
    summaries: &'a [String],
    room: &'a Room,
}

impl<'a> Pieces for FileRows<'a> {
    ghost has = { λ rows k. k < length rows.summaries.now × k < length rows.room.now.files };

    ghost piece = { λ rows k. file_row (map string_bytes rows.summaries.now) rows.room.now k };

    fn push_piece(&self, text: &mut String, index: usize) -> Result<(), AllocError> {
        let file = &self.room.files.as_slice()[index];
        let summary = self.summaries[index].as_str();
        push_file(text, file.name.text(), file.set, summary)
    }
}

/// Adds the row of a file.
#[tactic(auto, using(plan_drawing::proofs::Growth::after), unfolding(crate::specs::Files::row_of_file))]
fn push_file(text: &mut String, name: &str, set: u32, summary: &str) -> Result<(), AllocError>
    ensures { IfOk result (λ _. string_bytes text.new ≡ string_bytes text.old ++ row_of_file name.now set summary.now) }
{
    push_fixed(text, "<tr><td class='name'>")?;
    push_escaped(text, name)?;
    push_cells(text, set, summary)?;
    Ok(())
}

/// Adds the cells of a file behind its name.
#[tactic(auto, unfolding(crate::specs::Files::file_cells))]
fn push_cells(text: &mut String, set: u32, summary: &str) -> Result<(), AllocError>
    ensures { IfOk result (λ _. string_bytes text.new ≡ string_bytes text.old ++ file_cells set summary.now) }
{
    write!(
        text,
        "</td><td>{set}</td><td><code>{summary}</code></td></tr>\n"
    )
}

/// Adds the rows of all files.
fn push_rows(text: &mut String, room: &Room, summaries: &[String]) -> Result<(), AllocError>
    requires count { length summaries.now ≡ length room.now.files }
    ensures { IfOk result (λ _. string_bytes text.new ≡ string_bytes text.old ++ first (length room.now.files) (file_row (map string_bytes summaries.now) room.now)) }
{
    let count = room.files.len();
    push_pieces(text, &FileRows { summaries, room }, count)
}

/// Adds the table of the files, and what its last column says.
#[tactic(auto, using(plan_drawing::proofs::Growth::after), unfolding(crate::specs::Files::file_table))]
fn push_table(text: &mut String, room: &Room, summaries: &[String]) -> Result<(), AllocError>
    requires count { length summaries.now ≡ length room.now.files }
    ensures { IfOk result (λ _. string_bytes text.new ≡ string_bytes text.old ++ file_table (map string_bytes summaries.now) room.now) }
{
    push_fixed(
        text,
        "<h2>Photometric files</h2>\n<div class='scroll'><table>\n<thead><tr><th>File</th><th>Set</th><th>Its table</th></tr></thead>\n<tbody>\n",
    )?;
    push_rows(text, room, summaries)?;
    push_table_end(text)?;
    push_fixed(
        text,
        "<p class='note'>A file's table has so many half-planes C (planes), each with so many angles gamma, and its greatest intensity lies between the last two numbers, in candela.</p>\n",
    )?;
    Ok(())
}

/// Adds the table of the files, where there are any.
pub(crate) fn push_files(
    text: &mut String,
    room: &Room,
    summaries: &[String],
) -> Result<(), AllocError>
    requires count { length summaries.now ≡ length room.now.files }
    ensures { IfOk result (λ _. string_bytes text.new ≡ string_bytes text.old ++ files_told (map string_bytes summaries.now) room.now) }
{
    if room.files.len() == 0 {
        return Ok(());
    }
    push_table(text, room, summaries)
}
