//! A whole file, read to the angles and intensities that it measures.
ghost use Rattle.std.specs.Prelude.{◌≡◌, ◌+◌, ◌*◌, ◌<◌, ◌≤◌, MatchResult, IfOk, Ok, Err, length};
ghost use Rattle.lm63_read.specs.Items.{items_of};
ghost use Rattle.lm63_read.specs.Files.{ended_at, ies, table_at};
ghost use Rattle.lm63_read.specs.Head.{file_of};
ghost use Rattle.lm63_read.specs.Held.{said, AreSizes};
ghost use Rattle.lm63_read.specs.Spans.{IsReading};
ghost use Rattle.lm63_read.specs.Cursors.{IsAt, IsAfter, IsRefused};

use crate::angles::{AngleKind, angles_in};
use crate::fault::IesFault;
use crate::head::{
    Header, first_line, header_of, next_lines, tilt_lines, tilt_text, tilted, trimmed,
};
use crate::items::{Cursor, next_item};
use crate::sizes::{Sizes, read_sizes};
use crate::values::values_in;
use fx_base::{Micro, Span};
use std::alloc::Global;

/// What a file measures: its angles, and a span of candela for each horizontal and vertical one, horizontal angle by horizontal
/// angle.
#[derive(Drop)]
pub struct File {
    pub verticals: Vec<Micro>,
    pub horizontals: Vec<Micro>,
    pub spans: Vec<Span>,
}

/// That item k is the last one.
fn end_in(bytes: &[u8], cursor: &mut Cursor, k: u32) -> Result<(), IesFault>
    requires at { IsAfter bytes.now cursor.old k }
    requires few { k ≤ 600000 }
    ensures { MatchResult result (λ n. ended_at (items_of bytes.now) k ≡ Ok n) (λ e. ended_at (items_of bytes.now) k ≡ Err e) }
{
    match next_item(bytes, cursor) {
        None => Ok(()),
        Some(_) => Err(IesFault::Trailing(k + 1)),
    }
}

/// The angles and intensities, after the numbers before them.
#[tactic(auto, unfolding(crate::specs::Files::table_at))]
fn read_table(
    alloc: Global,
    bytes: &[u8],
    cursor: &mut Cursor,
    sizes: Sizes,
) -> Result<File, IesFault>
    requires at { IsAt bytes.now cursor.old }
    requires ahead { cursor.old.count < sizes.shift + 14 }
    requires sizes { AreSizes sizes }
    ensures { MatchResult result (λ f. IsReading f.verticals.items f.horizontals.items f.spans.items (table_at (items_of bytes.now) (said sizes))) (λ e. IsRefused e (table_at (items_of bytes.now) (said sizes))) }
{
    let Sizes {
        shift,
        gammas,
        planes,
        factor,
    } = sizes;
    let verticals = angles_in(
        alloc,
        bytes,
        cursor,
        AngleKind::Vertical,
        shift + 14,
        gammas,
    )?;
    let horizontals = angles_in(
        alloc,
        bytes,
        cursor,
        AngleKind::Horizontal,
        shift + 14 + gammas,
        planes,
    )?;
    let first = shift + 14 + gammas + planes;
    let spans = values_in(alloc, bytes, cursor, first, factor, planes * gammas)?;
    end_in(bytes, cursor, first + planes * gammas - 1)?;
    Ok(File {
        verticals,
        horizontals,
        spans,
    })
}

/// What the items say.
#[tactic(auto, unfolding(crate::specs::Files::ies))]
fn read_items(
    alloc: Global,
    bytes: &[u8],
    header: Header,
    is_tilted: bool,
) -> Result<File, IesFault>
    ensures { MatchResult result (λ f. IsReading f.verticals.items f.horizontals.items f.spans.items (ies header (items_of bytes.now) is_tilted)) (λ e. IsRefused e (ies header (items_of bytes.now) is_tilted)) }
{
    let mut cursor = Cursor { at: 0, count: 0 };
    let sizes = read_sizes(bytes, &mut cursor, header, is_tilted)?;
    let file = read_table(alloc, bytes, &mut cursor, sizes)?;
    Ok(file)
}

/// What a file says.
#[tactic(auto, unfolding(crate::specs::Head::file_of))]
pub fn read_file(alloc: Global, bytes: &[u8]) -> Result<File, IesFault>
    ensures { MatchResult result (λ f. IsReading f.verticals.items f.horizontals.items f.spans.items (file_of bytes.now)) (λ e. IsRefused e (file_of bytes.now)) }
{
    let header = header_of(trimmed(first_line(bytes)))?;
    let Some(lines) = tilt_lines(next_lines(bytes)) else {
        return Err(IesFault::NoTilt);
    };
    let is_tilted = tilted(tilt_text(first_line(lines)))?;
    let file = read_items(alloc, next_lines(lines), header, is_tilted)?;
    Ok(file)
}
