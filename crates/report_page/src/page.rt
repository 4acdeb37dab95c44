//! The page of a room's report.
ghost use Rattle.std.specs.Prelude.{◌≡◌, ◌++◌, ◌<◌, ◌≤◌, IfOk, length, map, string_bytes};
ghost use Rattle.report_form.specs.Judged.{CanBeJudged};
ghost use Rattle.room_layout.specs.Accepted.{IsAccepted};
ghost use Rattle.report_page.specs.Page.{front, tables, IsPage};

use crate::account::push_account;
use crate::cards::push_cards;
use crate::files::{push_files, summaries_of};
use crate::lamps::push_lamps;
use crate::opening::{push_head, push_opening};
use crate::points::push_wanted_points;
use crate::surfaces::{push_boxes, push_surfaces};
use fx_base::Memory;
use photo_table::PhotoTable;
use plan_drawing::{push_light, push_things};
use report_form::Report;
use room_layout::Room;
use std::alloc::Global;

/// Adds what the page says first, and the two plans.
#[tactic(auto, using(plan_drawing::proofs::Growth::after), unfolding(crate::specs::Page::front))]
fn push_front(text: &mut String, name: &str, room: &Room, report: &Report) -> Result<(), Memory>
    requires accepted { IsAccepted room.now }
    requires columns { 0 < report.now.columns }
    requires few { length report.now.points ≤ 1024 }
    requires judged { CanBeJudged report.now }
    ensures { IfOk result (λ _. string_bytes text.new ≡ string_bytes text.old ++ front name.now room.now report.now) }
{
    push_head(text, name)?;
    push_opening(text, name, room, report)?;
    push_cards(text, room, report)?;
    push_light(text, room, report)?;
    push_things(text, room)
}

/// Adds the tables.
#[tactic(auto, using(plan_drawing::proofs::Growth::after), unfolding(crate::specs::Page::tables))]
fn push_tables(
    text: &mut String,
    patches: usize,
    summaries: &[String],
    room: &Room,
    report: &Report,
) -> Result<(), Memory>
    requires accepted { IsAccepted room.now }
    requires count { length summaries.now ≡ length room.now.files }
    requires columns { 0 < report.now.columns }
    requires few { length report.now.points ≤ 1024 }
    ensures { IfOk result (λ _. string_bytes text.new ≡ string_bytes text.old ++ tables patches (map string_bytes summaries.now) room.now report.now) }
{
    push_lamps(text, room)?;
    push_files(text, room, summaries)?;
    push_surfaces(text, patches, room, report)?;
    push_boxes(text, room)?;
    push_wanted_points(text, room, report)?;
    Ok(())
}

/// The page of a room's report, as HTML that is well-formed XML as well: the average, the uniformity and the verdicts on the limits, two
/// plans, the lamps, their files, the surfaces and the boxes, and what is proved of the numbers. `name` is that of the room's file,
/// `photos` has the tables of the room's files, in their order, and `patches` is how many patches the room has. Memory: none was left
/// for the text.
pub fn page_text(
    alloc: Global,
    name: &str,
    room: &Room,
    photos: &[PhotoTable],
    patches: usize,
    report: &Report,
) -> Result<String, Memory>
    requires accepted { IsAccepted room.now }
    requires photos { length photos.now ≡ length room.now.files }
    requires columns { 0 < report.now.columns }
    requires few { length report.now.points ≤ 1024 }
    requires judged { CanBeJudged report.now }
    ensures { IfOk result (λ s. IsPage name.now patches photos.now room.now report.now (string_bytes s)) }
{
    let summaries = summaries_of(alloc, photos)?;
    let mut text = String::new(alloc);
    push_front(&mut text, name, room, report)?;
    push_tables(&mut text, patches, summaries.as_slice(), room, report)?;
    push_account(&mut text, name, room)?;
    Ok(text)
}
