//! The table of all task points.
ghost use Rattle.std.specs.Prelude.{◌≡◌, ◌++◌, ◌<◌, ◌≤◌, IfOk, Some, length, string_bytes};
ghost use Rattle.room_layout.specs.Accepted.{IsAccepted};
ghost use Rattle.plan_drawing.specs.Pieces.{first};
ghost use Rattle.report_page.specs.Points.{ends_cells, point_head, point_row, point_table, wanted_points};

use crate::fixed::{push_fixed, push_table_end};
use decimal_text::Hundredths;
use plan_drawing::{Pieces, numbers_fit, push_pieces};
use report_form::{Printed, Report};
use room_layout::Room;
use std::alloc::AllocError;
use std::fmt;

/// The cells of a point's ends, or that a box covers it.
#[derive(Clone, Copy)]
struct EndsCells(Option<Printed>);

impl fmt::Display for EndsCells {
    ghost output = { λ e. Some (ends_cells e.0) };

    fn fmt<W: fmt::Write>(&self, f: &mut fmt::Formatter<W>) -> fmt::Result {
        match self.0 {
            None => write!(f, "<td colspan='2'>covered</td>"),
            Some(e) => write!(
                f,
                "<td>{}</td><td>{}</td>",
                Hundredths(e.lo),
                Hundredths(e.hi)
            ),
        }
    }
}

/// The rows of a report's points.
#[derive(Clone, Copy)]
struct PointRows<'a> {
    report: &'a Report,
}

impl<'a> Pieces for PointRows<'a> {
    ghost has = { λ rows k. 0 < rows.report.now.columns × length rows.report.now.points ≤ 1024 × k < length rows.report.now.points };

    ghost piece = { λ rows k. point_row rows.report.now k };

    fn push_piece(&self, text: &mut String, index: usize) -> Result<(), AllocError> {
        let columns = self.report.columns as usize;
        let column = index % columns;
        let row = index / columns;
        let ends = EndsCells(self.report.points.as_slice()[index]);
        write!(text, "<tr><td>{column}</td><td>{row}</td>{ends}</tr>\n")
    }
}

/// Adds the rows of all points.
fn push_rows(text: &mut String, report: &Report) -> Result<(), AllocError>
    requires columns { 0 < report.now.columns }
    requires few { length report.now.points ≤ 1024 }
    ensures { IfOk result (λ _. string_bytes text.new ≡ string_bytes text.old ++ first (length report.now.points) (point_row report.now)) }
{
    let count = report.points.as_slice().len();
    push_pieces(text, &PointRows { report }, count)
}

/// Adds the heading of the table.
#[tactic(auto, unfolding(crate::specs::Points::point_head))]
fn push_head(text: &mut String) -> Result<(), AllocError>
    ensures { IfOk result (λ _. string_bytes text.new ≡ string_bytes text.old ++ point_head) }
{
    text.push_str(
        "<h2>Task points</h2>\n<p class='note'>Columns run along x and rows along y, both from 0; the ends of each interval are in lux.</p>\n<div class='points'>\n<div class='scroll'><table>\n<thead><tr><th>Column</th><th>Row</th><th>From</th><th>To</th></tr></thead>\n<tbody>\n",
    )
}

/// Adds the table of the points.
#[tactic(auto, using(plan_drawing::proofs::Growth::after), unfolding(crate::specs::Points::point_table))]
fn push_points(text: &mut String, report: &Report) -> Result<(), AllocError>
    requires columns { 0 < report.now.columns }
    requires few { length report.now.points ≤ 1024 }
    ensures { IfOk result (λ _. string_bytes text.new ≡ string_bytes text.old ++ point_table report.now) }
{
    push_head(text)?;
    push_rows(text, report)?;
    push_table_end(text)?;
    push_fixed(text, "</div>\n")?;
    Ok(())
}

/// Adds the table of the points where the plan's cells are too small for numbers.
pub(crate) fn push_wanted_points(
    text: &mut String,
    room: &Room,
    report: &Report,
) -> Result<(), AllocError>
    requires accepted { IsAccepted room.now }
    requires columns { 0 < report.now.columns }
    requires few { length report.now.points ≤ 1024 }
    ensures { IfOk result (λ _. string_bytes text.new ≡ string_bytes text.old ++ wanted_points room.now report.now) }
{
    if numbers_fit(room) {
        return Ok(());
    }
    push_points(text, report)
}
