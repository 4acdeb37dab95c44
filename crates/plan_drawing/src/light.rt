//! The cells of the light, the numbers in them, and the outlines of boxes over them.
ghost use Rattle.std.specs.Prelude.{◌≡◌, ◌+◌, ◌^◌, ◌<◌, ◌≤◌, ◌++◌, IfOk, Some, length, slice_index_or, string_bytes};
ghost use Rattle.room_layout.specs.Accepted.{IsAccepted};
ghost use Rattle.plan_drawing.specs.Light.{cell, cell_class, cell_said, cell_text, ends_text, lower_text, number, number_text, outline, outline_text, placed_cell, placed_number, point_name, upper_text};
ghost use Rattle.plan_drawing.specs.Sizes.{point_x, point_y};

use crate::metres::{Area, Metres};
use crate::pieces::Pieces;
use crate::sizes::{box_area, cell_area, number_size, point_at};
use crate::steps::{InkClass, StepClass, step};
use decimal_text::Hundredths;
use report_form::{Printed, Report};
use room_layout::Room;
use std::alloc::AllocError;
use std::fmt;

/// The class of a cell: hatched where its point is covered, else of the colour of its lower end.
#[derive(Clone, Copy)]
struct CellClass(Option<Printed>);

impl fmt::Display for CellClass {
    ghost output = { λ c. Some (cell_class c.0) };

    fn fmt<W: fmt::Write>(&self, f: &mut fmt::Formatter<W>) -> fmt::Result {
        match self.0 {
            None => write!(f, "covered"),
            Some(e) => write!(f, "{}", StepClass(step(e.lo))),
        }
    }
}

/// What is said of a task point: its interval, or that it is covered.
#[derive(Clone, Copy)]
struct Said(Option<Printed>);

impl fmt::Display for Said {
    ghost output = { λ s. Some (cell_said s.0) };

    fn fmt<W: fmt::Write>(&self, f: &mut fmt::Formatter<W>) -> fmt::Result {
        match self.0 {
            None => write!(f, "covered by a box"),
            Some(e) => write!(f, "{} to {} lx", Hundredths(e.lo), Hundredths(e.hi)),
        }
    }
}

/// The column, the row and the place in millimetres of a task point.
#[derive(Clone, Copy)]
struct PointName {
    column: u32,
    row: u32,
    x: u32,
    y: u32,
}

impl fmt::Display for PointName {
    ghost output = { λ p. Some (point_name p.column p.row p.x p.y) };

    fn fmt<W: fmt::Write>(&self, f: &mut fmt::Formatter<W>) -> fmt::Result {
        let (x, y) = (Metres(self.x), Metres(self.y));
        write!(f, "point {} {} at {x}, {y} m", self.column, self.row)
    }
}

/// Adds the cell of a point.
#[tactic(auto, unfolding(crate::specs::Light::cell_text))]
fn push_cell_text(
    text: &mut String,
    value: Option<Printed>,
    area: Area,
    name: PointName,
) -> Result<(), AllocError>
    ensures { IfOk result (λ _. string_bytes text.new ≡ string_bytes text.old ++ cell_text value area (point_name name.column name.row name.x name.y)) }
{
    let (class, said) = (CellClass(value), Said(value));
    write!(
        text,
        "<rect class='{class}' {area}><title>{name}: {said}</title></rect>\n"
    )
}

/// The name of the point in a column and a row.
fn name_of(room: &Room, column: u32, row: u32) -> PointName
    requires accepted { IsAccepted room.now }
    requires column { column < 1024 }
    requires row { row < 1024 }
    ensures column { result.column ≡ column }
    ensures row { result.row ≡ row }
    ensures x { result.x ≡ point_x room.now.task column }
    ensures y { result.y ≡ point_y room.now.task row }
{
    let task = &room.task;
    PointName {
        column,
        row,
        x: point_at(task.from_x, task.to_x, task.nx, column),
        y: point_at(task.from_y, task.to_y, task.ny, row),
    }
}

/// Adds the cell of a column and a row.
fn push_cell(
    text: &mut String,
    room: &Room,
    column: u32,
    row: u32,
    value: Option<Printed>,
) -> Result<(), AllocError>
    requires accepted { IsAccepted room.now }
    requires column { column < 1024 }
    requires row { row < 1024 }
    ensures { IfOk result (λ _. string_bytes text.new ≡ string_bytes text.old ++ placed_cell room.now column row value) }
{
    let area = cell_area(room, column, row);
    let name = name_of(room, column, row);
    push_cell_text(text, value, area, name)
}

/// Adds the lower end of an interval at this place, with the colours of its step.
#[tactic(auto, unfolding(crate::specs::Light::lower_text))]
fn push_lower(text: &mut String, x: u32, y: u32, lo: u128) -> Result<(), AllocError>
    ensures { IfOk result (λ _. string_bytes text.new ≡ string_bytes text.old ++ lower_text x y lo) }
{
    let (class, ink) = (StepClass(step(lo)), InkClass(step(lo)));
    let lo = Hundredths(lo);
    write!(
        text,
        "<text class='{class} {ink}' x='{x}' y='{y}'>{lo}<tspan"
    )
}

/// Adds its upper end, so many millimetres below.
#[tactic(auto, unfolding(crate::specs::Light::upper_text))]
fn push_upper(text: &mut String, x: u32, down: u32, hi: u128) -> Result<(), AllocError>
    ensures { IfOk result (λ _. string_bytes text.new ≡ string_bytes text.old ++ upper_text x down hi) }
{
    let hi = Hundredths(hi);
    write!(text, " x='{x}' dy='{down}'>{hi}</tspan></text>\n")
}

/// Adds an interval in the middle of a cell, the lower end above the upper one, with letters of this size.
fn push_ends(text: &mut String, size: u32, area: Area, e: Printed) -> Result<(), AllocError>
    requires size { size ≤ 3125 }
    requires x { area.x + area.width < 2 ^ 31 }
    requires y { area.y + area.height < 2 ^ 31 }
    ensures { IfOk result (λ _. string_bytes text.new ≡ string_bytes text.old ++ ends_text size area e) }
{
    let middle = area.x + area.width / 2;
    let base = (area.y + area.height / 2).saturating_sub(size / 5);
    push_lower(text, middle, base, e.lo)?;
    push_upper(text, middle, 6 * size / 5, e.hi)
}

/// Adds the interval of a column and a row, where the point isn't covered.
fn push_number(
    text: &mut String,
    room: &Room,
    column: u32,
    row: u32,
    value: Option<Printed>,
) -> Result<(), AllocError>
    requires accepted { IsAccepted room.now }
    requires column { column < 1024 }
    requires row { row < 1024 }
    ensures { IfOk result (λ _. string_bytes text.new ≡ string_bytes text.old ++ placed_number room.now column row value) }
{
    let size = number_size(room);
    let area = cell_area(room, column, row);
    match value {
        None => Ok(()),
        Some(e) => push_ends(text, size, area, e),
    }
}

/// The cells of a report, by the numbers of its points.
#[derive(Clone, Copy)]
pub struct Cells<'a> {
    pub room: &'a Room,
    pub report: &'a Report,
}

impl<'a> Pieces for Cells<'a> {
    ghost use Rattle.std.specs.Prelude.{◌<◌, ◌≤◌, length};
    ghost use Rattle.room_layout.specs.Accepted.{IsAccepted};
    ghost use Rattle.plan_drawing.specs.Light.{cell};

    ghost has = { λ c k. IsAccepted c.room.now × (0 < c.report.now.columns) × (length c.report.now.points ≤ 1024) × (k < length c.report.now.points) };

    ghost piece = { λ c k. cell c.room.now c.report.now k };

    #[tactic(auto, unfolding(crate::specs::Light::cell))]
    fn push_piece(&self, text: &mut String, index: usize) -> Result<(), AllocError> {
        let value = self.report.points.as_slice()[index];
        let k = index as u32;
        let columns = self.report.columns;
        push_cell(text, self.room, k % columns, k / columns, value)
    }
}

/// The numbers of a report, by the numbers of its points.
#[derive(Clone, Copy)]
pub struct Numbers<'a> {
    pub room: &'a Room,
    pub report: &'a Report,
}

impl<'a> Pieces for Numbers<'a> {
    ghost use Rattle.std.specs.Prelude.{◌<◌, ◌≤◌, length};
    ghost use Rattle.room_layout.specs.Accepted.{IsAccepted};
    ghost use Rattle.plan_drawing.specs.Light.{number};

    ghost has = { λ c k. IsAccepted c.room.now × (0 < c.report.now.columns) × (length c.report.now.points ≤ 1024) × (k < length c.report.now.points) };

    ghost piece = { λ c k. number c.room.now c.report.now k };

    #[tactic(auto, unfolding(crate::specs::Light::number))]
    fn push_piece(&self, text: &mut String, index: usize) -> Result<(), AllocError> {
        let value = self.report.points.as_slice()[index];
        let k = index as u32;
        let columns = self.report.columns;
        push_number(text, self.room, k % columns, k / columns, value)
    }
}

/// Adds an outline twice, the lighter and wider one below.
#[tactic(auto, unfolding(crate::specs::Light::outline_text))]
fn push_outline(text: &mut String, area: Area) -> Result<(), AllocError>
    ensures { IfOk result (λ _. string_bytes text.new ≡ string_bytes text.old ++ outline_text area) }
{
    write!(
        text,
        "<rect class='halo' {area}/><rect class='edge' {area}/>\n"
    )
}

/// The outlines of a room's boxes.
#[derive(Clone, Copy)]
pub struct Outlines<'a> {
    pub room: &'a Room,
}

impl<'a> Pieces for Outlines<'a> {
    ghost use Rattle.std.specs.Prelude.{◌<◌, length};
    ghost use Rattle.room_layout.specs.Accepted.{IsAccepted};
    ghost use Rattle.plan_drawing.specs.Light.{outline};

    ghost has = { λ o k. IsAccepted o.room.now × (k < length o.room.now.blocks) };

    ghost piece = { λ o k. outline o.room.now k };

    #[tactic(auto, unfolding(crate::specs::Light::outline))]
    fn push_piece(&self, text: &mut String, index: usize) -> Result<(), AllocError> {
        let block = self.room.blocks.as_slice()[index];
        push_outline(text, box_area(&self.room.size, &block))
    }
}
