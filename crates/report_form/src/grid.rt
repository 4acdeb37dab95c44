//! The grid of a report as comma-separated values.
ghost use Rattle.std.specs.Prelude.{◌≡◌, ◌++◌, ◌<◌, ◌≤◌, IfOk, flat_map, length, map};
ghost use Rattle.csv.specs.Writing.{default_writer, row_text};
ghost use Rattle.report_form.specs.Grid.{grid_bytes, point_record, point_records};
ghost use Rattle.report_form.specs.Writing.{text_of, IsBetween};

use crate::report::{Printed, Report};
use csv::{Writer, WriterBuilder};
use decimal_text::cents_text;
use fx_base::Memory;
use std::alloc::Global;

/// Writes a record of these fields.
fn put_record(writer: &mut Writer<Vec<u8>>, fields: &[&[u8]]) -> Result<(), Memory>
    requires between { IsBetween writer.old }
    ensures text { IfOk result (λ _. text_of writer.new ≡ text_of writer.old ++ row_text default_writer (map (λ f. f.now) fields.now)) }
    ensures between { IfOk result (λ _. IsBetween writer.new) }
{
    match writer.write_fields(fields) {
        Ok(()) => Ok(()),
        Err(_) => Err(Memory),
    }
}

/// Writes the record of a task point, by its number.
fn put_point(
    alloc: Global,
    writer: &mut Writer<Vec<u8>>,
    columns: u32,
    index: u32,
    value: Option<Printed>,
) -> Result<(), Memory>
    requires columns { 0 < columns }
    requires between { IsBetween writer.old }
    ensures text { IfOk result (λ _. text_of writer.new ≡ text_of writer.old ++ row_text default_writer (point_record columns index value)) }
    ensures between { IfOk result (λ _. IsBetween writer.new) }
{
    let column = (index % columns).to_string(alloc)?;
    let row = (index / columns).to_string(alloc)?;
    let Some(e) = value else {
        return put_record(writer, &[column.as_bytes(), row.as_bytes(), b"", b""]);
    };
    let lower = cents_text(alloc, e.lo)?;
    let upper = cents_text(alloc, e.hi)?;
    put_record(
        writer,
        &[
            column.as_bytes(),
            row.as_bytes(),
            lower.as_bytes(),
            upper.as_bytes(),
        ],
    )
}

/// Writes the records of all task points, by row, then by column.
fn put_points(
    alloc: Global,
    writer: &mut Writer<Vec<u8>>,
    columns: u32,
    points: &[Option<Printed>],
) -> Result<(), Memory>
    requires columns { 0 < columns }
    requires few { length points.now ≤ 1024 }
    requires between { IsBetween writer.old }
    ensures text { IfOk result (λ _. text_of writer.new ≡ text_of writer.old ++ flat_map (row_text default_writer) (point_records columns 0 points.now)) }
{
    let mut index = 0;
    for value in points {
        put_point(alloc, writer, columns, index, *value)?;
        index += 1;
    }
    Ok(())
}

/// The grid of the report as comma-separated values: a record `column,row,lower,upper`, then one for each point, by row, then by
/// column, with its ends in lux. A covered point has two empty fields last.
pub fn grid_text(alloc: Global, report: &Report) -> Result<Vec<u8>, Memory>
    requires columns { 0 < report.now.columns }
    requires few { length report.now.points ≤ 1024 }
    ensures text { IfOk result (λ v. v.items ≡ grid_bytes report.now) }
{
    let mut writer = WriterBuilder::new().from_writer(Vec::new(alloc));
    put_record(&mut writer, &[b"column", b"row", b"lower", b"upper"])?;
    put_points(alloc, &mut writer, report.columns, report.points.as_slice())?;
    match writer.into_inner() {
        Ok(bytes) => Ok(bytes),
        Err(_) => Err(Memory),
    }
}
