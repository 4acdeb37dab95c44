//! The lines of a report.
ghost use Rattle.std.specs.Prelude.{◌≡◌, ◌<◌, ◌≤◌, ◌++◌, codes, IfOk, Some, length, string_bytes};
ghost use Rattle.decimal_text.specs.Lines.{line};
ghost use Rattle.report_form.specs.Spelled.{overall_text, point_line, point_lines, report_text, uniformity_text, value_text};

use crate::report::{Printed, Report};
use decimal_text::{Hundredths, Thousandths};
use fx_base::Memory;
use std::alloc::{AllocError, Global};
use std::fmt;

/// What is said of a point: its two ends in lux, or that a box covers it.
#[derive(Clone, Copy)]
struct Illuminance(Option<Printed>);

impl fmt::Display for Illuminance {
    ghost output = { λ p. Some (value_text p.0) };

    fn fmt<W: fmt::Write>(&self, f: &mut fmt::Formatter<W>) -> fmt::Result {
        match self.0 {
            None => write!(f, "covered"),
            Some(e) => write!(f, "{} {}", Hundredths(e.lo), Hundredths(e.hi)),
        }
    }
}

/// What is said of the uniformity: its two ends, or that there is none.
#[derive(Clone, Copy)]
struct Uniformity(Option<Printed>);

impl fmt::Display for Uniformity {
    ghost output = { λ u. Some (uniformity_text u.0) };

    fn fmt<W: fmt::Write>(&self, f: &mut fmt::Formatter<W>) -> fmt::Result {
        match self.0 {
            None => write!(f, "none"),
            Some(e) => write!(f, "{} {}", Thousandths(e.lo), Thousandths(e.hi)),
        }
    }
}

/// Adds the line of a task point, by its number.
fn push_point(
    text: &mut String,
    columns: u32,
    index: u32,
    value: Option<Printed>,
) -> Result<(), AllocError>
    requires columns { 0 < columns }
    ensures { IfOk result (λ _. string_bytes text.new ≡ string_bytes text.old ++ point_line columns index value) }
{
    let column = index % columns;
    let row = index / columns;
    write!(text, "point {column} {row} {}\n", Illuminance(value))
}

/// Adds the lines of all task points, by row, then by column.
fn push_points(
    text: &mut String,
    columns: u32,
    points: &[Option<Printed>],
) -> Result<(), AllocError>
    requires columns { 0 < columns }
    requires few { length points.now ≤ 1024 }
    ensures { IfOk result (λ _. string_bytes text.new ≡ string_bytes text.old ++ point_lines columns 0 points.now) }
{
    let mut index = 0;
    for value in points {
        push_point(text, columns, index, *value)?;
        index += 1;
    }
    Ok(())
}

/// Adds the lines of the average and of the uniformity.
fn push_overall(
    text: &mut String,
    average: Printed,
    uniformity: Option<Printed>,
) -> Result<(), AllocError>
    ensures { IfOk result (λ _. string_bytes text.new ≡ string_bytes text.old ++ line (codes "average " ++ value_text (Some average)) ++ line (codes "uniformity " ++ uniformity_text uniformity)) }
{
    write!(
        text,
        "average {}\nuniformity {}\n",
        Illuminance(Some(average)),
        Uniformity(uniformity)
    )
}

/// The report as text: a line for each point, by row, then by column, then that of the average and that of the uniformity.
pub fn report_text(alloc: Global, report: &Report) -> Result<String, Memory>
    requires columns { 0 < report.now.columns }
    requires few { length report.now.points ≤ 1024 }
    ensures text { IfOk result (λ s. string_bytes s ≡ report_text report.now) }
{
    let mut text = String::new(alloc);
    push_points(&mut text, report.columns, report.points.as_slice())?;
    push_overall(&mut text, report.average, report.uniformity)?;
    Ok(text)
}

/// The end of the report's text alone: the line of the average and that of the uniformity.
pub fn overall_text(alloc: Global, report: &Report) -> Result<String, Memory>
    ensures text { IfOk result (λ s. string_bytes s ≡ overall_text report.now) }
{
    let mut text = String::new(alloc);
    push_overall(&mut text, report.average, report.uniformity)?;
    Ok(text)
}
