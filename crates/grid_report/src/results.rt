//! What is reported of the values at task points: each, their average and their uniformity, in whole hundredths and thousandths.
ghost use Rattle.std.specs.Prelude.{◌≡◌, ◌^◌, ◌<◌, ◌≤◌, ◌≤ℤ◌, pos, All, IfOk, IfSome, length, map};
ghost use Rattle.fx_base.specs.Units.{natural};
ghost use Rattle.report_form.specs.Judged.{AreInOrder, CanBeJudged};
ghost use Rattle.grid_report.specs.Reports.{in_cents, printed_ratio, printed_value, AreEndsOf, IsReportOf, IsUniformityPrinted};
ghost use Rattle.scene_system.specs.Sums.{average_high, average_low, open_total, IsValue};

use crate::evenness::uniformity_by;
use crate::ratio::Ratio;
use fx_base::{Memory, Span, ceil_cent, floor_cent};
use report_form::{Ends, Points, Printed, Report};
use scene_system::{PointValue, average};
use std::alloc::Global;

/// Ticks in hundredths, rounded outward.
fn in_cents(value: Span) -> Printed
    requires low { pos 0 ≤ℤ value.lo }
    requires order { value.lo ≤ℤ value.hi }
    requires high { natural value.hi ≤ 2 ^ 115 }
    ensures ends { result ≡ in_cents (natural value.lo) (natural value.hi) }
    ensures order { result.lo ≤ result.hi }
    ensures most { result.hi < 2 ^ 124 }
{
    Printed {
        lo: floor_cent(value.lo()),
        hi: ceil_cent(value.hi()),
    }
}

/// What is printed of a task point.
fn printed_value(point: &PointValue) -> Option<Printed>
    requires value { IsValue point.now }
    ensures { result ≡ printed_value point.now }
{
    if point.covered {
        None
    } else {
        Some(in_cents(point.value))
    }
}

/// What is printed of each task point, in their order.
fn printed_values(alloc: Global, values: &[PointValue]) -> Result<Vec<Option<Printed>>, Memory>
    requires values { All IsValue values.now }
    ensures { IfOk result (λ v. v.items ≡ map printed_value values.now) }
{
    let mut printed = Vec::new(alloc);
    for point in values {
        printed.push(printed_value(point))?;
    }
    Ok(printed)
}

/// Millionths in thousandths, rounded outward.
fn printed_ratio(ratio: Ratio) -> Printed
    requires order { ratio.lo ≤ ratio.hi }
    requires most { ratio.hi ≤ 1000000 }
    ensures ends { result ≡ printed_ratio ratio }
    ensures order { result.lo ≤ result.hi }
    ensures most { result.hi ≤ 1000 }
{
    Printed {
        lo: (ratio.lo / 1000) as u128,
        hi: ratio.hi.div_ceil(1000) as u128,
    }
}

/// What is printed of the uniformity, by the average.
fn printed_uniformity(values: &[PointValue], mean: Span) -> Option<Printed>
    requires some { 0 < open_total values.now }
    requires values { All IsValue values.now }
    requires low { mean.lo ≡ pos (average_low values.now) }
    requires high { mean.hi ≡ pos (average_high values.now) }
    requires order { average_low values.now ≤ average_high values.now }
    ensures printed { IsUniformityPrinted values.now result }
    ensures order { IfSome result (λ e. e.lo ≤ e.hi) }
    ensures most { IfSome result (λ e. e.hi ≤ 1000) }
{
    let ratio = uniformity_by(values, mean)?;
    Some(printed_ratio(ratio))
}

/// What is printed of all points together.
#[derive(Clone, Copy)]
struct Overall {
    average: Printed,
    uniformity: Option<Printed>,
}

/// The average and the uniformity as they are printed.
fn overall_of(values: &[PointValue]) -> Overall
    requires some { 0 < open_total values.now }
    requires few { length values.now ≤ 1024 }
    requires values { All IsValue values.now }
    ensures average { result.average ≡ in_cents (average_low values.now) (average_high values.now) }
    ensures average_order { result.average.lo ≤ result.average.hi }
    ensures average_most { result.average.hi < 2 ^ 124 }
    ensures uniformity { IsUniformityPrinted values.now result.uniformity }
    ensures uniformity_order { IfSome result.uniformity (λ e. e.lo ≤ e.hi) }
    ensures uniformity_most { IfSome result.uniformity (λ e. e.hi ≤ 1000) }
{
    let mean = average(values);
    Overall {
        average: in_cents(mean),
        uniformity: printed_uniformity(values, mean),
    }
}

/// The report of the values at task points, whose grid has so many columns: what is printed of each, of their average and of their
/// uniformity, rounded outward.
pub fn report(alloc: Global, columns: u32, values: &[PointValue]) -> Result<Report, Memory>
    requires columns { 0 < columns }
    requires some { 0 < open_total values.now }
    requires few { length values.now ≤ 1024 }
    requires values { All IsValue values.now }
    ensures report { IfOk result (IsReportOf columns values.now) }
    ensures judged { IfOk result CanBeJudged }
    ensures count { IfOk result (λ r. length r.points ≡ length values.now) }
{
    let points = printed_values(alloc, values)?;
    let overall = overall_of(values);
    Ok(Report {
        columns,
        points: Points::from_vec(points),
        average: overall.average,
        uniformity: overall.uniformity,
    })
}

/// The printed ends that limits are held against: the average rounded outward to hundredths of a lux, in thousandths, and the uniformity
/// rounded outward to thousandths. They are those of the values' report.
pub fn ends(values: &[PointValue]) -> Ends
    requires some { 0 < open_total values.now }
    requires few { length values.now ≤ 1024 }
    requires values { All IsValue values.now }
    ensures ends { AreEndsOf values.now result }
    ensures in_order { AreInOrder result }
{
    let overall = overall_of(values);
    Ends {
        average_lo: overall.average.lo * 10,
        average_hi: overall.average.hi * 10,
        uniformity: overall.uniformity.map(|u| (u.lo as u32, u.hi as u32)),
    }
}
