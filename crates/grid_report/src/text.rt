//! The texts of the report of some values.
ghost use Rattle.std.specs.Prelude.{◌≡◌, ◌<◌, ◌≤◌, All, IfOk, length, string_bytes};
ghost use Rattle.report_form.specs.Grid.{grid_bytes};
ghost use Rattle.report_form.specs.Spelled.{report_text};
ghost use Rattle.report_form.specs.declared.report.Report.{Report};
ghost use Rattle.grid_report.specs.Reports.{IsReportOf};
ghost use Rattle.scene_system.specs.Sums.{open_total, IsValue};

use crate::results::report;
use fx_base::Memory;
use scene_system::PointValue;
use std::alloc::Global;

/// The report of the values at task points as text, with so many columns: the line of each, that of the average and that of the
/// uniformity.
pub fn report_text(alloc: Global, nx: u32, values: &[PointValue]) -> Result<String, Memory>
    requires columns { 0 < nx }
    requires some { 0 < open_total values.now }
    requires few { length values.now ≤ 1024 }
    requires values { All IsValue values.now }
    ensures { IfOk result (λ s. (r : Report) × IsReportOf nx values.now r × (string_bytes s ≡ report_text r)) }
{
    let report = report(alloc, nx, values)?;
    report_form::report_text(alloc, &report)
}

/// The report of the values at task points as comma-separated values, with so many columns: a header, then a record of each.
pub fn grid_text(alloc: Global, nx: u32, values: &[PointValue]) -> Result<Vec<u8>, Memory>
    requires columns { 0 < nx }
    requires some { 0 < open_total values.now }
    requires few { length values.now ≤ 1024 }
    requires values { All IsValue values.now }
    ensures { IfOk result (λ v. (r : Report) × IsReportOf nx values.now r × (v.items ≡ grid_bytes r)) }
{
    let report = report(alloc, nx, values)?;
    report_form::grid_text(alloc, &report)
}
