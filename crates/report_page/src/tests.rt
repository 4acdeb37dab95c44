//! Pages by table: `expected/tests.py` writes the rooms, and the pages that are expected of them, by the second writer of pages in
//! `expected/page.py`.
ghost use Rattle.std.specs.Prelude.{◌≡◌, ◌<◌, ◌≤◌, IfOk, length};
ghost use Rattle.report_form.specs.Judged.{CanBeJudged};

use crate::page_text;
use crate::style::push_style;
use fx_base::Memory;
use photo_table::PhotoTable;
use report_form::{Points, Printed, Report};
use room_layout::read_room;
use std::alloc::Global;
use std::test::Fail;

mod bare_page;
mod cellar_page;
mod office_page;

use bare_page::{BARE, BARE_NAME, BARE_PAGE};
use cellar_page::{CELLAR, CELLAR_NAME, CELLAR_PAGE};
use office_page::{OFFICE, OFFICE_NAME, OFFICE_PAGE};

/// The page of this text, in which STYLE stands for the style sheet.
fn with_style(alloc: Global, page: &str) -> Result<String, Fail> {
    let (before, after) = page.split_once("STYLE").ok_or("no style sheet")?;
    let mut text = String::new(alloc);
    text.push_str(before)?;
    push_style(&mut text)?;
    text.push_str(after)?;
    Ok(text)
}

/// The page of this layout, by this report and by tables of these intensities in candela.
fn page_of(
    alloc: Global,
    name: &str,
    layout: &str,
    candela: &[u16],
    patches: usize,
    report: &Report,
) -> Result<String, Fail>
    requires columns { 0 < report.now.columns }
    requires few { length report.now.points ≤ 1024 }
    requires judged { CanBeJudged report.now }
{
    let Ok(room) = read_room(alloc, layout.as_bytes()) else {
        return Err("refused".into());
    };
    let mut photos = Vec::new(alloc);
    for c in candela {
        photos.push(PhotoTable::even(alloc, u32::from(*c))?)?;
    }
    if photos.len() != room.files.len() {
        return Err("another number of files".into());
    }
    let page = page_text(alloc, name, &room, &photos, patches, report)?;
    Ok(page)
}

/// An interval between two ends.
fn ends(lo: u128, hi: u128) -> Printed
    ensures { result ≡ record { lo = lo; hi = hi } }
{
    Printed { lo, hi }
}

/// The first of four points is covered.
fn office(alloc: Global) -> Result<Report, Memory>
    ensures columns { IfOk result (λ r. 0 < r.columns) }
    ensures few { IfOk result (λ r. length r.points ≤ 1024) }
    ensures judged { IfOk result (λ r. CanBeJudged r) }
{
    let points = vec![in alloc;
        None,
        Some(ends(30126, 30127)),
        Some(ends(48972, 48974)),
        Some(ends(40000, 40005)),
    ]?;
    Ok(Report {
        columns: 2,
        points: Points::from_vec(points),
        average: ends(39699, 39702),
        uniformity: Some(ends(589, 590)),
    })
}

/// Three rows of two points in the dark, of which one is covered, and no uniformity.
fn cellar(alloc: Global) -> Result<Report, Memory>
    ensures columns { IfOk result (λ r. 0 < r.columns) }
    ensures few { IfOk result (λ r. length r.points ≤ 1024) }
    ensures judged { IfOk result (λ r. CanBeJudged r) }
{
    let points = vec![in alloc;
        Some(ends(0, 0)),
        Some(ends(0, 1)),
        Some(ends(2, 3)),
        Some(ends(4, 5)),
        None,
        Some(ends(6, 7)),
    ]?;
    Ok(Report {
        columns: 2,
        points: Points::from_vec(points),
        average: ends(0, 4),
        uniformity: None,
    })
}

/// One point in the dark.
fn bare(alloc: Global) -> Result<Report, Memory>
    ensures columns { IfOk result (λ r. 0 < r.columns) }
    ensures few { IfOk result (λ r. length r.points ≤ 1024) }
    ensures judged { IfOk result (λ r. CanBeJudged r) }
{
    let points = vec![in alloc; Some(ends(0, 0))]?;
    Ok(Report {
        columns: 1,
        points: Points::from_vec(points),
        average: ends(0, 0),
        uniformity: None,
    })
}

#[test]
fn names_of_files_are_no_markup(rt: HostRuntime) -> Result<(), Fail> {
    let alloc = rt.alloc();
    let report = office(alloc)?;
    let page = page_of(alloc, OFFICE_NAME, OFFICE, &[905, 1000], 72, &report)?;
    let expected = with_style(alloc, OFFICE_PAGE)?;
    assert!(rt; page.as_str() == expected.as_str());
    Ok(())
}

#[test]
fn small_cells_have_their_numbers_in_a_table(rt: HostRuntime) -> Result<(), Fail> {
    let alloc = rt.alloc();
    let report = cellar(alloc)?;
    let page = page_of(alloc, CELLAR_NAME, CELLAR, &[], 1320, &report)?;
    let expected = with_style(alloc, CELLAR_PAGE)?;
    assert!(rt; page.as_str() == expected.as_str());
    Ok(())
}

#[test]
fn a_room_may_have_no_lamps_and_no_limits(rt: HostRuntime) -> Result<(), Fail> {
    let alloc = rt.alloc();
    let report = bare(alloc)?;
    let page = page_of(alloc, BARE_NAME, BARE, &[], 6, &report)?;
    let expected = with_style(alloc, BARE_PAGE)?;
    assert!(rt; page.as_str() == expected.as_str());
    Ok(())
}
