//! A report as it is asked for, and the status of its limits.
ghost use Rattle.std.specs.Prelude.{◌≡◌, ◌<◌, ◌≤◌, IfOk, length, List, string_bytes};
ghost use Rattle.photo_table.specs.Table.{Table};
ghost use Rattle.report_form.specs.Judged.{ends_of, CanBeJudged};
ghost use Rattle.report_page.specs.Page.{IsPage};
ghost use Rattle.room_layout.specs.Accepted.{IsAccepted};
ghost use Rattle.scene_system.specs.Scene.{patch_count};
ghost use Rattle.scene_system.specs.Tables.{AreTablesOf};
ghost use Rattle.lux_core.specs.Spellings.{in_lines, in_summary, limits_status, status_by, verdict_status, IsSaidIn};

use crate::reply::Reply;
use crate::status::Status;
use crate::words::Spelling;
use fx_base::Memory;
use limit_verdict::{Verdict, verdict_text, verdicts};
use photo_table::PhotoTable;
use report_form::{Report, grid_text, overall_text, report_text};
use report_page::page_text;
use room_layout::{Limits, Room};
use std::alloc::Global;

/// The status of what limits come to.
pub fn status_of(verdict: Verdict) -> Status
    ensures { result ≡ verdict_status verdict }
{
    match verdict {
        Verdict::Met => Status::Done,
        Verdict::Missed => Status::Missed,
        Verdict::Undecided => Status::Undecided,
    }
}

/// The status that these limits come to by the printed ends of a report.
fn status_by_limits(limits: &Limits, report: &Report) -> Status
    requires judged { CanBeJudged report.now }
    ensures status { result ≡ limits_status limits.now (ends_of report.now) }
{
    let ends = report.ends();
    let judged = verdicts(limits, ends.average_lo, ends.average_hi, ends.uniformity);
    status_of(judged.overall())
}

/// The lines of a report and of the limits that the room asks for, and the status that these come to by the printed ends.
fn reply_in_lines(alloc: Global, room: &Room, report: &Report) -> Result<Reply, Memory>
    requires columns { 0 < report.now.columns }
    requires few { length report.now.points ≤ 1024 }
    requires judged { CanBeJudged report.now }
    ensures text { IfOk result (λ r. r.text.items ≡ in_lines room.now report.now) }
    ensures status { IfOk result (λ r. r.status ≡ limits_status room.now.limits (ends_of report.now)) }
{
    let limits = &room.limits;
    let ends = report.ends();
    let mut text = report_text(alloc, report)?;
    let lines = verdict_text(
        alloc,
        limits,
        ends.average_lo,
        ends.average_hi,
        ends.uniformity,
    )?;
    text.push_str(lines.as_str())?;
    Ok(Reply::new(status_by_limits(limits, report), text))
}

/// The counts of patches and of task points of the room that a number makes, and the report's lines of the average and the uniformity.
fn summary_of(
    alloc: Global,
    number: u32,
    room: &Room,
    patches: usize,
    report: &Report,
) -> Result<String, Memory>
    requires patches { patches ≡ patch_count room.now }
    ensures { IfOk result (λ s. string_bytes s ≡ in_summary number room.now report.now) }
{
    let points = u64::from(room.task.nx) * u64::from(room.task.ny);
    let overall = overall_text(alloc, report)?;
    let text = format!(in alloc; "trial {number} patches {patches} points {points}\n{overall}")?;
    Ok(text)
}

/// The page of a report, and the status that the limits of the room come to by the printed ends.
fn reply_in_page(
    alloc: Global,
    name: &str,
    room: &Room,
    photos: &[PhotoTable],
    patches: usize,
    report: &Report,
) -> Result<Reply, Memory>
    requires accepted { IsAccepted room.now }
    requires photos { length photos.now ≡ length room.now.files }
    requires columns { 0 < report.now.columns }
    requires few { length report.now.points ≤ 1024 }
    requires judged { CanBeJudged report.now }
    ensures text { IfOk result (λ r. IsPage name.now patches photos.now room.now report.now r.text.items) }
    ensures status { IfOk result (λ r. r.status ≡ limits_status room.now.limits (ends_of report.now)) }
{
    let text = page_text(alloc, name, room, photos, patches, report)?;
    Ok(Reply::new(status_by_limits(&room.limits, report), text))
}

/// The report of a room in the form that is asked for, with its status. `name` is that of the room's file, `photos` are the tables of
/// its lamps' files, and `patches` is how many patches the room has.
pub fn reply_in(
    alloc: Global,
    form: Spelling,
    name: &str,
    room: &Room,
    photos: &[PhotoTable],
    patches: usize,
    report: &Report,
) -> Result<Reply, Memory>
    requires accepted { IsAccepted room.now }
    requires photos { length photos.now ≡ length room.now.files }
    requires columns { 0 < report.now.columns }
    requires few { length report.now.points ≤ 1024 }
    requires judged { CanBeJudged report.now }
    requires patches { patches ≡ patch_count room.now }
    ensures said { (tables : List Table) → AreTablesOf photos.now tables → IfOk result (λ r. IsSaidIn form name.now tables room.now report.now r.text.items) }
    ensures status { IfOk result (λ r. r.status ≡ status_by form room.now report.now) }
{
    match form {
        Spelling::Lines => {
            let reply = reply_in_lines(alloc, room, report)?;
            Ok(reply)
        }
        Spelling::Records => {
            let text = grid_text(alloc, report)?;
            let status = Status::Done;
            Ok(Reply { status, text })
        }
        Spelling::Summary(number) => {
            let text = summary_of(alloc, number, room, patches, report)?;
            Ok(Reply::new(Status::Done, text))
        }
        Spelling::Page => {
            let reply = reply_in_page(alloc, name, room, photos, patches, report)?;
            Ok(reply)
        }
    }
}
