//! The room of a layout, table by table in the order of checking.
ghost use Rattle.std.specs.Prelude.{◌≡◌, ◌≢◌, ◌≤◌, is_some, Result, Ok, Err, IfOk, IfErr};
ghost use Rattle.toml.specs.View.{view, table_view};
ghost use Rattle.room_layout.specs.Layout.{task_from, is_rising, is_task_inside, version_of, shell_of, task_of, limits_of, limits_in, room_of_document, document_of, room_of};
ghost use Rattle.room_layout.specs.Accepted.{IsAccepted};
ghost use Rattle.room_layout.specs.Files.{HasEachFileOnce};

use crate::blocks::read_blocks;
use crate::check::{
    has_only, member, number_where_given, optional_number, optional_numbers, required_number,
    required_numbers, required_table, table_with,
};
use crate::lamps::read_lamps;
use crate::parts::Shell;
use crate::sizes::{reflects_from, size_from};
use crate::version::Version;
use crate::{Key, Limits, Reflects, Room, RoomFault, Size, Spot, TaskGrid};
use std::alloc::Global;
use toml::{Table, Value};

/// Reads a room layout: the room, or the first fault in the order of checking.
#[tactic(auto, unfolding(crate::specs::Layout::room_of))]
pub fn read_room(alloc: Global, bytes: &[u8]) -> Result<Room, RoomFault>
    ensures accepted { IfOk result (λ r. room_of bytes.now ≡ Ok r) }
    ensures refused { IfErr result (λ e. e ≢ RoomFault.Memory → room_of bytes.now ≡ Err e) }
    ensures bounds { IfOk result IsAccepted }
    ensures files { IfOk result HasEachFileOnce }
{
    let document = parse(alloc, bytes)?;
    let room = read_document(alloc, &document)?;
    Ok(room)
}

/// The document of a text. Bytes that aren't UTF-8 are no TOML.
fn parse(alloc: Global, bytes: &[u8]) -> Result<Table, RoomFault>
    ensures given { IfOk result (λ document. document_of bytes.now ≡ Ok (table_view document)) }
    ensures refused { IfErr result (λ e. e ≢ RoomFault.Memory → document_of bytes.now ≡ Err e) }
{
    match toml::table_from_slice(alloc, bytes) {
        Ok(document) => Ok(document),
        Err(e) => {
            if e.is_memory() {
                Err(RoomFault::Memory)
            } else {
                Err(RoomFault::NotToml)
            }
        }
    }
}

/// The room of a document.
#[tactic(auto, unfolding(crate::specs::Layout::room_of_document))]
fn read_document(alloc: Global, document: &Table) -> Result<Room, RoomFault>
    ensures given { IfOk result (λ r. room_of_document (table_view document.now) ≡ Ok r) }
    ensures refused { IfErr result (λ e. e ≢ RoomFault.Memory → room_of_document (table_view document.now) ≡ Err e) }
{
    let version = read_version(document)?;
    if !has_only(
        document,
        &["version", "room", "box", "lamp", "task", "limits"],
    ) {
        return Err(RoomFault::Unknown(Spot::of(Key::Version)));
    }
    let shell = read_shell(version, document)?;
    let blocks = read_blocks(alloc, document, shell)?;
    let lit = read_lamps(alloc, document, shell)?;
    let task = read_task(document, shell)?;
    let limits = read_limits(document)?;
    Ok(Room {
        size: shell.size,
        reflect: shell.reflect,
        patch: shell.patch,
        blocks,
        lamps: lit.lamps,
        files: lit.files,
        task,
        limits,
    })
}

/// The version, which is 1 or 2. Anything else is the fault `Version`.
#[tactic(auto, unfolding(crate::specs::Layout::version_of))]
fn read_version(document: &Table) -> Result<Version, RoomFault>
    ensures { result ≡ version_of (table_view document.now) }
{
    match required_number(document, "version", 1, 2, Spot::of(Key::Version)) {
        Ok(1) => Ok(Version::One),
        Ok(_) => Ok(Version::Two),
        Err(_) => Err(RoomFault::Version),
    }
}

/// The table `room` of a layout of this version.
#[tactic(auto, unfolding(crate::specs::Layout::shell_of))]
fn read_shell(version: Version, document: &Table) -> Result<Shell, RoomFault>
    ensures { result ≡ shell_of version (table_view document.now) }
{
    let room = required_table(
        document,
        "room",
        &["size", "reflect", "patch"],
        Spot::of(Key::Room),
    )?;
    let longest = version.longest_edge();
    let size = required_numbers::<3>(room, "size", 500, longest, Spot::of(Key::RoomSize))?;
    let reflect = optional_numbers::<6>(
        room,
        "reflect",
        [0; 6],
        0,
        950,
        Spot::of(Key::RoomReflect),
    )?;
    let patch = optional_number(room, "patch", 600, 50, 50_000, Spot::of(Key::RoomPatch))?;
    Ok(Shell {
        version,
        size: size_from(size),
        reflect: reflects_from(reflect),
        patch,
    })
}

/// The task grid in such a room.
#[tactic(auto, unfolding(crate::specs::Layout::task_of))]
fn read_task(document: &Table, room: Shell) -> Result<TaskGrid, RoomFault>
    ensures { result ≡ task_of room (table_view document.now) }
{
    let task = required_table(
        document,
        "task",
        &["from", "to", "height", "points"],
        Spot::of(Key::Task),
    )?;
    let longest = room.version.longest_edge();
    let from = required_numbers::<2>(task, "from", 0, longest, Spot::of(Key::TaskFrom))?;
    let to = required_numbers::<2>(task, "to", 0, longest, Spot::of(Key::TaskTo))?;
    let height = required_number(task, "height", 0, longest, Spot::of(Key::TaskHeight))?;
    let points = required_numbers::<2>(task, "points", 1, 1_024, Spot::of(Key::TaskPoints))?;
    let grid = task_from(from, to, height, points);
    if !is_rising(grid) {
        return Err(RoomFault::Range(Spot::of(Key::TaskTo)));
    }
    if !is_task_inside(grid, room.size) {
        return Err(RoomFault::Outside(Spot::of(Key::Task)));
    }
    if u64::from(grid.nx) * u64::from(grid.ny) > 1_024 {
        return Err(RoomFault::TooMany(Spot::of(Key::TaskPoints)));
    }
    Ok(grid)
}

fn task_from(from: [u32; 2], to: [u32; 2], height: u32, points: [u32; 2]) -> TaskGrid
    ensures { result ≡ task_from from to height points }
{
    TaskGrid {
        from_x: from[0],
        from_y: from[1],
        to_x: to[0],
        to_y: to[1],
        height,
        nx: points[0],
        ny: points[1],
    }
}

/// Whether the task's far corner is above the near one on both axes.
fn is_rising(task: TaskGrid) -> bool
    ensures { result ≡ is_rising task }
{
    task.from_x < task.to_x && task.from_y < task.to_y
}

/// Whether neither the far corner nor the height passes the room.
fn is_task_inside(task: TaskGrid, room: Size) -> bool
    ensures { result ≡ is_task_inside task room }
{
    task.to_x <= room.x && task.to_y <= room.y && task.height <= room.z
}

/// The limits that are asked for, none where the table isn't given.
#[tactic(auto, unfolding(crate::specs::Layout::limits_of))]
fn read_limits(document: &Table) -> Result<Limits, RoomFault>
    ensures { result ≡ limits_of (table_view document.now) }
{
    match member(document, "limits") {
        Some(value) => read_limits_in(value, Spot::of(Key::Limits)),
        None => Ok(Limits {
            average: None,
            uniformity: None,
        }),
    }
}

/// The limits that a table asks for.
#[tactic(auto, unfolding(crate::specs::Layout::limits_in))]
fn read_limits_in(value: &Value, spot: Spot) -> Result<Limits, RoomFault>
    ensures { result ≡ limits_in spot (view value.now) }
{
    let limits = table_with(value, &["average_millilux", "uniformity_permille"], spot)?;
    let average = number_where_given(
        limits,
        "average_millilux",
        0,
        1_000_000_000,
        Spot::of(Key::LimitsAverageMillilux),
    )?;
    let uniformity = number_where_given(
        limits,
        "uniformity_permille",
        0,
        1_000,
        Spot::of(Key::LimitsUniformityPermille),
    )?;
    Ok(Limits {
        average: average.map(u64::from),
        uniformity,
    })
}
