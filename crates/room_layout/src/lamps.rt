//! The lamps of a layout, and the files that they use.
ghost use Rattle.std.specs.Prelude.{◌≡◌, ◌≢◌, ◌≤◌, map, [], length, position, option_map, codes, Result, Ok, Err, IfOk, IfErr, OnOk};
ghost use Rattle.toml.specs.Data.{get_member};
ghost use Rattle.toml.specs.View.{view, table_view};
ghost use Rattle.room_layout.specs.Checks.{optional, spot, table_with};
ghost use Rattle.room_layout.specs.declared.fault.Key.TheVariants as key;
ghost use Rattle.room_layout.specs.declared.geometry.Face.TheVariants.{Down};
ghost use Rattle.room_layout.specs.Layout.{is_same_use, has_margin, has_margins, is_lamp_inside, lamp_keys, aim_named, aim_text, lamp_from, held_source, source_of, fitting_of, shine_of, checked_lamp, lamp_of, lamps_from, lamps_of, placed};

use crate::check::{
    elements, member, name_where_given, number_where_given, optional_number, optional_numbers,
    required_numbers, table_with,
};
use crate::parts::{Fitting, Lit, Shell, Source};
use crate::sizes::{fits_in, size_from};
use crate::version::Version;
use crate::{Face, FileUse, FileUses, Key, Lamp, Lamps, Name, RoomFault, Shine, Size, Spot};
use std::alloc::Global;
use toml::{Table, Value};

/// The lamps of a document, in such a room.
#[tactic(auto, unfolding(crate::specs::Layout::lamps_of))]
pub fn read_lamps(alloc: Global, document: &Table, room: Shell) -> Result<Lit, RoomFault>
    ensures given { IfOk result (λ lit. lamps_of room (table_view document.now) ≡ Ok lit) }
    ensures refused { IfErr result (λ e. e ≢ RoomFault.Memory → lamps_of room (table_view document.now) ≡ Err e) }
{
    match member(document, "lamp") {
        Some(value) => {
            let lamps = elements(value, 256, Spot::at(Key::Lamp, 0))?;
            read_each(alloc, lamps, room)
        }
        None => read_each(alloc, &[], room),
    }
}

/// Each lamp in turn.
fn read_each(alloc: Global, values: &[Value], room: Shell) -> Result<Lit, RoomFault>
    requires { length values.now ≤ 256 }
    ensures given { IfOk result (λ lit. lamps_from room 0 [] (map view values.now) ≡ Ok lit) }
    ensures refused { IfErr result (λ e. e ≢ RoomFault.Memory → lamps_from room 0 [] (map view values.now) ≡ Err e) }
{
    let mut lamps = Vec::new(alloc);
    let mut files = Vec::new(alloc);
    for i in 0..values.len() {
        let lamp = read_lamp(alloc, &mut files, &values[i], i as u32, room)?;
        lamps.push(lamp)?;
    }
    Ok(Lit {
        lamps: Lamps::from_vec(lamps),
        files: FileUses::from_vec(files),
    })
}

/// The lamp at this index. A file that no earlier lamp uses is added to `files`.
#[tactic(auto, unfolding(crate::specs::Layout::lamp_of))]
fn read_lamp(
    alloc: Global,
    files: &mut Vec<FileUse>,
    value: &Value,
    index: u32,
    room: Shell,
) -> Result<Lamp, RoomFault>
    requires { length files.old.items ≤ 16 }
    ensures given { IfOk result (λ lamp. lamp_of room index files.old.items (view value.now) ≡ Ok (lamp, files.new.items)) }
    ensures refused { IfErr result (λ e. e ≢ RoomFault.Memory → lamp_of room index files.old.items (view value.now) ≡ Err e) }
    ensures few { OnOk result (length files.new.items ≤ 16) }
{
    let table = lamp_table(room.version, value, index)?;
    let longest = room.version.longest_edge();
    let at = required_numbers::<3>(table, "at", 0, longest, Spot::at(Key::LampAt, index))?;
    let source = read_source(table, index)?;
    let fitting = read_fitting(table, index)?;
    let shine = read_shine(alloc, files, index, source)?;
    let lamp = lamp_from(at, shine, fitting);
    check_lamp(lamp, files, room, index)?;
    Ok(lamp)
}

/// The table of the lamp at this index, that has no key but those which the version knows.
fn lamp_table(version: Version, value: &Value, index: u32) -> Result<&Table, RoomFault>
    ensures given { IfOk result (λ table. table_with (lamp_keys version) (spot key.Lamp index) (view value.now) ≡ Ok (table_view table.now)) }
    ensures refused { IfErr result (λ e. table_with (lamp_keys version) (spot key.Lamp index) (view value.now) ≡ Err e) }
{
    match version {
        Version::One => table_with(
            value,
            &[
                "at",
                "candela",
                "file",
                "set",
                "turn",
                "maintenance",
                "size",
                "split",
            ],
            Spot::at(Key::Lamp, index),
        ),
        Version::Two => table_with(
            value,
            &[
                "at",
                "candela",
                "file",
                "set",
                "turn",
                "maintenance",
                "size",
                "split",
                "aim",
            ],
            Spot::at(Key::Lamp, index),
        ),
    }
}

/// What the keys of the lamp at this index say of its light.
#[tactic(auto, unfolding(crate::specs::Layout::source_of))]
fn read_source(table: &Table, index: u32) -> Result<Source<'_>, RoomFault>
    ensures given { IfOk result (λ source. source_of index (table_view table.now) ≡ Ok (held_source source)) }
    ensures refused { IfErr result (λ e. source_of index (table_view table.now) ≡ Err e) }
{
    let candela = number_where_given(
        table,
        "candela",
        0,
        10_000_000,
        Spot::at(Key::LampCandela, index),
    )?;
    let file = name_where_given(table, "file", Spot::at(Key::LampFile, index))?;
    let set = optional_number(table, "set", 1, 1, 20, Spot::at(Key::LampSet, index))?;
    Ok(Source { candela, file, set })
}

/// How the lamp at this index is put up.
#[tactic(auto, unfolding(crate::specs::Layout::fitting_of))]
fn read_fitting(table: &Table, index: u32) -> Result<Fitting, RoomFault>
    ensures { result ≡ fitting_of index (table_view table.now) }
{
    let turn = optional_number(table, "turn", 0, 0, 359, Spot::at(Key::LampTurn, index))?;
    let maintenance = optional_number(
        table,
        "maintenance",
        1_000,
        0,
        1_000,
        Spot::at(Key::LampMaintenance, index),
    )?;
    let size = optional_numbers::<2>(
        table,
        "size",
        [0; 2],
        0,
        5_000,
        Spot::at(Key::LampSize, index),
    )?;
    let split = optional_numbers::<2>(
        table,
        "split",
        [1; 2],
        1,
        8,
        Spot::at(Key::LampSplit, index),
    )?;
    let aim = read_aim(table, index)?;
    Ok(Fitting {
        turn: turn as u16,
        maintenance: maintenance as u16,
        size_x: size[0],
        size_y: size[1],
        split_x: split[0],
        split_y: split[1],
        aim,
    })
}

/// The aim of the lamp at this index, down where the key isn't given.
fn read_aim(table: &Table, index: u32) -> Result<Face, RoomFault>
    ensures { result ≡ optional Down (spot key.LampAim index) aim_text (get_member (codes "aim") (table_view table.now)) }
{
    match member(table, "aim") {
        Some(value) => aim_text(value, Spot::at(Key::LampAim, index)),
        None => Ok(Face::Down),
    }
}

/// The aim that a text names.
fn aim_text(value: &Value, spot: Spot) -> Result<Face, RoomFault>
    ensures { result ≡ aim_text spot (view value.now) }
{
    let Some(name) = value.as_str() else {
        return Err(RoomFault::Kind(spot));
    };
    match aim_named(name) {
        Some(aim) => Ok(aim),
        None => Err(RoomFault::Range(spot)),
    }
}

/// The face whose normal is the aim of that name, where it is one of the six.
fn aim_named(name: &str) -> Option<Face>
    ensures { result ≡ aim_named name.now }
{
    if name == "-z" {
        Some(Face::Down)
    } else if name == "+z" {
        Some(Face::Up)
    } else if name == "-x" {
        Some(Face::West)
    } else if name == "+x" {
        Some(Face::East)
    } else if name == "-y" {
        Some(Face::South)
    } else if name == "+y" {
        Some(Face::North)
    } else {
        None
    }
}

fn lamp_from(at: [u32; 3], shine: Shine, fitting: Fitting) -> Lamp
    ensures { result ≡ lamp_from at shine fitting }
{
    Lamp {
        at: size_from(at),
        shine,
        turn: fitting.turn,
        maintenance: fitting.maintenance,
        size_x: fitting.size_x,
        size_y: fitting.size_y,
        split_x: fitting.split_x,
        split_y: fitting.split_y,
        aim: fitting.aim,
    }
}

/// That the lamp at this index is within the room, and that no more files are used with it than a room may have.
#[tactic(auto, unfolding(crate::specs::Layout::checked_lamp))]
fn check_lamp(lamp: Lamp, files: &[FileUse], room: Shell, index: u32) -> Result<(), RoomFault>
    ensures given { OnOk result (checked_lamp room index lamp files.now ≡ Ok (lamp, files.now)) }
    ensures refused { IfErr result (λ e. checked_lamp room index lamp files.now ≡ Err e) }
    ensures few { OnOk result (length files.now ≤ 16) }
{
    if !is_lamp_inside(lamp, room.size) {
        return Err(RoomFault::Outside(Spot::at(Key::Lamp, index)));
    }
    if files.len() > 16 {
        return Err(RoomFault::TooMany(Spot::at(Key::LampFile, index)));
    }
    Ok(())
}

/// How the lamp at this index shines: by its candela or its file, of which it has exactly one.
#[tactic(auto, unfolding(crate::specs::Layout::shine_of))]
fn read_shine(
    alloc: Global,
    files: &mut Vec<FileUse>,
    index: u32,
    source: Source,
) -> Result<Shine, RoomFault>
    requires { length files.old.items ≤ 16 }
    ensures given { IfOk result (λ shine. shine_of index files.old.items source.entry.set source.entry.candela (held_source source.entry).file ≡ Ok (shine, files.new.items)) }
    ensures refused { IfErr result (λ e. e ≢ RoomFault.Memory → shine_of index files.old.items source.entry.set source.entry.candela (held_source source.entry).file ≡ Err e) }
{
    match (source.candela, source.file) {
        (None, None) => Err(RoomFault::Missing(Spot::at(Key::LampCandela, index))),
        (Some(_), Some(_)) => Err(RoomFault::Kind(Spot::at(Key::LampFile, index))),
        (Some(candela), None) => Ok(Shine::Even(candela)),
        (None, Some(name)) => {
            let place = file_place(alloc, files, name, source.set)?;
            Ok(Shine::File(place))
        }
    }
}

/// The index of the file and lamp set among the files, to which they are added where they aren't there.
fn file_place(
    alloc: Global,
    files: &mut Vec<FileUse>,
    name: &str,
    set: u32,
) -> Result<u32, RoomFault>
    requires { length files.old.items ≤ 16 }
    ensures given { IfOk result (λ place. placed (record { name = name.now; set = set }) files.old.items ≡ (place, files.new.items)) }
    ensures refused { IfErr result (λ e. e ≡ RoomFault.Memory) }
{
    match use_position(files, name, set) {
        Some(place) => Ok(place as u32),
        None => {
            let place = files.len() as u32;
            let name = Name::from_text(alloc, name)?;
            files.push(FileUse { name, set })?;
            Ok(place)
        }
    }
}

/// The index of the file and lamp set among the files, where they are there.
fn use_position(files: &[FileUse], name: &str, set: u32) -> Option<usize>
    ensures { result ≡ position (is_same_use (record { name = name.now; set = set })) files.now }
{
    files
        .iter()
        .position(|f| name == f.name.text() && set == f.set)
}

/// Whether the lamp's place is within the room, and its rectangle too.
fn is_lamp_inside(lamp: Lamp, room: Size) -> bool
    ensures { result ≡ is_lamp_inside lamp room }
{
    let extent = lamp.aim.across(lamp.size_x, lamp.size_y, 0);
    fits_in(lamp.at, room) && has_margins(lamp.at, extent, room)
}

/// Whether half of the extent on either side of the place is within the room along every axis.
fn has_margins(at: Size, extent: Size, room: Size) -> bool
    ensures { result ≡ has_margins at extent room }
{
    has_margin(at.x, extent.x, room.x)
        && has_margin(at.y, extent.y, room.y)
        && has_margin(at.z, extent.z, room.z)
}

/// Whether half of the size on either side of the place is within the edge. Both sides are doubled, so that half of an odd size is exact.
fn has_margin(at: u32, size: u32, edge: u32) -> bool
    ensures { result ≡ has_margin at size edge }
{
    let (at, size, edge) = (u64::from(at), u64::from(size), u64::from(edge));
    size <= 2 * at && 2 * at + size <= 2 * edge
}
