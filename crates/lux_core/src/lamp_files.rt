//! The photometric files of a room's lamps.
ghost use Rattle.std.specs.Prelude.{◌≡◌, ◌≤◌, All, IfErr, IfOk, length, OnOk};
ghost use Rattle.photo_table.specs.Exact.{IsRoundedOf};
ghost use Rattle.room_layout.specs.Accepted.{IsFileUse};
ghost use Rattle.lux_core.specs.Commands.{format_of};
ghost use Rattle.lux_core.specs.LampFiles.{LampFile, WasRead, HasUnreadFile, IsUnreadFile};
ghost use Rattle.lux_core.specs.LampTables.{HasRead, Says};
ghost use Rattle.lux_core.specs.Photometry.{IsFileRefusal, IsReadAs};
ghost use Rattle.lux_core.specs.Runs.{run};

use crate::photometry::{read_table, refused_file};
use crate::reply::{Halt, Reply};
use crate::untaken::{LONGEST_FILE, reply_to_fault};
use crate::words::format_of;
use lux_io::{Shelf, take_file};
use photo_table::PhotoTable;
use room_layout::FileUse;
use std::alloc::Global;

/// The table that the bytes of a lamp's file are, for the lamp set that the layout chooses.
fn table_of_bytes(alloc: Global, file: &FileUse, bytes: &[u8]) -> Result<PhotoTable, Halt>
    requires file { IsFileUse file.now }
    requires few { length bytes.now ≤ 16777216 }
    ensures read { IfOk result (IsReadAs (format_of file.now.name file.now.set) bytes.now) }
    ensures refused { IfErr result (λ halt. Says halt (IsFileRefusal (format_of file.now.name file.now.set) file.now.name bytes.now)) }
{
    let name = file.name.text();
    match read_table(alloc, format_of(name, file.set), bytes) {
        Ok(table) => Ok(table),
        Err(fault) => {
            let text = refused_file(alloc, name, fault)?;
            Err(Halt::Said(Reply::refused(text)))
        }
    }
}

/// The table of a lamp's file on the shelf.
fn read_lamp_file<S: Shelf>(
    alloc: Global,
    file: &FileUse,
    shelf: &mut S,
) -> Result<PhotoTable, Halt>
    requires file { IsFileUse file.now }
    ensures files { S.files shelf.new ≡ S.files shelf.old }
    ensures read { IfOk result (λ p. (read : LampFile) × WasRead (S.files shelf.old) file.now read × IsRoundedOf p read.table × (S.taken shelf.new ≡ length read.bytes)) }
    ensures stood { OnOk result ((S.absences shelf.new ≡ S.absences shelf.old) × (S.faults shelf.new ≡ S.faults shelf.old)) }
    ensures unread { IfErr result (λ halt. Says halt (IsUnreadFile
        (run (S.files shelf.old) (S.absences shelf.old) (S.absences shelf.new)
        (S.faults shelf.old) (S.faults shelf.new) (S.taken shelf.new)) file.now)) }
{
    match take_file(alloc, shelf, file.name.text(), LONGEST_FILE) {
        Ok(bytes) => {
            let table = table_of_bytes(alloc, file, bytes.as_slice())?;
            Ok(table)
        }
        Err(fault) => {
            let reply = reply_to_fault(alloc, file.name.text(), fault)?;
            Err(Halt::Said(reply))
        }
    }
}

/// The tables of the files of a room's lamps, each read once, in order, up to the first that stands in the way.
pub fn read_lamp_files<S: Shelf>(
    alloc: Global,
    files: &[FileUse],
    shelf: &mut S,
) -> Result<Vec<PhotoTable>, Halt>
    requires { All IsFileUse files.now }
    ensures files { S.files shelf.new ≡ S.files shelf.old }
    ensures read { IfOk result (λ ps. HasRead (S.files shelf.old) files.now (S.taken shelf.old) (S.taken shelf.new) (length files.now) ps.items) }
    ensures stood { OnOk result ((S.absences shelf.new ≡ S.absences shelf.old) × (S.faults shelf.new ≡ S.faults shelf.old)) }
    ensures unread { IfErr result (λ halt. Says halt (HasUnreadFile
        (run (S.files shelf.old) (S.absences shelf.old) (S.absences shelf.new)
        (S.faults shelf.old) (S.faults shelf.new) (S.taken shelf.new)) files.now)) }
{
    let mut tables = Vec::new(alloc);
    for index in 0..files.len() {
        let table = read_lamp_file(alloc, &files[index], shelf)?;
        tables.push(table)?;
    }
    Ok(tables)
}
