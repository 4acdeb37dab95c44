//! Photometric files: their tables, and what is said of them.
ghost use Rattle.std.specs.Prelude.{◌≡◌, ◌≤◌, ◌++◌, length, codes, IfOk, IfErr, string_bytes};
ghost use Rattle.decimal_text.specs.Lines.{line};
ghost use Rattle.lux_core.specs.Photometry.{IsFaultOfFile, IsNoWant, IsPhotometryAnswer, IsReadAs, IsSaidOfTable, table_fault_text};
ghost use Rattle.lux_core.specs.Questions.{IsFormat, IsWithinLumens};
ghost use Rattle.zonal_flux.specs.Printed.{IsFluxText};

use crate::reply::Reply;
use crate::status::Status;
use crate::words::{Format, PhotometryQuestion};
use eulumdat_read::{LdtFault, read_ldt};
use fx_base::Memory;
use lm63_read::{IesFault, read_ies};
use photo_table::{PhotoTable, summary_text};
use series_enclose::TangentTable;
use std::alloc::Global;
use zonal_flux::laws::flux_text_is_right;
use zonal_flux::{flux_text, zonal};

/// Why a photometric file gives no table: the fault of its format's reader.
#[derive(Clone, Copy, Debug, PartialEq, Eq)]
pub enum TableFault {
    /// The first fault of an LM-63 file.
    Lm63(IesFault),
    /// The first fault of a EULUMDAT file.
    Eulumdat(LdtFault),
}

/// The table of a photometric file, or the file's first fault.
pub fn read_table(alloc: Global, format: Format, bytes: &[u8]) -> Result<PhotoTable, TableFault>
    requires format { IsFormat format }
    requires few { length bytes.now ≤ 16777216 }
    ensures table { IfOk result (IsReadAs format bytes.now) }
    ensures refused { IfErr result (λ fault. IsNoWant fault → IsFaultOfFile format bytes.now fault) }
{
    match format {
        Format::Lm63 => match read_ies(alloc, bytes) {
            Ok(table) => Ok(table),
            Err(fault) => Err(TableFault::Lm63(fault)),
        },
        Format::Eulumdat(set) => match read_ldt(alloc, bytes, set) {
            Ok(table) => Ok(table),
            Err(fault) => Err(TableFault::Eulumdat(fault)),
        },
    }
}

/// The line of a photometric file that is refused.
pub fn refused_file(alloc: Global, name: &str, fault: TableFault) -> Result<String, Memory>
    ensures want { IfOk result (λ _. IsNoWant fault) }
    ensures text { IfOk result (λ s. string_bytes s ≡ line (codes "refused " ++ name.now ++ codes " " ++ table_fault_text fault)) }
{
    let said = match fault {
        TableFault::Lm63(IesFault::Memory) => return Err(Memory),
        TableFault::Eulumdat(LdtFault::Memory) => return Err(Memory),
        TableFault::Lm63(fault) => fault.text(alloc)?,
        TableFault::Eulumdat(fault) => fault.text(alloc)?,
    };
    let text = format!(in alloc; "refused {name} {said}\n")?;
    Ok(text)
}

/// The flux of a table, held against a number of lumens.
fn text_of_flux(alloc: Global, table: &PhotoTable, lumens: u32) -> Result<String, Memory>
    requires lumens { lumens ≤ 1000000 }
    ensures { IfOk result (λ s. IsFluxText table.now lumens (string_bytes s)) }
{
    let sines = TangentTable::build(alloc)?;
    let flux = zonal(&sines, table);
    let text = flux_text(alloc, &flux, lumens)?;
    Ok(text)
}

/// What is said of the luminaire of a table.
fn text_of_table(
    alloc: Global,
    asked: PhotometryQuestion,
    table: &PhotoTable,
) -> Result<String, Memory>
    requires lumens { IsWithinLumens asked }
    ensures { IfOk result (λ s. IsSaidOfTable asked table.now (string_bytes s)) }
{
    match asked {
        PhotometryQuestion::Summary => {
            let text = summary_text(alloc, table)?;
            Ok(text)
        }
        PhotometryQuestion::Flux(lumens) => {
            let text = text_of_flux(alloc, table, lumens)?;
            Ok(text)
        }
    }
}

/// What is asked of a photometric file, or why it is refused.
#[tactic(auto, using(crate::proofs::Luminaires::said_of_file))]
pub fn reply_to_photometry(
    alloc: Global,
    format: Format,
    asked: PhotometryQuestion,
    name: &str,
    bytes: &[u8],
) -> Result<Reply, Memory>
    requires format { IsFormat format }
    requires lumens { IsWithinLumens asked }
    requires few { length bytes.now ≤ 16777216 }
    ensures { IfOk result (λ r. IsPhotometryAnswer format asked name.now bytes.now r.status r.text.items) }
{
    flux_text_is_right();
    match read_table(alloc, format, bytes) {
        Ok(table) => {
            let text = text_of_table(alloc, asked, &table)?;
            Ok(Reply::new(Status::Done, text))
        }
        Err(fault) => {
            let text = refused_file(alloc, name, fault)?;
            Ok(Reply::refused(text))
        }
    }
}
