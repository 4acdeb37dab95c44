//! The text of a claim.
ghost use Rattle.std.specs.Prelude.{◌≡◌, ◌++◌, ◌≤◌, All, IfOk, Ok, OnOk, length, map};
ghost use Rattle.csv.specs.Writing.{default_writer, row_text};
ghost use Rattle.fx_base.specs.Bound.{IsEnd};
ghost use Rattle.claim_file.specs.Claims.{claim_of};
ghost use Rattle.claim_file.specs.Writers.{IsPlain, written};
ghost use Rattle.claim_file.specs.Written.{claim_bytes, patch_row};

use csv::{Writer, WriterBuilder};
use fx_base::{Memory, Tick, end_ticks};
use radiosity_solve::Bounds;
use std::alloc::Global;

/// Writes a record of these fields. Whatever fails is told as want of memory: a list takes each byte for which there is memory.
fn put_record(writer: &mut Writer<Vec<u8>>, fields: &[&[u8]]) -> Result<(), Memory>
    requires plain { IsPlain writer.old }
    ensures plain { OnOk result (IsPlain writer.new) }
    ensures text { OnOk result (written writer.new ≡ written writer.old ++ row_text default_writer (map (λ f. f.now) fields.now)) }
{
    match writer.write_fields(fields) {
        Ok(()) => Ok(()),
        Err(_) => Err(Memory),
    }
}

/// Writes the record of patch n.
fn put_patch(
    alloc: Global,
    writer: &mut Writer<Vec<u8>>,
    n: usize,
    lower: Tick,
    upper: Tick,
) -> Result<(), Memory>
    requires plain { IsPlain writer.old }
    requires lower_end { IsEnd lower }
    requires upper_end { IsEnd upper }
    ensures plain { OnOk result (IsPlain writer.new) }
    ensures text { OnOk result (written writer.new
        ≡ written writer.old ++ row_text default_writer (patch_row n lower upper)) }
{
    let patch = format!(in alloc; "{n}")?;
    let low = format!(in alloc; "{}", end_ticks(lower))?;
    let high = format!(in alloc; "{}", end_ticks(upper))?;
    put_record(writer, &[patch.as_bytes(), low.as_bytes(), high.as_bytes()])
}

/// The bounds as CSV: the header `patch,lower,upper`, and for each patch its number from 0 and its two bounds in ticks of 2^-36 lux.
pub fn claim_text(alloc: Global, bounds: &Bounds) -> Result<Vec<u8>, Memory>
    requires same { length bounds.now.upper.items ≡ length bounds.now.lower.items }
    requires few { length bounds.now.lower.items ≤ 2048 }
    requires lower_ends { All IsEnd bounds.now.lower.items }
    requires upper_ends { All IsEnd bounds.now.upper.items }
    ensures text { IfOk result (λ text. text.items ≡ claim_bytes bounds.now.lower.items bounds.now.upper.items) }
    ensures back { IfOk result (λ text. claim_of text.items (length bounds.now.lower.items)
        ≡ Ok (record { lower = bounds.now.lower.items; upper = bounds.now.upper.items })) }
{
    let mut writer = WriterBuilder::new().from_writer(Vec::new(alloc));
    let header = [
        b"patch".as_slice(),
        b"lower".as_slice(),
        b"upper".as_slice(),
    ];
    put_record(&mut writer, &header)?;
    for n in 0..bounds.lower.len() {
        put_patch(alloc, &mut writer, n, bounds.lower[n], bounds.upper[n])?;
    }
    match writer.into_inner() {
        Ok(text) => Ok(text),
        Err(_) => Err(Memory),
    }
}
