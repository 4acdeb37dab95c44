//! A claim from its text.
ghost use Rattle.std.specs.Prelude.{◌≡◌, ◌≢◌, ◌≤◌, All, IfErr, IfOk, Some, Ok, Err, length};
ghost use Rattle.csv.specs.Reading.{expected_len};
ghost use Rattle.fx_base.specs.Bound.{IsEnd};
ghost use Rattle.claim_file.specs.Claims.{claim_of, claim_from};
ghost use Rattle.claim_file.specs.Rows.{IsAt, rows_left};

use crate::entry::read_entry;
use crate::fault::ClaimFault;
use crate::rows::{Taken, take_record};
use csv::{ByteRecord, Reader, ReaderBuilder};
use radiosity_solve::Bounds;
use std::alloc::Global;

/// The claim in the records after the header, which was the last record read and had `width` fields.
fn read_entries(
    alloc: Global,
    reader: &mut Reader<&[u8]>,
    row: &mut ByteRecord,
    patches: usize,
    width: usize,
) -> Result<Bounds, ClaimFault>
    requires few { patches ≤ 2048 }
    requires at { IsAt reader.old }
    requires width { expected_len reader.old ≡ Some width }
    ensures read { IfOk result (λ b. claim_from patches width (rows_left reader.old) ≡ Ok (record { lower = b.lower.items; upper = b.upper.items })) }
    ensures lower_size { IfOk result (λ b. length b.lower.items ≡ patches) }
    ensures upper_size { IfOk result (λ b. length b.upper.items ≡ patches) }
    ensures lower_ends { IfOk result (λ b. All IsEnd b.lower.items) }
    ensures upper_ends { IfOk result (λ b. All IsEnd b.upper.items) }
    ensures refused { IfErr result (λ e. e ≢ ClaimFault.Memory → claim_from patches width (rows_left reader.old) ≡ Err e) }
{
    let mut lower = Vec::new(alloc);
    let mut upper = Vec::new(alloc);
    for n in 0..patches {
        match take_record(reader, row)? {
            Taken::Record => {
                let entry = read_entry(row, n)?;
                lower.push(entry.lower)?;
                upper.push(entry.upper)?;
            }
            Taken::OtherLength => return Err(ClaimFault::Record(n as u32 + 1)),
            Taken::End => return Err(ClaimFault::Count),
        }
    }
    match take_record(reader, row)? {
        Taken::End => Ok(Bounds { lower, upper }),
        Taken::Record | Taken::OtherLength => Err(ClaimFault::Count),
    }
}

/// The claim that the text of a file says of so many patches, or the first fault of its records: CSV with a header that is passed over,
/// and then for each patch in order a record of its number from 0 and its two bounds in ticks of 2^-36 lux, at most 2^90. The lower
/// bounds may be above the upper ones; `holds` of `radiosity_solve` says whether a claim is shown.
pub fn read_claim(alloc: Global, bytes: &[u8], patches: usize) -> Result<Bounds, ClaimFault>
    requires few { patches ≤ 2048 }
    ensures read { IfOk result (λ b. claim_of bytes.now patches ≡ Ok (record { lower = b.lower.items; upper = b.upper.items })) }
    ensures lower_size { IfOk result (λ b. length b.lower.items ≡ patches) }
    ensures upper_size { IfOk result (λ b. length b.upper.items ≡ patches) }
    ensures lower_ends { IfOk result (λ b. All IsEnd b.lower.items) }
    ensures upper_ends { IfOk result (λ b. All IsEnd b.upper.items) }
    ensures refused { IfErr result (λ e. e ≢ ClaimFault.Memory → claim_of bytes.now patches ≡ Err e) }
{
    // the header is read as a record, so that what comes of it is known as of any other
    let mut reader = ReaderBuilder::new()
        .has_headers(false)
        .from_reader(alloc, bytes);
    let mut row = ByteRecord::new(alloc);
    match take_record(&mut reader, &mut row)? {
        Taken::Record => {
            let width = row.len();
            read_entries(alloc, &mut reader, &mut row, patches, width)
        }
        Taken::OtherLength => unreachable!(),
        Taken::End if patches == 0 => Ok(Bounds {
            lower: Vec::new(alloc),
            upper: Vec::new(alloc),
        }),
        Taken::End => Err(ClaimFault::Count),
    }
}
