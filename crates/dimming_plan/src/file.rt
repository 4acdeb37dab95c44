//! A plan from its file.
ghost use Rattle.std.specs.Prelude.{◌≡◌, ◌≢◌, ◌≤◌, All, IfErr, IfOk, Some, Ok, Err, length};
ghost use Rattle.csv.specs.Reading.{expected_len};
ghost use Rattle.claim_file.specs.Rows.{IsAt, rows_left};
ghost use Rattle.dimming_plan.specs.PlanFile.{lamps_from, plan_of, IsPlanLamp};

use crate::entry::{PlanLamp, read_lamp};
use crate::fault::PlanFault;
use claim_file::{Taken, take_record};
use csv::{ByteRecord, Reader, ReaderBuilder};
use std::alloc::Global;

/// The lamps in the records after the header, which was the last record read and had `width` fields.
fn read_lamps(
    alloc: Global,
    reader: &mut Reader<&[u8]>,
    row: &mut ByteRecord,
    lamps: usize,
    width: usize,
) -> Result<Vec<PlanLamp>, PlanFault>
    requires few { lamps ≤ 256 }
    requires at { IsAt reader.old }
    requires width { expected_len reader.old ≡ Some width }
    ensures read { IfOk result (λ v. lamps_from lamps width 0 (rows_left reader.old) ≡ Ok v.items) }
    ensures size { IfOk result (λ v. length v.items ≡ lamps) }
    ensures within { IfOk result (λ v. All IsPlanLamp v.items) }
    ensures refused { IfErr result (λ e. e ≢ PlanFault.Memory → lamps_from lamps width 0 (rows_left reader.old) ≡ Err e) }
{
    let mut plan = Vec::new(alloc);
    for n in 0..lamps {
        match take_record(reader, row)? {
            Taken::Record => {
                let lamp = read_lamp(row, n)?;
                plan.push(lamp)?;
            }
            Taken::OtherLength => return Err(PlanFault::Record(n as u32 + 1)),
            Taken::End => return Err(PlanFault::Count),
        }
    }
    match take_record(reader, row)? {
        Taken::End => Ok(plan),
        Taken::Record | Taken::OtherLength => Err(PlanFault::Count),
    }
}

/// The groups and the watts of so many lamps that the text of a file says, or the first fault of its records: CSV with a header that is
/// passed over, and then for each lamp in order a record of its number from 0, its group from 0 to 5 and its watts up to 10,000.
pub fn read_plan(alloc: Global, bytes: &[u8], lamps: usize) -> Result<Vec<PlanLamp>, PlanFault>
    requires few { lamps ≤ 256 }
    ensures read { IfOk result (λ v. plan_of bytes.now lamps ≡ Ok v.items) }
    ensures size { IfOk result (λ v. length v.items ≡ lamps) }
    ensures within { IfOk result (λ v. All IsPlanLamp v.items) }
    ensures refused { IfErr result (λ e. e ≢ PlanFault.Memory → plan_of bytes.now lamps ≡ Err e) }
{
    // the header is read as a record, so that what comes of it is known as of any other
    let mut reader = ReaderBuilder::new()
        .has_headers(false)
        .from_reader(alloc, bytes);
    let mut row = ByteRecord::new(alloc);
    match take_record(&mut reader, &mut row)? {
        Taken::Record => {
            let width = row.len();
            read_lamps(alloc, &mut reader, &mut row, lamps, width)
        }
        Taken::OtherLength => unreachable!(),
        Taken::End if lamps == 0 => Ok(Vec::new(alloc)),
        Taken::End => Err(PlanFault::Count),
    }
}
