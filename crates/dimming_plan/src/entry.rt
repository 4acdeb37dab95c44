//! The lamp in one record of a plan file.
ghost use Rattle.std.specs.Prelude.{◌≡◌, ◌<◌, IfOk};
ghost use Rattle.csv.specs.Records.{fields_of};
ghost use Rattle.dimming_plan.specs.PlanFile.{lamp_in, IsPlanLamp};

use crate::fault::PlanFault;
use claim_file::number_in;
use csv::ByteRecord;

/// The group of a lamp, 0 to 5, and what it takes in full, in watts, at most 10,000.
#[derive(Clone, Copy, Debug, PartialEq, Eq)]
pub struct PlanLamp {
    pub group: u8,
    pub watts: u32,
}

/// The last group.
const LAST_GROUP: u128 = 5;

/// The most watts of a lamp.
const MOST_WATTS: u128 = 10_000;

/// The lamp in the record of lamp n, counted from 0.
#[tactic(auto, unfolding(crate::specs::PlanFile::lamp_in))]
pub(crate) fn read_lamp(row: &ByteRecord, n: usize) -> Result<PlanLamp, PlanFault>
    requires few { n < 256 }
    ensures read { result ≡ lamp_in n (fields_of row.now) }
    ensures within { IfOk result IsPlanLamp }
{
    let broken = PlanFault::Record(n as u32 + 1);
    if row.len() != 3 {
        return Err(broken);
    }
    let (Some(lamp), Some(group), Some(watts)) = (
        number_in(row, 0),
        number_in(row, 1),
        number_in(row, 2),
    ) else {
        return Err(broken);
    };
    if group > LAST_GROUP || watts > MOST_WATTS {
        return Err(broken);
    }
    if lamp != n as u128 {
        return Err(PlanFault::Order(n as u32 + 1));
    }
    Ok(PlanLamp {
        group: group as u8,
        watts: watts as u32,
    })
}
