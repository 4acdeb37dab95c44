//! The bounds in one record of a claim.
ghost use Rattle.std.specs.Prelude.{◌≡◌, ◌<◌, IfErr, IfOk, Ok, Err, option_map};
ghost use Rattle.csv.specs.Records.{fields_of};
ghost use Rattle.fx_base.specs.Bound.{IsEnd};
ghost use Rattle.claim_file.specs.Claims.{entry_in, number_in};
ghost use Rattle.claim_file.specs.Numbers.{capped};

use crate::fault::ClaimFault;
use crate::field::{GREATEST_END, number};
use csv::ByteRecord;
use fx_base::{Tick, tick_of};

/// The bounds of one patch.
#[derive(Clone, Copy)]
pub(crate) struct Entry {
    pub(crate) lower: Tick,
    pub(crate) upper: Tick,
}

/// The number in one field of a record, counted from 0, and 2^90 + 1 in place of a greater one. None where there is no such field or it
/// isn't written in decimal digits, without a zero before another digit.
pub fn number_in(row: &ByteRecord, i: usize) -> Option<u128>
    ensures { result ≡ option_map capped (number_in (fields_of row.now) i) }
{
    match row.get(i) {
        Some(field) => number(field),
        None => None,
    }
}

/// The bounds in the record of patch n, counted from 0.
#[tactic(auto, unfolding(crate::specs::Claims::entry_in))]
pub(crate) fn read_entry(row: &ByteRecord, n: usize) -> Result<Entry, ClaimFault>
    requires few { n < 2048 }
    ensures read { result ≡ entry_in n (fields_of row.now) }
    ensures lower_end { IfOk result (λ entry. IsEnd entry.lower) }
    ensures upper_end { IfOk result (λ entry. IsEnd entry.upper) }
{
    let broken = ClaimFault::Record(n as u32 + 1);
    if row.len() != 3 {
        return Err(broken);
    }
    let (Some(patch), Some(lower), Some(upper)) = (
        number_in(row, 0),
        number_in(row, 1),
        number_in(row, 2),
    ) else {
        return Err(broken);
    };
    if lower > GREATEST_END || upper > GREATEST_END {
        return Err(broken);
    }
    if patch != n as u128 {
        return Err(ClaimFault::Order(n as u32 + 1));
    }
    Ok(Entry {
        lower: tick_of(lower),
        upper: tick_of(upper),
    })
}
