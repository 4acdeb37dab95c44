//! Whole files, read: what each answers. An intensity is `value * conversion factor * flux / 1000`: 100 cd per 1000 lm at 2000 lm are
//! 200 cd.
mod directions;
mod endings;
mod faults;
mod sets;

use crate::read_ldt;
use photo_table::{PhotoTable, summary_text};
use std::alloc::Global;
use std::test::Fail;

/// The table of a file.
fn table_of(alloc: Global, bytes: &[u8]) -> Result<PhotoTable, Fail> {
    let asked = if bytes.len() <= 16_777_216 {
        Ok(())
    } else {
        Err("beyond what may be asked")
    };
    asked?;
    match read_ldt(alloc, bytes, 1) {
        Ok(table) => Ok(table),
        Err(_) => Err(Fail::from("refused")),
    }
}

/// The line that the file's table gives, or its fault.
fn answer(alloc: Global, bytes: &[u8], lamp_set: u32) -> Result<String, Fail> {
    let asked = if 1 <= lamp_set && lamp_set <= 20 && bytes.len() <= 16_777_216 {
        Ok(())
    } else {
        Err("beyond what may be asked")
    };
    asked?;
    match read_ldt(alloc, bytes, lamp_set) {
        Ok(table) => Ok(summary_text(alloc, &table).ok().ok_or("memory")?),
        Err(fault) => Ok(fault.text(alloc)?),
    }
}
