//! The line that sums up a table.
ghost use Rattle.std.specs.Prelude.{IfOk, string_bytes};
ghost use Rattle.photo_table.specs.Kept.{IsSummary};

use crate::table::PhotoTable;
use decimal_text::cents_text;
use fx_base::{Memory, ceil_cent, floor_cent};
use std::alloc::Global;

/// The line that says how many planes and gammas there are and, in hundredths of a candela, the greatest lower end rounded down
/// and the greatest upper end rounded up.
pub fn summary_text(alloc: Global, table: &PhotoTable) -> Result<String, Memory>
    ensures { IfOk result (λ s. IsSummary table.now (string_bytes s)) }
{
    let planes = table.planes();
    let gammas = table.gammas();
    let low = cents_text(alloc, floor_cent(table.greatest_lower()))?;
    let high = cents_text(alloc, ceil_cent(table.greatest()))?;
    let text = format!(in alloc; "planes {planes} gammas {gammas} greatest {low} {high}\n")?;
    Ok(text)
}
