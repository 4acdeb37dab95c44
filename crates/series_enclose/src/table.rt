//! The table of sines and cosines.
ghost use Rattle.std.specs.Prelude.{◌≡◌, ◌*◌, ◌<◌, length, vec_len, IfOk};
ghost use Rattle.series_enclose.specs.Enclosed.{IsCosine, IsRow, IsSine};
ghost use Rattle.series_enclose.specs.Table.{IsTable};

use crate::angle::{cos_span, sin_span};
use fx_base::{Memory, Micro, Span};
use std::alloc::Global;

#[derive(Clone, Copy)]
struct SineRow {
    sin: Span,
    cos: Span,
}

fn row_at(k: usize) -> SineRow
    requires { k < 2881 }
    ensures { IsRow k result.sin result.cos }
{
    let angle = Micro(k as i64 * TangentTable::STEP as i64);
    SineRow {
        sin: sin_span(angle),
        cos: cos_span(angle),
    }
}

fn all_rows(alloc: Global) -> Result<Vec<SineRow>, Memory>
    ensures size { IfOk result (λ rows. vec_len rows ≡ 2881) }
    ensures sound { IfOk result (λ rows. IsTable rows.items) }
{
    let mut rows: Vec<SineRow> = Vec::new(alloc);
    for k in 0..TangentTable::ROWS {
        rows.push(row_at(k))?;
    }
    Ok(rows)
}

/// The sines and cosines of the multiples of 15,625 millionths of a degree, from 0 to 45 degrees.
#[derive(Drop)]
pub struct TangentTable {
    rows: Vec<SineRow>,
    ghost size: { length rows.items ≡ 2881 },
    ghost sound: { IsTable rows.items },
}

impl TangentTable {
    /// How many rows a table has: one for each 64th of a degree from 0 to 45.
    pub const ROWS: usize = 2_881;

    /// The millionths of a degree from one row to the next.
    pub const STEP: u32 = 15_625;

    /// Calculates all rows. Memory: none was left for them.
    pub fn build(alloc: Global) -> Result<TangentTable, Memory> {
        let rows = all_rows(alloc)?;
        Ok(TangentTable { rows })
    }

    /// The sine of row's angle, row times 15,625 millionths of a degree.
    pub fn sin(&self, row: usize) -> Span
        requires { row < 2881 }
        ensures { IsSine (row * 15625) result }
    {
        self.rows[row].sin
    }

    /// The cosine of that angle.
    pub fn cos(&self, row: usize) -> Span
        requires { row < 2881 }
        ensures { IsCosine (row * 15625) result }
    {
        self.rows[row].cos
    }
}
