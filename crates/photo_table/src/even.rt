//! The table of one intensity in all directions.
ghost use Rattle.std.specs.Prelude.{◌≡◌, ◌≤◌, IfOk};
ghost use Rattle.photo_table.specs.Kept.{even_table};
ghost use Rattle.photo_table.specs.Grid.{table_in};

use crate::grid::Grid;
use fx_base::{Micro, Span};
use std::alloc::{AllocError, Global};

/// One plane, and the same span at gammas 0 and 180.
pub fn even_grid(alloc: Global, candela: u32) -> Result<Grid, AllocError>
    requires { candela ≤ 10000000 }
    ensures { IfOk result (λ g. table_in g ≡ even_table candela) }
{
    let span = Span::whole(candela as u64);
    let planes = vec![in alloc; Micro(0)]?;
    let gammas = vec![in alloc; Micro(0), Micro(180_000_000)]?;
    let values = vec![in alloc; span, span]?;
    Ok(Grid {
        planes,
        gammas,
        values,
    })
}
