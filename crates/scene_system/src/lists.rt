//! Rows of weights for which the memory is taken before the first weight is put into them.
ghost use Rattle.std.specs.Prelude.{◌≡◌, All, IfOk, length, map, vec_items};
ghost use Rattle.interval_system.specs.System.{IsRow};
ghost use Rattle.scene_system.specs.Reserved.{IsReserved};

use fx_base::{Memory, Weight};
use interval_system::Row;
use std::alloc::Global;

/// So many lists, each with room for as many weights.
pub fn reserved_lists(alloc: Global, count: usize, size: usize) -> Result<Vec<Vec<Weight>>, Memory>
    ensures count { IfOk result (λ lists. length lists.items ≡ count) }
    ensures room { IfOk result (λ lists. All (IsReserved size) lists.items) }
{
    let mut lists = Vec::with_capacity(alloc, count)?;
    for _ in 0..count {
        lists.push(Vec::with_capacity(alloc, size)?)?;
    }
    Ok(lists)
}

/// The rows of these weights, in order, in a list that has room for them.
pub fn rows_of(lists: Vec<Vec<Weight>>, room: Vec<Row>) -> Vec<Row>
    requires room { IsReserved (length lists.items) room }
    requires rows { All IsRow (map vec_items lists.items) }
    ensures { result.items ≡ map vec_items lists.items }
{
    let mut rows = room;
    for list in lists {
        rows.push_reserved(Row::from_weights(list));
    }
    rows
}
