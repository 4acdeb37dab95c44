//! The boxes of a layout.
ghost use Rattle.std.specs.Prelude.{◌≡◌, ◌≢◌, ◌≤◌, ◌<◌, map, length, Result, Ok, Err, IfOk, IfErr};
ghost use Rattle.toml.specs.View.{view, table_view};
ghost use Rattle.room_layout.specs.Layout.{block_of, blocks_from, blocks_of};

use crate::check::{elements, member, optional_number, required_numbers, table_with};
use crate::parts::Shell;
use crate::sizes::{fits_in, is_above, size_from};
use crate::{Block, Blocks, Key, RoomFault, Spot};
use std::alloc::Global;
use toml::{Table, Value};

/// The boxes of a document, in such a room.
#[tactic(auto, unfolding(crate::specs::Layout::blocks_of))]
pub fn read_blocks(alloc: Global, document: &Table, room: Shell) -> Result<Blocks, RoomFault>
    ensures given { IfOk result (λ blocks. blocks_of room (table_view document.now) ≡ Ok blocks) }
    ensures refused { IfErr result (λ e. e ≢ RoomFault.Memory → blocks_of room (table_view document.now) ≡ Err e) }
{
    let mut blocks = Vec::new(alloc);
    if let Some(value) = member(document, "box") {
        let boxes = elements(value, 64, Spot::at(Key::Box, 0))?;
        blocks = read_each(alloc, boxes, room)?;
    }
    Ok(Blocks::from_vec(blocks))
}

/// Each box in turn.
fn read_each(alloc: Global, boxes: &[Value], room: Shell) -> Result<Vec<Block>, RoomFault>
    requires { length boxes.now ≤ 64 }
    ensures given { IfOk result (λ blocks. blocks_from room 0 (map view boxes.now) ≡ Ok blocks.items) }
    ensures refused { IfErr result (λ e. e ≢ RoomFault.Memory → blocks_from room 0 (map view boxes.now) ≡ Err e) }
{
    let mut blocks = Vec::new(alloc);
    for i in 0..boxes.len() {
        let block = read_block(&boxes[i], i as u32, room)?;
        blocks.push(block)?;
    }
    Ok(blocks)
}

/// The box at this index.
#[tactic(auto, unfolding(crate::specs::Layout::block_of))]
fn read_block(value: &Value, index: u32, room: Shell) -> Result<Block, RoomFault>
    ensures { result ≡ block_of room index (view value.now) }
{
    let table = table_with(value, &["lo", "hi", "reflect"], Spot::at(Key::Box, index))?;
    let longest = room.version.longest_edge();
    let lo = required_numbers::<3>(table, "lo", 0, longest, Spot::at(Key::BoxLo, index))?;
    let hi = required_numbers::<3>(table, "hi", 0, longest, Spot::at(Key::BoxHi, index))?;
    let reflect = optional_number(
        table,
        "reflect",
        0,
        0,
        950,
        Spot::at(Key::BoxReflect, index),
    )?;
    let block = Block {
        lo: size_from(lo),
        hi: size_from(hi),
        reflect: reflect as u16,
    };
    if !is_above(block.hi, block.lo) {
        return Err(RoomFault::Range(Spot::at(Key::BoxHi, index)));
    }
    if !fits_in(block.hi, room.size) {
        return Err(RoomFault::Outside(Spot::at(Key::Box, index)));
    }
    Ok(block)
}
