//! The weights with which patches light one of them or a task point.
ghost use Rattle.std.specs.Prelude.{◌≡◌, ◌<◌, All, IfOk, length, map, vec_items};
ghost use Rattle.scene_system.specs.Assembled.{IsWeightAt};
ghost use Rattle.scene_system.specs.Parts.{AreRowsAt, IsRowAt};
ghost use Rattle.scene_system.specs.Receivers.{face_lit, faces_lit, place_lit, places_lit, IsReceiver};
ghost use Rattle.scene_system.specs.Reserved.{IsReserved};
ghost use Rattle.scene_system.specs.Sources.{AreSources};

use crate::lists::{reserved_lists, rows_of};
use crate::receiver::{GRAIN, Receiver, open_weight};
use crate::sight::is_clear;
use crate::sources::Sources;
use fork_rows::{Gate, RowJob, fill_rows};
use fx_base::{Memory, Weight};
use interval_system::Row;
use std::alloc::Global;
use std::thread::Threads;

/// The weight with which patch j lights a receiver. Sight is asked only where something is handed on.
fn weight_at(sources: &Sources, receiver: &Receiver, j: usize) -> Weight
    requires sources { AreSources sources.now }
    requires receiver { IsReceiver sources.now.index.now receiver.now }
    requires j { j < length sources.now.patches.now }
    ensures { IsWeightAt sources.now.room.now (place_lit receiver.now) (face_lit receiver.now) j result }
{
    let open = open_weight(receiver, &sources.patches[j]);
    if open.hi == 0 {
        return open;
    }
    let there = &sources.lit[j].seen;
    if is_clear(sources.room, sources.index, &receiver.seen, there) {
        return open;
    }
    Weight::NONE
}

/// Puts the weights with which the patches light a receiver into an empty list, which has room for them.
fn put_weights(sources: &Sources, receiver: &Receiver, row: &mut Vec<Weight>)
    requires sources { AreSources sources.now }
    requires receiver { IsReceiver sources.now.index.now receiver.now }
    requires room { IsReserved (length sources.now.patches.now) row.old }
    ensures { IsRowAt sources.now.room.now (place_lit receiver.now) (face_lit receiver.now) row.new.items }
{
    for j in 0..sources.patches.len() {
        row.push_reserved(weight_at(sources, receiver, j));
    }
}

/// Puts the weights of a receiver into its list.
#[derive(Drop)]
struct Weighing<'a> {
    sources: &'a Sources<'a>,
    receivers: &'a [Receiver],
}

impl<'a> RowJob<Vec<Weight>> for Weighing<'a> {
    ghost use Rattle.std.specs.Prelude.{◌<◌, All, length};
    ghost use Rattle.scene_system.specs.Parts.{IsRowAt};
    ghost use Rattle.scene_system.specs.Receivers.{faces_lit, places_lit, IsReceiver};
    ghost use Rattle.scene_system.specs.Reserved.{IsReserved};
    ghost use Rattle.scene_system.specs.Sources.{AreSources};

    ghost takes = { λ job i row. AreSources job.sources.now × All (IsReceiver job.sources.now.index.now) job.receivers.now × (i < length job.receivers.now) × IsReserved (length job.sources.now.patches.now) row };

    ghost makes = { λ job i _ row. IsRowAt job.sources.now.room.now (places_lit job.receivers.now i) (faces_lit job.receivers.now i) row.items };

    fn run(&self, index: usize, row: &mut Vec<Weight>) {
        put_weights(self.sources, &self.receivers[index], row);
    }
}

/// Puts the weights of each receiver into its list.
fn fill_lists<R: Threads + Sync, G: Gate + Sync>(
    rt: &R,
    sources: &Sources,
    receivers: &[Receiver],
    lists: &mut [Vec<Weight>],
    gate: &G,
)
    requires sources { AreSources sources.now }
    requires receivers { All (IsReceiver sources.now.index.now) receivers.now }
    requires size { length lists.old ≡ length receivers.now }
    requires room { All (IsReserved (length sources.now.patches.now)) lists.old }
    ensures { AreRowsAt sources.now.room.now (places_lit receivers.now) (faces_lit receivers.now) (length receivers.now) (map vec_items lists.new) }
{
    fill_rows(rt, lists, &Weighing { sources, receivers }, gate, GRAIN);
}

/// The weights of all patches at each receiver, in their order.
pub fn rows_at<R: Threads + Sync, G: Gate + Sync>(
    rt: &R,
    alloc: Global,
    sources: &Sources,
    receivers: &[Receiver],
    gate: &G,
) -> Result<Vec<Row>, Memory>
    requires sources { AreSources sources.now }
    requires receivers { All (IsReceiver sources.now.index.now) receivers.now }
    ensures { IfOk result (λ rows. AreRowsAt sources.now.room.now (places_lit receivers.now) (faces_lit receivers.now) (length receivers.now) rows.items) }
{
    let mut lists = reserved_lists(alloc, receivers.len(), sources.patches.len())?;
    let rows = Vec::with_capacity(alloc, receivers.len())?;
    fill_lists(rt, sources, receivers, lists.as_mut_slice(), gate);
    Ok(rows_of(lists, rows))
}
