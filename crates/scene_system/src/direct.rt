//! The direct light of patches and of task points.
ghost use Rattle.std.specs.Prelude.{◌≡◌, All, IfOk, length};
ghost use Rattle.scene_system.specs.Parts.{AreLightsAt};
ghost use Rattle.scene_system.specs.Receivers.{faces_lit, places_lit, IsReceiver};
ghost use Rattle.scene_system.specs.Sources.{AreSources};

use crate::light::light_at;
use crate::receiver::{GRAIN, Receiver};
use crate::sources::Sources;
use fork_rows::{Gate, RowJob, fill_rows};
use fx_base::{Memory, Span};
use std::alloc::Global;
use std::thread::Threads;

/// Finds the direct light at a receiver.
#[derive(Drop)]
struct Lighting<'a> {
    sources: &'a Sources<'a>,
    receivers: &'a [Receiver],
}

impl<'a> RowJob<Span> for Lighting<'a> {
    ghost use Rattle.std.specs.Prelude.{◌<◌, All, length};
    ghost use Rattle.interval_system.specs.System.{IsDirectLight};
    ghost use Rattle.scene_system.specs.Parts.{IsDirectFor};
    ghost use Rattle.scene_system.specs.Receivers.{faces_lit, places_lit, IsReceiver};
    ghost use Rattle.scene_system.specs.Sources.{AreSources};

    ghost takes = { λ job i _. AreSources job.sources.now × All (IsReceiver job.sources.now.index.now) job.receivers.now × (i < length job.receivers.now) };

    ghost makes = { λ job i _ light. IsDirectFor job.sources.now.photos.now job.sources.now.room.now (places_lit job.receivers.now i) (faces_lit job.receivers.now i) light × IsDirectLight light };

    fn run(&self, index: usize, row: &mut Span) {
        let receiver = &self.receivers[index];
        *row = light_at(self.sources, &receiver.seen, receiver.face());
    }
}

/// Finds the direct light at each receiver.
fn fill_lights<R: Threads + Sync, G: Gate + Sync>(
    rt: &R,
    sources: &Sources,
    receivers: &[Receiver],
    lights: &mut [Span],
    gate: &G,
)
    requires sources { AreSources sources.now }
    requires receivers { All (IsReceiver sources.now.index.now) receivers.now }
    requires size { length lights.old ≡ length receivers.now }
    ensures { AreLightsAt sources.now.photos.now sources.now.room.now (places_lit receivers.now) (faces_lit receivers.now) (length receivers.now) lights.new }
{
    fill_rows(rt, lights, &Lighting { sources, receivers }, gate, GRAIN);
}

/// The direct light at each receiver, in their order.
pub fn lights_at<R: Threads + Sync, G: Gate + Sync>(
    rt: &R,
    alloc: Global,
    sources: &Sources,
    receivers: &[Receiver],
    gate: &G,
) -> Result<Vec<Span>, Memory>
    requires sources { AreSources sources.now }
    requires receivers { All (IsReceiver sources.now.index.now) receivers.now }
    ensures { IfOk result (λ lights. AreLightsAt sources.now.photos.now sources.now.room.now (places_lit receivers.now) (faces_lit receivers.now) (length receivers.now) lights.items) }
{
    let mut lights = vec![in alloc; Span::whole(0); receivers.len()]?;
    fill_lights(rt, sources, receivers, lights.as_mut_slice(), gate);
    Ok(lights)
}
