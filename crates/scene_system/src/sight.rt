//! Sight between places of a room, through the cells of its boxes.
ghost use Rattle.std.specs.Prelude.{◌≡◌, All, IfOk};
ghost use Rattle.room_layout.specs.Place.{place_of};
ghost use Rattle.sight_index.specs.Cells.{IsPointIn};
ghost use Rattle.sight_index.specs.Index.{size_of};
ghost use Rattle.sight_index.specs.Vantages.{IsVantage};
ghost use Rattle.sight_line.specs.Sight.{is_clear};
ghost use Rattle.scene_system.specs.Sight.{AreVantagesOf, IsIndexed};

use fx_base::Memory;
use room_layout::{Point, Room};
use sight_index::{BlockProbe, SightIndex, Vantage};
use std::alloc::Global;

/// The vantages of these points of the index's room, in their order.
pub fn vantages_of(
    alloc: Global,
    index: &SightIndex,
    points: &[Point],
) -> Result<Vec<Vantage>, Memory>
    requires { All (IsPointIn (size_of index.now)) points.now }
    ensures { IfOk result (λ vantages. AreVantagesOf index.now points.now vantages.items) }
{
    let mut vantages = Vec::new(alloc);
    for at in points {
        vantages.push(index.vantage(*at))?;
    }
    Ok(vantages)
}

/// Whether no box of the room stands between two of its places, of which only those near the way are asked. It stands apart so that
/// the test for a room without boxes is inlined.
#[inline(never)]
fn is_clear_of_boxes(room: &Room, index: &SightIndex, from: &Vantage, to: &Vantage) -> bool
    requires room { IsIndexed room.now index.now }
    requires from { IsVantage index.now from.now }
    requires to { IsVantage index.now to.now }
    ensures { result ≡ is_clear room.now (place_of from.now.at) (place_of to.now.at) }
{
    let mut probe = BlockProbe::new(room.blocks.as_slice(), from.at, to.at);
    index.blocked_between(from, to, &mut probe).is_none()
}

/// Whether no box of the room stands between two of its places.
pub fn is_clear(room: &Room, index: &SightIndex, from: &Vantage, to: &Vantage) -> bool
    requires room { IsIndexed room.now index.now }
    requires from { IsVantage index.now from.now }
    requires to { IsVantage index.now to.now }
    ensures { result ≡ is_clear room.now (place_of from.now.at) (place_of to.now.at) }
{
    // a room without boxes pays for no look-up
    if room.blocks.as_slice().is_empty() {
        return true;
    }
    is_clear_of_boxes(room, index, from, to)
}
