//! The points that the lamps of a room shine from.
ghost use Rattle.std.specs.Prelude.{IfOk};
ghost use Rattle.scene_system.specs.Positions.{ArePointsOf};
ghost use Rattle.scene_system.specs.Sight.{IsIndexed};

use crate::sight::vantages_of;
use direct_light::lamp_points;
use fx_base::Memory;
use room_layout::Room;
use sight_index::{SightIndex, Vantage};
use std::alloc::Global;

/// The points that one lamp shines from, row by row.
#[derive(Drop)]
pub struct LampPoints {
    pub points: Vec<Vantage>,
}

/// The points of each lamp, in the order of the lamps.
pub fn points_of_lamps(
    alloc: Global,
    room: &Room,
    index: &SightIndex,
) -> Result<Vec<LampPoints>, Memory>
    requires { IsIndexed room.now index.now }
    ensures { IfOk result (λ points. ArePointsOf room.now index.now points.items) }
{
    let mut all = Vec::new(alloc);
    let lamps = room.lamps.as_slice();
    for k in 0..lamps.len() {
        let places = lamp_points(alloc, &lamps[k])?;
        let points = vantages_of(alloc, index, places.as_slice())?;
        all.push(LampPoints { points })?;
    }
    Ok(all)
}
