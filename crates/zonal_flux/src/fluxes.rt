//! The flux of a table.
ghost use Rattle.std.specs.Prelude.{◌+◌, ◌≤◌};
ghost use Rattle.zonal_flux.specs.Fluxes.{IsFlux, down, total, up};
ghost use Rattle.zonal_flux.specs.Steps.{IsSoFar};

use crate::means::mean;
use crate::zones::{ZONES_BELOW, zone_constant};
use fx_base::Span;
use photo_table::PhotoTable;
use series_enclose::TangentTable;

/// The luminous flux of a table of intensities, in ticks of a lumen: below the level plane, above it, and in all.
#[derive(Clone, Copy, Debug)]
pub struct Flux {
    pub down: Span,
    pub up: Span,
    pub total: Span,
}

/// The flux into the 18 zones from `first` on.
fn into_zones(table: &TangentTable, photo: &PhotoTable, first: u32) -> Span
    requires { first + 18 ≤ 36 }
    ensures { IsSoFar photo.now first 18 result }
{
    let mut flux = Span::whole(0);
    for i in 0..ZONES_BELOW {
        let k = first + i;
        let zone = mean(photo, k).mul(zone_constant(table, k));
        flux = flux.add(zone);
    }
    flux
}

/// The flux downward, upward and in all. Each of the three meets, at every depth, the zonal flux of every table with the planes and
/// gammas of `photo` whose intensities lie within its spans, and lies within that of `photo` itself moved outward by its greatest
/// candela by 2^20 and a thousandth of a lumen.
pub fn zonal(table: &TangentTable, photo: &PhotoTable) -> Flux
    ensures down { IsFlux down photo.now result.down }
    ensures up { IsFlux up photo.now result.up }
    ensures total { IsFlux total photo.now result.total }
{
    let down = into_zones(table, photo, 0);
    let up = into_zones(table, photo, ZONES_BELOW);
    Flux {
        down,
        up,
        total: down.add(up),
    }
}
