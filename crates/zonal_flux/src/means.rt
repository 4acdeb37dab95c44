//! The mean intensity round the vertical in the middle of a zone.
ghost use Rattle.std.specs.Prelude.{◌≡◌, ◌+◌, ◌*◌, ◌^◌, ◌<◌, ◌≤◌, ◌≤ℤ◌, pos, length};
ghost use Rattle.photo_table.specs.Exact.{IsIntensityTable};
ghost use Rattle.photo_table.specs.Table.{plane};
ghost use Rattle.zonal_flux.specs.Steps.{IsInPlane, IsMean, IsSector};

use fx_base::{Bracket, MICROS_IN_TURN, Micro, Span};
use photo_table::PhotoTable;

/// The millionths of a degree from the middle of one zone to that of the next.
const ZONE: i64 = 5_000_000;

/// The angle of plane k of the table, in millionths of a degree.
fn angle(photo: &PhotoTable, k: usize) -> u64
    requires { k < length photo.now.planes }
    ensures at { result ≡ plane photo.now k }
    ensures below { result < 360000000 }
{
    photo.plane_angle(k).0 as u64
}

/// The angle of plane i, which may be the one after the last: there comes the first one a turn later.
fn angle_on(photo: &PhotoTable, i: usize) -> u64
    requires { i ≤ length photo.now.planes }
    ensures at { result ≡ plane photo.now i }
    ensures kept { IsIntensityTable photo.now }
{
    if i < photo.planes() {
        angle(photo, i)
    } else {
        angle(photo, 0) + MICROS_IN_TURN as u64
    }
}

/// The gamma in the middle of zone k.
fn middle(k: u32) -> Micro
    requires { k < 36 }
    ensures { result.0 ≡ pos (k * 5000000 + 2500000) }
{
    Micro(k as i64 * ZONE + ZONE / 2)
}

/// The span as it is. Its type keeps its ends in order, and tells so when it is asked for one of them.
fn in_order(span: Span) -> Span
    ensures same { result ≡ span }
    ensures order { span.lo ≤ℤ span.hi }
{
    let _ = span.lo();
    span
}

/// The intensity of plane i in the middle of zone k.
fn in_plane(photo: &PhotoTable, k: u32, i: usize) -> Span
    requires zone { k < 36 }
    requires plane { i ≤ length photo.now.planes }
    ensures { IsInPlane photo.now k i result }
{
    let c = photo.plane_angle(i % photo.planes());
    let gamma = middle(k);
    let hull = photo.hull(
        Bracket { lo: c, hi: c },
        Bracket {
            lo: gamma,
            hi: gamma,
        },
    );
    in_order(hull)
}

/// The sector between plane i and the next one: the sum of their intensities in the middle of zone k, times its width in millionths of
/// a degree.
fn sector(photo: &PhotoTable, k: u32, i: usize) -> Span
    requires zone { k < 36 }
    requires plane { i < length photo.now.planes }
    requires next { i + 1 < 2 ^ 64 }
    ensures { IsSector photo.now k i result }
{
    let width = angle_on(photo, i + 1) - angle_on(photo, i);
    let both = in_plane(photo, k, i).add(in_plane(photo, k, i + 1));
    both.scale_div(width, 1)
}

/// The mean intensity round the vertical in the middle of zone k, where each sector counts for its part of the turn with the mean of
/// its two planes. The sectors are summed first and divided once.
pub fn mean(photo: &PhotoTable, k: u32) -> Span
    requires { k < 36 }
    ensures mean { IsMean photo.now k result }
    ensures kept { IsIntensityTable photo.now }
{
    let mut sectors = Span::whole(0);
    for i in 0..photo.planes() {
        sectors = sectors.add(sector(photo, k, i));
    }
    sectors.scale_div(1, 2 * MICROS_IN_TURN as u64)
}
