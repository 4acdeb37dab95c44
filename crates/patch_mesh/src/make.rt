//! All patches of a room.
ghost use Rattle.std.specs.Prelude.{◌≡◌, ◌≢◌, ◌<◌, ◌≤◌, ◌++◌, ◌*◌, ◌+◌, All, IfErr, IfOk, OnOk, length, map, vec_len};
ghost use Rattle.std.specs.List.{flat_map};
ghost use Rattle.room_layout.specs.Accepted.{IsAccepted};
ghost use Rattle.patch_mesh.specs.Bounds.{IsPatchIn, IsSurfaceIn, IsCutSurface, largest_room};
ghost use Rattle.patch_mesh.specs.Patches.{patches, tiling_of, tiling_patches, tilings};

use crate::patch::{MeshFault, Patch};
use crate::surface::{Surface, block_surfaces, room_surfaces};
use crate::tiling::{Tiling, put_patches, tiling_of};
use fx_base::Memory;
use room_layout::Room;
use std::alloc::Global;

/// The greatest number of patches.
const MOST_PATCHES: u64 = 2_048;

/// Puts each of six surfaces, cut so that no part is longer than `longest`, at the end of the list.
fn put_tilings(
    tilings: &mut Vec<Tiling>,
    longest: u32,
    surfaces: &[Surface; 6],
) -> Result<(), Memory>
    requires some { 1 ≤ longest }
    requires longest { longest ≤ 50000 }
    requires surfaces { All (IsSurfaceIn largest_room) surfaces.now }
    ensures { OnOk result (tilings.new.items ≡ tilings.old.items ++ map (tiling_of longest) surfaces.now) }
{
    for surface in surfaces {
        tilings.push(tiling_of(longest, *surface))?;
    }
    Ok(())
}

/// All surfaces of the room and its boxes, each cut into its parts.
#[tactic(auto, using(crate::proofs::Fits::blocks), unfolding(crate::specs::Patches::tilings, crate::specs::Surfaces::surfaces))]
fn tilings(alloc: Global, room: &Room) -> Result<Vec<Tiling>, Memory>
    requires { IsAccepted room.now }
    ensures tilings { IfOk result (λ v. v.items ≡ tilings room.now) }
    ensures few { IfOk result (λ v. vec_len v ≤ 2048) }
    ensures each { IfOk result (λ v. All IsCutSurface v.items) }
{
    let mut tilings = Vec::new(alloc);
    put_tilings(&mut tilings, room.patch, &room_surfaces(room))?;
    let blocks = room.blocks.as_slice();
    for block in blocks {
        put_tilings(&mut tilings, room.patch, &block_surfaces(block))?;
    }
    Ok(tilings)
}

/// How many patches there are.
fn patch_count(tilings: &[Tiling]) -> u64
    requires few { length tilings.now ≤ 2048 }
    requires each { All IsCutSurface tilings.now }
    ensures { result ≡ length (flat_map tiling_patches tilings.now) }
{
    let mut count = 0;
    for t in tilings {
        count += t.columns as u64 * t.rows as u64;
    }
    count
}

/// All patches of these surfaces.
fn all_patches(alloc: Global, tilings: &[Tiling], count: usize) -> Result<Vec<Patch>, Memory>
    requires each { All IsCutSurface tilings.now }
    ensures { IfOk result (λ v. v.items ≡ flat_map tiling_patches tilings.now) }
{
    let mut patches = Vec::with_capacity(alloc, count)?;
    for t in tilings {
        put_patches(&mut patches, t)?;
    }
    Ok(patches)
}

/// Cuts the surfaces of the room and of its boxes into patches whose edges are at most `room.patch` long: an edge of length l
/// into `k = ceil(l / patch)` parts, part i from `floor(i l / k)` to `floor((i + 1) l / k)`. Surfaces come in the order floor,
/// ceiling, walls at x = 0, at the far end of x, at y = 0 and at the far end of y, then box by box bottom, top and its sides
/// in that order; the patches of a surface go by its second axis, then by its first.
pub fn mesh(alloc: Global, room: &Room) -> Result<Vec<Patch>, MeshFault>
    requires { IsAccepted room.now }
    ensures patches { IfOk result (λ v. v.items ≡ patches room.now) }
    ensures few { IfOk result (λ v. vec_len v ≤ 2048) }
    ensures each { IfOk result (λ v. All (IsPatchIn room.now.size) v.items) }
    ensures reach { IfOk result (λ v. All (IsPatchIn largest_room) v.items) }
    ensures refused { IfErr result (λ e. e ≢ MeshFault.Memory → (2048 < length (patches room.now)) × (e ≡ MeshFault.TooManyPatches (length (patches room.now)))) }
{
    let tilings = tilings(alloc, room)?;
    let count = patch_count(&tilings);
    if count > MOST_PATCHES {
        return Err(MeshFault::TooManyPatches(count));
    }
    let patches = all_patches(alloc, &tilings, count as usize)?;
    Ok(patches)
}
