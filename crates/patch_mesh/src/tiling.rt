//! A surface cut into parts, and its patches.
ghost use Rattle.std.specs.Prelude.{◌≡◌, ◌<◌, ◌≤◌, ◌++◌, OnOk, map};
ghost use Rattle.patch_mesh.specs.Bounds.{IsSurfaceIn, largest_room};
ghost use Rattle.patch_mesh.specs.Cuts.{below};
ghost use Rattle.patch_mesh.specs.Patches.{patch_at, tiling_of, tiling_patches};

use crate::cut::{cut_at, parts_of};
use crate::patch::Patch;
use crate::surface::{Surface, first_edge, point_along, second_edge};
use fx_base::Memory;

/// A surface, and in how many parts it is cut along its first and its second axis.
#[derive(Clone, Copy, Debug, PartialEq, Eq)]
pub struct Tiling {
    pub surface: Surface,
    pub columns: u32,
    pub rows: u32,
}

/// The surface cut so that no part is longer than `longest`, in mm.
#[tactic(auto, using(crate::proofs::CutLaws::edges), unfolding(crate::specs::Patches::tiling_of))]
pub fn tiling_of(longest: u32, surface: Surface) -> Tiling
    requires some { 1 ≤ longest }
    requires longest { longest ≤ 50000 }
    requires surface { IsSurfaceIn largest_room surface }
    ensures { result ≡ tiling_of longest surface }
{
    Tiling {
        surface,
        columns: parts_of(longest, first_edge(&surface)),
        rows: parts_of(longest, second_edge(&surface)),
    }
}

/// The patch in column `i` of row `j`.
#[tactic(auto, using(crate::proofs::CutLaws::cuts), unfolding(crate::specs::Patches::patch_at))]
fn patch_at(t: &Tiling, j: u32, i: u32) -> Patch
    requires surface { IsSurfaceIn largest_room t.now.surface }
    requires row { j < t.now.rows }
    requires column { i < t.now.columns }
    ensures { result ≡ patch_at t.now j i }
{
    let (columns, rows) = (t.columns, t.rows);
    let (across, up) = (first_edge(&t.surface), second_edge(&t.surface));
    let left = cut_at(across, columns, i);
    let right = cut_at(across, columns, i + 1);
    let near = cut_at(up, rows, j);
    let far = cut_at(up, rows, j + 1);
    Patch {
        centre: point_along(&t.surface, left + right, near + far),
        face: t.surface.face,
        area: (right - left) as u64 * (far - near) as u64,
        reflect: t.surface.reflect,
    }
}

/// Puts the patches of row `j` at the end of the list.
fn put_row(patches: &mut Vec<Patch>, t: &Tiling, j: u32) -> Result<(), Memory>
    requires surface { IsSurfaceIn largest_room t.now.surface }
    requires row { j < t.now.rows }
    ensures { OnOk result (patches.new.items ≡ patches.old.items ++ map (patch_at t.now j) (below t.now.columns)) }
{
    for i in 0..t.columns {
        patches.push(patch_at(t, j, i))?;
    }
    Ok(())
}

/// Puts the patches of the surface at the end of the list.
pub fn put_patches(patches: &mut Vec<Patch>, t: &Tiling) -> Result<(), Memory>
    requires surface { IsSurfaceIn largest_room t.now.surface }
    ensures { OnOk result (patches.new.items ≡ patches.old.items ++ tiling_patches t.now) }
{
    for j in 0..t.rows {
        put_row(patches, t, j)?;
    }
    Ok(())
}
