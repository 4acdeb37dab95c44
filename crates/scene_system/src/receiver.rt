//! What is lit: the patches of a room, and its task points.
ghost use Rattle.std.specs.Prelude.{◌≡◌, true, All, IfOk, length};
ghost use Rattle.room_layout.specs.declared.geometry.Face.TheVariants.{Up};
ghost use Rattle.sight_index.specs.Index.{size_of};
ghost use Rattle.patch_mesh.specs.Bounds.{IsPatchIn, IsTaskPointIn, largest_room};
ghost use Rattle.form_factor.specs.Weights.{IsCoefficient};
ghost use Rattle.scene_system.specs.Receivers.{centres, face_lit, facings, place_lit, task_places, AreReceiversAt, IsLitAt};

use form_factor::{factor, point_factor};
use fx_base::{Memory, Weight};
use patch_mesh::{Patch, TaskPoint};
use room_layout::Face;
use sight_index::{SightIndex, Vantage};
use std::alloc::Global;

/// The most receivers that are served one after another: a thread costs more than the work on so few.
pub const GRAIN: usize = 64;

/// What is lit at a place: a patch round it, or the point itself, which faces up.
#[derive(Clone, Copy)]
pub enum Lit {
    Patch(Patch),
    Point,
}

/// A place where light is received.
#[derive(Clone, Copy)]
pub struct Receiver {
    pub seen: Vantage,
    pub lit: Lit,
}

impl Receiver {
    /// Where the lit plane faces.
    pub fn face(&self) -> Face
        ensures { result ≡ face_lit self.now }
    {
        match self.lit {
            Lit::Patch(patch) => patch.face,
            Lit::Point => Face::Up,
        }
    }
}

/// The weight with which patch `b` lights a receiver over a clear way.
pub fn open_weight(receiver: &Receiver, b: &Patch) -> Weight
    requires receiver { IsLitAt receiver.now.seen.at receiver.now.lit }
    requires b { IsPatchIn largest_room b.now }
    ensures { IsCoefficient (place_lit receiver.now) (face_lit receiver.now) b.now true result }
{
    match receiver.lit {
        Lit::Patch(patch) => factor(&patch, b, true),
        Lit::Point => point_factor(receiver.seen.at, b, true),
    }
}

/// The patches as what is lit, in their order.
pub fn lit_patches(
    alloc: Global,
    index: &SightIndex,
    patches: &[Patch],
) -> Result<Vec<Receiver>, Memory>
    requires inside { All (IsPatchIn (size_of index.now)) patches.now }
    requires within { All (IsPatchIn largest_room) patches.now }
    ensures { IfOk result (λ lit. AreReceiversAt index.now (centres patches.now) (facings patches.now) (length patches.now) lit.items) }
{
    let mut all = Vec::new(alloc);
    for i in 0..patches.len() {
        let seen = index.vantage(patches[i].centre);
        let lit = Lit::Patch(patches[i]);
        all.push(Receiver { seen, lit })?;
    }
    Ok(all)
}

/// The task points as what is lit, in their order.
pub fn lit_points(
    alloc: Global,
    index: &SightIndex,
    points: &[TaskPoint],
) -> Result<Vec<Receiver>, Memory>
    requires inside { All (IsTaskPointIn (size_of index.now)) points.now }
    requires within { All (IsTaskPointIn largest_room) points.now }
    ensures { IfOk result (λ lit. AreReceiversAt index.now (task_places points.now) (λ _. Up) (length points.now) lit.items) }
{
    let mut all = Vec::new(alloc);
    for g in 0..points.len() {
        let seen = index.vantage(points[g].at);
        let lit = Lit::Point;
        all.push(Receiver { seen, lit })?;
    }
    Ok(all)
}
